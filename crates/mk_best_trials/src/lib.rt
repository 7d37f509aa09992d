//! Trials of chances and best states, over their public calls: a crate of its own, since a crate
//! with tests is proved twice.
#![tactic(auto)]

#[cfg(test)]
mod chances;
#[cfg(test)]
mod peaks;
