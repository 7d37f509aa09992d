//! Trials of tables over their public calls: a crate of its own, since a crate with tests is proved
//! twice.
#![tactic(auto)]

#[cfg(test)]
mod tables;
