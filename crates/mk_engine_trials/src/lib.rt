//! Trials of engines over their public calls: a crate of its own, since a crate with tests is proved
//! twice.
#![tactic(auto)]

#[cfg(test)]
mod both;
#[cfg(test)]
mod edits;
#[cfg(test)]
mod engines;
#[cfg(test)]
mod weather;
