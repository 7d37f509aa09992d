//! Trials of trees and flows, and of a plain walk over all states, over their public calls: a crate
//! of its own, since a crate with tests is proved twice.
#![tactic(auto)]

#[cfg(test)]
mod chain;
#[cfg(test)]
mod flows;
#[cfg(test)]
mod trees;
#[cfg(test)]
mod walks;
