//! Trials of numbers: enclosures, cells and semirings, over the public calls of their crates: a
//! crate of its own, since a crate with tests is proved twice.
#![tactic(auto)]

#[cfg(test)]
mod cells;
#[cfg(test)]
mod enclosures;
#[cfg(test)]
mod scaled;
#[cfg(test)]
mod semirings;
