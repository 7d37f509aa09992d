//! Trials of cash and quotes, over the public calls of their crates: a crate of its own, since a
//! crate with tests is proved twice.
#![tactic(auto)]

#[cfg(test)]
mod cash;
#[cfg(test)]
mod quotes;
#[cfg(test)]
mod spreads;
