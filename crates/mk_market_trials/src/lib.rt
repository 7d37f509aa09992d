//! Trials of a market and its parts, over the public calls of `mk_market`, `mk_assets` and `mk_session`: a crate of its own, since
//! a crate with tests is proved twice.
#![tactic(auto)]

#[cfg(test)]
mod assets;
#[cfg(test)]
mod coin;
#[cfg(test)]
mod parts;
#[cfg(test)]
mod runs;
#[cfg(test)]
mod tallies;
