//! Trials of names, networks and the market file, over the public calls of `mk_net` and `mk_file`: a crate of its own, since a crate with
//! tests is proved twice.
#![tactic(auto)]

#[cfg(test)]
mod drafts;
#[cfg(test)]
mod files;
#[cfg(test)]
mod names;
#[cfg(test)]
mod networks;
