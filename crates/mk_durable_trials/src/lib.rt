//! Trials of a market that is kept, over the public calls of `mk_durable`: a crate of its own,
//! since a crate with tests is proved twice. What a trial owns it lets go by a call of `drop`: the
//! end of its scope would take far longer to prove.
#![tactic(auto)]

#[cfg(test)]
mod crashes;
