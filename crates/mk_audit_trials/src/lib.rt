//! Trials of the audit of transcripts, over the public calls of `mk_audit` and `mk_session`: a
//! crate of its own, since a crate with tests is proved twice.
#![tactic(auto)]

#[cfg(test)]
mod audits;
