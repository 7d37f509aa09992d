//! Trials of the texts of commands and replies and of the sample market, over the public calls of `mk_text`, `mk_command`, `mk_reply`
//! and `mk_make`: a crate of its own, since a crate with tests is proved twice.
#![tactic(auto)]

#[cfg(test)]
mod commands;
#[cfg(test)]
mod replies;
#[cfg(test)]
mod samples;
#[cfg(test)]
mod texts;
