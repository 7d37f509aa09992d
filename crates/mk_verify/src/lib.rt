//! What an auditor holds against one line of a transcript: whether the reply to a command is
//! allowed, by enclosures of the exact numbers.
#![tactic(auto)]

mod each;
mod judging;
mod numbers;
mod plain;
mod quoting;
mod refused;
mod settlement;

pub use judging::judge;
