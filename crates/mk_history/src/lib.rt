//! The accepted changes of a market, in little room: one list of small changes, and side lists of
//! what they name.
#![tactic(auto)]

mod change;
mod entry;
mod history;
mod reading;

pub use entry::{AddedQuestion, Entry, Payout};
pub use history::{History, Limits};
