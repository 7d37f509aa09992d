//! The counts of a run: its replies, how many of them are trades and how many refusals.
#![tactic(auto)]

mod counting;
mod counts;

pub use counting::tally;
pub use counts::{Tally, TallyFault};
