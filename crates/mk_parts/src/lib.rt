//! The parts of which a market is made: its engines at its opening, and all that one question more
//! changes.
#![tactic(auto)]

mod adding;
mod opening;

pub use adding::{Regrown, parts_with};
pub use opening::weighed;
