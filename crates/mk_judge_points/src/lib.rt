//! What an auditor holds against printed points and bits: judges over enclosures of factors.
#![tactic(auto)]

mod bits;
mod cash;
mod loss;
mod power;

pub use bits::{judge_covered, judge_most};
pub use cash::judge_cash;
pub use loss::judge_bound;
