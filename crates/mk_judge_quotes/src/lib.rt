//! What an auditor holds against limits and bounds that a reply tells, and against its trades: by
//! enclosures of the exact numbers.
#![tactic(auto)]

mod edits;
mod spreads;
mod told;

pub use edits::{judge_edit, judge_told_limits};
pub use spreads::{judge_spread, judge_told_bounds};
pub use told::{beyond_told, bounds_told, limits_told, outside_told};
