//! How the payments of a settlement are made, told, listed and entered.
#![tactic(auto)]

mod payments;

pub use payments::{enter, list, pay_all_by_rule, tell};
