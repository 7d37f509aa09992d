//! Engines, users' assets and payments by rule of a history that is there. A network that has grown
//! gets its engines by these calls.
#![tactic(auto)]

mod by_rule;
mod engines;
mod holdings;
mod homes;
mod rows;
mod till;

pub use by_rule::{outcome_of, pay_by_rule, units_at};
pub use engines::engine_after;
pub use holdings::assets_of_each;
pub use rows::{know_all, rows_after};
pub use till::Till;
