//! What the engines' beliefs are in the exact market. Nothing here runs in the market: the functions below state laws of
//! meanings that an engine may stand for: that of all weights, that of one user's gains, and that of the initial weights.
#![tactic(auto)]

mod absent;
mod growth;
mod minima;
mod rows;
mod sizes;
mod totals;

pub use absent::{belief_is_absent, others_are_absent};
pub use growth::{gains_grow, newcomer_has_none, opening_is_rows, weights_grow};
pub use minima::{all_is_least, belief_is_least, others_are_least, target_is_least};
pub use rows::{rows_are_few, rows_are_least, rows_are_small, rows_grow, rows_open};
pub use sizes::{factors_are_few, gains_are_small, weights_are_small, whole_is_sum};
pub use totals::{belief_is_total, cases_are_all, others_are_total, target_is_total};
