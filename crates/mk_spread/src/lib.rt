//! Whole distributions in the exact market: a price for each value of a variable at once. Nothing here runs in the market;
//! the definitions in `specs/` are what its answers are measured against, and the functions below state laws of them.
#![tactic(auto)]

mod examples;
mod existing;
mod told;
mod trading;

pub use examples::{example_bounds, example_gate};
pub use existing::{
    bounds_agree, bounds_exist, bounds_judge, fair_list_is_inside, inside_each_is_decided,
    right_bounds_exist, right_bounds_fit, value_sides_exist,
};
pub use told::{position_exists, position_fits, prices_exist, prices_fit, prices_make_one};
pub use trading::{fair_list_fits, fair_list_is_ratio, fair_list_is_safe, spread_moves};
