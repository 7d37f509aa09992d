//! The exact market: one table over all states, and one factor per user and state. Nothing here runs in the market;
//! the definitions in `specs/` are what its answers are measured against, and the functions below state laws of them.
#![tactic(auto)]

mod changes;
mod examples;
mod existing;
mod opening;
mod settling;
mod trading;

pub use changes::{fair_pair_is_safe, proper_next, sound_next, state_remains};
pub use examples::{
    example_cash, example_condition, example_limits, example_networks, example_prices,
    example_safety, example_sharp, example_trade, example_traders, example_weights, example_zeros,
};
pub use existing::{
    bound_exists, bound_fits, bounds_kept, cash_covers_more, cash_exists, cash_fits,
    cash_is_bounded, cash_is_covered, cash_is_narrow, covered_is_less, fair_pair_fits,
    inside_is_decided, least_cash_fits, least_exists, limits_exist, limits_judge, most_covers_more,
    most_exists, outcome_exists, price_covers_more, price_exists, price_is_covered,
    price_is_narrow, right_limits_exist, sides_exist, state_exists, withdrawal_is_judged,
};
pub use opening::{
    begins_sound, initial_total_is_millions, single_opens, weights_begin, weights_positive,
};
pub use settling::{bound_holds, gains_bounded, settlement_bounded};
pub use trading::{price_moves, solvent_stays, total_never_rises};
