//! The rules of the market: what each command is refused for, the replies that are allowed, and what stands after them.
//! Nothing here runs; the definitions in `specs/` are what a market's replies are measured against, and the functions
//! below state laws of them, and values in small markets.
#![tactic(auto)]

mod examples;
mod laws;

pub use examples::{
    example_add_order, example_added, example_answers, example_judged_afresh, example_markets,
    example_order, example_quotes, example_refusals, example_resolution, example_run,
    example_settlement, example_spread_order, example_spread_quotes, example_spread_refusals,
    example_spreads, example_told, example_told_order, example_withdrawal, example_worst,
};
pub use laws::{
    allowed_keeps, always_answered, bound_is_kept, bounded_keeps, judged_exactly,
    names_keep_bounds, one_kind, one_refusal, ready_keeps, replies_have_texts, run_is_bounded,
    run_is_ready, run_keeps, run_keeps_ready, run_settles, run_stands, run_stays_bounded,
    runs_exist, runs_join, settlement_keeps, spread_judged_exactly, spread_one_kind,
    state_stays_possible, unquoted_is_ready,
};
