//! What a market in use asks its engines and its users' assets, and what a trade does to them.
#![tactic(auto)]

mod counting;
mod homes;
mod learning;
mod possible;
mod quoting;
mod spread_quoting;
mod trading;

pub use counting::open_questions;
pub use homes::home_of;
pub use learning::learn;
pub use possible::{
    Decided, SpreadDecided, Stopped, can_come, refuse_condition, refuse_decided, refuse_stopped,
};
pub use quoting::{fresh_quote, present_quote};
pub use spread_quoting::{fresh_spread_quote, judge_spread};
pub use trading::{ratio_of_edit, ratio_of_spread, trade};
