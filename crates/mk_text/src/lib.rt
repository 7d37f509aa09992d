//! The parts of which the texts of commands and replies consist: how each is read and how it is written.
#![tactic(auto)]

mod listed;
mod numbers;
mod reader;
mod words;
mod writers;

pub use listed::{Item, intervals, several};
pub use reader::Reader;
pub use writers::{
    put_all_ends, put_all_prices, put_condition, put_ends, put_intervals, put_limits, put_name,
    put_number, put_numbers, put_pair, put_price, put_question, put_range, put_short,
    put_two_prices, put_units,
};
