//! The sample market: its file and the commands that are given to it, as bytes, for each number of variables.
#![tactic(auto)]

mod bounds;
mod commands;
mod examples;
mod file;
mod make;
mod texts;
mod words;

pub use bounds::commands_are_short;
pub use examples::{five_edits, one_clique};
pub use make::sample;
pub use texts::{Bytes, Sample};
