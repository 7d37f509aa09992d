//! Questions that are added to a market: their words, and how these are read and written.
#![tactic(auto)]

mod add;
mod laws;
mod length;
mod list;
mod print;
mod read;
mod row;
mod writable;

pub use add::AddText;
pub use laws::{longest_add, one_add_each, read_printed};
pub use length::text_length;
pub use print::{print_add, put_addition};
pub use read::{read_add, read_addition};

#[cfg(test)]
mod tests;
