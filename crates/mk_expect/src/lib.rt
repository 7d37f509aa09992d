//! What a user may expect to have: bounds on the expected cash of a user after a history that is
//! there.
#![tactic(auto)]

mod bits;
mod cash;
mod entries;
mod laws;
mod points;
mod tally;
mod trades;
mod values;

pub use cash::{expect, expect_by};
pub use laws::bounded_has_few_bits;
