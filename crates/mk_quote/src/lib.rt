//! What an edit may do, of a question or of a whole distribution: the units that it trades for, and the limits within which
//! it is taken.
#![tactic(auto)]

mod bounds;
mod guess;
mod interval;
mod laws;
mod quote;
mod side;
mod spread;
mod spread_quote;
mod values;

pub use bounds::Bounds;
pub use laws::{exactly_serves, served_is_fair, shares_suit, wanted_serves};
pub use quote::Quote;
pub use side::SideBounds;
pub use spread::SpreadQuestion;
pub use spread_quote::{Intervals, SpreadQuote};
pub use values::{SpreadBounds, ValueBounds};
