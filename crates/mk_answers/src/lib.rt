//! The numbers of a market's answers, from the beliefs of its engines: prices, also of every value
//! of a variable, the bounds of an edit of a question or of a whole distribution, what can come,
//! the least that a user owns, also where each value comes, and the most that the operator can
//! lose; and, for a judge of such numbers, the enclosures that they are rounded from.
#![tactic(auto)]

mod edit;
mod evidence;
mod found;
mod laws;
mod possible;
mod price;
mod risk;
mod spread;
mod telling;
mod worst;

pub use edit::{Sides, bounds_of};
pub use evidence::{least_weight_of, price_bounds_of, sure_factors_of, value_price_bounds_of};
pub use laws::{fair_by_bounds, fair_list_by_bounds, right_bounds_by_bounds, right_by_bounds};
pub use possible::first_impossible;
pub use price::price_of;
pub use risk::bound_of;
pub use spread::{SpreadSides, spread_bounds_of};
pub use telling::{position_of, prices_of};
pub use worst::{least_of, most_bits};
