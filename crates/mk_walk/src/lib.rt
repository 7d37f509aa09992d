//! A plain program over the joint of a small market: it lists all states, and adds and compares what they weigh.
//! Nothing here runs in the market; the answers of the engines are compared with it in tests.
#![tactic(auto)]

mod least;
mod states;
mod sums;
mod weight;

pub use least::least_gain;
pub use states::all_states;
pub use sums::total;
pub use weight::{WalkTrade, state_gain, state_weight, units_in};
