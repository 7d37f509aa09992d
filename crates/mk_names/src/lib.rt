//! Names, the keys of a market file, and how much there may be of each thing in a market.
#![tactic(auto)]

mod key;
pub mod limits;
mod name;

pub use key::Key;
pub use name::{Name, is_name};
