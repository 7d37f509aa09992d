//! Enclosures of whole numbers: two scaled numbers that an exact number lies between.
#![tactic(auto)]

mod enclosure;
mod factor;

pub use enclosure::Enclosure;
pub use factor::Factor;
