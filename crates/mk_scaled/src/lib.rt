//! Scaled whole numbers: a mantissa of 64 bits times a power of two, with sums and products that are
//! rounded to a stated side.
#![tactic(auto)]

mod scaled;

pub use scaled::Scaled;
