//! Cells: lower ends in full digits of the exact numbers of a table.
#![tactic(auto)]

mod cell;
mod enclosing;
mod maxima;
mod minima;
mod scaling;
mod sums;

pub use cell::Cell;
pub use maxima::{greater, greatest, greatest_of_products};
pub use minima::{least, least_of_products};
pub use scaling::times_each;
pub use sums::{first_places, sum, sum_of_products};
