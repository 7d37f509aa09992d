//! Lawful semirings: an exact plus over whole numbers where 0 stands for Absent, and values that
//! enclose them.
#![tactic(auto)]

mod held;
mod least;
mod most;
mod semiring;
mod sums;

pub use held::Held;
pub use least::MinProd;
pub use most::MaxProd;
pub use semiring::Semiring;
pub use sums::SumProd;
