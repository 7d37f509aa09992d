//! What an auditor holds against printed numbers: judges over enclosures of the exact ones, which
//! know no market and no engine.
#![tactic(auto)]

mod comparing;
mod distribution;
mod exact;
mod inside;
mod interval;
mod judged;
mod least;
mod limits;
mod multiply;
mod near;
mod places;
mod price;
mod product;
mod question;
mod scale;
mod share;
mod solvency;
mod units;
mod wanted;
mod wanting;

pub use comparing::{Compared, compare};
pub use distribution::{judge_intervals, judge_spread_units};
pub use exact::judge_exact_limits;
pub use inside::judge_wanted;
pub use interval::{judge_interval, judge_no_share};
pub use judged::Judged;
pub use limits::judge_tradable;
pub use near::near_bits;
pub use price::{PriceBounds, judge_price};
pub use question::judge_limits;
pub use scale::Scale;
pub use units::judge_units;
