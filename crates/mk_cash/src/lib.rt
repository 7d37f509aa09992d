//! What users own in points, and what it can cost the operator: the cash that a factor is worth, the most that the operator can
//! lose, and the ledger of what was deposited, withdrawn and paid.
#![tactic(auto)]

mod due;
mod interval;
mod laws;
mod ledger;
mod loss;

pub use due::Due;
pub use interval::cash;
pub use laws::{
    payment_by_rule_covers, payment_by_rule_fits, payment_by_rule_is_between, payments_by_rule_fit,
};
pub use ledger::{Account, Ledger};
pub use loss::bound;
