//! Whether a reply tells the change that it comes back for, and whether an addition has a text.
#![tactic(auto)]

mod stored;
mod wording;

pub use stored::{
    tells_addition, tells_deposit, tells_join, tells_resolution, tells_total, tells_withdrawal,
    told_factors, told_payments, told_units,
};
pub use wording::has_text;
