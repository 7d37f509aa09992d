//! A market in use: how its commands are answered, from its record, its engines and its ledger.
#![tactic(auto)]

mod adding;
mod answering;
mod editing;
mod laws;
mod market;
mod opening;
mod pricing;
mod resolving;
mod restoring;
mod settling;
mod spreading;
mod telling;
mod transfers;

pub use laws::{safe_has_homes, settlement_pays_off};
pub use market::Market;
pub use mk_asking::home_of;
pub use restoring::RestoreFault;
