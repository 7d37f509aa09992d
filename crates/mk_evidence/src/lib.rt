//! What an auditor asks of a market in use: enclosures of the exact numbers that a reply has to be
//! near, or the refusal that comes first.
#![tactic(auto)]

mod evidence;
mod evidence_of_edits;
mod evidence_of_spreads;
mod refused;

pub use evidence::{
    bound_evidence, joined, payment_evidence, position_evidence, price_evidence, prices_evidence,
    withdrawal_evidence, worst_evidence,
};
pub use evidence_of_edits::{EditEvidence, edit_evidence, limits_evidence};
pub use evidence_of_spreads::{SpreadEvidence, bounds_evidence, spread_evidence};
pub use refused::{
    refused_addition, refused_deposit, refused_join, refused_resolution, refused_settlement,
};
