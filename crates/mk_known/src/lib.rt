//! What an auditor knows of a market beside its history: what was printed to each user last, and
//! whether the history is small; and how it follows a reply.
#![tactic(auto)]

mod following;
mod known;
mod noting;

pub use following::follow;
pub use known::Known;
pub use noting::revision_of;
