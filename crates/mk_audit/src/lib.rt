//! The audit of a transcript: each line is held against what the exact market allows.
#![tactic(auto)]

mod auditing;
mod front;
mod laws;
mod lines;
mod ready;
mod served;
mod verdict;

pub use auditing::audit;
pub use laws::{reply_is_one_line, right_front_is_one, wrong_is_none};
pub use served::audit_named;
pub use verdict::{AuditFault, Verdict};
