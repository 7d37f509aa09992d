//! Replies and refusals: what they are, how they are read and how they are written.
#![tactic(auto)]

mod laws;
mod payments;
mod print;
mod read;
mod read_refusal;
mod refusal;
mod reply;
mod unread;

pub use laws::{one_reply_each, read_printed, short_replies};
pub use payments::{Payment, Payments};
pub use print::print_reply;
pub use read::read_reply;
pub use refusal::{Intervals, Refusal};
pub use reply::{Reply, Spans};
pub use unread::Unread;
