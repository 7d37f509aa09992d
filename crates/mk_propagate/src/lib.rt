//! Messages in a tree of cliques: what is placed in the cliques, the messages between them, and what is read from both.
#![tactic(auto)]

mod board;
mod collect;
mod flow;
mod gathered;
mod message;
mod pass;
mod read;
mod sums;

pub use flow::Flow;
