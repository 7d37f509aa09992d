//! What the trials share: market files, the pairs of their variables, and what sets and cliques
//! hold.
#![tactic(auto)]

mod networks;
mod pairs;
mod variables;

pub use networks::{CHAIN, COIN, GATE, WEATHER};
pub use pairs::{A, B, C, D, HEADS, NOT_A, NOT_B, NOT_C, TAILS};
pub use variables::{all_variables, holds_event};
