//! Chances of pairs that no clique holds together, and best states, after a history that is there.
#![tactic(auto)]

mod best_state;
mod chances;
mod found;
mod history;
mod known;
mod picks;
mod search;
mod sure;

pub use best_state::{best, best_by};
pub use chances::{chance, chance_by};
pub use found::{Best, Chance, StateList};
pub use history::engine_after;
