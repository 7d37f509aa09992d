//! The engine over a junction tree: beliefs by messages, of which only the stale ones are made anew.
#![tactic(auto)]

mod engine;
mod homes;
mod laws;
mod marks;
mod passes;

pub use engine::TreeEngine;
