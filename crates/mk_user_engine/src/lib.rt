//! The engine of one user's least factors: a list of trades while they are few, and a tree of
//! cliques from then on.
#![tactic(auto)]

mod engine;
mod event_belief;
mod group;
mod group_laws;
mod group_product;
mod groups;
mod kept;
mod laws;
mod names;
mod narrow;
mod product;

pub use engine::UserEngine;
