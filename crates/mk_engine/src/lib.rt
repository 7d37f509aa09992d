//! What each engine of beliefs owes, whatever it keeps, and what follows for each of them.
#![tactic(auto)]

mod engine;
mod others;
mod tree_graded;

pub use engine::Engine;
pub use others::belief_of_others;
pub use tree_graded::TreeGraded;
