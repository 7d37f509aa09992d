//! Trees of cliques: the sets of variables over which a market keeps its tables.
#![tactic(auto)]

mod check;
mod fault;
mod laws;
mod starts;
mod tree;

pub use check::clique_cells;
pub use fault::TreeFault;
pub use laws::test_is_connected;
pub use tree::{ROOT, Tree};
