//! Sums over states, and the law of trees of cliques: what a message is, and what is read from messages. Nothing here
//! runs in the market; the functions below state laws of the definitions in `specs/`.
#![tactic(auto)]

mod cells;
mod changes;
mod examples;
mod joints;
mod limits;
mod messages;
mod trees;

pub use cells::{cells_inverse, cells_nest};
pub use changes::{change_leaves, collects_in_order, leads_towards, stale_on_way};
pub use examples::{chain_cells, chain_is_tree, chain_minima, chain_sums, chain_ways};
pub use joints::{joint_is_read, known_are_factors, states_nest};
pub use limits::{are_lawful, grades_add, read_grades_add, small_case, sums_bound};
pub use messages::{message_law, message_reads, read_law};
pub use trees::{neighbours_part, running_is_one_top, separates, two_sides};
