//! Whether a question may be added, by the record, and what it adds in the numbers of a network.
#![tactic(auto)]

mod adding;
mod refusing_additions;
mod refusing_rows;

pub use adding::{added_question, clique_set};
pub use refusing_additions::refuse_add;
