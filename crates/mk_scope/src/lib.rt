//! Scopes of tables, and where the cells of a part lie in a whole.
#![tactic(auto)]

mod part;
mod scope;
mod strides;
mod tail;

pub use part::Places;
pub use scope::Scope;
pub use strides::CellList;
