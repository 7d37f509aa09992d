//! Tables over scopes: one cell for each list of values of some variables.
#![tactic(auto)]

mod changes;
mod scopes;
mod store;
mod tables;
mod touched;

pub use scopes::Scopes;
pub use tables::Tables;
