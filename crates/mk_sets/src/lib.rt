//! Sets of variables.
#![tactic(auto)]

mod sets;

pub use sets::VarSet;
