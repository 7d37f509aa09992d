//! The joint engine: one table over all variables.
#![tactic(auto)]

mod joint;

pub use joint::JointEngine;
