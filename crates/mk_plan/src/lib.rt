//! The plan of a tree of cliques, made once for all flows over it: scopes, places and ways.
#![tactic(auto)]

mod shape;

pub use shape::Shape;
