//! What one user owns: the gains of the user's trades, state by state, and the bits that went in and out.
#![tactic(auto)]

mod assets;

pub use assets::Assets;
