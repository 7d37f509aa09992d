//! Whether a history is small: by the weights of all states. An audit asks it, since definitions
//! ask more of small histories.
#![tactic(auto)]

mod small;

pub use small::is_small;
