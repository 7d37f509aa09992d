//! The store file of a market: records that a crash at any moment leaves whole or leaves out.
#![tactic(auto)]

mod front;
mod group;
mod header;
mod keeper;
mod laws;
mod open;
mod read;
mod steps;

pub use group::Group;
pub use keeper::{Keeper, NoStore, Store};
pub use laws::{one_answer, one_reading, refuses_no_honest, stays_honest};
pub use open::{OpenFault, header_of, open_store};
pub use read::{End, Found};
pub use steps::append;
