//! A durable market: the changes that its store gives back, and a market that goes on from them.
#![tactic(auto)]

mod change;
mod durable;
mod fault;
mod laws;
mod opening;
mod record;
mod restoring;
mod served;

pub use durable::{Durable, DurableFault};
pub use fault::{RecordFault, ResumeFault, StoreFault};
pub use laws::{gives_one, one_fault, refuses_no_honest, refuses_none_given, stays_honest};
pub use opening::{Resumed, resume};
pub use record::take_back;
pub use restoring::restore_all;
pub use served::keep;
