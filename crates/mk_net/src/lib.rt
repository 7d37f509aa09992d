//! The questions of a market: names, pairs of a variable and a value, and the network of variables.
#![tactic(auto)]

mod addition;
mod draft;
mod event;
mod fault;
mod naming;
mod network;
mod order;
mod question;
mod ratio;
mod row;
mod rows;
mod trade;
mod words;

pub use addition::Addition;
pub use draft::{Draft, VariableDraft};
pub use event::Event;
pub use fault::NetFault;
pub use network::Network;
pub use question::Question;
pub use ratio::Ratio;
pub use row::Row;
pub use words::{NoMemory, Pair, PairText, QuestionText, Syntax};
