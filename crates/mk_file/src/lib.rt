//! The market file: TOML text that gives the questions of a market, its tree and some numbers.
#![tactic(auto)]

mod accept;
mod cliques;
mod counts;
mod fault;
mod kinds;
mod market_file;
mod print;
mod read;
mod required;
mod walk;

pub use fault::FileFault;
pub use market_file::MarketFile;
pub use print::print_fault;
pub use read::{MAX_FILE_BYTES, read_market};
