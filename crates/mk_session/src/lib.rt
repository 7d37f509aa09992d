//! A run of the market: a market file and a stream of commands in, one line for each answer out.
#![tactic(auto)]

mod answer;
mod change;
mod laws;
mod market;
mod print;
mod quiet;
mod run;
mod waiting;

pub use answer::{Kept, is_blank, print_plain_price, serve_from};
pub use laws::ends_safely;
pub use market::{TreeMarket, open};
pub use print::{LineBuffer, print_fault_line, print_reply_line};
pub use quiet::serve_quiet;
pub use run::{LoadFault, load, load_within, refuse, run_market, serve};
