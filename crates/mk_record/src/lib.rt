//! What a market remembers, and what it refuses by that: its accepted changes, its users with their
//! assets and last quotes, and the refusals of each command but `add` that the record alone
//! decides, first to last.
#![tactic(auto)]

mod asking;
mod journal;
mod last_quote;
mod refusals;
mod refusing_spreads;
mod requests;
mod users;

pub use asking::{ask, ask_spread, known};
pub use journal::Journal;
pub use last_quote::LastQuote;
pub use refusals::{
    not_settled, plain_price, refuse_edit, refuse_if, refuse_limits, refuse_paid, refuse_price,
    refuse_resolve, refuse_settle, refuse_transfer, refuse_user, refuse_worst,
};
pub use refusing_spreads::{all_in_range, is_million, refuse_bounds, refuse_prices, refuse_spread};
pub use requests::{EditWish, Request, SpreadRequest, SpreadWish};
pub use users::{Member, Users};
