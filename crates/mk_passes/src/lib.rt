//! Passes over the cells of tables, which are two arrays.
#![tactic(auto)]

mod again;
mod blank;
mod blocks;
mod columns;
mod joined;
mod made;
mod picked;
mod products;
mod times;

pub use again::plus_at_chosen;
pub use blank::{append_until, fill, one, plus_of_each, plus_of_listed, put_cells};
pub use columns::{Columns, Lists};
pub use joined::margin_times;
pub use products::plus_of_products;
pub use times::{keep_value, times_cells, times_shares, times_supports, times_units};
