//! What a market takes back after a restart: the changes that fit a history, and what they leave.
//! Nothing here runs; the definitions in `specs/` are what a restore is measured against, and the
//! functions below state laws of them.
#![tactic(auto)]

mod laws;

pub use laws::{
    allowed_fits, command_is_one_line, each_counts, fit_appends, fit_is_safe, fit_quotes_nobody,
    front_is_restored, front_stands, opening_is_safe, record_holds_one, record_is_short,
    record_splits, restored_is_safe, restores_join, restores_one, run_is_restored,
};
