//! Commands: what they are, how they are read and how they are written.
#![tactic(auto)]

mod command;
mod laws;
mod print;
mod read;

pub use command::{Command, CommandRef, Words};
pub use laws::{one_command_each, read_printed, short_commands};
pub use print::print_command;
pub use read::read_command;
