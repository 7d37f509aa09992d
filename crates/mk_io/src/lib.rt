//! The outside of the market: where its bytes come from and go to, and the lines of a stream of commands.
#![tactic(auto)]

mod calls;
mod cut;
mod lines;
mod memory;
mod outside;
mod pending;
mod quiet;
mod standard;
mod status;
mod text;

pub use lines::{Lines, Next};
pub use memory::{MemoryInputs, MemorySink, NamedFile};
pub use outside::{InputFailed, Inputs, Sink, SinkFailed, write_all};
pub use quiet::{QuietInputs, QuietSink};
pub use standard::{StdInputs, StdSink};
pub use status::Status;
