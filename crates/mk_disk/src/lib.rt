//! A disk of files that a crash may tear, and what it then leaves of them.
#![tactic(auto)]

mod calls;
mod contents;
mod disk;
mod event;
mod laws;
mod memory;
mod standard;

pub use disk::{Disk, DiskFailed};
pub use event::Choice;
pub use laws::each_image_counts;
pub use memory::MemoryDisk;
pub use standard::StdDisk;
