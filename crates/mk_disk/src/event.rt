//! What can happen to the files of a disk in memory.

/// What a crash leaves of the writes since the last sync.
#[derive(Clone, Copy, Debug, PartialEq, Eq, Drop)]
pub enum Choice {
    /// None of them.
    Old,
    /// All of them.
    New,
    /// All of them, with the byte 1 in place of each byte.
    Noise,
}

/// One thing that happened to the files of a disk.
#[derive(Drop)]
pub enum Event {
    /// Bytes were written into a file from a place on.
    Write(String, u64, Vec<u8>),
    /// A write of so many bytes from a place on failed.
    Fault(String, u64, usize),
    /// A file was synced.
    Sync(String),
    /// The disk crashed.
    Crash(Choice),
}
