//! How a run ends.

ghost use Rattle.std.specs.Prelude.{◌≡◌, ℕ};
ghost use Rattle.mk_io.specs.Status.{code_of};

/// How a run of the program ends.
#[derive(Clone, Copy, Debug, PartialEq, Eq)]
pub enum Status {
    /// All commands were answered.
    Done,
    /// The words of the call are none that the program knows.
    Usage,
    /// The market file is refused; the one line written names its fault.
    MarketRefused,
    /// Reading failed; the whole lines before are answered.
    ReadFault,
    /// Writing failed; a front of the output was written.
    WriteFault,
    /// Memory was wanting before the first byte was written.
    Memory,
    /// The commands have more lines or bytes than a stream may have; the lines before are answered.
    TooMany,
    /// A call of the disk that holds the store failed; a front of the output was written.
    DiskFault,
    /// The store is another's, or holds what was never written there; the one line written says
    /// where.
    StoreRefused,
}

impl Status {
    /// The exit status of the process, from 0 for `Done` to 8 for `StoreRefused`, in the order of the variants.
    pub fn code(self) -> u8
        ensures { result ≡ code_of self }
    {
        match self {
            Status::Done => 0,
            Status::Usage => 1,
            Status::MarketRefused => 2,
            Status::ReadFault => 3,
            Status::WriteFault => 4,
            Status::Memory => 5,
            Status::TooMany => 6,
            Status::DiskFault => 7,
            Status::StoreRefused => 8,
        }
    }
}
