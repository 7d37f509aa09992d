//! What an opening may fail with.

ghost use Rattle.std.specs.Prelude.{◌≡◌};
ghost use Rattle.mk_durable.specs.Resuming.{of_open, of_records};
ghost use Rattle.mk_durable.specs.declared.fault.ResumeFault.TheVariants.{Memory};

use mk_journal::OpenFault;
use mk_net::NoMemory;
use std::alloc::AllocError;

/// Why records are not all taken back.
#[derive(Clone, Copy, Debug, PartialEq, Eq)]
pub enum RecordFault {
    /// The record of this number, from one on, is the first that is not taken back.
    Unfit { number: u64 },
    /// Memory was wanting.
    Memory,
}

/// Why a store is refused: what its file is to the market.
#[derive(Clone, Copy, Debug, PartialEq, Eq)]
pub enum StoreFault {
    /// From this place on it is not this market's.
    Foreign { at: u64 },
    /// The record of this number, from one on, is the first that is malformed or not taken back.
    Unfit { number: u64 },
}

/// Why a market was not resumed.
#[derive(Clone, Copy, Debug, PartialEq, Eq)]
pub enum ResumeFault {
    /// A call of the disk failed.
    Disk,
    /// The store is refused.
    Refused(StoreFault),
    /// Memory was wanting.
    Memory,
}

impl From<OpenFault> for ResumeFault {
    ghost from_gives = { λ fault e. e ≡ of_open fault };

    fn from(fault: OpenFault) -> ResumeFault {
        match fault {
            OpenFault::Disk => ResumeFault::Disk,
            OpenFault::Foreign { at } => ResumeFault::Refused(StoreFault::Foreign { at }),
            OpenFault::Memory => ResumeFault::Memory,
        }
    }
}

impl From<RecordFault> for ResumeFault {
    ghost from_gives = { λ fault e. e ≡ of_records fault };

    fn from(fault: RecordFault) -> ResumeFault {
        match fault {
            RecordFault::Unfit { number } => ResumeFault::Refused(StoreFault::Unfit { number }),
            RecordFault::Memory => ResumeFault::Memory,
        }
    }
}

impl From<AllocError> for ResumeFault {
    ghost from_gives = { λ _ e. e ≡ Memory };

    fn from(_: AllocError) -> ResumeFault {
        ResumeFault::Memory
    }
}

impl From<NoMemory> for ResumeFault {
    ghost from_gives = { λ _ e. e ≡ Memory };

    fn from(_: NoMemory) -> ResumeFault {
        ResumeFault::Memory
    }
}
