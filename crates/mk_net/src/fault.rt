//! What a network's draft is refused for.

ghost use Rattle.std.specs.Prelude.{◌≡◌};
ghost use Rattle.mk_net.specs.declared.fault.NetFault.TheVariants.{Memory};

use crate::words::NoMemory;
use mk_names::Key;
use std::alloc::{AllocError, AllocFailed};
use thiserror::Error;

/// The first fault of a list of drafts. Variables, rows and columns are numbered from 1.
#[derive(Clone, Copy, Debug, PartialEq, Eq, Error)]
pub enum NetFault {
    /// A number of variables (at place 0), values or parents is outside its limits.
    #[error("key {key:?} at {place} has {n} items")]
    Count {
        key: Key,
        place: u32,
        n: i64,
    },
    /// The variable's name, or one of its values, is no name.
    #[error("variable {variable} has a word that is no name")]
    BadName {
        variable: u32,
    },
    /// An earlier variable has its name, or two of its values are equal.
    #[error("variable {variable} repeats a name")]
    Repeat {
        variable: u32,
    },
    /// A parent is no earlier variable, or stands twice.
    #[error("variable {variable} has a parent that is no earlier variable, or one twice")]
    Parent {
        variable: u32,
    },
    /// The number of rows is not the product of the parents' numbers of values.
    #[error("variable {variable} has {n} rows, not one for each list of its parents' values")]
    Rows {
        variable: u32,
        n: i64,
    },
    /// A row has another number of entries than there are values.
    #[error("row {row} of variable {variable} has {n} entries, not one for each value")]
    Width {
        variable: u32,
        row: u32,
        n: i64,
    },
    /// An entry is above 1,000,000 or below 1, or below 0 where shares of nothing may occur.
    #[error("entry {column} in row {row} of variable {variable} is no share of a million")]
    Entry {
        variable: u32,
        row: u32,
        column: u32,
    },
    /// The entries of a row are not 1,000,000 together.
    #[error("row {row} of variable {variable} sums to {sum}, not to 1000000")]
    Sum {
        variable: u32,
        row: u32,
        sum: i64,
    },
    /// Memory was wanting.
    #[error("out of memory")]
    Memory,
}

impl From<AllocError> for NetFault {
    ghost from_gives = { λ _ e. e ≡ Memory };

    fn from(_e: AllocError) -> NetFault {
        NetFault::Memory
    }
}

impl<T: Drop> From<AllocFailed<T>> for NetFault {
    ghost from_gives = { λ _ e. e ≡ Memory };

    fn from(_e: AllocFailed<T>) -> NetFault {
        NetFault::Memory
    }
}

impl From<NoMemory> for NetFault {
    ghost from_gives = { λ _ e. e ≡ Memory };

    fn from(_e: NoMemory) -> NetFault {
        NetFault::Memory
    }
}
