//! What a market file is refused for.

ghost use Rattle.std.specs.Prelude.{◌≡◌};
ghost use Rattle.mk_file.specs.Counts.{of_net};
ghost use Rattle.mk_file.specs.Cliques.{of_tree};
ghost use Rattle.mk_file.specs.declared.fault.FileFault.TheVariants.{Memory};

use mk_names::Key;
use mk_net::NetFault;
use mk_tree::TreeFault;
use std::alloc::{AllocError, AllocFailed};
use thiserror::Error;

/// The first fault of a market file. Variables, rows, columns and cliques are numbered from 1; the place of a key is 0
/// at the top, else the number of the variable or the clique.
#[derive(Clone, Copy, Debug, PartialEq, Eq, Error)]
pub enum FileFault {
    /// More than 1,048,576 bytes.
    #[error("the file is longer than 1048576 bytes")]
    TooLong,
    /// The bytes are no TOML document.
    #[error("the file is no TOML document")]
    BadToml,
    /// A required key is not there.
    #[error("key {key:?} is missing at {place}")]
    Missing {
        key: Key,
        place: u32,
    },
    /// A key's value is of another kind.
    #[error("key {key:?} at {place} is of another kind")]
    WrongType {
        key: Key,
        place: u32,
    },
    /// A number, or a number of items, is outside its limits.
    #[error("key {key:?} at {place} cannot be {n}")]
    Count {
        key: Key,
        place: u32,
        n: i64,
    },
    /// The variable's name, or one of its values, is no name.
    #[error("variable {variable} has a word that is no name")]
    BadName {
        variable: u32,
    },
    /// An earlier variable has its name, or two of its values are equal.
    #[error("variable {variable} repeats a name")]
    Repeat {
        variable: u32,
    },
    /// A parent is no earlier variable, or stands twice.
    #[error("variable {variable} has a parent that is no earlier variable, or one twice")]
    Parent {
        variable: u32,
    },
    /// The number of rows is not the product of the parents' numbers of values.
    #[error("variable {variable} has {n} rows, not one for each list of its parents' values")]
    Rows {
        variable: u32,
        n: i64,
    },
    /// A row has another number of entries than there are values.
    #[error("row {row} of variable {variable} has {n} entries, not one for each value")]
    Width {
        variable: u32,
        row: u32,
        n: i64,
    },
    /// An entry is above 1,000,000 or below 1, or below 0 where the file says `zeros = true`.
    #[error("entry {column} in row {row} of variable {variable} is no share of a million")]
    Entry {
        variable: u32,
        row: u32,
        column: u32,
    },
    /// The entries of a row are not 1,000,000 together.
    #[error("row {row} of variable {variable} sums to {sum}, not to 1000000")]
    Sum {
        variable: u32,
        row: u32,
        sum: i64,
    },
    /// A clique holds an unknown name, or a name twice.
    #[error("clique {clique} has a name that is unknown, or one twice")]
    Clique {
        clique: u32,
    },
    /// A clique is not linked to an earlier one.
    #[error("clique {clique} is not linked to an earlier one")]
    Link {
        clique: u32,
    },
    /// No clique holds the variable and all its parents.
    #[error("no clique holds variable {variable} and its parents")]
    Cover {
        variable: u32,
    },
    /// The cliques that hold the variable are not connected.
    #[error("the cliques that hold variable {variable} are not connected")]
    NotRunning {
        variable: u32,
    },
    /// The clique has more than 4,096 cells, or with it there are more than 32,768.
    #[error("clique {clique} has too many cells")]
    Cells {
        clique: u32,
    },
    /// Memory was wanting.
    #[error("out of memory")]
    Memory,
}

impl From<AllocError> for FileFault {
    ghost from_gives = { λ _ e. e ≡ Memory };

    fn from(_e: AllocError) -> FileFault {
        FileFault::Memory
    }
}

impl<T: Drop> From<AllocFailed<T>> for FileFault {
    ghost from_gives = { λ _ e. e ≡ Memory };

    fn from(_e: AllocFailed<T>) -> FileFault {
        FileFault::Memory
    }
}

impl From<NetFault> for FileFault {
    ghost from_gives = { λ fault e. e ≡ of_net fault };

    fn from(fault: NetFault) -> FileFault {
        match fault {
            NetFault::Count { key, place, n } => FileFault::Count { key, place, n },
            NetFault::BadName { variable } => FileFault::BadName { variable },
            NetFault::Repeat { variable } => FileFault::Repeat { variable },
            NetFault::Parent { variable } => FileFault::Parent { variable },
            NetFault::Rows { variable, n } => FileFault::Rows { variable, n },
            NetFault::Width { variable, row, n } => FileFault::Width { variable, row, n },
            NetFault::Entry {
                variable,
                row,
                column,
            } => FileFault::Entry {
                variable,
                row,
                column,
            },
            NetFault::Sum { variable, row, sum } => FileFault::Sum { variable, row, sum },
            NetFault::Memory => FileFault::Memory,
        }
    }
}

impl From<TreeFault> for FileFault {
    ghost from_gives = { λ fault e. e ≡ of_tree fault };

    fn from(fault: TreeFault) -> FileFault {
        match fault {
            TreeFault::Cover { variable } => FileFault::Cover { variable },
            TreeFault::NotRunning { variable } => FileFault::NotRunning { variable },
            TreeFault::Cells { clique } => FileFault::Cells { clique },
            TreeFault::Memory => FileFault::Memory,
        }
    }
}
