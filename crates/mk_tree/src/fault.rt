//! What a tree is refused for.

ghost use Rattle.std.specs.Prelude.{◌≡◌};
ghost use Rattle.mk_tree.specs.declared.fault.TreeFault.TheVariants.{Memory};

use std::alloc::{AllocError, AllocFailed};
use thiserror::Error;

/// The first fault of a tree of cliques. Variables and cliques are numbered from 1.
#[derive(Clone, Copy, Debug, PartialEq, Eq, Error)]
pub enum TreeFault {
    /// No clique holds the variable and all its parents.
    #[error("no clique holds variable {variable} and its parents")]
    Cover { variable: u32 },
    /// The cliques that hold the variable are not connected.
    #[error("the cliques that hold variable {variable} are not connected")]
    NotRunning { variable: u32 },
    /// The clique has more than 4,096 cells, or with it there are more than 32,768.
    #[error("clique {clique} has too many cells")]
    Cells { clique: u32 },
    /// Memory was wanting.
    #[error("out of memory")]
    Memory,
}

impl From<AllocError> for TreeFault {
    ghost from_gives = { λ _ e. e ≡ Memory };

    fn from(_e: AllocError) -> TreeFault {
        TreeFault::Memory
    }
}

impl<T: Drop> From<AllocFailed<T>> for TreeFault {
    ghost from_gives = { λ _ e. e ≡ Memory };

    fn from(_e: AllocFailed<T>) -> TreeFault {
        TreeFault::Memory
    }
}
