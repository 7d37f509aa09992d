//! Pairs of a variable and a value, as words and as numbers, and two small answers.

ghost use Rattle.std.specs.Prelude.{⊤};

use arrayvec::ArrayVec;
use mk_names::Name;
use std::alloc::{AllocError, AllocFailed};
use thiserror::Error;

/// The answer of a call that could not get the memory that it needs.
#[derive(Clone, Copy, Debug, PartialEq, Eq, Error)]
#[error("out of memory")]
pub struct NoMemory;

impl From<AllocError> for NoMemory {
    ghost from_gives = { λ _ e. ⊤ };

    fn from(_e: AllocError) -> NoMemory {
        NoMemory
    }
}

impl<T: Drop> From<AllocFailed<T>> for NoMemory {
    ghost from_gives = { λ _ e. ⊤ };

    fn from(_e: AllocFailed<T>) -> NoMemory {
        NoMemory
    }
}

/// The answer to bytes that are the text of nothing that could be read there.
#[derive(Clone, Copy, Debug, PartialEq, Eq, Error)]
#[error("no such text")]
pub struct Syntax;

/// A variable and one of its values, as they are written.
#[derive(Clone, Copy, Debug, Default, PartialEq, Eq)]
pub struct PairText {
    pub variable: Name,
    pub value: Name,
}

/// A variable and one of its values, by their numbers, counted from 0.
#[derive(Clone, Copy, Debug, Default, PartialEq, Eq)]
pub struct Pair {
    pub variable: u32,
    pub value: u32,
}

/// A question as it is written: a target, and a condition of at most eight pairs in their order.
#[derive(Debug, Default, Drop, PartialEq, Eq)]
pub struct QuestionText {
    pub target: PairText,
    pub condition: ArrayVec<PairText, 8>,
}
