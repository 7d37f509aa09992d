//! Every value of a variable, each with its side by bounds.

use arrayvec::ArrayVec;
use mk_enclose::{Enclosure, Factor};

/// Bounds on one value of a variable: on the weight of the states where the condition and the value hold, and on the
/// least factor of the user over them.
#[derive(Clone, Copy, Debug)]
pub struct ValueBounds {
    pub part: Enclosure,
    pub factor: Factor,
}

/// Bounds on what decides an edit of a whole distribution: the weight of the states where its condition holds, and one
/// part of it for each value of the variable, in order. None for a value that cannot come where the condition holds.
///
/// The promises hold for all exact numbers that these enclose, where each price is at most one and each enclosure has
/// a grade of at most `2^17`.
#[derive(Debug, Drop)]
pub struct SpreadBounds {
    pub whole: Enclosure,
    pub parts: ArrayVec<Option<ValueBounds>, 16>,
}
