//! A question that is added to a market.

use crate::row::Row;
use arrayvec::ArrayVec;
use mk_names::Name;

/// A variable to be put behind those of a network: its name, the names of its values, the numbers
/// of its parents, and a
/// row of shares, in parts per million, for each list of the parents' values, the last parent's
/// fastest.
#[derive(Debug, Default, Drop, PartialEq, Eq)]
pub struct Addition {
    pub variable: Name,
    pub values: ArrayVec<Name, 16>,
    pub parents: ArrayVec<u32, 8>,
    pub rows: ArrayVec<Row, 64>,
}
