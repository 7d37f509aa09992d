//! The words of an added question.

use arrayvec::ArrayVec;
use mk_names::Name;
use mk_net::Row;

/// `add V=v,w.. | P.. : ROWS in C.. to K`, perhaps without parents: a question V, its values and
/// parents, a row of shares in parts per million for each list of the parents' values, the names of
/// the clique that is put behind the others, and the number of the clique to which it is linked. It
/// can be read where it has 2 to 16 values, 1 to 64 rows of 1 to 16 numbers, 1 to 13 names of a
/// clique, and no number of more than nine digits.
#[derive(Debug, Default, Drop, PartialEq, Eq)]
pub struct AddText {
    pub variable: Name,
    pub values: ArrayVec<Name, 16>,
    pub parents: ArrayVec<Name, 8>,
    pub rows: ArrayVec<Row, 64>,
    pub clique: ArrayVec<Name, 13>,
    pub link: u32,
}
