//! What the passes read: the cells of a table, and where those lie that make each cell of another.

/// The cells of a table that are read: the digits of each and the exponent of each.
#[derive(Clone, Copy)]
pub struct Columns<'a> {
    pub digits: &'a [u64],
    pub exponents: &'a [u32],
}

/// Where the cells lie that make each cell of a part, as `Places::lists` gives it: the base of each cell of the part, how far
/// from it the runs begin, and how many cells each run has.
#[derive(Clone, Copy)]
pub struct Lists<'a> {
    pub bases: &'a [u16],
    pub offsets: &'a [u16],
    pub run: usize,
}
