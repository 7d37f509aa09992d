//! Tables, with one cell for each assignment of some variables.
ghost use Rattle.mk_sums.specs.Laws.{CellsInverse, CellsNest};

/// A cell's assignment has this cell, and an assignment in range is that of its cell.
pub fn cells_inverse()
    ensures { CellsInverse }
{}

/// The plus over the cells of some variables is the nested plus over these variables.
pub fn cells_nest()
    ensures { CellsNest }
{}
