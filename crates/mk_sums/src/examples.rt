//! The numbers of a chain of three cliques.
ghost use Rattle.mk_sums.specs.Examples.{ChainIsTree, HasWays, HasSums, HasMinima, HasCells};

/// The chain is a tree with running intersection.
pub fn chain_is_tree()
    ensures { ChainIsTree }
{}

/// Ways along the chain, and a grade.
pub fn chain_ways()
    ensures { HasWays }
{}

/// Messages and joint values of sums.
pub fn chain_sums()
    ensures { HasSums }
{}

/// Messages and joint values of minima.
pub fn chain_minima()
    ensures { HasMinima }
{}

/// Cells over two of its variables.
pub fn chain_cells()
    ensures { HasCells }
{}
