//! Ways through a tree of cliques, and what running intersection says.
ghost use Rattle.mk_sums.specs.Laws.{NeighboursPart, TwoSides, Separates, RunningIsOneTop};

/// A clique lies on exactly one side of a link.
pub fn two_sides()
    ensures { TwoSides }
{}

/// Each other clique lies behind exactly one neighbour.
pub fn neighbours_part()
    ensures { NeighboursPart }
{}

/// A variable held on both sides of a link is held at both its ends.
pub fn separates()
    ensures { Separates }
{}

/// A tree has running intersection exactly where each variable has at most one top.
pub fn running_is_one_top()
    ensures { RunningIsOneTop }
{}
