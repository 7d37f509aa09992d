//! What a trade of a whole distribution is, and what it does.
ghost use Rattle.mk_spread.specs.Laws.{FairListIsSafe, FairListIsRatio, FairListFits, SpreadMoves};

/// A fair and solvent list, for shares of a million together, makes a safe trade.
pub fn fair_list_is_safe()
    ensures { FairListIsSafe }
{}

/// Its ratio speaks of the network's own pairs, with a positive number of units for each value.
pub fn fair_list_is_ratio()
    ensures { FairListIsRatio }
{}

/// It is 2 to 16 numbers of units, each below `2^63`.
pub fn fair_list_fits()
    ensures { FairListFits }
{}

/// It takes the exact price of each value to within 2^-27 of its share.
pub fn spread_moves()
    ensures { SpreadMoves }
{}
