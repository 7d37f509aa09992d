//! What the bounds of a question promise of its market.
ghost use Rattle.mk_answers.specs.Laws.{FairByBounds, RightByBounds, FairListByBounds, RightBoundsByBounds};

/// Units that are fair and solvent by bounds for the two sides of a question are a fair pair.
pub fn fair_by_bounds()
    ensures { FairByBounds }
{}

/// Limits that are right by bounds for the two sides of a question are right for it.
pub fn right_by_bounds()
    ensures { RightByBounds }
{}

/// Units that are fair and solvent by bounds for all values of a variable are a fair list.
pub fn fair_list_by_bounds()
    ensures { FairListByBounds }
{}

/// Intervals that are right by bounds for all values are right for the distribution.
pub fn right_bounds_by_bounds()
    ensures { RightBoundsByBounds }
{}
