//! What exists: bounds, and a judgement of each list of shares.
ghost use Rattle.mk_spread.specs.Existing.{BoundsExist, InsideEachIsDecided, ValueSidesExist, RightBoundsExist, RightBoundsFit, BoundsJudge, BoundsAgree, FairListIsInside};

/// Sides of positive prices have right bounds, beside values that cannot come.
pub fn bounds_exist()
    ensures { BoundsExist }
{}

/// A list of shares is inside of bounds or not.
pub fn inside_each_is_decided()
    ensures { InsideEachIsDecided }
{}

/// In a proper history each distribution that can be asked about has a side for each value that can
/// come, for each user.
pub fn value_sides_exist()
    ensures { ValueSidesExist }
{}

/// And right bounds.
pub fn right_bounds_exist()
    ensures { RightBoundsExist }
{}

/// Bounds that are given are 2 to 16 intervals: within 1 to 999,999, or of nothing alone.
pub fn right_bounds_fit()
    ensures { RightBoundsFit }
{}

/// Right bounds judge each list of shares: inside of them a fair and solvent list takes the prices there.
pub fn bounds_judge()
    ensures { BoundsJudge }
{}

/// In the small case all right bounds have the same lists inside.
pub fn bounds_agree()
    ensures { BoundsAgree }
{}

/// And each list of shares that has a fair and solvent list.
pub fn fair_list_is_inside()
    ensures { FairListIsInside }
{}
