//! What the bounds of a side promise of the exact numbers that they enclose.
ghost use Rattle.mk_quote.specs.Laws.{ExactlyServes, ServedIsFair, SharesSuit, WantedServes};

/// Units that serve by the bounds are fair and solvent for the exact numbers.
pub fn served_is_fair()
    ensures { ServedIsFair }
{}

/// A share that moves the price by at most `2^22`, and leaves the factor above one by one part in `2^19`, serves.
pub fn wanted_serves()
    ensures { WantedServes }
{}

/// Where nothing was rounded, what serves is exactly what the exact floor of the units allows.
pub fn exactly_serves()
    ensures { ExactlyServes }
{}

/// Shares of which none stands at a value that cannot come, and none is missing at one that can, suit the values.
pub fn shares_suit()
    ensures { SharesSuit }
{}
