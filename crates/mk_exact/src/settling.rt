//! What all users gain together, and what it can cost the operator.
ghost use Rattle.mk_exact.specs.Laws.{GainsBounded, SettlementBounded, BoundHolds};

/// In a possible state all users together have gained at most one over its initial probability.
pub fn gains_bounded()
    ensures { GainsBounded }
{}

/// Whatever the outcome, a settlement costs the operator at most `b` points for each bit of its initial improbability.
pub fn settlement_bounded()
    ensures { SettlementBounded }
{}

/// Where the operator's loss is bounded in this way, it is at most the high end of a bound, in points.
pub fn bound_holds()
    ensures { BoundHolds }
{}
