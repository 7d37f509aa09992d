//! The law of transfers.
ghost use Rattle.mk_expect.specs.Expectation.{BoundedHasFewBits};

/// In a bounded history, as that of each market is, no user deposits or withdraws more bits than all
/// transfers of a market come to.
pub fn bounded_has_few_bits()
    ensures { BoundedHasFewBits }
{}
