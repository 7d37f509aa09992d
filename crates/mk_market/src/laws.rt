//! Laws of settlements and of histories.
ghost use Rattle.mk_market.specs.Points.{SettlementPaysOff};
ghost use Rattle.mk_market.specs.Homes.{SafeHasHomes};

/// By an allowed settlement that is entered each user is paid off: with the low end of an interval
/// that covers the cash of the user's factor in the one possible state.
pub fn settlement_pays_off()
    ensures { SettlementPaysOff }
{}

/// In a safe history a clique holds the variables of each trade, and that of each resolved pair.
pub fn safe_has_homes()
    ensures { SafeHasHomes }
{}
