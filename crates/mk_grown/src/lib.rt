//! The exact market with one question more: nothing that was asked before changes. Nothing here
//! runs in the market; the functions below state laws of the definitions.
#![tactic(auto)]

ghost use Rattle.mk_grown.specs.Laws.{StatesGrow, TotalsGrow, InitialTotalGrows, LeastGainsStay};
ghost use Rattle.mk_grown.specs.Laws.{ProperGrows, SoundGrows, PricesStay};
ghost use Rattle.mk_grown.specs.Present.{PresentAtFirst, PresentAfter, NetworkStays};
ghost use Rattle.mk_grown.specs.Present.{SoundAfter, ProperAfter, SoundAlways};

/// The states of a network with one variable more that can come are those that could, with each of
/// its values behind them that has a share there.
pub fn states_grow()
    ensures { StatesGrow }
{}

/// The total weight of what was asked before is a million times what it was.
pub fn totals_grow()
    ensures { TotalsGrow }
{}

/// So is that of the initial weights.
pub fn initial_total_grows()
    ensures { InitialTotalGrows }
{}

/// Least gains stay.
pub fn least_gains_stay()
    ensures { LeastGainsStay }
{}

/// A proper history stays proper.
pub fn proper_grows()
    ensures { ProperGrows }
{}

/// A sound history stays sound.
pub fn sound_grows()
    ensures { SoundGrows }
{}

/// Exact prices stay.
pub fn prices_stay()
    ensures { PricesStay }
{}

/// Before any entry the market at present is what its file gave.
pub fn present_at_first()
    ensures { PresentAtFirst }
{}

/// Behind one entry more it is the market as it stood, with that entry.
pub fn present_after()
    ensures { PresentAfter }
{}

/// The variables of a market stay a network.
pub fn network_stays()
    ensures { NetworkStays }
{}

/// An acceptable change leads from a sound history to one that is sound in the market after it.
pub fn sound_after()
    ensures { SoundAfter }
{}

/// A change in range leads from a proper history to one that is proper there.
pub fn proper_after()
    ensures { ProperAfter }
{}

/// A history of accepted changes is sound and proper in the market at present.
pub fn sound_always()
    ensures { SoundAlways }
{}
