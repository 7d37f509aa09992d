//! What one trade does to the total, to the price of its question, and to its user's factor.
ghost use Rattle.mk_exact.specs.Laws.{TotalNeverRises, PriceMoves, SolventStays};

/// A fair trade never raises the total weight per unit.
pub fn total_never_rises()
    ensures { TotalNeverRises }
{}

/// A fair trade takes the exact price of its question to within 2^-27 of what was asked for.
pub fn price_moves()
    ensures { PriceMoves }
{}

/// A solvent trade leaves its user's factor at least one in each possible state.
pub fn solvent_stays()
    ensures { SolventStays }
{}
