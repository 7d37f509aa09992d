//! The units that leave a factor at least one.
ghost use Rattle.std.specs.Prelude.{◌≡◌, ℕ, ◌+◌, ◌*◌, ◌^◌, ◌<◌, ◌≤◌, MatchBool, MatchOption};
ghost use Rattle.mk_judge.specs.Below.{number_limit, unit, Fraction, IsSolvent, Encloses, HasGrade};
ghost use Rattle.mk_judge.specs.Below.{IsExact};
ghost use Rattle.mk_judge.specs.Compared.{AreNear, Says};
ghost use Rattle.mk_judge.specs.Judged.{Judges};
ghost use Rattle.mk_judge.specs.Powers.{StandsBeside};
ghost use Rattle.mk_judge.specs.Cash.{IsHeld};
ghost use Rattle.mk_judge.specs.Units.{HasTradeRange, IsSolvencyNear};
ghost use Rattle.mk_judge.specs.inner.Solvency.{AreEnough, AreLeast, AreTooMany};

use crate::Judged;
use crate::comparing::Compared;
use crate::scale::Scale;
use mk_enclose::{Enclosure, Factor};
use mk_scaled::Scaled;

/// Judges units by whether one more trade of them leaves a factor at least one.
pub fn judge_solvent(factor: &Factor, units: u64) -> Judged
    requires range { HasTradeRange factor.now }
    requires fits { units < number_limit }
    ensures { (q : Fraction) → IsHeld factor.now q
        → Judges result (IsSolvent units q) (IsSolvencyNear factor.now q units) }
{
    let scale = Scale::of_trade(factor);
    if factor.trades == 0 {
        Judged::at_most(compare_solvent(&Enclosure::exact(1), &scale, units))
    } else {
        Judged::at_most(compare_solvent(&factor.gain, &scale, units))
    }
}

/// Compares a factor of one with what so many units make of it.
fn compare_solvent(gain: &Enclosure, scale: &Scale, units: u64) -> Compared
    requires room { scale.now.owed + 40 < 2 ^ 50 }
    requires fits { units < number_limit }
    ensures { (g z w : ℕ) → Encloses gain.now g → StandsBeside scale.now g z w
        → Says result (unit * w) (units * z) ((IsExact gain.now → ⊥) × ((h : ℕ)
        → HasGrade gain.now h → AreNear (unit * w) (units * z) h)) }
{
    if are_enough(&gain.lo(), scale, units) {
        Compared::AtMost
    } else if are_enough(&gain.hi(), scale, units) {
        Compared::Unsure
    } else {
        Compared::Above
    }
}

/// Whether so many units of a gain are enough.
fn are_enough(gain: &Scaled, scale: &Scale, units: u64) -> bool
    requires positive { 1 ≤ gain.now }
    requires room { scale.now.owed + 40 < 2 ^ 50 }
    requires fits { units < number_limit }
    ensures { MatchBool result (AreEnough scale.now gain.now units) (units * gain.now * 2 ^ scale.now.gained < 2 ^ (40 + scale.now.owed)) }
{
    match least_units(gain, scale) {
        Some(least) => least <= units,
        None => false,
    }
}

/// The least units of a gain that are enough. None where they are `2^63` or more.
pub fn least_units(gain: &Scaled, scale: &Scale) -> Option<u64>
    requires positive { 1 ≤ gain.now }
    requires room { scale.now.owed + 40 < 2 ^ 50 }
    ensures { MatchOption result (AreTooMany scale.now gain.now) (λ n. AreLeast scale.now gain.now n) }
{
    let bits = 40 + scale.owed;
    if bits <= scale.gained {
        return Some(1);
    }
    Scaled::of_whole(1)
        .shift(bits - scale.gained)
        .div_ceil(1, gain, 1)
}
