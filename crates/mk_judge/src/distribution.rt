//! Judgements of whole distributions: of the interval of each value, and of its units.
ghost use Rattle.std.specs.Prelude.{◌≡◌, ◌≤◌, false, List, All, Option, IsTrue, option_map};
ghost use Rattle.mk_judge.specs.Below.{Side, AreRightBounds, AreFairUnits, sides_in, max_share};
ghost use Rattle.mk_judge.specs.Distributions.{AreEachSideBounds, HaveTradeRange};
ghost use Rattle.mk_judge.specs.Distributions.{AreIntervalsNear, AreSomeUnitsNear};

use crate::Judged;
use crate::places::{judge_each_interval, judge_each_units, judge_some_absent};
use mk_quote::SpreadBounds;

/// Judges the intervals that are printed for a whole distribution, one for each value: `(0, 0)`
/// for one that cannot come. None are given where no share of some value can well be traded. With
/// `small` set nothing was rounded, and one answer alone is right.
pub fn judge_intervals(
    bounds: &SpreadBounds,
    small: bool,
    intervals: Option<&[(u32, u32)]>,
) -> Judged
    requires range { HaveTradeRange (sides_in bounds.now) }
    ensures allowed { result ≡ Judged.Allowed → (sides : List (Option Side))
        → AreEachSideBounds (sides_in bounds.now) small sides
        → AreRightBounds (IsTrue small) sides (option_map (λ given. given.now) intervals.entry) }
    ensures wrong { result ≡ Judged.Wrong → (sides : List (Option Side))
        → AreEachSideBounds (sides_in bounds.now) small sides
        → AreRightBounds (IsTrue small) sides (option_map (λ given. given.now) intervals.entry)
        → ⊥ }
    ensures unclear { result ≡ Judged.Unclear → (sides : List (Option Side))
        → AreEachSideBounds (sides_in bounds.now) small sides
        → AreIntervalsNear (sides_in bounds.now) sides
        (option_map (λ given. given.now) intervals.entry) }
    ensures clear { result ≡ Judged.Unclear → (sides : List (Option Side))
        → AreEachSideBounds (sides_in bounds.now) small sides → small ≡ false }
{
    let parts = bounds.parts.as_slice();
    match intervals {
        Some(intervals) => judge_each_interval(bounds, parts, small, intervals),
        None => judge_some_absent(bounds, parts, small),
    }
}

/// Judges the units that are printed for the shares of a whole distribution, in parts in a million:
/// one number for each value, and one whole unit, `2^40`, with a share of 0 for one that cannot
/// come. Other numbers of shares or of units than of values are wrong.
pub fn judge_spread_units(bounds: &SpreadBounds, small: bool, xs: &[u32], units: &[u64]) -> Judged
    requires range { HaveTradeRange (sides_in bounds.now) }
    requires shares { All (λ X. X ≤ max_share) xs.now }
    ensures allowed { result ≡ Judged.Allowed → (sides : List (Option Side))
        → AreEachSideBounds (sides_in bounds.now) small sides
        → AreFairUnits (IsTrue small) sides xs.now units.now }
    ensures wrong { result ≡ Judged.Wrong → (sides : List (Option Side))
        → AreEachSideBounds (sides_in bounds.now) small sides
        → AreFairUnits (IsTrue small) sides xs.now units.now → ⊥ }
    ensures unclear { result ≡ Judged.Unclear → (sides : List (Option Side))
        → AreEachSideBounds (sides_in bounds.now) small sides
        → AreSomeUnitsNear small (sides_in bounds.now) sides xs.now units.now }
    ensures clear { result ≡ Judged.Unclear → (sides : List (Option Side))
        → AreEachSideBounds (sides_in bounds.now) small sides → small ≡ false }
{
    judge_each_units(bounds, bounds.parts.as_slice(), small, xs, units)
}
