//! Judgements of the interval that is printed for one value of a distribution.
ghost use Rattle.std.specs.Prelude.{◌≡◌, ⊤, false, Some, IsTrue};
ghost use Rattle.mk_judge.specs.Below.{Side, IsWanted, IsFloorSolvent, IsRightInterval, NoShare};
ghost use Rattle.mk_judge.specs.Below.{AreBoundsOf, AreExact};
ghost use Rattle.mk_judge.specs.Judged.{Judges};
ghost use Rattle.mk_judge.specs.Units.{AreSideBounds, HasTradeRange};
ghost use Rattle.mk_judge.specs.Wanted.{IsWantedNear, SomeShare};
ghost use Rattle.mk_judge.specs.Questions.{IsSideNear};

use crate::Judged;
use crate::exact::judge_same;
use crate::inside::{judge_inside, judge_wanted};
use crate::limits::judge_tradable;
use crate::question::are_in_range;
use crate::wanting::wanted_of;
use mk_quote::SideBounds;

/// Judges the least and the greatest share that are printed for one value: what is inside can be
/// traded, and what can well be traded is inside. With `small` set nothing was rounded, and one
/// answer alone is right.
pub fn judge_interval(bounds: &SideBounds, small: bool, low: u32, high: u32) -> Judged
    requires range { HasTradeRange bounds.now.factor }
    ensures allowed { result ≡ Judged.Allowed → (side : Side)
        → AreSideBounds bounds.now small side → IsRightInterval (IsTrue small) side (low, high) }
    ensures wrong { result ≡ Judged.Wrong → (side : Side) → AreSideBounds bounds.now small side
        → IsRightInterval (IsTrue small) side (low, high) → ⊥ }
    ensures unclear { result ≡ Judged.Unclear → (side : Side)
        → AreSideBounds bounds.now small side → IsSideNear bounds.now side low high }
    ensures clear { result ≡ Judged.Unclear → small ≡ false }
{
    if small {
        judge_exact_interval(bounds, low, high)
    } else {
        judge_large_interval(bounds, low, high)
    }
}

/// In the small case. It is never unclear.
fn judge_exact_interval(bounds: &SideBounds, low: u32, high: u32) -> Judged
    ensures allowed { result ≡ Judged.Allowed → (side : Side) → AreBoundsOf bounds.now side
        → AreExact bounds.now → IsRightInterval ⊤ side (low, high) }
    ensures wrong { result ≡ Judged.Wrong → (side : Side) → AreBoundsOf bounds.now side
        → AreExact bounds.now → IsRightInterval ⊤ side (low, high) → ⊥ }
    ensures clear { result ≡ Judged.Unclear → ⊥ }
{
    judge_same(bounds.interval(), Some((low, high)))
}

/// Outside of it.
fn judge_large_interval(bounds: &SideBounds, low: u32, high: u32) -> Judged
    requires range { HasTradeRange bounds.now.factor }
    ensures { (side : Side) → AreSideBounds bounds.now false side
        → Judges result (IsRightInterval ⊥ side (low, high)) (IsSideNear bounds.now side low high) }
{
    if !are_in_range(low, high) {
        return Judged::Wrong;
    }
    judge_tradable(bounds, low, high).and(judge_wanted(bounds, Some((low, high))))
}

/// Judges the claim that no share of one value can well be traded, and in the small case that the
/// exact floor allows none. Where that is wrong, some share can.
pub fn judge_no_share(bounds: &SideBounds, small: bool) -> Judged
    requires range { HasTradeRange bounds.now.factor }
    ensures allowed { result ≡ Judged.Allowed → (side : Side)
        → AreSideBounds bounds.now small side → NoShare IsWanted (Some side)
        × (IsTrue small → NoShare IsFloorSolvent (Some side)) }
    ensures some_solvent { result ≡ Judged.Wrong → (side : Side)
        → AreSideBounds bounds.now small side → IsTrue small → SomeShare IsFloorSolvent side }
    ensures some_wanted { result ≡ Judged.Wrong → (side : Side)
        → AreSideBounds bounds.now small side → small ≡ false → SomeShare IsWanted side }
    ensures unclear { result ≡ Judged.Unclear → (side : Side)
        → AreSideBounds bounds.now small side → IsWantedNear bounds.now side }
    ensures clear { result ≡ Judged.Unclear → small ≡ false }
{
    if small {
        judge_none_served(bounds)
    } else {
        judge_inside(&wanted_of(bounds), None)
    }
}

/// In the small case: whether no share serves. It is never unclear.
fn judge_none_served(bounds: &SideBounds) -> Judged
    ensures allowed { result ≡ Judged.Allowed → (side : Side) → AreBoundsOf bounds.now side
        → AreExact bounds.now
        → NoShare IsWanted (Some side) × NoShare IsFloorSolvent (Some side) }
    ensures wrong { result ≡ Judged.Wrong → (side : Side) → AreBoundsOf bounds.now side
        → AreExact bounds.now → SomeShare IsFloorSolvent side }
    ensures clear { result ≡ Judged.Unclear → ⊥ }
{
    match bounds.interval() {
        Some(_) => Judged::Wrong,
        None => Judged::Allowed,
    }
}
