//! Judgements of the limits that are printed for a question.
ghost use Rattle.std.specs.Prelude.{◌≡◌, ◌-◌, ◌⊎◌, ◌↔◌, false, Some, IsTrue};
ghost use Rattle.mk_judge.specs.Below.{million, Side, IsWithinRange, AreRight, hit_side, miss_side};
ghost use Rattle.mk_judge.specs.Judged.{Judges};
ghost use Rattle.mk_judge.specs.Units.{AreSideBounds, HasTradeRange};
ghost use Rattle.mk_judge.specs.Limits.{CanBeTraded, IsIntervalNear};
ghost use Rattle.mk_judge.specs.Questions.{AreTwoSides, AreLimitsNear};

use crate::Judged;
use crate::exact::judge_exact_limits;
use crate::inside::{judge_inside, wanted_of_both};
use crate::limits::judge_tradable;
use crate::wanting::wanted_of;
use mk_names::limits::MILLION;
use mk_quote::{Bounds, SideBounds};

/// Judges the limits that are printed for a question: what is inside can be traded, and what can
/// well be traded is inside. With `small` set nothing was rounded, and one answer alone is right.
pub fn judge_limits(bounds: &Bounds, small: bool, limits: Option<(u32, u32)>) -> Judged
    requires hit_range { HasTradeRange bounds.now.hit_factor }
    requires miss_range { HasTradeRange bounds.now.miss_factor }
    ensures allowed { result ≡ Judged.Allowed → (hit miss : Side)
        → AreTwoSides bounds.now small hit miss → AreRight (IsTrue small) hit miss limits }
    ensures wrong { result ≡ Judged.Wrong → (hit miss : Side)
        → AreTwoSides bounds.now small hit miss → AreRight (IsTrue small) hit miss limits → ⊥ }
    ensures unclear { result ≡ Judged.Unclear → (hit miss : Side)
        → AreTwoSides bounds.now small hit miss → AreLimitsNear bounds.now hit miss limits }
    ensures clear { result ≡ Judged.Unclear → small ≡ false }
{
    if small {
        judge_exact_limits(bounds, limits)
    } else {
        judge_large_limits(bounds, limits)
    }
}

/// Outside of the small case.
fn judge_large_limits(bounds: &Bounds, limits: Option<(u32, u32)>) -> Judged
    requires hit_range { HasTradeRange bounds.now.hit_factor }
    requires miss_range { HasTradeRange bounds.now.miss_factor }
    ensures { (hit miss : Side) → AreTwoSides bounds.now false hit miss
        → Judges result (AreRight ⊥ hit miss limits) (AreLimitsNear bounds.now hit miss limits) }
{
    let hit = hit_side_of(bounds);
    let miss = miss_side_of(bounds);
    let inside = judge_inside(&wanted_of_both(&wanted_of(&hit), &wanted_of(&miss)), limits);
    match limits {
        Some((low, high)) => judge_between(&hit, &miss, low, high).and(inside),
        None => inside,
    }
}

/// Whether limits are in order, and each share between them can be traded on both sides.
fn judge_between(hit: &SideBounds, miss: &SideBounds, low: u32, high: u32) -> Judged
    requires hit_range { HasTradeRange hit.now.factor }
    requires miss_range { HasTradeRange miss.now.factor }
    ensures { (of_hit of_miss : Side) → AreSideBounds hit.now false of_hit
        → AreSideBounds miss.now false of_miss
        → Judges result (IsWithinRange (Some (low, high)) × CanBeTraded of_hit low high
        × CanBeTraded of_miss (million - high) (million - low))
        (IsIntervalNear hit.now of_hit low high
        ⊎ IsIntervalNear miss.now of_miss (million - high) (million - low)) }
{
    if !are_in_range(low, high) {
        return Judged::Wrong;
    }
    judge_tradable(hit, low, high).and(judge_tradable(miss, MILLION - high, MILLION - low))
}

/// Whether limits are in order, and from 1 to 999,999.
pub fn are_in_range(low: u32, high: u32) -> bool
    ensures { IsTrue result ↔ IsWithinRange (Some (low, high)) }
{
    1 <= low && low <= high && high < MILLION
}

/// The side of the target.
fn hit_side_of(bounds: &Bounds) -> SideBounds
    ensures { result ≡ hit_side bounds.now }
{
    SideBounds {
        part: bounds.hit,
        whole: bounds.whole,
        factor: bounds.hit_factor,
    }
}

/// The side of the other values.
fn miss_side_of(bounds: &Bounds) -> SideBounds
    ensures { result ≡ miss_side bounds.now }
{
    SideBounds {
        part: bounds.miss,
        whole: bounds.whole,
        factor: bounds.miss_factor,
    }
}
