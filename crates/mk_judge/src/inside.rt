//! Judgements of whether the shares that are wanted lie inside limits.
ghost use Rattle.std.specs.Prelude.{◌≡◌, ℕ, ◌-◌, ◌≤◌, min, max, false, MatchBool};
ghost use Rattle.mk_exact.specs.Limits.{Side, IsWanted, Inside};
ghost use Rattle.mk_judge.specs.Units.{AreSideBounds, HasTradeRange};
ghost use Rattle.mk_judge.specs.Wanted.{IsWantedNear, LieInside};
ghost use Rattle.mk_judge.specs.inner.Within.{AllInside, SomeOutside, SaysInside};

use crate::Judged;
use crate::wanted::Wanted;
use crate::wanting::wanted_of;
use mk_names::limits::MILLION;
use mk_quote::SideBounds;

/// Judges, outside of the small case, whether each share of one side that is wanted lies inside
/// limits: with None, whether there is none.
pub fn judge_wanted(bounds: &SideBounds, limits: Option<(u32, u32)>) -> Judged
    requires range { HasTradeRange bounds.now.factor }
    ensures allowed { result ≡ Judged.Allowed → (side : Side)
        → AreSideBounds bounds.now false side → LieInside (IsWanted side) limits }
    ensures wrong { result ≡ Judged.Wrong → (side : Side) → AreSideBounds bounds.now false side
        → LieInside (IsWanted side) limits → ⊥ }
    ensures unclear { result ≡ Judged.Unclear → (side : Side)
        → AreSideBounds bounds.now false side → IsWantedNear bounds.now side }
{
    judge_inside(&wanted_of(bounds), limits)
}

/// The shares between the ends against limits.
pub fn judge_inside(wanted: &Wanted, limits: Option<(u32, u32)>) -> Judged
    ensures { SaysInside result wanted.now limits }
{
    if lie_inside(wanted.outer_low, wanted.outer_high, limits) {
        Judged::Allowed
    } else if lie_inside(wanted.inner_low, wanted.inner_high, limits) {
        Judged::Unclear
    } else {
        Judged::Wrong
    }
}

/// Whether each number from one to another lies inside limits.
fn lie_inside(from: u32, to: u32, limits: Option<(u32, u32)>) -> bool
    ensures { MatchBool result (AllInside from to limits) (SomeOutside from to limits) }
{
    if to < from {
        return true;
    }
    match limits {
        Some((low, high)) => low <= from && to <= high,
        None => false,
    }
}

/// The shares that are wanted of both sides: those of the target's side, and the rest of a million
/// of those of the other.
pub fn wanted_of_both(hit: &Wanted, miss: &Wanted) -> Wanted
    ensures outer_low { result.outer_low ≡ max hit.now.outer_low (1000000 - miss.now.outer_high) }
    ensures inner_low { result.inner_low ≡ max hit.now.inner_low (1000000 - miss.now.inner_high) }
    ensures inner_high { result.inner_high ≡ min hit.now.inner_high (1000000 - miss.now.inner_low) }
    ensures outer_high { result.outer_high ≡ min hit.now.outer_high (1000000 - miss.now.outer_low) }
{
    Wanted {
        outer_low: hit.outer_low.max(MILLION - miss.outer_high),
        inner_low: hit.inner_low.max(MILLION - miss.inner_high),
        inner_high: hit.inner_high.min(MILLION - miss.inner_low),
        outer_high: hit.outer_high.min(MILLION - miss.outer_low),
    }
}
