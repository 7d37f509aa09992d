//! Judgements of the shares that can be traded.
ghost use Rattle.std.specs.Prelude.{◌≡◌, ℕ, ◌+◌, ◌*◌, ◌^◌, ◌<◌, ◌≤◌, false};
ghost use Rattle.mk_judge.specs.Below.{number_limit, Side, AreBoundsOf, max_share};
ghost use Rattle.mk_judge.specs.Judged.{Judges};
ghost use Rattle.mk_judge.specs.Units.{AreSideBounds, HasTradeRange};
ghost use Rattle.mk_judge.specs.Limits.{CanBeTraded, IsLeastSolvent, AreEndsNear, IsIntervalNear};

use crate::Judged;
use crate::least::{Least, least_of};
use crate::share::compare_below;
use mk_names::limits::{MILLION, RATIO_UNIT};
use mk_quote::SideBounds;

/// Judges, outside of the small case, whether each share of an interval can be traded: whether
/// some units are fair for it and
/// solvent. Its two ends decide: at the low end the least units must be fair, and at the high end
/// the limit of units must reach.
pub fn judge_tradable(bounds: &SideBounds, low: u32, high: u32) -> Judged
    requires in_order { low ≤ high }
    requires share { high ≤ max_share }
    requires range { HasTradeRange bounds.now.factor }
    ensures allowed { result ≡ Judged.Allowed → (side : Side)
        → AreSideBounds bounds.now false side → CanBeTraded side low high }
    ensures wrong { result ≡ Judged.Wrong → (side : Side) → AreSideBounds bounds.now false side
        → CanBeTraded side low high → ⊥ }
    ensures unclear { result ≡ Judged.Unclear → (side : Side)
        → AreSideBounds bounds.now false side → IsIntervalNear bounds.now side low high }
{
    match least_of(&bounds.factor) {
        Least::Units(units) => compare_shares(bounds, units, low, high),
        Least::TooMany => Judged::Wrong,
        Least::Unsure => Judged::Unclear,
    }
}

/// Where the least units are known.
fn compare_shares(bounds: &SideBounds, units: u64, low: u32, high: u32) -> Judged
    requires in_order { low ≤ high }
    requires share { high ≤ max_share }
    requires fits { units < number_limit }
    ensures { (side : Side) → AreBoundsOf bounds.now side → IsLeastSolvent side.least units
        → Judges result (CanBeTraded side low high) (AreEndsNear bounds.now side units low high) }
{
    let least = low as u64 * RATIO_UNIT;
    let most = high as u64 * ((1 << 30) - 1) * (1 << 10);
    let whole = &bounds.whole;
    let part = &bounds.part;
    let fair = Judged::at_most(compare_below(whole, least, part, MILLION as u64, units));
    let reached = Judged::above(compare_below(whole, most, part, MILLION as u64, 1 << 63));
    fair.and(reached)
}
