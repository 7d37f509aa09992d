//! Judgements of the units of a trade.
ghost use Rattle.std.specs.Prelude.{◌≡◌, ℕ, ◌+◌, ◌*◌, ◌^◌, ◌<◌, ◌≤◌, ⊤, IsTrue};
ghost use Rattle.mk_judge.specs.Below.{number_limit, Fraction, IsFair, Side, IsFairAndSolvent};
ghost use Rattle.mk_judge.specs.Below.{Encloses, IsExact, max_share};
ghost use Rattle.mk_judge.specs.Judged.{Judges};
ghost use Rattle.mk_judge.specs.Units.{AreSideBounds, HasTradeRange, IsFairNear, AreUnitsNear};

use crate::Judged;
use crate::share::compare_below;
use crate::solvency::judge_solvent;
use mk_enclose::Enclosure;
use mk_names::limits::{MILLION, RATIO_UNIT};
use mk_quote::SideBounds;

/// Judges units that are printed for one side of a trade to `share` parts in a million. With
/// `small` set nothing was rounded, and
/// the bounds leave nothing open.
pub fn judge_units(bounds: &SideBounds, small: bool, share: u32, units: u64) -> Judged
    requires share { share ≤ max_share }
    requires range { HasTradeRange bounds.now.factor }
    ensures allowed { result ≡ Judged.Allowed → (side : Side)
        → AreSideBounds bounds.now small side → IsFairAndSolvent (IsTrue small) side share units }
    ensures wrong { result ≡ Judged.Wrong → (side : Side) → AreSideBounds bounds.now small side
        → IsFairAndSolvent (IsTrue small) side share units → ⊥ }
    ensures unclear { result ≡ Judged.Unclear → (side : Side)
        → AreSideBounds bounds.now small side → AreUnitsNear bounds.now small side units share }
{
    if units == 0 || units >= 1 << 63 {
        return Judged::Wrong;
    }
    let solvent = judge_solvent(&bounds.factor, units);
    if small {
        exactly_fair(&bounds.part, &bounds.whole, share, units).and(solvent)
    } else {
        nearly_fair(&bounds.part, &bounds.whole, share, units).and(solvent)
    }
}

/// Where the floor of the units for the share is fair, and nothing else.
fn exactly_fair(part: &Enclosure, whole: &Enclosure, share: u32, units: u64) -> Judged
    requires share { share ≤ max_share }
    requires some { 1 ≤ units }
    requires fits { units < number_limit }
    ensures { (price : Fraction) → Encloses part.now price.num → Encloses whole.now price.den
        → IsExact part.now → IsExact whole.now
        → Judges result (IsFair ⊤ units share price) ⊥ }
{
    let times = share as u64 * RATIO_UNIT;
    let not_above = Judged::at_most(compare_below(whole, times, part, MILLION as u64, units));
    let floor = Judged::above(compare_below(whole, times, part, MILLION as u64, units + 1));
    not_above.and(floor)
}

/// Where units that are less than that floor by less than one part in `2^30` are fair too.
fn nearly_fair(part: &Enclosure, whole: &Enclosure, share: u32, units: u64) -> Judged
    requires share { share ≤ max_share }
    requires some { 1 ≤ units }
    requires fits { units < number_limit }
    ensures { (price : Fraction) → Encloses part.now price.num → Encloses whole.now price.den
        → Judges result (IsFair ⊥ units share price) (IsFairNear part.now whole.now price units share) }
{
    let times = share as u64 * RATIO_UNIT;
    let less = share as u64 * ((1 << 30) - 1) * (1 << 10);
    let not_above = Judged::at_most(compare_below(whole, times, part, MILLION as u64, units));
    let close = Judged::above(compare_below(whole, less, part, MILLION as u64, units + 1));
    not_above.and(close)
}
