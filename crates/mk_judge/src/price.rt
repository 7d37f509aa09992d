//! Judgements of printed prices.
ghost use Rattle.std.specs.Prelude.{◌≡◌, ℕ, ◌+◌, ◌-◌, ◌*◌, ◌^◌, ◌<◌, ◌≤◌, ⊤, true, false, IsTrue};
ghost use Rattle.mk_judge.specs.Below.{sharpness, Fraction, CoversPrice, upper_of, Encloses};
ghost use Rattle.mk_judge.specs.Below.{HasGrade, IsExact, IsInRange};
ghost use Rattle.mk_judge.specs.Compared.{Says, AreNear};
ghost use Rattle.mk_judge.specs.declared.price.PriceBounds.TheVariants.{Between};
ghost use Rattle.mk_judge.specs.Judged.{Judges};
ghost use Rattle.mk_judge.specs.Prices.{ArePriceBounds, IsPriceBetween, HavePriceRange, IsPriceNear};

use crate::Judged;
use crate::comparing::Compared;
use crate::near::near_part;
use crate::share::{compare_above, compare_below};
use mk_enclose::Enclosure;
use mk_names::limits::PRICE_UNIT;

/// A price by bounds: of what cannot come, of what alone can, or bounds of its numerator and its
/// denominator.
#[derive(Clone, Copy, Debug)]
pub enum PriceBounds {
    Never,
    Always,
    Between { part: Enclosure, whole: Enclosure },
}

/// Judges an interval that is printed for a price in a market of at most so many trades. With
/// `small` set nothing was rounded, and the bounds leave nothing open.
pub fn judge_price(
    bounds: &PriceBounds,
    small: bool,
    most_trades: u32,
    low: u64,
    high: u64,
) -> Judged
    requires { HavePriceRange bounds.now }
    ensures allowed { result ≡ Judged.Allowed → (price : Fraction)
        → ArePriceBounds bounds.now small price → CoversPrice (IsTrue small) (sharpness most_trades) price low high }
    ensures wrong { result ≡ Judged.Wrong → (price : Fraction)
        → ArePriceBounds bounds.now small price → CoversPrice (IsTrue small) (sharpness most_trades) price low high → ⊥ }
    ensures unclear { result ≡ Judged.Unclear → (price : Fraction)
        → ArePriceBounds bounds.now small price
        → IsPriceNear (sharpness most_trades) bounds.now price low high }
    ensures clear { result ≡ Judged.Unclear → (price : Fraction)
        → ArePriceBounds bounds.now small price → small ≡ false }
{
    match bounds {
        PriceBounds::Never => only(0, low, high),
        PriceBounds::Always => only(PRICE_UNIT, low, high),
        PriceBounds::Between { part, whole } => {
            if low > high || high > PRICE_UNIT {
                Judged::Wrong
            } else if small {
                rounded(part, whole, low, high)
            } else {
                graded(part, whole, most_trades, low, high)
            }
        }
    }
}

/// Where one price alone is allowed.
fn only(units: u64, low: u64, high: u64) -> Judged
    ensures { Judges result ((low ≡ units) × (high ≡ units)) ⊥ }
{
    if low == units && high == units {
        Judged::Allowed
    } else {
        Judged::Wrong
    }
}

/// Where the floor and the ceiling alone are allowed.
fn rounded(part: &Enclosure, whole: &Enclosure, low: u64, high: u64) -> Judged
    requires in_order { low ≤ high }
    requires at_most { high ≤ 10 ^ 10 }
    ensures { (price : Fraction) (most_trades : ℕ) → IsPriceBetween part.now whole.now true price
        → Judges result (CoversPrice ⊤ (sharpness most_trades) price low high) ⊥ }
{
    let below = Judged::at_most(compare_below(part, PRICE_UNIT, whole, 1, low));
    let above = Judged::at_most(compare_above(part, PRICE_UNIT, whole, 1, high));
    let floor = Judged::above(compare_below(part, PRICE_UNIT, whole, 1, low + 1));
    let ceiling = Judged::above(compare_above(part, PRICE_UNIT, whole, 1, high.saturating_sub(1)));
    below.and(above).and(floor).and(ceiling)
}

/// Where the price may be off a unit by less than one part in as many as the market's trades leave.
fn graded(part: &Enclosure, whole: &Enclosure, most_trades: u32, low: u64, high: u64) -> Judged
    requires in_order { low ≤ high }
    requires at_most { high ≤ 10 ^ 10 }
    requires part_range { IsInRange (upper_of part.now * 2 ^ 42) }
    requires whole_range { IsInRange (upper_of whole.now * 2 ^ 42) }
    ensures { (price : Fraction) → IsPriceBetween part.now whole.now false price
        → Judges result (CoversPrice ⊥ (sharpness most_trades) price low high)
        (IsPriceNear (sharpness most_trades) (Between part.now whole.now) price low high) }
{
    let near = near_part(most_trades);
    let below = Judged::at_most(compare_below(part, PRICE_UNIT, whole, 1, low));
    let above = Judged::at_most(compare_above(part, PRICE_UNIT, whole, 1, high));
    let low_near = Judged::above(near_below(part, whole, near, low));
    let high_near = Judged::above(near_above(part, whole, near, high));
    below.and(above).and(low_near).and(high_near)
}

/// Compares the unit after the low end with a price that is less by one part in `near`.
fn near_below(part: &Enclosure, whole: &Enclosure, near: u64, low: u64) -> Compared
    requires some { 2 ≤ near }
    requires few { low ≤ 10 ^ 10 }
    requires part_range { IsInRange (upper_of part.now * near) }
    requires whole_range { IsInRange (upper_of whole.now * near) }
    ensures { (price : Fraction) → IsPriceBetween part.now whole.now false price
        → Says result ((low + 1) * price.den * near) (10 ^ 10 * price.num * (near - 1))
        ((g h : ℕ) → HasGrade part.now g → HasGrade whole.now h
        → AreNear ((low + 1) * price.den * near) (10 ^ 10 * price.num * (near - 1)) (g + h + 2)) }
{
    let less = part.mul(&Enclosure::exact(near - 1));
    let more = whole.mul(&Enclosure::exact(near));
    compare_below(&less, PRICE_UNIT, &more, 1, low + 1)
}

/// Compares the price with the unit before the high end, less by one part in `near`.
fn near_above(part: &Enclosure, whole: &Enclosure, near: u64, high: u64) -> Compared
    requires some { 2 ≤ near }
    requires few { high ≤ 10 ^ 10 }
    requires part_range { IsInRange (upper_of part.now * near) }
    requires whole_range { IsInRange (upper_of whole.now * near) }
    ensures { (price : Fraction) → IsPriceBetween part.now whole.now false price
        → Says result (10 ^ 10 * price.num * near) ((high - 1) * price.den * (near - 1))
        ((g h : ℕ) → HasGrade part.now g → HasGrade whole.now h
        → AreNear (10 ^ 10 * price.num * near) ((high - 1) * price.den * (near - 1)) (g + h + 2)) }
{
    let more = part.mul(&Enclosure::exact(near));
    let less = whole.mul(&Enclosure::exact(near - 1));
    compare_above(&more, PRICE_UNIT, &less, 1, high.saturating_sub(1))
}
