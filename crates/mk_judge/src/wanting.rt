//! The shares of one side that are wanted: those that can well be traded.
ghost use Rattle.std.specs.Prelude.{◌≡◌, ℕ, ◌+◌, ◌*◌, ◌^◌, ◌<◌, ◌≤◌, ◌↔◌, min, false, MatchOption};
ghost use Rattle.mk_judge.specs.Below.{Side, IsWanted, Encloses, max_share};
ghost use Rattle.mk_judge.specs.Powers.{StandsBeside};
ghost use Rattle.mk_judge.specs.Units.{AreSideBounds, HasTradeRange};
ghost use Rattle.mk_judge.specs.Wanted.{IsSomeNear, IsWantedNear, HasEnds};
ghost use Rattle.mk_judge.specs.inner.Products.{product_of, IsAboveOne};

use crate::multiply::{product_down, product_up};
use crate::product::Product;
use crate::scale::Scale;
use crate::wanted::Wanted;
use mk_enclose::Enclosure;
use mk_names::limits::MILLION;
use mk_quote::SideBounds;
use mk_scaled::Scaled;

/// The parts that make a whole: one more than the greatest share.
const PARTS: u64 = MILLION as u64;

/// What a part is multiplied by in the first inequality of a wanted share.
const ABOVE_ONE: u64 = PARTS * ((1 << 19) + 1);

/// What it is multiplied by in the second: a move of the price by `2^22`.
const NOT_FAR: u64 = PARTS << 22;

/// The shares of one side that are wanted, by its bounds. The ends lie apart only where two
/// numbers are near that decide about some share.
pub fn wanted_of(bounds: &SideBounds) -> Wanted
    requires range { HasTradeRange bounds.now.factor }
    ensures { (side : Side) → AreSideBounds bounds.now false side
        → HasEnds result (IsWanted side) (IsWantedNear bounds.now side) }
{
    if bounds.factor.trades == 0 {
        wanted_by(
            &bounds.part,
            &bounds.whole,
            &Enclosure::exact(1),
            &Scale::of_trade(&bounds.factor),
        )
    } else {
        wanted_by(
            &bounds.part,
            &bounds.whole,
            &bounds.factor.gain,
            &Scale::of_trade(&bounds.factor),
        )
    }
}

/// The same by the enclosures of both weights and of a gain, beside a factor's powers of two.
fn wanted_by(part: &Enclosure, whole: &Enclosure, gain: &Enclosure, scale: &Scale) -> Wanted
    ensures { (side : Side) (g : ℕ) → Encloses part.now side.price.num
        → Encloses whole.now side.price.den → Encloses gain.now g
        → StandsBeside scale.now g side.least.num side.least.den
        → HasEnds result (IsWanted side) (IsSomeNear part.now whole.now gain.now side) }
{
    let greatest = product_up(&gain.hi(), &whole.hi());
    let least = product_down(&gain.lo(), &whole.lo());
    Wanted {
        outer_low: first_share(&part.lo(), &greatest, scale),
        inner_low: first_share(&part.hi(), &least, scale),
        inner_high: last_share(&part.lo(), &whole.hi()),
        outer_high: last_share(&part.hi(), &whole.lo()),
    }
}

/// The first share that is above one for a part and a product, or a million where none is.
fn first_share(part: &Scaled, product: &Product, scale: &Scale) -> u32
    ensures at_most { result ≤ 1000000 }
    ensures first { (X : ℕ) → X ≤ max_share
        → (result ≤ X) ↔ IsAboveOne scale.now part.now (product_of product.now) X }
{
    let below = part.exponent() + scale.owed;
    let above = product.bits + (scale.gained + 19);
    let more = below.saturating_sub(above).min(256);
    let less = above.saturating_sub(below).min(256);
    let start = Scaled::of_whole(part.mantissa()).shift(more);
    capped(start.div_ceil(ABOVE_ONE, &product.number.shift(less), 1))
}

/// A number of shares, or a million where that is less.
fn capped(shares: Option<u64>) -> u32
    ensures at_most { result ≤ 1000000 }
    ensures value { MatchOption shares (result ≡ 1000000) (λ n. result ≡ min n 1000000) }
{
    match shares {
        Some(number) => number.min(PARTS) as u32,
        None => PARTS as u32,
    }
}

/// The last share that is not far for a part and a whole.
fn last_share(part: &Scaled, whole: &Scaled) -> u32
    requires positive { 1 ≤ whole.now }
    ensures at_most { result ≤ max_share }
    ensures last { (X : ℕ) → X ≤ max_share
        → (X ≤ result) ↔ (X * whole.now ≤ part.now * (1000000 * 2 ^ 22)) }
{
    match part.div_floor(NOT_FAR, whole, 1) {
        Some(share) => share.min(PARTS - 1) as u32,
        None => (PARTS - 1) as u32,
    }
}
