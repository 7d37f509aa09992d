//! Judgements of lists of printed numbers, one place after another.
ghost use Rattle.std.specs.Prelude.{◌≡◌, ℕ, ◌≤◌, List, IfSome, IsSomeAnd, All};
ghost use Rattle.mk_verify.specs.Below.{AllZip, Asked, max_points_per_bit, sharpness, AreEnds};
ghost use Rattle.mk_verify.specs.Below.{with_target, Entry, Market, IsSound, IsSmall, exact_price};
ghost use Rattle.mk_verify.specs.Below.{CoversPrice, SpreadAsked, asked_of, ArePricesOf};
ghost use Rattle.mk_verify.specs.Below.{IsPositionOf, IsSureOf, Judges, HasCashRange};
ghost use Rattle.mk_verify.specs.Below.{HavePriceRange, AreBoundsOfPrice, IsSureFactor};
ghost use Rattle.mk_verify.specs.Below.{evidence_grade, TellsSmall};
ghost use Rattle.mk_verify.specs.Clear.{IsPriceOpen, IsPlaceOpen, IsLeastCashOpen};
ghost use Rattle.mk_verify.specs.inner.Judging.{AreBoundsOfPrices, AreSureFactorsOf};

use mk_enclose::Factor;
use mk_judge::{Judged, PriceBounds, judge_price};
use mk_judge_points::judge_cash;

/// Judges the prices that are printed for the values of a variable, in order, in a market of at
/// most so many trades.
pub fn judge_each_price(
    bounds: &[Option<PriceBounds>],
    small: bool,
    most_trades: u32,
    told: &[(u64, u64)],
) -> Judged
    requires range { All (λ found. IfSome found HavePriceRange) bounds.now }
    ensures { (market : Market) (H : List Entry) (spread : SpreadAsked)
        → TellsSmall small market H → most_trades ≡ market.max_trades
        → AreBoundsOfPrices market H spread bounds.now
        → Judges result (ArePricesOf market.network H market.max_trades spread told.now)
        (IsPlaceOpen told.now (λ value ends. IsPriceOpen market H (asked_of spread value) ends)) }
{
    if bounds.len() != told.len() {
        return Judged::Wrong;
    }
    let mut judged = Judged::Allowed;
    for value in 0..bounds.len() {
        judged = judged.and(judge_value_price(&bounds[value], small, most_trades, told[value]));
    }
    judged
}

/// Judges the price of one value.
fn judge_value_price(
    bounds: &Option<PriceBounds>,
    small: bool,
    most_trades: u32,
    told: (u64, u64),
) -> Judged
    requires range { IfSome bounds.now HavePriceRange }
    ensures { (market : Market) (H : List Entry) (asked : Asked) → TellsSmall small market H
        → most_trades ≡ market.max_trades
        → IsSomeAnd bounds.now (AreBoundsOfPrice (evidence_grade market H)
        market.network H asked)
        → Judges result (CoversPrice (IsSmall market.network H) (sharpness market.max_trades)
        (exact_price market.network H asked) told.0 told.1)
        (IsPriceOpen market H asked told) }
{
    match bounds {
        Some(bounds) => judge_price(bounds, small, most_trades, told.0, told.1),
        None => Judged::Wrong,
    }
}

/// Judges what a user is said to be sure of where each value of a variable comes, in order.
pub fn judge_each_position(
    factors: &[Option<Factor>],
    small: bool,
    most_trades: u32,
    points_per_bit: u32,
    told: &[Option<(u64, u64)>],
) -> Judged
    requires some_points { 1 ≤ points_per_bit }
    requires few_points { points_per_bit ≤ max_points_per_bit }
    requires range { All (λ found. IfSome found (λ factor. HasCashRange factor points_per_bit))
        factors.now }
    requires fits { All AreEnds told.now }
    ensures { (market : Market) (H : List Entry) (u : ℕ) (spread : SpreadAsked)
        → TellsSmall small market H → IsSound market.network H
        → most_trades ≡ market.max_trades → points_per_bit ≡ market.points_per_bit
        → AreSureFactorsOf market H u spread factors.now
        → Judges result
        (IsPositionOf market.network H market.max_trades u market.points_per_bit spread told.now)
        (IsPlaceOpen told.now (λ value ends. IsSomeAnd ends
        (IsLeastCashOpen market H u (with_target (asked_of spread value))))) }
{
    if factors.len() != told.len() {
        return Judged::Wrong;
    }
    let mut judged = Judged::Allowed;
    for value in 0..factors.len() {
        judged = judged.and(judge_value_cash(
            &factors[value],
            small,
            most_trades,
            points_per_bit,
            told[value],
        ));
    }
    judged
}

/// Judges what a user is said to be sure of where one value comes: none exactly where it cannot.
fn judge_value_cash(
    factor: &Option<Factor>,
    small: bool,
    most_trades: u32,
    points_per_bit: u32,
    told: Option<(u64, u64)>,
) -> Judged
    requires some_points { 1 ≤ points_per_bit }
    requires few_points { points_per_bit ≤ max_points_per_bit }
    requires range { IfSome factor.now (λ factor. HasCashRange factor points_per_bit) }
    requires fits { AreEnds told }
    ensures { (market : Market) (H : List Entry) (u value : ℕ) (spread : SpreadAsked)
        → TellsSmall small market H → IsSound market.network H
        → most_trades ≡ market.max_trades → points_per_bit ≡ market.points_per_bit
        → IsSureFactor (evidence_grade market H) market.network H u
        (with_target (asked_of spread value))
        factor.now
        → Judges result
        (IsSureOf market.network H market.max_trades u market.points_per_bit spread value told)
        (IsSomeAnd told (IsLeastCashOpen market H u (with_target (asked_of spread value)))) }
{
    match (factor, told) {
        (None, None) => Judged::Allowed,
        (Some(factor), Some((low, high))) => {
            judge_cash(factor, small, most_trades, points_per_bit, low, high)
        }
        (None, Some(_)) | (Some(_), None) => Judged::Wrong,
    }
}
