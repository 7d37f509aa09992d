//! Judgements of printed cash.
ghost use Rattle.std.specs.Prelude.{◌≡◌, ℕ, ◌+◌, ◌-◌, ◌*◌, ◌^◌, ◌<◌, ◌≤◌, IsTrue};
ghost use Rattle.mk_judge_points.specs.Below.{max_points_per_bit, number_limit, sharpness};
ghost use Rattle.mk_judge_points.specs.Below.{Fraction, CoversCash, upper_of, Encloses, HasGrade};
ghost use Rattle.mk_judge_points.specs.Below.{IsExact, Judges, HasCashRange, IsOwned};
ghost use Rattle.mk_judge_points.specs.inner.Ends.{AreCashEnds};
ghost use Rattle.mk_judge_points.specs.Cash.{IsCashNear, ArePowersNear};

use crate::power::{compare_worth, raised};
use mk_enclose::{Enclosure, Factor};
use mk_judge::{Judged, Scale, near_bits};

/// Judges an interval that is printed for the cash of a factor in a market of at most so many
/// trades. With `small` set the ends are held to the small case.
pub fn judge_cash(
    factor: &Factor,
    small: bool,
    most_trades: u32,
    points_per_bit: u32,
    low: u64,
    high: u64,
) -> Judged
    requires some_points { 1 ≤ points_per_bit }
    requires few_points { points_per_bit ≤ max_points_per_bit }
    requires range { HasCashRange factor.now points_per_bit }
    requires low_fits { low < number_limit }
    requires high_fits { high < number_limit }
    ensures allowed { result ≡ Judged.Allowed → (q : Fraction) → IsOwned factor.now q
        → CoversCash (IsTrue small) (factor.now.trades ≡ 0) (sharpness most_trades) q points_per_bit
        low high }
    ensures wrong { result ≡ Judged.Wrong → (q : Fraction) → IsOwned factor.now q
        → CoversCash (IsTrue small) (factor.now.trades ≡ 0) (sharpness most_trades) q points_per_bit
        low high → ⊥ }
    ensures unclear { result ≡ Judged.Unclear → (q : Fraction) → IsOwned factor.now q
        → IsCashNear small most_trades factor.now q points_per_bit low high }
{
    if factor.trades == 0 {
        idle(&Scale::of(factor, points_per_bit), low, high)
    } else if small {
        traded(factor, 59, points_per_bit, low, high)
    } else {
        traded(factor, near_bits(most_trades), points_per_bit, low, high)
    }
}

/// Where the user holds no trade: the points that were paid in, less those that were taken out.
fn idle(scale: &Scale, low: u64, high: u64) -> Judged
    requires low_fits { low < number_limit }
    requires high_fits { high < number_limit }
    ensures { Judges result ((low + scale.now.owed ≡ scale.now.gained) × (high + scale.now.owed ≡ scale.now.gained)) ⊥ }
{
    if low + scale.owed == scale.gained && high + scale.owed == scale.gained {
        Judged::Allowed
    } else {
        Judged::Wrong
    }
}

/// Where the user holds some trade: the ends may be off by less than one part in `2^parts` of the
/// factor.
fn traded(factor: &Factor, parts: u32, power: u32, low: u64, high: u64) -> Judged
    requires some_parts { 1 ≤ parts }
    requires few_parts { parts ≤ 59 }
    requires some_points { 1 ≤ power }
    requires few_points { power ≤ max_points_per_bit }
    requires range { HasCashRange factor.now power }
    requires low_fits { low < number_limit }
    requires high_fits { high < number_limit }
    ensures { (q : Fraction) → IsOwned factor.now q
        → Judges result (AreCashEnds (2 ^ parts) q power low high)
        ((g : ℕ) → HasGrade factor.now.gain g
        → ArePowersNear (2 ^ parts) q power low high (power * (g + 8))) }
{
    let scale = Scale::of(factor, power);
    let one = Enclosure::exact(1);
    let worth = raised(&factor.gain, power);
    let low_is = Judged::at_most(compare_worth(&one, low, &worth, 0, &scale));
    let high_is = Judged::above(compare_worth(&one, high + 1, &worth, 0, &scale));
    let less = almost(parts);
    let more = parts as u64 * power as u64;
    let worth_less = raised(&factor.gain.mul(&less), power);
    let low_near = Judged::above(compare_worth(&one, low + 1 + more, &worth_less, 0, &scale));
    let all_less = raised(&less, power);
    let high_near = Judged::at_most(compare_worth(&all_less, high, &worth, more, &scale));
    low_is.and(high_is).and(low_near).and(high_near)
}

/// One less than `2^parts`.
pub fn almost(parts: u32) -> Enclosure
    requires some_parts { 1 ≤ parts }
    requires few_parts { parts ≤ 59 }
    ensures upper { upper_of result ≡ 2 ^ parts - 1 }
    ensures encloses { Encloses result (2 ^ parts - 1) }
    ensures grade { HasGrade result 0 }
    ensures exact { IsExact result }
{
    Enclosure::exact((1 << parts) - 1)
}
