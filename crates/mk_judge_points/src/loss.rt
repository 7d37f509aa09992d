//! Judgements of the printed bound on the operator's loss.
ghost use Rattle.std.specs.Prelude.{◌≡◌, ℕ, ◌+◌, ◌*◌, ◌^◌, ◌<◌, ◌≤◌};
ghost use Rattle.mk_exact.specs.Risk.{nearness};
ghost use Rattle.mk_judge_points.specs.Below.{max_variables, max_points_per_bit, number_limit};
ghost use Rattle.mk_judge_points.specs.Below.{million, CoversBound, two_to, upper_of, Encloses};
ghost use Rattle.mk_judge_points.specs.Below.{HasGrade, IsGradedWithin, Judges};
ghost use Rattle.mk_judge_points.specs.Cash.{ArePowersNear};
ghost use Rattle.mk_judge_points.specs.Losses.{quotient, IsBoundNear};
ghost use Rattle.mk_judge_points.specs.inner.Ends.{AreCashEnds};

use crate::cash::almost;
use crate::power::{compare_lifted, raised};
use mk_enclose::Enclosure;
use mk_judge::Judged;
use mk_names::limits::MILLION;

/// Judges an interval that is printed for the most that the operator can lose, where `least`
/// holds the least initial weight of
/// the possible states.
pub fn judge_bound(
    least: &Enclosure,
    variables: u32,
    points_per_bit: u32,
    low: u64,
    high: u64,
) -> Judged
    requires some_variables { 1 ≤ variables }
    requires few_variables { variables ≤ max_variables }
    requires some_points { 1 ≤ points_per_bit }
    requires few_points { points_per_bit ≤ max_points_per_bit }
    requires range { upper_of least.now ≤ two_to 6000 }
    requires low_fits { low < number_limit }
    requires high_fits { high < number_limit }
    ensures allowed { result ≡ Judged.Allowed → (m : ℕ) → Encloses least.now m
        → m ≤ million ^ variables
        → CoversBound (million ^ variables) m points_per_bit low high }
    ensures wrong { result ≡ Judged.Wrong → (m : ℕ) → Encloses least.now m → m ≤ million ^ variables
        → CoversBound (million ^ variables) m points_per_bit low high → ⊥ }
    ensures unclear { result ≡ Judged.Unclear → (m : ℕ) → Encloses least.now m
        → m ≤ million ^ variables
        → IsBoundNear least.now variables m points_per_bit low high }
{
    let total = total_of(variables);
    compare_ends(
        least,
        &total,
        parts_of(variables),
        points_per_bit,
        low,
        high,
    )
}

/// The ends may be off by less than one part in two to this power.
fn parts_of(variables: u32) -> u32
    ensures near { nearness (million ^ variables) ≡ 2 ^ result }
    ensures some { 1 ≤ result }
    ensures few { result ≤ 59 }
{
    if variables <= 3 { 58 } else { 42 }
}

/// The initial weights of all states together: a million for each variable.
fn total_of(variables: u32) -> Enclosure
    requires some { 1 ≤ variables }
    requires few { variables ≤ max_variables }
    ensures encloses { Encloses result (million ^ variables) }
    ensures grade { HasGrade result (4 * variables) }
    ensures upper { upper_of result ≤ two_to 6000 }
{
    raised(&Enclosure::exact(MILLION as u64), variables)
}

/// The ends, which may be off by less than one part in `2^parts` of the quotient of the two
/// numbers.
fn compare_ends(
    least: &Enclosure,
    total: &Enclosure,
    parts: u32,
    power: u32,
    low: u64,
    high: u64,
) -> Judged
    requires some_parts { 1 ≤ parts }
    requires few_parts { parts ≤ 59 }
    requires some_points { 1 ≤ power }
    requires few_points { power ≤ max_points_per_bit }
    requires least_range { upper_of least.now ≤ two_to 6000 }
    requires total_range { upper_of total.now ≤ two_to 6000 }
    requires low_fits { low < number_limit }
    requires high_fits { high < number_limit }
    ensures { (m z : ℕ) → Encloses least.now m → Encloses total.now z
        → Judges result (AreCashEnds (2 ^ parts) (quotient z m) power low high)
        ((g h : ℕ) → HasGrade least.now g → HasGrade total.now h
        → ArePowersNear (2 ^ parts) (quotient z m) power low high (power * (g + h + 9))) }
{
    let left = raised(least, power);
    let right = raised(total, power);
    let low_is = Judged::at_most(compare_lifted(&left, low, &right, 0));
    let high_is = Judged::above(compare_lifted(&left, high + 1, &right, 0));
    let less = almost(parts);
    let more = parts as u64 * power as u64;
    let right_less = raised(&total.mul(&less), power);
    let low_near = Judged::above(compare_lifted(&left, low + 1 + more, &right_less, 0));
    let left_less = raised(&least.mul(&less), power);
    let high_near = Judged::at_most(compare_lifted(&left_less, high, &right, more));
    low_is.and(high_is).and(low_near).and(high_near)
}
