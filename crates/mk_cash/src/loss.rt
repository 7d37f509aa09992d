//! The most that the operator can lose.
ghost use Rattle.std.specs.Prelude.{◌≡◌, ℕ, ◌+◌, ◌*◌, ◌^◌, ◌<◌, ◌≤◌};
ghost use Rattle.mk_cash.specs.Below.{max_variables, max_points_per_bit, number_limit, million};
ghost use Rattle.mk_cash.specs.Below.{CoversBound, IsNear, two_to, upper_of, Encloses};
ghost use Rattle.mk_cash.specs.Below.{IsGradedWithin, IsExact};
ghost use Rattle.mk_cash.specs.inner.Quotient.{IsLessNear};

use mk_enclose::Enclosure;
use mk_names::limits::MILLION;
use mk_scaled::Scaled;

/// Bounds on the most that the operator can lose, in points: `points_per_bit` times the logarithm to base 2 of
/// `10^(6 * variables) / least`, rounded down. `least` holds the least initial weight of the possible states.
///
/// The two are at most one apart where it is of a grade of at most `2^17`, and exact with up to three variables.
/// Nothing is said of a weight above `10^(6 * variables)` but that both numbers are small.
pub fn bound(least: &Enclosure, variables: u32, points_per_bit: u32) -> (u64, u64)
    requires some_variables { 1 ≤ variables }
    requires few_variables { variables ≤ max_variables }
    requires some_points { 1 ≤ points_per_bit }
    requires few_points { points_per_bit ≤ max_points_per_bit }
    requires range { upper_of least.now ≤ two_to 6000 }
    ensures covers { (m : ℕ) → Encloses least.now m → m ≤ million ^ variables → IsGradedWithin least.now (2 ^ 17) → (million ^ variables < number_limit → IsExact least.now) → CoversBound (million ^ variables) m points_per_bit result.0 result.1 }
    ensures low_fits { result.0 < number_limit }
    ensures high_fits { result.1 < number_limit }
{
    let total = initial_total(variables);
    let low = bits_down(&total.lo(), &least.hi(), points_per_bit);
    let high = bits_up(&total.hi(), &least.lo(), points_per_bit);
    (low, high)
}

/// The initial weights of all states together: a million for each variable.
fn initial_total(variables: u32) -> Enclosure
    requires some { 1 ≤ variables }
    requires few { variables ≤ max_variables }
    ensures encloses { Encloses result (million ^ variables) }
    ensures grade { IsGradedWithin result (2 ^ 10) }
    ensures exact { million ^ variables < number_limit → IsExact result }
    ensures upper { upper_of result ≤ two_to 6000 }
{
    if variables <= 3 {
        return Enclosure::exact((MILLION as u64).pow(variables));
    }
    let share = Scaled::of_whole(MILLION as u64);
    Enclosure::between(share.pow_down(variables), share.pow_up(variables))
}

/// The whole bits of the power of `num / den`, rounded down; 0 where `num` is less than `den`.
fn bits_down(num: &Scaled, den: &Scaled, power: u32) -> u64
    requires positive { 1 ≤ power }
    requires small { power ≤ max_points_per_bit }
    requires range { num.now ≤ two_to 6000 }
    ensures none { num.now < den.now → result ≡ 0 }
    ensures within { den.now ≤ num.now → 2 ^ result * den.now ^ power ≤ num.now ^ power }
    ensures near { IsLessNear (2 ^ (result + 1) * den.now ^ power) (num.now ^ power) (3 * power) }
    ensures fits { result < 2 ^ 62 }
{
    if num < den {
        return 0;
    }
    let bits = num.log2_floor() - den.log2_floor();
    let quotient = quotient_down(num, den, bits);
    let raised = Scaled::of_whole(quotient).pow_down(power);
    (raised.log2_floor() + bits * power as u64).saturating_sub(61 * power as u64)
}

/// The whole bits of the power of `num / den`, rounded up; 0 where `num` is less than `den`.
fn bits_up(num: &Scaled, den: &Scaled, power: u32) -> u64
    requires positive { 1 ≤ power }
    requires small { power ≤ max_points_per_bit }
    requires range { num.now ≤ two_to 6000 }
    ensures above { num.now ^ power < 2 ^ (result + 1) * den.now ^ power }
    ensures near { den.now ≤ num.now → IsNear (num.now ^ power) (2 ^ result * den.now ^ power) (3 * power) }
    ensures fits { result < 2 ^ 62 }
{
    if num < den {
        return 0;
    }
    let bits = num.log2_floor() - den.log2_floor();
    let quotient = quotient_up(num, den, bits);
    let raised = Scaled::of_whole(quotient).pow_up(power);
    (raised.log2_floor() + bits * power as u64).saturating_sub(61 * power as u64)
}

/// `num / den` in units of `2^(bits - 61)`, rounded down, where `bits` are those of the quotient, or one more.
fn quotient_down(num: &Scaled, den: &Scaled, bits: u64) -> u64
    requires more { den.now * 2 ^ bits < 2 * num.now }
    requires less { num.now < 2 * (den.now * 2 ^ bits) }
    requires range { num.now ≤ two_to 6000 }
    ensures below { result * (den.now * 2 ^ bits) ≤ num.now * 2 ^ 61 }
    ensures close { num.now * 2 ^ 61 < (result + 1) * (den.now * 2 ^ bits) }
    ensures full { 2 ^ 60 ≤ result }
    ensures fits { result < 2 ^ 62 }
{
    match num.shift(2).div_floor(1 << 59, &den.shift(bits), 1) {
        Some(floor) => floor,
        None => unreachable!(),
    }
}

/// `num / den` in units of `2^(bits - 61)`, rounded up, where `bits` are those of the quotient, or one more.
fn quotient_up(num: &Scaled, den: &Scaled, bits: u64) -> u64
    requires more { den.now * 2 ^ bits < 2 * num.now }
    requires less { num.now < 2 * (den.now * 2 ^ bits) }
    requires range { num.now ≤ two_to 6000 }
    ensures above { num.now * 2 ^ 61 ≤ result * (den.now * 2 ^ bits) }
    ensures close { result * (den.now * 2 ^ bits) < num.now * 2 ^ 61 + den.now * 2 ^ bits }
    ensures full { 2 ^ 60 < result }
    ensures fits { result ≤ 2 ^ 62 }
{
    match num.shift(2).div_ceil(1 << 59, &den.shift(bits), 1) {
        Some(ceiling) => ceiling,
        None => unreachable!(),
    }
}
