//! The points that a factor is worth.
ghost use Rattle.std.specs.Prelude.{◌≡◌, ℕ, ◌+◌, ◌-◌, ◌*◌, ◌^◌, ◌<◌, ◌≤◌};
ghost use Rattle.mk_cash.specs.Below.{max_points_per_bit, number_limit, sharpness, grade_room};
ghost use Rattle.mk_cash.specs.Below.{Fraction, IsAtLeastOne, CoversCash, rounded_down, rounded_up};
ghost use Rattle.mk_cash.specs.Below.{power_by, whole_log, IsNear, IsInRange, lower_of, upper_of};
ghost use Rattle.mk_cash.specs.Below.{Encloses, IsExact, IsGradedWithin, paid_in, taken_out};
ghost use Rattle.mk_cash.specs.Below.{StandsFor};
ghost use Rattle.mk_cash.specs.Factors.{HasPowersInRange};
ghost use Rattle.mk_cash.specs.inner.Quotient.{IsLessNear};

use mk_enclose::{Enclosure, Factor};

/// Bounds on the points that a factor of at least one is worth: `points_per_bit` times the
/// logarithm of the factor to base 2, rounded down. They are as near as a market's printed cash is
/// to be whose grades have room for the gain's, nearer where the gain is exact, and both the points
/// where it is one.
///
/// Nothing is said of a factor below one but that both numbers are small.
pub fn cash(factor: &Factor, points_per_bit: u32) -> (u64, u64)
    requires some_points { 1 ≤ points_per_bit }
    requires few_points { points_per_bit ≤ max_points_per_bit }
    requires range { HasPowersInRange factor.now points_per_bit }
    ensures covers { (q : Fraction) (most_trades : ℕ) → StandsFor factor.now q.num q.den
        → IsGradedWithin factor.now.gain (grade_room most_trades) → IsAtLeastOne q
        → CoversCash (IsExact factor.now.gain) (Encloses factor.now.gain 1) (sharpness most_trades)
        q points_per_bit result.0 result.1 }
    ensures low_rule { result.0 ≡
        (whole_log (power_by rounded_down (lower_of factor.now.gain) points_per_bit)
        + points_per_bit * paid_in factor.now.net)
        - points_per_bit * (40 * factor.now.trades + taken_out factor.now.net) }
    ensures high_rule { result.1 ≡
        (whole_log (power_by rounded_up (upper_of factor.now.gain) points_per_bit)
        + points_per_bit * paid_in factor.now.net)
        - points_per_bit * (40 * factor.now.trades + taken_out factor.now.net) }
    ensures low_fits { result.0 < number_limit }
    ensures high_fits { result.1 < number_limit }
{
    let (low, high) = power_bits(&factor.gain, points_per_bit);
    let gained = bits_gained(factor, points_per_bit);
    let owed = bits_owed(factor, points_per_bit);
    (
        (low + gained).saturating_sub(owed),
        (high + gained).saturating_sub(owed),
    )
}

/// The whole bits of the power of a gain: at its lower end and at its upper end.
fn power_bits(gain: &Enclosure, power: u32) -> (u64, u64)
    requires positive { 1 ≤ power }
    requires small { power ≤ max_points_per_bit }
    requires range { IsInRange (upper_of gain.now ^ power) }
    ensures below { 2 ^ result.0 ≤ lower_of gain.now ^ power }
    ensures above { upper_of gain.now ^ power < 2 ^ (result.1 + 1) }
    ensures low_near { IsLessNear (2 ^ (result.0 + 1)) (lower_of gain.now ^ power) (2 * power) }
    ensures high_near { IsNear (upper_of gain.now ^ power) (2 ^ result.1) (2 * power) }
    ensures low_rule { result.0 ≡ whole_log (power_by rounded_down (lower_of gain.now) power) }
    ensures high_rule { result.1 ≡ whole_log (power_by rounded_up (upper_of gain.now) power) }
    ensures low_small { result.0 < 2 ^ 52 }
    ensures high_small { result.1 < 2 ^ 52 }
{
    let low = gain.lo().pow_down(power);
    let high = gain.hi().pow_up(power);
    (low.log2_floor(), high.log2_floor())
}

/// The bits that multiply the power of a factor, besides those of its gain.
fn bits_gained(factor: &Factor, power: u32) -> u64
    requires { HasPowersInRange factor.now power }
    ensures value { result ≡ power * paid_in factor.now.net }
    ensures small { result < 2 ^ 50 }
{
    power as u64 * factor.paid_in()
}

/// The bits that divide the power of a factor: 40 for each trade, and what was taken out.
fn bits_owed(factor: &Factor, power: u32) -> u64
    requires { HasPowersInRange factor.now power }
    ensures { result ≡ power * (40 * factor.now.trades + taken_out factor.now.net) }
{
    power as u64 * (40 * factor.trades as u64 + factor.taken_out())
}
