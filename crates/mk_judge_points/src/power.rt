//! Comparisons of powers of enclosed numbers, where powers of two stand beside them.
ghost use Rattle.std.specs.Prelude.{◌≡◌, ℕ, ◌+◌, ◌*◌, ◌^◌, ◌<◌, ◌≤◌, min, MatchBool};
ghost use Rattle.mk_judge_points.specs.Below.{IsInRange, upper_of, Encloses, HasGrade, Says};
ghost use Rattle.mk_judge_points.specs.Below.{LeavesOpen, StandsBeside};

use mk_enclose::Enclosure;
use mk_judge::{Compared, Scale};
use mk_scaled::Scaled;

/// An enclosure of the power of an enclosed number.
pub fn raised(base: &Enclosure, power: u32) -> Enclosure
    requires positive { 1 ≤ power }
    requires range { IsInRange (upper_of base.now ^ power) }
    ensures encloses { (v : ℕ) → Encloses base.now v → Encloses result (v ^ power) }
    ensures grade { (g : ℕ) → HasGrade base.now g → HasGrade result (power * (g + 4)) }
{
    Enclosure::between(base.lo().pow_down(power), base.hi().pow_up(power))
}

/// Compares an enclosed number times `2^bits` with a factor times `2^more`, where the numerator
/// of the factor is `worth` by the scale.
pub fn compare_worth(
    left: &Enclosure,
    bits: u64,
    worth: &Enclosure,
    more: u64,
    scale: &Scale,
) -> Compared
    requires bits_few { bits ≤ 2 ^ 63 + 2 ^ 60 }
    requires more_few { more ≤ 2 ^ 60 }
    ensures { (l g z w : ℕ) → Encloses left.now l → Encloses worth.now g
        → StandsBeside scale.now g z w
        → Says result (l * 2 ^ bits * w) (z * 2 ^ more) (LeavesOpen left.now worth.now (l * 2 ^ bits * w) (z * 2 ^ more)) }
{
    compare_lifted(left, bits + scale.owed, worth, more + scale.gained)
}

/// Compares two enclosed numbers, each times a power of two.
pub fn compare_lifted(left: &Enclosure, bits: u64, right: &Enclosure, more: u64) -> Compared
    requires bits_few { bits ≤ 2 ^ 63 + 2 ^ 62 }
    requires more_few { more ≤ 2 ^ 63 + 2 ^ 62 }
    ensures { (a b : ℕ) → Encloses left.now a → Encloses right.now b
        → Says result (a * 2 ^ bits) (b * 2 ^ more) (LeavesOpen left.now right.now (a * 2 ^ bits) (b * 2 ^ more)) }
{
    if is_at_most(&left.hi(), bits, &right.lo(), more) {
        Compared::AtMost
    } else if is_at_most(&left.lo(), bits, &right.hi(), more) {
        Compared::Unsure
    } else {
        Compared::Above
    }
}

/// Whether `left * 2^bits` is at most `right * 2^more`.
fn is_at_most(left: &Scaled, bits: u64, right: &Scaled, more: u64) -> bool
    requires bits_few { bits ≤ 2 ^ 63 + 2 ^ 62 }
    requires more_few { more ≤ 2 ^ 63 + 2 ^ 62 }
    ensures { MatchBool result (left.now * 2 ^ bits ≤ right.now * 2 ^ more) (right.now * 2 ^ more < left.now * 2 ^ bits) }
{
    let below = left.exponent() + bits;
    let above = right.exponent() + more;
    if below <= above {
        left.mantissa() as u128 <= lifted(right.mantissa(), above - below)
    } else {
        lifted(left.mantissa(), below - above) <= right.mantissa() as u128
    }
}

/// A mantissa times `2^bits`, or times `2^64` where that is less: it is above every mantissa then.
fn lifted(mantissa: u64, bits: u64) -> u128
    ensures { result ≡ mantissa * 2 ^ min bits 64 }
{
    (mantissa as u128) << bits.min(64)
}
