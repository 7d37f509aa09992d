//! Judgements of withdrawals: bits that a factor covers, and the most that it covers.
ghost use Rattle.std.specs.Prelude.{◌≡◌, ℕ, ◌+◌, ◌-◌, ◌*◌, ◌^◌, ◌<◌, ◌≤◌, ◌⊎◌, IsTrue};
ghost use Rattle.mk_judge_points.specs.Below.{number_limit, sharpness, Fraction, Covers, IsMost};
ghost use Rattle.mk_judge_points.specs.Below.{IsInRange, upper_of, Encloses, HasGrade, IsExact};
ghost use Rattle.mk_judge_points.specs.Below.{AreNear, LeavesOpen, Judges, HasCashRange};
ghost use Rattle.mk_judge_points.specs.Below.{StandsBeside, IsOwned};
ghost use Rattle.mk_judge_points.specs.Cash.{IsBitsNear, AreBitsNear};

use crate::cash::almost;
use crate::power::compare_worth;
use mk_enclose::{Enclosure, Factor};
use mk_judge::{Judged, Scale, near_bits};

/// Judges the claim that a factor covers so many bits.
pub fn judge_covered(factor: &Factor, bits: u64) -> Judged
    requires range { HasCashRange factor.now 1 }
    requires fits { bits < number_limit }
    ensures allowed { result ≡ Judged.Allowed → (q : Fraction) → IsOwned factor.now q
        → Covers q bits }
    ensures wrong { result ≡ Judged.Wrong → (q : Fraction) → IsOwned factor.now q
        → Covers q bits → ⊥ }
    ensures unclear { result ≡ Judged.Unclear → (q : Fraction) → IsOwned factor.now q
        → IsBitsNear factor.now q bits }
{
    let scale = Scale::of(factor, 1);
    let one = Enclosure::exact(1);
    if factor.trades == 0 {
        Judged::at_most(compare_worth(&one, bits, &one, 0, &scale))
    } else {
        Judged::at_most(compare_worth(&one, bits, &factor.gain, 0, &scale))
    }
}

/// Judges the most bits that a factor is said to cover in a market of at most so many trades. With
/// `small` set its gain was not rounded, and leaves nothing open.
pub fn judge_most(factor: &Factor, small: bool, most_trades: u32, most: u64) -> Judged
    requires range { HasCashRange factor.now 1 }
    requires fits { most < number_limit }
    ensures allowed { result ≡ Judged.Allowed → (q : Fraction) → IsOwned factor.now q
        → (IsTrue small → IsExact factor.now.gain)
        → IsMost (IsTrue small) (factor.now.trades ≡ 0) (sharpness most_trades) q most }
    ensures wrong { result ≡ Judged.Wrong → (q : Fraction) → IsOwned factor.now q
        → (IsTrue small → IsExact factor.now.gain)
        → IsMost (IsTrue small) (factor.now.trades ≡ 0) (sharpness most_trades) q most → ⊥ }
    ensures unclear { result ≡ Judged.Unclear → (q : Fraction) → IsOwned factor.now q
        → (IsTrue small → IsExact factor.now.gain)
        → AreBitsNear small most_trades factor.now q most }
{
    let scale = Scale::of(factor, 1);
    if factor.trades == 0 {
        whole(&Enclosure::exact(1), &scale, most)
    } else if small {
        whole(&factor.gain, &scale, most)
    } else {
        nearly(&factor.gain, &scale, near_bits(most_trades) + 1, most)
    }
}

/// Where the bits are those of a factor whose gain was not rounded.
fn whole(gain: &Enclosure, scale: &Scale, most: u64) -> Judged
    requires fits { most < number_limit }
    ensures { (g z w : ℕ) → Encloses gain.now g → IsExact gain.now → StandsBeside scale.now g z w
        → Judges result ((2 ^ most * w ≤ z) × (z < 2 ^ (most + 1) * w)) ⊥ }
{
    let one = Enclosure::exact(1);
    let within = Judged::at_most(compare_worth(&one, most, gain, 0, scale));
    let greatest = Judged::above(compare_worth(&one, most + 1, gain, 0, scale));
    within.and(greatest)
}

/// Where they may be one less, for a factor that is above a whole power of two by less than one
/// part in `2^parts`.
fn nearly(gain: &Enclosure, scale: &Scale, parts: u32, most: u64) -> Judged
    requires fits { most < number_limit }
    requires some_parts { 1 ≤ parts }
    requires few_parts { parts ≤ 59 }
    requires range { IsInRange (upper_of gain.now * (2 ^ parts - 1)) }
    ensures { (g z w : ℕ) → Encloses gain.now g → StandsBeside scale.now g z w
        → Judges result ((2 ^ most * w ≤ z) × (z * (2 ^ parts - 1) < 2 ^ (most + 1) * 2 ^ parts * w))
        ((h : ℕ) → HasGrade gain.now h → AreNear (2 ^ most * w) z (h + 1)
        ⊎ AreNear (2 ^ (most + 1) * 2 ^ parts * w) (z * (2 ^ parts - 1)) (h + 1)) }
{
    let one = Enclosure::exact(1);
    let less = gain.mul(&almost(parts));
    let within = Judged::at_most(compare_worth(&one, most, gain, 0, scale));
    let greatest = Judged::above(compare_worth(&one, most + 1 + parts as u64, &less, 0, scale));
    within.and(greatest)
}
