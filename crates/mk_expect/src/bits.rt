//! The bits of a number of units.
ghost use Rattle.std.specs.Prelude.{ℕ, ◌+◌, ◌*◌, ◌^◌, ◌<◌, ◌≤◌};
ghost use Rattle.mk_net.specs.Asked.{IsUnits};
ghost use Rattle.mk_expect.specs.Expectation.{IsBits};

use mk_scaled::Scaled;

/// The parts in which a bit is counted.
const PARTS_OF_BIT: u32 = 1 << 20;

/// Bounds on the bits of a number of units, in parts of 2^20 of a bit, rounded down.
pub(crate) fn bits_of(units: u64) -> (u64, u64)
    requires { IsUnits units }
    ensures at_least { (l : ℕ) → IsBits units l → result.0 ≤ l }
    ensures at_most { (l : ℕ) → IsBits units l → l ≤ result.1 }
    ensures in_order { result.0 ≤ result.1 }
    ensures narrow { result.1 ≤ result.0 + 1 }
    ensures small { result.1 ≤ 2 ^ 26 }
{
    power_bits(units, PARTS_OF_BIT)
}

/// Bounds on the whole bits of a power.
fn power_bits(number: u64, power: u32) -> (u64, u64)
    requires positive { 1 ≤ number }
    requires fits { number < 2 ^ 63 }
    requires some { 1 ≤ power }
    requires few { power ≤ 2 ^ 20 }
    ensures below { 2 ^ result.0 ≤ number ^ power }
    ensures above { number ^ power < 2 ^ (result.1 + 1) }
    ensures in_order { result.0 ≤ result.1 }
    ensures narrow { result.1 ≤ result.0 + 1 }
    ensures small { result.1 ≤ 63 * power + 1 }
{
    let number = Scaled::of_whole(number);
    let low = number.pow_down(power);
    let high = number.pow_up(power);
    (low.log2_floor(), high.log2_floor())
}
