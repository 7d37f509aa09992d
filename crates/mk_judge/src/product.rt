//! Products of two numbers that need not be in range.
ghost use Rattle.std.specs.Prelude.{◌^◌, ◌<◌, ◌≤◌};

use mk_scaled::Scaled;

/// A number of at most 128 bits, times a power of two.
#[derive(Clone, Copy, Debug)]
pub struct Product {
    pub number: Scaled,
    pub bits: u64,
    ghost positive: { 1 ≤ number },
    ghost few_digits: { number ≤ 2 ^ 128 },
    ghost few_bits: { bits < 2 ^ 52 },
}
