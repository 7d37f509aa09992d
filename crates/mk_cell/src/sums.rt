//! Sums of cells, in two passes: the greatest exponent, and then what the digits come to in its parts.
ghost use Rattle.std.specs.Prelude.{◌≡◌, ℕ, ◌+◌, ◌-◌, ◌*◌, ◌/◌, ◌^◌, ◌<◌, ◌≤◌, max, length, slice_index};
ghost use Rattle.mk_cell.specs.Cell.{AllStand, AreCells, Stands};
ghost use Rattle.mk_cell.specs.Passes.{folded, plus_below};
ghost use Rattle.mk_cell.specs.Products.{AreUnrounded, PairsStand};

use crate::Cell;
use crate::cell::{self, BIAS};

/// The sum of the cells, rounded down: the digits that lie below those of the greatest are cut off.
pub fn sum(digits: &[u64], exponents: &[u32]) -> Cell
    requires { AreCells digits.now exponents.now }
    ensures { (k : ℕ) (f : ℕ → ℕ) (n : ℕ) → AllStand k digits.now exponents.now f n
        → Stands k result (plus_below ◌+◌ (length digits.now) f) (n + length digits.now) }
{
    let top = greatest(exponents);
    cell::rounded(total(digits, exponents, top), top + BIAS)
}

/// The sum of products of cells, rounded down, of which the first 64 places are given: the others do not count.
pub fn sum_of_products(places: &[u64], exponents: &[u32]) -> Cell
    requires { (a e b d : ℕ → ℕ) × AreUnrounded a e b d places.now exponents.now }
    ensures { (a e b d : ℕ → ℕ) → AreUnrounded a e b d places.now exponents.now
        → (j k : ℕ) (f g : ℕ → ℕ) (n p : ℕ) → PairsStand (length places.now) a e b d j k f g n p
        → Stands (j + k) result (plus_below ◌+◌ (length places.now) (λ c. f c * g c)) (n + p + 2 * length places.now + 1) }
{
    let top = greatest(exponents);
    cell::rounded(total(places, exponents, top), top + 64)
}

/// The first 64 places of the product of two cells' digits: what sums and minima of products take, where a product rounded to full
/// digits would cost more.
#[inline]
pub fn first_places(left: u64, right: u64) -> u64
    ensures { result ≡ left * right / 2 ^ 64 }
{
    ((left as u128 * right as u128) >> 64) as u64
}

/// The greatest exponent, or 0.
fn greatest(exponents: &[u32]) -> u32
    ensures { result ≡ folded max 0 (length exponents.now) (slice_index exponents.now) }
{
    let mut top = 0;
    for c in 0..exponents.len() {
        top = top.max(exponents[c]);
    }
    top
}

/// The digits' sum, each without those that lie below `2^top`.
fn total(digits: &[u64], exponents: &[u32], top: u32) -> u128
    requires same_length { length exponents.now ≡ length digits.now }
    requires top_at_least { (c : ℕ) → c < length digits.now → slice_index exponents.now c ≤ top }
    ensures { result ≡ folded ◌+◌ 0 (length digits.now) (λ c. slice_index digits.now c / 2 ^ (top - slice_index exponents.now c)) }
{
    let mut total = 0u128;
    for c in 0..digits.len() {
        total += cut(digits[c], top - exponents[c]) as u128;
    }
    total
}

/// The digits without their last places.
#[inline]
fn cut(digits: u64, places: u32) -> u64
    ensures { result ≡ digits / 2 ^ places }
{
    if places < 64 { digits >> places } else { 0 }
}
