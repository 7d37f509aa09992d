//! Minima of cells, and of products of cells.
ghost use Rattle.std.specs.Prelude.{◌≡◌, ℕ, ◌+◌, ◌-◌, ◌*◌, ◌/◌, ◌^◌, ◌<◌, ◌≤◌, length, slice_index};
ghost use Rattle.mk_cell.specs.Cell.{AllStand, AreCells, Stands};
ghost use Rattle.mk_cell.specs.Least.{IsLeastOf, IsNextTo, least};
ghost use Rattle.mk_cell.specs.Passes.{plus_below};
ghost use Rattle.mk_cell.specs.Products.{AreUnrounded, PairsStand};

use crate::{Cell, cell};

/// What the exponents of the product of two cells that are there come to at least. An absent one has
/// less.
const PRODUCT_LOW: u32 = 14 << 27;

/// A rank behind that of each cell that is there.
const LAST: u128 = (u32::MAX as u128) << 64;

/// The least of the cells that are there. Nothing is rounded.
pub fn least(digits: &[u64], exponents: &[u32]) -> Cell
    requires { AreCells digits.now exponents.now }
    ensures { (k : ℕ) (f : ℕ → ℕ) (n : ℕ) → AllStand k digits.now exponents.now f n
        → Stands k result (plus_below least (length digits.now) f) n }
{
    let rank = least_rank(digits, exponents);
    let exponent = (rank >> 64) as u32;
    if exponent == u32::MAX {
        return Cell::ABSENT;
    }
    Cell {
        digits: (rank & u64::MAX as u128) as u64,
        exponent,
    }
}

/// The least of products of cells that are there, rounded down, of which the first 64 places are given: the others do not count.
pub fn least_of_products(places: &[u64], exponents: &[u32]) -> Cell
    requires { (a e b d : ℕ → ℕ) × AreUnrounded a e b d places.now exponents.now }
    ensures { (a e b d : ℕ → ℕ) → AreUnrounded a e b d places.now exponents.now
        → (j k : ℕ) (f g : ℕ → ℕ) (n p : ℕ) → PairsStand (length places.now) a e b d j k f g n p
        → Stands (j + k) result (plus_below least (length places.now) (λ c. f c * g c)) (n + p + 2 * length places.now + 1) }
{
    let exponent = lowest(exponents, PRODUCT_LOW);
    if exponent == u32::MAX {
        return Cell::ABSENT;
    }
    let least = least_places(places, exponents, exponent);
    cell::rounded(least as u128, exponent + 64)
}

/// The least exponent from `low` on, or `u32::MAX`.
fn lowest(exponents: &[u32], low: u32) -> u32
    ensures { IsLeastOf (length exponents.now) (λ c. low ≤ slice_index exponents.now c) u32.MAX (slice_index exponents.now) result }
{
    let mut lowest = u32::MAX;
    for c in 0..exponents.len() {
        lowest = lowest.min(from(exponents[c], low));
    }
    lowest
}

/// The exponent, or `u32::MAX` where it is below `low`.
#[inline]
fn from(exponent: u32, low: u32) -> u32
    ensures from { low ≤ exponent → result ≡ exponent }
    ensures below { exponent < low → result ≡ u32.MAX }
{
    if exponent < low { u32::MAX } else { exponent }
}

/// The least rank of the cells that are there, or `LAST`.
fn least_rank(digits: &[u64], exponents: &[u32]) -> u128
    requires { length exponents.now ≡ length digits.now }
    ensures least { IsLeastOf (length digits.now) (λ c. 1 ≤ slice_index exponents.now c) (u32.MAX * 2 ^ 64)
        (λ c. slice_index exponents.now c * 2 ^ 64 + slice_index digits.now c) result }
    ensures at_most { result ≤ u32.MAX * 2 ^ 64 }
{
    let mut least = LAST;
    for c in 0..digits.len() {
        least = least.min(rank(digits[c], exponents[c]));
    }
    least
}

/// Where a cell stands among others: by its exponent first, and then by its digits, since those are full. An absent one stands behind
/// all that are there.
// One comparison of one number is made without a jump. One of exponents and another of digits is not, and is guessed wrong every other time.
#[inline]
fn rank(digits: u64, exponent: u32) -> u128
    ensures there { 1 ≤ exponent → result ≡ exponent * 2 ^ 64 + digits }
    ensures absent { exponent < 1 → result ≡ u32.MAX * 2 ^ 64 + digits }
{
    ((from(exponent, 1) as u128) << 64) | digits as u128
}

/// The least of the places whose exponent is the lowest or one more, in units of `2^(lowest + 64)`; `u64::MAX` where there is none
/// below it.
fn least_places(places: &[u64], exponents: &[u32], lowest: u32) -> u64
    requires same_length { length exponents.now ≡ length places.now }
    requires small { (c : ℕ) → c < length places.now → slice_index exponents.now c ≤ 27 * 2 ^ 27 }
    requires lowest_at_most { lowest ≤ 27 * 2 ^ 27 }
    ensures { IsLeastOf (length places.now) (λ c. IsNextTo lowest (slice_index exponents.now c)) u64.MAX
        (λ c. slice_index places.now c * 2 ^ (slice_index exponents.now c - lowest)) result }
{
    let mut least = u64::MAX;
    for c in 0..places.len() {
        let distance = exponents[c].wrapping_sub(lowest);
        least = least.min(near(places[c], distance));
    }
    least
}

/// The places, twice them where they lie one place higher, or `u64::MAX` beyond and where twice them is above it.
// It makes no choice between the first two, which would be guessed wrong every other time.
#[inline]
fn near(places: u64, distance: u32) -> u64
    ensures fits { distance ≤ 1 → places * 2 ^ distance ≤ u64.MAX → result ≡ places * 2 ^ distance }
    ensures over { distance ≤ 1 → u64.MAX < places * 2 ^ distance → result ≡ u64.MAX }
    ensures far { 1 < distance → result ≡ u64.MAX }
{
    if distance > 1 {
        return u64::MAX;
    }
    let over = (places >> 63) & distance as u64;
    (places << distance) | over.wrapping_neg()
}
