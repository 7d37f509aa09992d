//! The plus of the products of chosen cells by a message's cells, by blocks that lie on the stack.

ghost use Rattle.std.specs.Prelude.{◌≡◌, ℕ, ◌+◌, ◌*◌, ◌<◌, ◌≤◌, All, length, slice_index};
ghost use Rattle.mk_passes.specs.Below.{max_clique_cells, plus_over, AreCells, Stands, StandsAt};
ghost use Rattle.mk_passes.specs.Below.{cells_at};
ghost use Rattle.mk_passes.specs.Blank.{one_digits, one_exponent, filled};
ghost use Rattle.mk_passes.specs.Parts.{AreBlankOrFull, HaveRoom, IsPlusOfPairs};

use crate::blocks::{BLOCK, FEW, block_of};
use crate::columns::Columns;
use mk_cell::{Cell, first_places};
use mk_semiring::Semiring;

/// The plus of the products of the cells that lie so far from a base by the message's cells that have their values. A blank
/// table is not read.
pub fn plus_of_products<R: Semiring>(
    left: Columns,
    onto: &[u16],
    right: Columns,
    base: usize,
    chosen: &[u16],
) -> Cell
    requires few { length chosen.now ≤ max_clique_cells }
    requires within { All (λ c. base + c < length onto.now) chosen.now }
    requires onto { All (λ d. d < length right.digits.now) onto.now }
    requires whole { AreBlankOrFull (length onto.now) left.digits.now left.exponents.now }
    requires room { (k : ℕ) × HaveRoom k (filled one_digits (length onto.now) left.digits.now) (filled one_exponent (length onto.now) left.exponents.now) (2 * length chosen.now) }
    requires other_room { (k : ℕ) × HaveRoom k right.digits.now right.exponents.now 1 }
    ensures { IsPlusOfPairs R.plus_of (filled one_digits (length onto.now) left.entry.digits.now) (filled one_exponent (length onto.now) left.entry.exponents.now)
        right.entry.digits.now right.entry.exponents.now (slice_index onto.now) (cells_at base chosen.now) (2 * length chosen.now + 1) result }
{
    if chosen.len() <= FEW {
        products_of_block::<R, FEW>(left, onto, right, base, chosen)
    } else if chosen.len() <= BLOCK {
        products_of_block::<R, BLOCK>(left, onto, right, base, chosen)
    } else {
        products_by_blocks::<R>(left, onto, right, base, chosen)
    }
}

/// The plus of more products than a block has: the plus of the plus of each block.
fn products_by_blocks<R: Semiring>(
    left: Columns,
    onto: &[u16],
    right: Columns,
    base: usize,
    chosen: &[u16],
) -> Cell
    requires many { 64 < length chosen.now }
    requires few { length chosen.now ≤ max_clique_cells }
    requires within { All (λ c. base + c < length onto.now) chosen.now }
    requires onto { All (λ d. d < length right.digits.now) onto.now }
    requires whole { AreBlankOrFull (length onto.now) left.digits.now left.exponents.now }
    requires room { (k : ℕ) × HaveRoom k (filled one_digits (length onto.now) left.digits.now) (filled one_exponent (length onto.now) left.exponents.now) (2 * length chosen.now) }
    requires other_room { (k : ℕ) × HaveRoom k right.digits.now right.exponents.now 1 }
    ensures { IsPlusOfPairs R.plus_of (filled one_digits (length onto.now) left.entry.digits.now) (filled one_exponent (length onto.now) left.entry.exponents.now)
        right.entry.digits.now right.entry.exponents.now (slice_index onto.now) (cells_at base chosen.now) (2 * length chosen.now + 1) result }
{
    let blocks = chosen.len().div_ceil(BLOCK);
    let mut block_digits = [0u64; BLOCK];
    let mut block_exponents = [0u32; BLOCK];
    for block in 0..blocks {
        let listed = block_of(chosen, block);
        let cell = products_of_block::<R, BLOCK>(left, onto, right, base, listed);
        block_digits[block] = cell.digits;
        block_exponents[block] = cell.exponent;
    }
    R::over(&block_digits[..blocks], &block_exponents[..blocks])
}

/// The plus of at most `N` products.
fn products_of_block<R: Semiring, const N: usize>(
    left: Columns,
    onto: &[u16],
    right: Columns,
    base: usize,
    chosen: &[u16],
) -> Cell
    requires few { length chosen.now ≤ N }
    requires small { N ≤ 64 }
    requires within { All (λ c. base + c < length onto.now) chosen.now }
    requires onto { All (λ d. d < length right.digits.now) onto.now }
    requires whole { AreBlankOrFull (length onto.now) left.digits.now left.exponents.now }
    requires room { (k : ℕ) × HaveRoom k (filled one_digits (length onto.now) left.digits.now) (filled one_exponent (length onto.now) left.exponents.now) (2 * length chosen.now) }
    requires other_room { (k : ℕ) × HaveRoom k right.digits.now right.exponents.now 1 }
    ensures { IsPlusOfPairs R.plus_of (filled one_digits (length onto.now) left.entry.digits.now) (filled one_exponent (length onto.now) left.entry.exponents.now)
        right.entry.digits.now right.entry.exponents.now (slice_index onto.now) (cells_at base chosen.now) (2 * length chosen.now + 1) result }
{
    if left.digits.len() < onto.len() {
        plus_of_others::<R, N>(onto, right.digits, right.exponents, base, chosen)
    } else {
        products_of_cells::<R, N>(left, onto, right, base, chosen)
    }
}

/// The base of some cells, or 0 where there are none, since their base may then lie beyond the table.
#[inline(always)]
fn base_of(base: usize, count: usize) -> usize
    ensures some { 0 < count → result ≡ base }
    ensures none { count ≡ 0 → result ≡ 0 }
{
    if count > 0 { base } else { 0 }
}

/// The plus of the products of at most `N` cells that lie so far from a base.
#[inline(always)]
pub(crate) fn products_of_cells<R: Semiring, const N: usize>(
    left: Columns,
    onto: &[u16],
    right: Columns,
    base: usize,
    chosen: &[u16],
) -> Cell
    requires few { length chosen.now ≤ N }
    requires small { N ≤ 64 }
    requires within { All (λ c. base + c < length onto.now) chosen.now }
    requires onto { All (λ d. d < length right.digits.now) onto.now }
    requires full { length left.digits.now ≡ length onto.now }
    requires cells { AreCells left.digits.now left.exponents.now }
    requires other_cells { AreCells right.digits.now right.exponents.now }
    ensures { IsPlusOfPairs R.plus_of left.entry.digits.now left.entry.exponents.now
        right.entry.digits.now right.entry.exponents.now (slice_index onto.now) (cells_at base chosen.now) (2 * length chosen.now + 1) result }
{
    let count = chosen.len();
    let mut places = [0u64; N];
    let mut sums = [0u32; N];
    // From the base on, so that nothing is added for each cell.
    let first = base_of(base, count);
    let digits = &left.digits[first..];
    let exponents = &left.exponents[first..];
    let onto = &onto[first..];
    for place in 0..count {
        let cell = chosen[place] as usize;
        let other = onto[cell] as usize;
        places[place] = first_places(digits[cell], right.digits[other]);
        sums[place] = exponents[cell] + right.exponents[other];
    }
    R::over_products(&places[..count], &sums[..count])
}

/// The plus of the message's cells that have the values of at most `N` cells that lie so far from a base.
#[inline(always)]
pub(crate) fn plus_of_others<R: Semiring, const N: usize>(
    onto: &[u16],
    other_digits: &[u64],
    other_exponents: &[u32],
    base: usize,
    chosen: &[u16],
) -> Cell
    requires few { length chosen.now ≤ N }
    requires small { N ≤ 64 }
    requires within { All (λ c. base + c < length onto.now) chosen.now }
    requires onto { All (λ d. d < length other_digits.now) onto.now }
    requires other_cells { AreCells other_digits.now other_exponents.now }
    ensures { (k : ℕ) (f : ℕ → ℕ) (n : ℕ)
        → All (λ c. StandsAt k (slice_index other_digits.now (slice_index onto.now c)) (slice_index other_exponents.now (slice_index onto.now c)) (f c) n) (cells_at base chosen.now)
        → Stands k result (plus_over R.plus_of 0 f (cells_at base chosen.now)) (n + length chosen.now) }
{
    let count = chosen.len();
    let mut block_digits = [0u64; N];
    let mut block_exponents = [0u32; N];
    for place in 0..count {
        let other = onto[base + chosen[place] as usize] as usize;
        block_digits[place] = other_digits[other];
        block_exponents[place] = other_exponents[other];
    }
    R::over(&block_digits[..count], &block_exponents[..count])
}
