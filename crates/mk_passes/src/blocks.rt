//! The plus of chosen cells, by blocks that lie on the stack.

ghost use Rattle.std.specs.Prelude.{◌≡◌, ℕ, ◌+◌, ◌*◌, ◌<◌, ◌≤◌, ◌-◌, List, All, length, slice_index};
ghost use Rattle.mk_passes.specs.Below.{max_clique_cells, plus_over, AreCells, Stands, StandsAt};
ghost use Rattle.mk_passes.specs.Below.{range_with_len, runs_of};
ghost use Rattle.mk_passes.specs.Parts.{HaveRoom, StandListed, block_of};
ghost use Rattle.mk_passes.specs.inner.Made.{AreMade, AreSingles, CanAdd, CanPut, MakesPlus};

use crate::columns::{Columns, Lists};
use crate::made::{Listed, Maker, put_made};
use mk_cell::Cell;
use mk_semiring::Semiring;

/// The cells of a short list, which are gathered in arrays that cost little to clear.
pub(crate) const FEW: usize = 8;

/// The cells of a block, and the blocks of a list.
pub(crate) const BLOCK: usize = 64;

/// What makes the plus of the runs of cells that begin so far from a cell's base.
#[derive(Clone, Copy)]
struct Sums<'a> {
    from: Columns<'a>,
    lists: Lists<'a>,
}

impl<'a> Maker for Sums<'a> {
    ghost ready = { λ s. Unit {0} };

    ghost can = { λ s. CanAdd s.from.digits.now s.from.exponents.now s.lists.bases.now s.lists.offsets.now s.lists.run };

    ghost makes = { λ plus s. MakesPlus plus s.from.digits.now s.from.exponents.now s.lists.bases.now (runs_of s.lists.run s.lists.offsets.now) };

    #[inline(always)]
    fn make<R: Semiring>(self, cell: usize) -> Cell {
        let Sums { from, lists } = self;
        let base = lists.bases[cell] as usize;
        plus_at::<R>(from.digits, from.exponents, base, lists.offsets, lists.run)
    }
}

/// The same of `N` single cells. The compiler knows their number, and writes the passes over them without a loop.
#[derive(Clone, Copy)]
struct FewSums<'a, const N: usize>(Sums<'a>);

impl<'a, const N: usize> Maker for FewSums<'a, N> {
    ghost ready = { λ s. AreSingles N s.0.lists.run s.0.lists.offsets.now };

    ghost can = { λ s. CanAdd s.0.from.digits.now s.0.from.exponents.now s.0.lists.bases.now s.0.lists.offsets.now s.0.lists.run };

    ghost makes = { λ plus s. MakesPlus plus s.0.from.digits.now s.0.from.exponents.now s.0.lists.bases.now (runs_of s.0.lists.run s.0.lists.offsets.now) };

    #[inline(always)]
    fn make<R: Semiring>(self, cell: usize) -> Cell {
        let Sums { from, lists } = self.0;
        let base = lists.bases[cell] as usize;
        plus_of_cells::<R, N>(from.digits, from.exponents, base, &lists.offsets[..N])
    }
}

/// Puts into each cell that is listed the plus of the runs of cells that begin so far from the cell's base.
pub(crate) fn put_sums<R: Semiring, C: Listed>(
    from: Columns,
    lists: Lists,
    cells: C,
    digits: &mut [u64],
    exponents: &mut [u32],
)
    requires { CanPut (CanAdd from.digits.now from.exponents.now lists.bases.now lists.offsets.now lists.run) (C.cells cells) digits.old exponents.old }
    ensures { AreMade (MakesPlus R.plus_of from.entry.digits.now from.entry.exponents.now lists.entry.bases.now (runs_of lists.entry.run lists.entry.offsets.now))
        (C.cells cells) (length (C.cells cells)) digits.old exponents.old digits.new exponents.new }
{
    let sums = Sums { from, lists };
    if lists.run > 1 {
        return put_made::<R, Sums, C>(sums, cells, digits, exponents);
    }
    match lists.offsets.len() {
        1 => put_made::<R, FewSums<1>, C>(FewSums(sums), cells, digits, exponents),
        2 => put_made::<R, FewSums<2>, C>(FewSums(sums), cells, digits, exponents),
        4 => put_made::<R, FewSums<4>, C>(FewSums(sums), cells, digits, exponents),
        8 => put_made::<R, FewSums<8>, C>(FewSums(sums), cells, digits, exponents),
        16 => put_made::<R, FewSums<16>, C>(FewSums(sums), cells, digits, exponents),
        _ => put_made::<R, Sums, C>(sums, cells, digits, exponents),
    }
}

/// The plus of the runs of cells that begin so far from a base.
pub(crate) fn plus_at<R: Semiring>(
    digits: &[u64],
    exponents: &[u32],
    base: usize,
    offsets: &[u16],
    run: usize,
) -> Cell
    requires some { 1 ≤ run }
    requires few { length (runs_of run offsets.now) ≤ max_clique_cells }
    requires within { All (λ c. base + c < length digits.now) (runs_of run offsets.now) }
    requires room { (k : ℕ) × HaveRoom k digits.now exponents.now (2 * length (runs_of run offsets.now)) }
    ensures { (k : ℕ) (f : ℕ → ℕ) (n : ℕ) → StandListed k digits.now exponents.now f n base (runs_of run offsets.now)
        → Stands k result (plus_over R.plus_of 0 (λ c. f (base + c)) (runs_of run offsets.now)) (n + (2 * length (runs_of run offsets.now) - 1)) }
{
    if run == 1 && offsets.len() == 1 {
        plus_of_cells::<R, 1>(digits, exponents, base, &offsets[..1])
    } else if run == 1 && offsets.len() == 2 {
        plus_of_cells::<R, 2>(digits, exponents, base, &offsets[..2])
    } else if offsets.len() <= FEW {
        plus_of_block::<R, FEW>(digits, exponents, base, offsets, run)
    } else if offsets.len() <= BLOCK {
        plus_of_block::<R, BLOCK>(digits, exponents, base, offsets, run)
    } else {
        plus_by_blocks::<R>(digits, exponents, base, offsets, run)
    }
}

/// The plus of more runs than a block has: the plus of the plus of each block.
fn plus_by_blocks<R: Semiring>(
    digits: &[u64],
    exponents: &[u32],
    base: usize,
    offsets: &[u16],
    run: usize,
) -> Cell
    requires some { 1 ≤ run }
    requires many { 64 < length offsets.now }
    requires few { length (runs_of run offsets.now) ≤ max_clique_cells }
    requires within { All (λ c. base + c < length digits.now) (runs_of run offsets.now) }
    requires room { (k : ℕ) × HaveRoom k digits.now exponents.now (2 * length (runs_of run offsets.now)) }
    ensures { (k : ℕ) (f : ℕ → ℕ) (n : ℕ) → StandListed k digits.now exponents.now f n base (runs_of run offsets.now)
        → Stands k result (plus_over R.plus_of 0 (λ c. f (base + c)) (runs_of run offsets.now)) (n + (2 * length (runs_of run offsets.now) - 1)) }
{
    let blocks = offsets.len().div_ceil(BLOCK);
    let mut block_digits = [0u64; BLOCK];
    let mut block_exponents = [0u32; BLOCK];
    for block in 0..blocks {
        let listed = block_of(offsets, block);
        let cell = plus_of_block::<R, BLOCK>(digits, exponents, base, listed, run);
        block_digits[block] = cell.digits;
        block_exponents[block] = cell.exponent;
    }
    R::over(&block_digits[..blocks], &block_exponents[..blocks])
}

/// A block of a list.
#[inline]
pub(crate) fn block_of(offsets: &[u16], block: usize) -> &[u16]
    requires { block * 64 ≤ length offsets.now }
    ensures { result.now ≡ block_of offsets.now block }
{
    let rest = &offsets[block * BLOCK..];
    &rest[..BLOCK.min(rest.len())]
}

/// The plus of at most `N` runs of cells that begin so far from a base, in one step less for each run than two for each cell.
fn plus_of_block<R: Semiring, const N: usize>(
    digits: &[u64],
    exponents: &[u32],
    base: usize,
    offsets: &[u16],
    run: usize,
) -> Cell
    requires some { 1 ≤ run }
    requires few { length offsets.now ≤ N }
    requires small { N ≤ 64 }
    requires within { All (λ c. base + c < length digits.now) (runs_of run offsets.now) }
    requires room { (k : ℕ) × HaveRoom k digits.now exponents.now (2 * length (runs_of run offsets.now)) }
    ensures { (k : ℕ) (f : ℕ → ℕ) (n : ℕ) → StandListed k digits.now exponents.now f n base (runs_of run offsets.now)
        → Stands k result (plus_over R.plus_of 0 (λ c. f (base + c)) (runs_of run offsets.now)) (n + length offsets.now * (2 * run - 1)) }
{
    if run == 1 {
        return plus_of_cells::<R, N>(digits, exponents, base, offsets);
    }
    let count = offsets.len();
    let mut run_digits = [0u64; N];
    let mut run_exponents = [0u32; N];
    for place in 0..count {
        let cell = plus_of_run::<R>(digits, exponents, base + offsets[place] as usize, run);
        run_digits[place] = cell.digits;
        run_exponents[place] = cell.exponent;
    }
    R::over(&run_digits[..count], &run_exponents[..count])
}

/// The plus of cells that lie side by side.
#[inline]
fn plus_of_run<R: Semiring>(digits: &[u64], exponents: &[u32], first: usize, run: usize) -> Cell
    requires within { first + run ≤ length digits.now }
    requires cells { AreCells digits.now exponents.now }
    ensures { (k : ℕ) (f : ℕ → ℕ) (n : ℕ) → ((i : ℕ) → i < run → StandsAt k (slice_index digits.now (first + i)) (slice_index exponents.now (first + i)) (f (first + i)) n)
        → Stands k result (plus_over R.plus_of 0 f (range_with_len first run)) (n + run) }
{
    R::over(&digits[first..first + run], &exponents[first..first + run])
}

/// The plus of at most `N` cells that lie so far from a base.
pub(crate) fn plus_of_cells<R: Semiring, const N: usize>(
    digits: &[u64],
    exponents: &[u32],
    base: usize,
    offsets: &[u16],
) -> Cell
    requires few { length offsets.now ≤ N }
    requires small { N ≤ 64 }
    requires within { All (λ c. base + c < length digits.now) offsets.now }
    requires cells { AreCells digits.now exponents.now }
    ensures { (k : ℕ) (f : ℕ → ℕ) (n : ℕ) → StandListed k digits.now exponents.now f n base offsets.now
        → Stands k result (plus_over R.plus_of 0 (λ c. f (base + c)) offsets.now) (n + length offsets.now) }
{
    let count = offsets.len();
    let mut block_digits = [0u64; N];
    let mut block_exponents = [0u32; N];
    for place in 0..count {
        let cell = base + offsets[place] as usize;
        block_digits[place] = digits[cell];
        block_exponents[place] = exponents[cell];
    }
    R::over(&block_digits[..count], &block_exponents[..count])
}
