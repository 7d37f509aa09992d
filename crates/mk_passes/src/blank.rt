//! Tables of which nothing is written while each of their cells is 1.

ghost use Rattle.std.specs.Prelude.{◌≡◌, ◌==◌, ◌&&◌, ℕ, ◌+◌, ◌-◌, ◌*◌, ◌<◌, ◌≤◌, List, All, length, replicate, slice_index, vec_len, vec_capacity};
ghost use Rattle.mk_passes.specs.Below.{max_clique_cells, plus_over, IsCell, Stands, StandsAt};
ghost use Rattle.mk_passes.specs.Below.{plus_below, LiesIn, cells_in, cell_in, runs_of};
ghost use Rattle.mk_passes.specs.Blank.{one_digits, one_exponent, filled};
ghost use Rattle.mk_passes.specs.Parts.{AreBlankOrFull, AreHeld, HaveRoom, IsChanged, IsTimesCell, StandListed};

use crate::blocks::{BLOCK, FEW, plus_at, put_sums};
use crate::columns::{Columns, Lists};
use crate::made::First;
use mk_cell::Cell;
use mk_semiring::Semiring;

/// The cell of 1 under no shift.
#[inline]
pub fn one() -> Cell
    ensures digits { result.digits ≡ one_digits }
    ensures exponent { result.exponent ≡ one_exponent }
{
    Cell {
        digits: 1 << 63,
        exponent: (10 << 27) - 63,
    }
}

/// Writes a one into each cell of a blank table.
pub fn fill(digits: &mut Vec<u64>, exponents: &mut Vec<u32>, cells: usize)
    requires { AreHeld cells digits.old.items exponents.old.items (vec_capacity digits.old) (vec_capacity exponents.old) }
    ensures digits { digits.new.items ≡ filled one_digits cells digits.old.items }
    ensures exponents { exponents.new.items ≡ filled one_exponent cells exponents.old.items }
    ensures all_digits { vec_len digits.new ≡ cells }
    ensures all_exponents { vec_len exponents.new ≡ cells }
    ensures digits_room { vec_capacity digits.new ≡ vec_capacity digits.old }
    ensures exponents_room { vec_capacity exponents.new ≡ vec_capacity exponents.old }
{
    let one = one();
    append_until(digits, one.digits, cells);
    append_until(exponents, one.exponent, cells);
}

/// Appends one value until there are so many.
pub fn append_until<T: Copy>(values: &mut Vec<T>, value: T, count: usize)
    requires { count ≤ vec_capacity values.old }
    ensures items { values.new.items ≡ filled value count values.old.items }
    ensures room { vec_capacity values.new ≡ vec_capacity values.old }
{
    for _ in values.len()..count {
        values.push_reserved(value);
    }
}

/// Whether a cell is the cell of 1.
fn is_one(cell: Cell) -> bool
    ensures { result ≡ (cell.digits == one_digits && cell.exponent == one_exponent) }
{
    let one = one();
    cell.digits == one.digits && cell.exponent == one.exponent
}

/// Puts one cell everywhere. Where it is 1, nothing is written.
fn put_everywhere(digits: &mut Vec<u64>, exponents: &mut Vec<u32>, cell: Cell, cells: usize)
    requires { AreHeld cells digits.old.items exponents.old.items (vec_capacity digits.old) (vec_capacity exponents.old) }
    ensures digits { filled one_digits cells digits.new.items ≡ replicate cells cell.digits }
    ensures exponents { filled one_exponent cells exponents.new.items ≡ replicate cells cell.exponent }
    ensures held { AreHeld cells digits.new.items exponents.new.items (vec_capacity digits.new) (vec_capacity exponents.new) }
    ensures digits_room { vec_capacity digits.new ≡ vec_capacity digits.old }
    ensures exponents_room { vec_capacity exponents.new ≡ vec_capacity exponents.old }
{
    digits.clear();
    exponents.clear();
    if is_one(cell) {
        return;
    }
    append_until(digits, cell.digits, cells);
    append_until(exponents, cell.exponent, cells);
}

/// Puts into each cell the other's cell that is listed for it.
pub fn put_cells(
    digits: &mut [u64],
    exponents: &mut [u32],
    onto: &[u16],
    other_digits: &[u64],
    other_exponents: &[u32],
)
    requires all { length digits.old ≡ length onto.now }
    requires all_exponents { length exponents.old ≡ length onto.now }
    requires within { All (λ d. d < length other_digits.now) onto.now }
    requires same_length { length other_exponents.now ≡ length other_digits.now }
    ensures same_digits { length digits.new ≡ length digits.old }
    ensures same_exponents { length exponents.new ≡ length exponents.old }
    ensures digits { (c : ℕ) → c < length onto.now → slice_index digits.new c ≡ slice_index other_digits.now (slice_index onto.now c) }
    ensures exponents { (c : ℕ) → c < length onto.now → slice_index exponents.new c ≡ slice_index other_exponents.now (slice_index onto.now c) }
{
    for cell in 0..onto.len() {
        let other = onto[cell] as usize;
        digits[cell] = other_digits[other];
        exponents[cell] = other_exponents[other];
    }
}

/// Puts into each cell of a table the plus of the runs of cells that begin so far from the cell's base. Of a blank table the
/// plus is made once, and the other table is blank where it is 1.
pub fn plus_of_each<R: Semiring>(
    from: Columns,
    cells: usize,
    lists: Lists,
    out_digits: &mut Vec<u64>,
    out_exponents: &mut Vec<u32>,
)
    requires some { 1 ≤ lists.run }
    requires few { length (runs_of lists.run lists.offsets.now) ≤ max_clique_cells }
    requires whole { AreBlankOrFull cells from.digits.now from.exponents.now }
    requires within { (b : ℕ) → b < length lists.bases.now
        → All (λ c. slice_index lists.bases.now b + c < cells) (runs_of lists.run lists.offsets.now) }
    requires room { (k : ℕ) × HaveRoom k (filled one_digits cells from.digits.now) (filled one_exponent cells from.exponents.now)
        (2 * length (runs_of lists.run lists.offsets.now)) }
    requires out { AreHeld (length lists.bases.now) out_digits.old.items out_exponents.old.items (vec_capacity out_digits.old) (vec_capacity out_exponents.old) }
    ensures stand { (b : ℕ) → b < length lists.entry.bases.now → (k : ℕ) (f : ℕ → ℕ) (n : ℕ)
        → StandListed k (filled one_digits cells from.entry.digits.now) (filled one_exponent cells from.entry.exponents.now) f n
        (slice_index lists.entry.bases.now b) (runs_of lists.entry.run lists.entry.offsets.now)
        → StandsAt k (slice_index (filled one_digits (length lists.entry.bases.now) out_digits.new.items) b)
        (slice_index (filled one_exponent (length lists.entry.bases.now) out_exponents.new.items) b)
        (plus_over R.plus_of 0 (λ c. f (slice_index lists.entry.bases.now b + c)) (runs_of lists.entry.run lists.entry.offsets.now))
        (n + (2 * length (runs_of lists.entry.run lists.entry.offsets.now) - 1)) }
    ensures held { AreHeld (length lists.entry.bases.now) out_digits.new.items out_exponents.new.items (vec_capacity out_digits.new) (vec_capacity out_exponents.new) }
    ensures digits_room { vec_capacity out_digits.new ≡ vec_capacity out_digits.old }
    ensures exponents_room { vec_capacity out_exponents.new ≡ vec_capacity out_exponents.old }
{
    if from.digits.len() < cells {
        let cell = plus_of_ones::<R>(lists.offsets.len() * lists.run);
        put_everywhere(out_digits, out_exponents, cell, lists.bases.len());
    } else {
        fill(out_digits, out_exponents, lists.bases.len());
        let all = First(lists.bases.len());
        put_sums::<R, First>(from, lists, all, out_digits, out_exponents);
    }
}

/// The plus of runs of cells, by the first cell of each. Of a blank table no cell is read.
pub fn plus_of_listed<R: Semiring>(
    digits: &[u64],
    exponents: &[u32],
    cells: usize,
    firsts: &[u16],
    run: usize,
) -> Cell
    requires some { 1 ≤ run }
    requires few { length (runs_of run firsts.now) ≤ max_clique_cells }
    requires whole { AreBlankOrFull cells digits.now exponents.now }
    requires within { All (λ c. 0 + c < cells) (runs_of run firsts.now) }
    requires room { (k : ℕ) × HaveRoom k (filled one_digits cells digits.now) (filled one_exponent cells exponents.now) (2 * length (runs_of run firsts.now)) }
    ensures { (k : ℕ) (f : ℕ → ℕ) (n : ℕ) → StandListed k (filled one_digits cells digits.now) (filled one_exponent cells exponents.now) f n 0 (runs_of run firsts.now)
        → Stands k result (plus_over R.plus_of 0 (λ c. f (0 + c)) (runs_of run firsts.now)) (n + 2 * length (runs_of run firsts.now)) }
{
    if digits.len() < cells {
        plus_of_ones::<R>(firsts.len() * run)
    } else {
        plus_at::<R>(digits, exponents, 0, firsts, run)
    }
}

/// The plus of so many cells of 1, whatever numbers these stand for.
pub(crate) fn plus_of_ones<R: Semiring>(count: usize) -> Cell
    requires { count ≤ max_clique_cells }
    ensures { (xs : List ℕ) → length xs ≡ count → (k : ℕ) (f : ℕ → ℕ) (n : ℕ) → All (λ c. StandsAt k one_digits one_exponent (f c) n) xs
        → Stands k result (plus_over R.plus_of 0 f xs) (n + (2 * count - 1)) }
{
    if count <= FEW {
        plus_of_few::<R, FEW>(count)
    } else if count <= BLOCK {
        plus_of_few::<R, BLOCK>(count)
    } else {
        let block = plus_of_few::<R, BLOCK>(BLOCK);
        let rest = plus_of_few::<R, BLOCK>(count % BLOCK);
        plus_of_blocks::<R>(block, count / BLOCK, rest)
    }
}

/// The plus of so many equal blocks and of what is left.
fn plus_of_blocks<R: Semiring>(block: Cell, full: usize, rest: Cell) -> Cell
    requires few { full ≤ 64 }
    requires block { IsCell block.digits block.exponent }
    requires rest { IsCell rest.digits rest.exponent }
    ensures { (k : ℕ) (f : ℕ → ℕ) (n : ℕ) → ((b : ℕ) → b < full → Stands k block (f b) n) → Stands k rest (f full) n
        → Stands k result (plus_below R.plus_of (full + 1) f) (n + (full + 1)) }
{
    let mut digits = [block.digits; BLOCK + 1];
    let mut exponents = [block.exponent; BLOCK + 1];
    digits[full] = rest.digits;
    exponents[full] = rest.exponent;
    R::over(&digits[..full + 1], &exponents[..full + 1])
}

/// The plus of at most so many ones.
fn plus_of_few<R: Semiring, const N: usize>(count: usize) -> Cell
    requires few { count ≤ N }
    requires small { N ≤ 64 }
    ensures { (xs : List ℕ) → length xs ≡ count → (k : ℕ) (f : ℕ → ℕ) (n : ℕ) → All (λ c. StandsAt k one_digits one_exponent (f c) n) xs
        → Stands k result (plus_over R.plus_of 0 f xs) (n + count) }
{
    let one = one();
    let digits = [one.digits; N];
    let exponents = [one.exponent; N];
    R::over(&digits[..count], &exponents[..count])
}
