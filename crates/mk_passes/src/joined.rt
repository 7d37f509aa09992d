//! The plus of products of a table's cells by those of another, for each cell of a third.

ghost use Rattle.std.specs.Prelude.{◌≡◌, ℕ, ◌+◌, ◌*◌, ◌<◌, ◌≤◌, All, length, slice_index, vec_capacity};
ghost use Rattle.mk_passes.specs.Below.{range_with_len, max_clique_cells, LiesIn, cells_in};
ghost use Rattle.mk_passes.specs.Below.{cell_in, cells_beside, cells_onto, cells_at};
ghost use Rattle.mk_passes.specs.Blank.{one_digits, one_exponent, filled};
ghost use Rattle.mk_passes.specs.Parts.{AreBlankOrFull, AreHeld, HaveRoom, MakesPlusOfPairs};
ghost use Rattle.mk_passes.specs.inner.Made.{AreBlank, AreMade, AreWritten, CanMultiply, CanPut, MakesProducts};

use crate::blank::{fill, plus_of_each};
use crate::columns::{Columns, Lists};
use crate::made::{First, Maker, put_made};
use crate::products::{plus_of_others, plus_of_products, products_of_cells};
use mk_cell::Cell;
use mk_scope::Places;
use mk_semiring::Semiring;

/// Puts into each cell of a part the plus, over the cells of the whole that have its values, of each times the other table's
/// cell that has the same values. Of a blank table no cell is read.
pub fn margin_times<R: Semiring>(
    left: Columns,
    places: &Places,
    right: Columns,
    other_places: &Places,
    out_digits: &mut Vec<u64>,
    out_exponents: &mut Vec<u32>,
)
    requires one_whole { other_places.now.whole ≡ places.now.whole }
    requires whole { AreBlankOrFull (cells_in places.now.whole) left.digits.now left.exponents.now }
    requires other { AreBlankOrFull (cells_in other_places.now.part) right.digits.now right.exponents.now }
    requires room { (k : ℕ) × HaveRoom k (filled one_digits (cells_in places.now.whole) left.digits.now) (filled one_exponent (cells_in places.now.whole) left.exponents.now) (2 * cells_in places.now.whole) }
    requires other_room { (k : ℕ) × HaveRoom k (filled one_digits (cells_in other_places.now.part) right.digits.now) (filled one_exponent (cells_in other_places.now.part) right.exponents.now) 1 }
    requires out { AreHeld (cells_in places.now.part) out_digits.old.items out_exponents.old.items (vec_capacity out_digits.old) (vec_capacity out_exponents.old) }
    ensures made { (d : ℕ) → d < cells_in places.now.part
        → MakesPlusOfPairs R.plus_of (filled one_digits (cells_in places.now.whole) left.entry.digits.now) (filled one_exponent (cells_in places.now.whole) left.entry.exponents.now)
        (filled one_digits (cells_in other_places.now.part) right.entry.digits.now) (filled one_exponent (cells_in other_places.now.part) right.entry.exponents.now)
        (cell_in other_places.now.part places.now.whole) (cells_onto places.now.part places.now.whole d) (2 * cells_beside places.now.part places.now.whole + 1)
        (slice_index (filled one_digits (cells_in places.now.part) out_digits.new.items) d) (slice_index (filled one_exponent (cells_in places.now.part) out_exponents.new.items) d) }
    ensures held { AreHeld (cells_in places.now.part) out_digits.new.items out_exponents.new.items (vec_capacity out_digits.new) (vec_capacity out_exponents.new) }
    ensures digits_room { vec_capacity out_digits.new ≡ vec_capacity out_digits.old }
    ensures exponents_room { vec_capacity out_exponents.new ≡ vec_capacity out_exponents.old }
    ensures lies_in { LiesIn places.now.part places.now.whole }
    ensures other_lies_in { LiesIn other_places.now.part places.now.whole }
    ensures beside { cells_in places.now.part * cells_beside places.now.part places.now.whole ≡ cells_in places.now.whole }
{
    if right.digits.len() < other_places.part_cells() {
        let (bases, offsets, run) = places.lists();
        let lists = Lists {
            bases,
            offsets,
            run,
        };
        plus_of_each::<R>(left, places.whole_cells(), lists, out_digits, out_exponents);
    } else {
        let (bases, offsets) = places.single_lists();
        fill(out_digits, out_exponents, bases.len());
        let lists = Lists {
            bases,
            offsets,
            run: 1,
        };
        let onto = other_places.onto();
        products_at_each::<R>(left, onto, right, lists, out_digits, out_exponents);
    }
}

/// Puts into each cell of a table the plus of the products of the cells that lie so far from the cell's base by the message's
/// cells that have their values. Each offset is one cell, whatever the lists' run is.
fn products_at_each<R: Semiring>(
    left: Columns,
    onto: &[u16],
    right: Columns,
    lists: Lists,
    digits: &mut [u64],
    exponents: &mut [u32],
)
    requires few { length lists.offsets.now ≤ max_clique_cells }
    requires within { (b : ℕ) → b < length lists.bases.now
        → All (λ c. slice_index lists.bases.now b + c < length onto.now) lists.offsets.now }
    requires onto { All (λ d. d < length right.digits.now) onto.now }
    requires whole { AreBlankOrFull (length onto.now) left.digits.now left.exponents.now }
    requires room { (k : ℕ) × HaveRoom k (filled one_digits (length onto.now) left.digits.now) (filled one_exponent (length onto.now) left.exponents.now) (2 * length lists.offsets.now) }
    requires other_room { (k : ℕ) × HaveRoom k right.digits.now right.exponents.now 1 }
    requires digits { length digits.old ≡ length lists.bases.now }
    requires exponents { length exponents.old ≡ length lists.bases.now }
    ensures made { (b : ℕ) → b < length lists.entry.bases.now
        → MakesPlusOfPairs R.plus_of (filled one_digits (length onto.now) left.entry.digits.now) (filled one_exponent (length onto.now) left.entry.exponents.now) right.entry.digits.now right.entry.exponents.now
        (slice_index onto.now) (cells_at (slice_index lists.entry.bases.now b) lists.entry.offsets.now) (2 * length lists.entry.offsets.now + 1)
        (slice_index digits.new b) (slice_index exponents.new b) }
    ensures same_digits { length digits.new ≡ length digits.old }
    ensures same_exponents { length exponents.new ≡ length exponents.old }
{
    let products = Products {
        left,
        onto,
        right,
        lists,
    };
    products_by_count::<R>(products, digits, exponents);
}

/// What makes the plus of the products for a cell.
#[derive(Clone, Copy)]
struct Products<'a> {
    left: Columns<'a>,
    onto: &'a [u16],
    right: Columns<'a>,
    lists: Lists<'a>,
}

impl<'a> Maker for Products<'a> {
    ghost ready = { λ s. Unit {0} };

    ghost can = { λ s. CanMultiply s.left.digits.now s.left.exponents.now s.onto.now s.right.digits.now s.right.exponents.now s.lists.bases.now s.lists.offsets.now };

    ghost makes = { λ plus s. MakesProducts plus s.left.digits.now s.left.exponents.now s.onto.now s.right.digits.now s.right.exponents.now s.lists.bases.now s.lists.offsets.now };

    #[inline(always)]
    fn make<R: Semiring>(self, cell: usize) -> Cell {
        let base = self.lists.bases[cell] as usize;
        plus_of_products::<R>(self.left, self.onto, self.right, base, self.lists.offsets)
    }
}

/// The same of `N` cells where each cell is written. The compiler knows their number, and writes the passes over them without a
/// loop.
#[derive(Clone, Copy)]
struct FewProducts<'a, const N: usize>(Products<'a>);

impl<'a, const N: usize> Maker for FewProducts<'a, N> {
    ghost ready = { λ s. AreWritten N s.0.left.digits.now s.0.onto.now s.0.lists.offsets.now };

    ghost can = { λ s. CanMultiply s.0.left.digits.now s.0.left.exponents.now s.0.onto.now s.0.right.digits.now s.0.right.exponents.now s.0.lists.bases.now s.0.lists.offsets.now };

    ghost makes = { λ plus s. MakesProducts plus s.0.left.digits.now s.0.left.exponents.now s.0.onto.now s.0.right.digits.now s.0.right.exponents.now s.0.lists.bases.now s.0.lists.offsets.now };

    #[inline(always)]
    fn make<R: Semiring>(self, cell: usize) -> Cell {
        let Products {
            left,
            onto,
            right,
            lists,
        } = self.0;
        let base = lists.bases[cell] as usize;
        products_of_cells::<R, N>(left, onto, right, base, &lists.offsets[..N])
    }
}

/// The same of `N` cells where none is written.
#[derive(Clone, Copy)]
struct FewOthers<'a, const N: usize>(Products<'a>);

impl<'a, const N: usize> Maker for FewOthers<'a, N> {
    ghost ready = { λ s. AreBlank N s.0.left.digits.now s.0.onto.now s.0.lists.offsets.now };

    ghost can = { λ s. CanMultiply s.0.left.digits.now s.0.left.exponents.now s.0.onto.now s.0.right.digits.now s.0.right.exponents.now s.0.lists.bases.now s.0.lists.offsets.now };

    ghost makes = { λ plus s. MakesProducts plus s.0.left.digits.now s.0.left.exponents.now s.0.onto.now s.0.right.digits.now s.0.right.exponents.now s.0.lists.bases.now s.0.lists.offsets.now };

    #[inline(always)]
    fn make<R: Semiring>(self, cell: usize) -> Cell {
        let Products {
            onto,
            right,
            lists,
            ..
        } = self.0;
        let base = lists.bases[cell] as usize;
        plus_of_others::<R, N>(
            onto,
            right.digits,
            right.exponents,
            base,
            &lists.offsets[..N],
        )
    }
}

/// The same by the number of offsets.
fn products_by_count<R: Semiring>(of: Products, digits: &mut [u64], exponents: &mut [u32])
    requires can { CanPut (CanMultiply of.left.digits.now of.left.exponents.now of.onto.now of.right.digits.now of.right.exponents.now of.lists.bases.now of.lists.offsets.now)
        (range_with_len 0 (length of.lists.bases.now)) digits.old exponents.old }
    ensures { AreMade (MakesProducts R.plus_of of.entry.left.digits.now of.entry.left.exponents.now of.entry.onto.now of.entry.right.digits.now of.entry.right.exponents.now of.entry.lists.bases.now of.entry.lists.offsets.now)
        (range_with_len 0 (length of.entry.lists.bases.now)) (length (range_with_len 0 (length of.entry.lists.bases.now))) digits.old exponents.old digits.new exponents.new }
{
    match of.lists.offsets.len() {
        1 => few_products::<R, 1>(of, digits, exponents),
        2 => few_products::<R, 2>(of, digits, exponents),
        4 => few_products::<R, 4>(of, digits, exponents),
        8 => few_products::<R, 8>(of, digits, exponents),
        16 => few_products::<R, 16>(of, digits, exponents),
        _ => put_made::<R, Products, First>(of, First(of.lists.bases.len()), digits, exponents),
    }
}

/// The same for `N` offsets.
fn few_products<R: Semiring, const N: usize>(
    of: Products,
    digits: &mut [u64],
    exponents: &mut [u32],
)
    requires count { length of.lists.offsets.now ≡ N }
    requires small { N ≤ 64 }
    requires can { CanPut (CanMultiply of.left.digits.now of.left.exponents.now of.onto.now of.right.digits.now of.right.exponents.now of.lists.bases.now of.lists.offsets.now)
        (range_with_len 0 (length of.lists.bases.now)) digits.old exponents.old }
    ensures { AreMade (MakesProducts R.plus_of of.entry.left.digits.now of.entry.left.exponents.now of.entry.onto.now of.entry.right.digits.now of.entry.right.exponents.now of.entry.lists.bases.now of.entry.lists.offsets.now)
        (range_with_len 0 (length of.entry.lists.bases.now)) (length (range_with_len 0 (length of.entry.lists.bases.now))) digits.old exponents.old digits.new exponents.new }
{
    let cells = First(of.lists.bases.len());
    if of.left.digits.len() < of.onto.len() {
        put_made::<R, FewOthers<N>, First>(FewOthers(of), cells, digits, exponents);
    } else {
        put_made::<R, FewProducts<N>, First>(FewProducts(of), cells, digits, exponents);
    }
}
