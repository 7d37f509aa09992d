//! What makes the cells of a table, and the pass that puts them there.

ghost use Rattle.std.specs.Prelude.{◌≡◌, ℕ, ◌<◌, List, length, slice_index};
ghost use Rattle.std.specs.List.{range_with_len};
ghost use Rattle.mk_passes.specs.inner.Made.{AreMade, CanPut};

use mk_cell::Cell;
use mk_semiring::Semiring;

/// What makes a cell of a table, by the cell's number.
pub(crate) trait Maker: Copy {
    /// It has what its type says, as a number of cells that the compiler knows.
    ghost ready: { Self → Type 0 };

    /// It can make this cell.
    ghost can: { Self → ℕ → Type 0 };

    /// Which digits and exponent it makes of a cell, under a plus.
    ghost makes: { (ℕ → ℕ → ℕ) → Self → ℕ → ℕ → ℕ → Type 0 };

    /// Makes a cell.
    fn make<R: Semiring>(self, cell: usize) -> Cell
        requires ready { ready self }
        requires can { can self cell }
        ensures { makes R.plus_of self cell result.digits result.exponent };
}

/// Which cells are made.
pub(crate) trait Listed: Copy {
    /// Their numbers, in order.
    ghost cells: { Self → List ℕ };

    /// How many they are.
    fn count(self) -> usize
        ensures { result ≡ length (cells self) };

    /// The cell at a place of the list.
    fn at(self, place: usize) -> usize
        requires { place < length (cells self) }
        ensures { result ≡ slice_index (cells self) place };
}

/// The cells that a list names.
#[derive(Clone, Copy)]
pub(crate) struct Chosen<'a>(pub(crate) &'a [u16]);

impl<'a> Listed for Chosen<'a> {
    ghost cells = { λ s. s.0.now };

    #[inline(always)]
    fn count(self) -> usize {
        self.0.len()
    }

    #[inline(always)]
    fn at(self, place: usize) -> usize {
        self.0[place] as usize
    }
}

/// So many cells, from the first on.
#[derive(Clone, Copy)]
pub(crate) struct First(pub(crate) usize);

impl Listed for First {
    ghost cells = { λ s. range_with_len 0 s.0 };

    #[inline(always)]
    fn count(self) -> usize {
        self.0
    }

    #[inline(always)]
    fn at(self, place: usize) -> usize {
        place
    }
}

/// Puts into each cell that is listed what is made of it.
pub(crate) fn put_made<R: Semiring, M: Maker, C: Listed>(
    maker: M,
    cells: C,
    digits: &mut [u64],
    exponents: &mut [u32],
)
    requires ready { M.ready maker }
    requires can { CanPut (M.can maker) (C.cells cells) digits.old exponents.old }
    ensures { AreMade (M.makes R.plus_of maker) (C.cells cells) (length (C.cells cells)) digits.old exponents.old digits.new exponents.new }
{
    for place in 0..cells.count() {
        let cell = cells.at(place);
        let made = maker.make::<R>(cell);
        digits[cell] = made.digits;
        exponents[cell] = made.exponent;
    }
}
