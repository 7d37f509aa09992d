//! Maxima of cells, and of products of cells.
ghost use Rattle.std.specs.Prelude.{◌≡◌, ℕ, ◌+◌, ◌*◌, ◌^◌, length, max};
ghost use Rattle.mk_cell.specs.Cell.{AllStand, AreCells, Stands};
ghost use Rattle.mk_cell.specs.Passes.{plus_below};
ghost use Rattle.mk_cell.specs.Products.{AreUnrounded, PairsStand};

use crate::{Cell, cell};

/// The greater of two cells. Nothing is rounded. An absent one stands for 0, and gives way to all.
#[inline]
pub fn greater(a: Cell, b: Cell) -> Cell
    ensures { (k v w n : ℕ) → Stands k a v n → Stands k b w n → Stands k result (max v w) n }
{
    if rank(a) < rank(b) { b } else { a }
}

/// Where a cell stands among others: by its exponent first, and then by its digits, since those are
/// full. An absent one stands before all that are there.
#[inline]
fn rank(cell: Cell) -> u128
    ensures { result ≡ cell.exponent * 2 ^ 64 + cell.digits }
{
    (cell.exponent as u128) * (1 << 64) + cell.digits as u128
}

/// The greatest of the cells; Absent where none is there. Nothing is rounded.
pub fn greatest(digits: &[u64], exponents: &[u32]) -> Cell
    requires { AreCells digits.now exponents.now }
    ensures { (k : ℕ) (f : ℕ → ℕ) (n : ℕ) → AllStand k digits.now exponents.now f n
        → Stands k result (plus_below max (length digits.now) f) n }
{
    let mut most = Cell::ABSENT;
    for c in 0..digits.len() {
        most = greater(
            most,
            Cell {
                digits: digits[c],
                exponent: exponents[c],
            },
        );
    }
    most
}

/// The greatest of products of cells, each rounded down, of which the first 64 places are given:
/// the
/// others do not count.
pub fn greatest_of_products(places: &[u64], exponents: &[u32]) -> Cell
    requires { (a e b d : ℕ → ℕ) × AreUnrounded a e b d places.now exponents.now }
    ensures { (a e b d : ℕ → ℕ) → AreUnrounded a e b d places.now exponents.now
        → (j k : ℕ) (f g : ℕ → ℕ) (n p : ℕ)
        → PairsStand (length places.now) a e b d j k f g n p
        → Stands (j + k) result (plus_below max (length places.now) (λ c. f c * g c))
        (n + p + 2 * length places.now + 1) }
{
    let mut most = Cell::ABSENT;
    for c in 0..places.len() {
        most = greater(most, cell::rounded(places[c] as u128, exponents[c] + 64));
    }
    most
}
