//! Tables of cells that are multiplied in place.
ghost use Rattle.std.specs.Prelude.{◌≡◌, ℕ, ◌+◌, ◌*◌, length};
ghost use Rattle.mk_cell.specs.Cell.{AllStand, AreCells};

use crate::Cell;

/// Multiplies each cell by the other at its place.
pub fn times_each(
    digits: &mut [u64],
    exponents: &mut [u32],
    other_digits: &[u64],
    other_exponents: &[u32],
)
    requires cells { AreCells digits.old exponents.old }
    requires other_cells { AreCells other_digits.now other_exponents.now }
    requires same_length { length other_digits.now ≡ length digits.old }
    ensures { (j k : ℕ) (f g : ℕ → ℕ) (n p : ℕ)
        → AllStand j digits.old exponents.old f n
        → AllStand k other_digits.now other_exponents.now g p
        → AllStand (j + k) digits.new exponents.new (λ c. f c * g c) (n + p + 1) }
{
    for c in 0..digits.len() {
        let cell = Cell {
            digits: digits[c],
            exponent: exponents[c],
        };
        let other = Cell {
            digits: other_digits[c],
            exponent: other_exponents[c],
        };
        let product = cell.times(other);
        digits[c] = product.digits;
        exponents[c] = product.exponent;
    }
}
