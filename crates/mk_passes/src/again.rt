//! Cells of a margin that are made anew, by their numbers.

ghost use Rattle.std.specs.Prelude.{◌≡◌, ℕ, ◌+◌, ◌-◌, ◌*◌, ◌<◌, ◌≤◌, All, length, slice_index};
ghost use Rattle.mk_net.specs.Bounds.{max_clique_cells};
ghost use Rattle.mk_passes.specs.Parts.{HaveRoom, AreMadeAnew};
ghost use Rattle.mk_scope.specs.Runs.{runs_of};

use crate::blocks::put_sums;
use crate::columns::{Columns, Lists};
use crate::made::Chosen;
use mk_semiring::Semiring;

/// Puts into chosen cells of a table the plus of the runs of cells that begin so far from the cell's base.
pub fn plus_at_chosen<R: Semiring>(
    from: Columns,
    lists: Lists,
    chosen: &[u16],
    out_digits: &mut [u64],
    out_exponents: &mut [u32],
)
    requires some { 1 ≤ lists.run }
    requires few { length (runs_of lists.run lists.offsets.now) ≤ max_clique_cells }
    requires within { (b : ℕ) → b < length lists.bases.now
        → All (λ c. slice_index lists.bases.now b + c < length from.digits.now) (runs_of lists.run lists.offsets.now) }
    requires room { (k : ℕ) × HaveRoom k from.digits.now from.exponents.now (2 * length (runs_of lists.run lists.offsets.now)) }
    requires chosen { All (λ b. b < length lists.bases.now) chosen.now }
    requires digits { length out_digits.old ≡ length lists.bases.now }
    requires exponents { length out_exponents.old ≡ length lists.bases.now }
    ensures { AreMadeAnew R.plus_of from.entry.digits.now from.entry.exponents.now lists.entry.bases.now
        (runs_of lists.entry.run lists.entry.offsets.now)
        (2 * length (runs_of lists.entry.run lists.entry.offsets.now) - 1)
        chosen.now (length chosen.now)
        out_digits.old out_exponents.old out_digits.new out_exponents.new }
{
    put_sums::<R, Chosen>(from, lists, Chosen(chosen), out_digits, out_exponents);
}
