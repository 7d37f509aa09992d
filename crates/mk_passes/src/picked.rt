//! What a cell picks: a share in the rows of a variable, and the units of a trade.

ghost use Rattle.std.specs.Prelude.{◌≡◌, ◌<◌, ◌≤◌, nat_le, if◌then◌else◌, length, All, slice_index};
ghost use Rattle.mk_passes.specs.Below.{sizes, variable_at, row_there, share_there, HasSized};
ghost use Rattle.mk_passes.specs.Below.{cells_in, values_at};
ghost use Rattle.mk_passes.specs.Parts.{AreUnitCells};

use mk_cell::Cell;
use mk_names::limits::RATIO_PLACES;
use mk_net::{Network, Ratio};
use mk_scope::Scope;

/// The cells of the units of a ratio, by the value of its variable.
#[derive(Clone, Copy)]
pub(crate) struct UnitCells {
    pub(crate) digits: [u64; 16],
    pub(crate) exponents: [u32; 16],
}

/// The cell of the units for each value of the ratio's variable.
pub(crate) fn unit_cells(ratio: &Ratio) -> UnitCells
    ensures { AreUnitCells ratio.now.factors.items result.digits result.exponents }
{
    let mut digits = [0u64; 16];
    let mut exponents = [0u32; 16];
    for value in 0..ratio.factors.len() {
        let cell = Cell::of_whole(ratio.factors[value], RATIO_PLACES);
        digits[value] = cell.digits;
        exponents[value] = cell.exponent;
    }
    UnitCells { digits, exponents }
}

/// The number of the row that a cell picks for a variable.
#[inline]
fn row_of(net: &Network, variable: u32, scope: &Scope, cell: usize) -> u32
    requires variable { variable < length net.now }
    requires parents { All (HasSized net.now scope.now) (variable_at net.now variable).parents }
    requires cell { cell < cells_in scope.now }
    ensures number { result ≡ row_there (sizes net.now) (variable_at net.now variable).parents (values_at scope.now cell) }
    ensures within { result < length (variable_at net.now variable).rows }
{
    let _ = net.variables();
    let mut row: u64 = 0;
    for parent in net.parents(variable) {
        row = row * net.values(*parent) as u64 + scope.value(cell, *parent) as u64;
    }
    row as u32
}

/// The share that a cell picks in the rows of a variable.
#[inline]
pub(crate) fn share_of(net: &Network, variable: u32, scope: &Scope, cell: usize) -> u32
    requires variable { variable < length net.now }
    requires family { HasSized net.now scope.now variable }
    requires parents { All (HasSized net.now scope.now) (variable_at net.now variable).parents }
    requires cell { cell < cells_in scope.now }
    ensures { result ≡ share_there net.now variable (values_at scope.now cell) }
{
    let _ = net.variables();
    let row = row_of(net, variable, scope, cell);
    net.entry(variable, row, scope.value(cell, variable))
}

/// One where a share is not nothing.
#[inline]
pub(crate) fn support_of(share: u32) -> u64
    ensures { result ≡ (if nat_le 1 share then 1 else 0) }
{
    if share >= 1 { 1 } else { 0 }
}
