//! What multiplies the cells of a table, by its two arrays.

ghost use Rattle.std.specs.Prelude.{◌≡◌, ℕ, ◌+◌, ◌*◌, ◌<◌, ◌≤◌, ◌==◌, true, false, List, All, map, length, slice_index, slice_set};
ghost use Rattle.mk_passes.specs.Below.{sizes, variable_at, ratio_pairs, trade_ratio, units_of};
ghost use Rattle.mk_passes.specs.Below.{share_there, support_there, IsCell, Stands, LiesIn};
ghost use Rattle.mk_passes.specs.Below.{HasEvent, HasOneEach, HasSized, Rising, cells_in};
ghost use Rattle.mk_passes.specs.Below.{has_variable, values_at, cell_in, cells_where, IsAmong};
ghost use Rattle.mk_passes.specs.Below.{IsBetween, IsOfRuns, cells_at, runs_of};
ghost use Rattle.mk_passes.specs.Parts.{IsFull, HaveRoom, IsTimes, IsTimesCell, IsChanged, IsRestricted};

use crate::picked::{share_of, support_of, unit_cells};
use mk_cell::Cell;
use mk_net::{Network, Pair, Ratio};
use mk_scope::{Places, Scope};

/// Multiplies one cell.
#[inline]
fn times_at(digits: &mut [u64], exponents: &mut [u32], cell: usize, other: Cell)
    requires within { cell < length digits.old }
    requires within_exponents { cell < length exponents.old }
    requires cell { IsCell (slice_index digits.old cell) (slice_index exponents.old cell) }
    requires other { IsCell other.digits other.exponent }
    ensures digits { digits.new ≡ slice_set digits.old cell (slice_index digits.new cell) }
    ensures exponents { exponents.new ≡ slice_set exponents.old cell (slice_index exponents.new cell) }
    ensures times { (k w p : ℕ) → Stands k other w p
        → IsTimes (slice_index digits.old cell) (slice_index exponents.old cell) k w p (slice_index digits.new cell) (slice_index exponents.new cell) }
{
    let product = Cell {
        digits: digits[cell],
        exponent: exponents[cell],
    }
    .times(other);
    digits[cell] = product.digits;
    exponents[cell] = product.exponent;
}

/// Multiplies each cell by the share that it picks in the rows of a variable.
pub fn times_shares(
    digits: &mut [u64],
    exponents: &mut [u32],
    scope: &Scope,
    net: &Network,
    variable: u32,
)
    requires variable { variable < length net.now }
    requires family { HasSized net.now scope.now variable }
    requires parents { All (HasSized net.now scope.now) (variable_at net.now variable).parents }
    requires full { IsFull scope.now digits.old exponents.old }
    requires room { (k : ℕ) × HaveRoom k digits.old exponents.old 1 }
    ensures { IsChanged (λ c d e x y. IsTimes d e 0 (share_there net.now variable (values_at scope.now c)) 0 x y)
        (λ c. c < cells_in scope.now) digits.old exponents.old digits.new exponents.new }
{
    for cell in 0..digits.len() {
        let share = share_of(net, variable, scope, cell);
        times_at(digits, exponents, cell, Cell::of_whole(share as u64, 0));
    }
}

/// Makes absent each cell that picks a share of nothing in the rows of a variable.
pub fn times_supports(
    digits: &mut [u64],
    exponents: &mut [u32],
    scope: &Scope,
    net: &Network,
    variable: u32,
)
    requires variable { variable < length net.now }
    requires family { HasSized net.now scope.now variable }
    requires parents { All (HasSized net.now scope.now) (variable_at net.now variable).parents }
    requires full { IsFull scope.now digits.old exponents.old }
    requires room { (k : ℕ) × HaveRoom k digits.old exponents.old 1 }
    ensures { IsChanged (λ c d e x y. IsTimes d e 0 (support_there net.now variable (values_at scope.now c)) 0 x y)
        (λ c. c < cells_in scope.now) digits.old exponents.old digits.new exponents.new }
{
    for cell in 0..digits.len() {
        let share = share_of(net, variable, scope, cell);
        times_at(
            digits,
            exponents,
            cell,
            Cell::of_whole(support_of(share), 0),
        );
    }
}

/// Multiplies chosen cells by a ratio's units for the value that each gives the ratio's variable.
pub fn times_units(
    digits: &mut [u64],
    exponents: &mut [u32],
    scope: &Scope,
    ratio: &Ratio,
    chosen: &[u16],
)
    requires event { HasEvent scope.now (ratio_pairs (trade_ratio ratio.now)) }
    requires one_each { HasOneEach scope.now (trade_ratio ratio.now) }
    requires full { IsFull scope.now digits.old exponents.old }
    requires chosen { chosen.now ≡ cells_where scope.now ratio.now.condition }
    requires room { (k : ℕ) × HaveRoom k digits.old exponents.old 1 }
    ensures { IsChanged (λ c d e x y. IsTimes d e 40 (units_of (trade_ratio ratio.now) (values_at scope.now c ratio.now.variable)) 0 x y)
        (IsAmong chosen.now (length chosen.now)) digits.old exponents.old digits.new exponents.new }
{
    let units = unit_cells(ratio);
    let values = scope.column(ratio.variable);
    for place in 0..chosen.len() {
        let cell = chosen[place] as usize;
        let value = values[cell] as usize;
        let other = Cell {
            digits: units.digits[value],
            exponent: units.exponents[value],
        };
        times_at(digits, exponents, cell, other);
    }
}

/// Multiplies each cell by the cell of a message that has its values.
pub fn times_cells(
    digits: &mut [u64],
    exponents: &mut [u32],
    places: &Places,
    other_digits: &[u64],
    other_exponents: &[u32],
)
    requires full { IsFull places.now.whole digits.old exponents.old }
    requires other_full { IsFull places.now.part other_digits.now other_exponents.now }
    requires room { (k : ℕ) × HaveRoom k digits.old exponents.old 1 }
    requires other_room { (k : ℕ) × HaveRoom k other_digits.now other_exponents.now 1 }
    ensures changed { IsChanged (λ c d e x y. IsTimesCell d e (slice_index other_digits.now (cell_in places.now.part places.now.whole c))
        (slice_index other_exponents.now (cell_in places.now.part places.now.whole c)) x y)
        (λ c. c < cells_in places.now.whole) digits.old exponents.old digits.new exponents.new }
    ensures lies_in { LiesIn places.now.part places.now.whole }
{
    let (bases, offsets, run) = places.lists();
    for place in 0..bases.len() {
        let other = Cell {
            digits: other_digits[place],
            exponent: other_exponents[place],
        };
        times_far(
            digits,
            exponents,
            bases[place] as usize,
            offsets,
            run,
            other,
        );
    }
}

/// Multiplies the runs of cells that begin so far from a base.
fn times_far(
    digits: &mut [u64],
    exponents: &mut [u32],
    base: usize,
    offsets: &[u16],
    run: usize,
    other: Cell,
)
    requires some { 1 ≤ run }
    requires within { All (λ c. c < length digits.old) (cells_at base (runs_of run offsets.now)) }
    requires within_exponents { All (λ c. c < length exponents.old) (cells_at base (runs_of run offsets.now)) }
    requires rising { Rising (cells_at base (runs_of run offsets.now)) }
    requires cells { All (λ c. IsCell (slice_index digits.old c) (slice_index exponents.old c)) (cells_at base (runs_of run offsets.now)) }
    requires other { IsCell other.digits other.exponent }
    ensures { IsChanged (λ c d e x y. IsTimesCell d e other.digits other.exponent x y) (IsOfRuns base run offsets.now (length offsets.now))
        digits.old exponents.old digits.new exponents.new }
{
    if run == 1 {
        times_listed(digits, exponents, base, offsets, other);
    } else {
        times_runs(digits, exponents, base, offsets, run, other);
    }
}

/// Multiplies the cells that lie so far from a base.
fn times_listed(
    digits: &mut [u64],
    exponents: &mut [u32],
    base: usize,
    offsets: &[u16],
    other: Cell,
)
    requires within { All (λ c. c < length digits.old) (cells_at base offsets.now) }
    requires within_exponents { All (λ c. c < length exponents.old) (cells_at base offsets.now) }
    requires rising { Rising (cells_at base offsets.now) }
    requires cells { All (λ c. IsCell (slice_index digits.old c) (slice_index exponents.old c)) (cells_at base offsets.now) }
    requires other { IsCell other.digits other.exponent }
    ensures { IsChanged (λ c d e x y. IsTimesCell d e other.digits other.exponent x y)
        (IsAmong (cells_at base offsets.now) (length offsets.now)) digits.old exponents.old digits.new exponents.new }
{
    for place in 0..offsets.len() {
        let cell = base + offsets[place] as usize;
        times_at(digits, exponents, cell, other);
    }
}

/// Multiplies runs of many cells that begin so far from a base.
fn times_runs(
    digits: &mut [u64],
    exponents: &mut [u32],
    base: usize,
    offsets: &[u16],
    run: usize,
    other: Cell,
)
    requires some { 1 ≤ run }
    requires within { All (λ c. c < length digits.old) (cells_at base (runs_of run offsets.now)) }
    requires within_exponents { All (λ c. c < length exponents.old) (cells_at base (runs_of run offsets.now)) }
    requires rising { Rising (cells_at base (runs_of run offsets.now)) }
    requires cells { All (λ c. IsCell (slice_index digits.old c) (slice_index exponents.old c)) (cells_at base (runs_of run offsets.now)) }
    requires other { IsCell other.digits other.exponent }
    ensures { IsChanged (λ c d e x y. IsTimesCell d e other.digits other.exponent x y) (IsOfRuns base run offsets.now (length offsets.now))
        digits.old exponents.old digits.new exponents.new }
{
    for place in 0..offsets.len() {
        let first = base + offsets[place] as usize;
        times_run(digits, exponents, first, run, other);
    }
}

/// Multiplies cells that lie side by side.
#[inline]
fn times_run(digits: &mut [u64], exponents: &mut [u32], first: usize, run: usize, other: Cell)
    requires within { first + run ≤ length digits.old }
    requires within_exponents { first + run ≤ length exponents.old }
    requires cells { (c : ℕ) → IsBetween first (first + run) c → IsCell (slice_index digits.old c) (slice_index exponents.old c) }
    requires other { IsCell other.digits other.exponent }
    ensures { IsChanged (λ c d e x y. IsTimesCell d e other.digits other.exponent x y) (IsBetween first (first + run))
        digits.old exponents.old digits.new exponents.new }
{
    for cell in first..first + run {
        times_at(digits, exponents, cell, other);
    }
}

/// Makes absent each cell that gives the pair's variable another value.
pub fn keep_value(digits: &mut [u64], exponents: &mut [u32], scope: &Scope, pair: Pair)
    requires variable { has_variable scope.now pair.variable ≡ true }
    requires full { IsFull scope.now digits.old exponents.old }
    ensures { IsChanged (λ c d e x y. IsRestricted (values_at scope.now c pair.variable == pair.value) d e x y)
        (λ c. c < cells_in scope.now) digits.old exponents.old digits.new exponents.new }
{
    for cell in 0..digits.len() {
        if scope.value(cell, pair.variable) != pair.value {
            digits[cell] = 0;
            exponents[cell] = 0;
        }
    }
}
