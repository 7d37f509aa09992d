//! The scope of a table.

ghost use Rattle.std.specs.Prelude.{◌≡◌, ℕ, ◌+◌, ◌<◌, ◌≤◌, ◌*◌, ◌/◌, ◌%◌, List, All, map, length, slice_index, true, false, IfOk};
ghost use Rattle.mk_scope.specs.Below.{max_variables, max_clique_cells, max_values, is_member};
ghost use Rattle.mk_scope.specs.Below.{sizes, IsNetwork, keep, cells, variables};
ghost use Rattle.mk_scope.specs.Scopes.{IsScope, LiesIn, Rising, scope_of, size_in, cells_in, has_variable, HasEvent};
ghost use Rattle.mk_scope.specs.Cells.{values_at, cells_where, cells_onto};
ghost use Rattle.mk_scope.specs.inner.Columns.{HaveColumns};
ghost use Rattle.mk_scope.specs.Places.{AreOnto};
ghost use Rattle.mk_scope.specs.inner.Strides.{IsTail, cells_with, values_let, values_moved};
ghost use Rattle.mk_scope.specs.Runs.{runs_of};

use crate::strides::{CellList, begin, is_free, is_moved, take_moved, take_values};
use crate::tail::{Tail, long_tail, no_tail};
use mk_net::{Event, Network, NoMemory};
use mk_sets::VarSet;
use std::alloc::Global;
use std::marker::Model;

/// Some variables in rising order, with their numbers of values. A cell of a table over the scope is a value of each;
/// cells are counted with the last variable's value changing fastest.
#[derive(Drop)]
pub struct Scope {
    variables: Vec<u32>,
    sizes: Vec<u32>,
    cells: usize,
    first: u32,
    starts: Vec<u32>,
    columns: Vec<u8>,
}

impl Model for Scope {
    ghost use Rattle.mk_scope.specs.Scopes.{ScopeOf};
    ghost use Rattle.mk_scope.specs.inner.Columns.{IsKept};

    ghost Value = { ScopeOf };

    ghost view = { λ s. record { variables = s.variables.items; sizes = s.sizes.items } };

    ghost invariant = { λ s. IsKept (record { variables = s.variables.items; sizes = s.sizes.items }) s.cells s.first s.starts.items s.columns.items };
}

impl Scope {
    /// The scope of a set of a network's variables.
    pub fn of(alloc: Global, net: &Network, set: &VarSet) -> Result<Scope, NoMemory>
        requires of_network { (x : ℕ) → is_member set.now x ≡ true → x < length net.now }
        requires few_cells { cells_in (scope_of net.now set.now) ≤ max_clique_cells }
        ensures { IfOk result (λ scope. scope ≡ scope_of net.now set.now) }
    {
        let _ = net.variables();
        let variables = members(alloc, net, set)?;
        let sizes = sizes_of(alloc, net, &variables)?;
        let cells = cells_of(net, &variables);
        let (first, reach) = reach(&variables);
        let mut starts = vec![in alloc; 0; reach]?;
        let mut columns = vec![in alloc; 0; variables.len() * cells]?;
        lay_out(net, &variables, cells, first, &mut starts, &mut columns);
        Ok(Scope {
            variables,
            sizes,
            cells,
            first,
            starts,
            columns,
        })
    }

    /// How many cells a table over the scope has.
    pub fn cells(&self) -> usize
        ensures cells { result ≡ cells_in self.now }
        ensures scope { IsScope self.now }
    {
        self.cells
    }

    /// Lists the cells where an event holds, in rising order.
    pub fn cells_where(&self, event: &Event, cells: &mut CellList)
        requires { HasEvent self.now event.now }
        ensures cells { cells.new.items ≡ cells_where self.now event.now }
        ensures few { length cells.new.items ≤ cells_in self.now }
        ensures scope { IsScope self.now }
    {
        let _ = self.cells();
        self.firsts_where(event, no_tail(), cells);
    }

    /// Lists the first cells of the runs where an event holds, in rising order, and says how many cells each run has. They lie
    /// side by side.
    pub fn runs_where(&self, event: &Event, firsts: &mut CellList) -> usize
        requires { HasEvent self.now event.now }
        ensures cells { runs_of result firsts.new.items ≡ cells_where self.now event.now }
        ensures few { length (cells_where self.now event.now) ≤ cells_in self.now }
        ensures some { 1 ≤ result }
        ensures scope { IsScope self.now }
    {
        let _ = self.cells();
        let tail = self.free_tail(event);
        self.firsts_where(event, tail, firsts);
        tail.cells
    }

    /// Lists the cells where an event holds and each variable of a tail has its first value.
    ///
    /// The list grows variable by variable, the last first: what is listed so far comes again a stride further on for each
    /// value that the variable may have.
    fn firsts_where(&self, event: &Event, tail: Tail, firsts: &mut CellList)
        requires event { HasEvent self.now event.now }
        requires tail { IsTail self.now (values_let self.now event.now) tail.variables tail.cells }
        ensures { runs_of tail.cells firsts.new.items ≡ cells_where self.now event.now }
    {
        let pairs = event.pairs();
        let mut stride = tail.cells;
        begin(firsts);
        for passed in tail.variables..self.variables.len() {
            let place = self.variables.len() - 1 - passed;
            let size = self.sizes[place] as usize;
            take_values(firsts, stride, size, pairs, self.variables[place]);
            stride *= size;
        }
    }

    /// The last variables, if an event speaks of none of them.
    fn free_tail(&self, event: &Event) -> Tail
        ensures { IsTail self.now (values_let self.now event.now) result.variables result.cells }
    {
        let pairs = event.pairs();
        let mut cells = 1;
        for passed in 0..self.variables.len() {
            let place = self.variables.len() - 1 - passed;
            if !is_free(pairs, self.variables[place]) {
                return long_tail(passed, cells);
            }
            cells *= self.sizes[place] as usize;
        }
        long_tail(self.variables.len(), cells)
    }

    /// Lists the first cell with the values of each cell of a part, and how far from it the runs of cells with these values
    /// begin; says how many cells each run has. They lie side by side.
    pub(crate) fn cells_onto(
        &self,
        part: &Scope,
        bases: &mut CellList,
        offsets: &mut CellList,
    ) -> usize
        requires { LiesIn part.now self.now }
        ensures bases { length bases.new.items ≡ cells_in part.now }
        ensures onto { (d : ℕ) → d < cells_in part.now
            → map (λ c. slice_index bases.new.items d + c) (runs_of result offsets.new.items) ≡ cells_onto part.now self.now d }
        ensures few { length (runs_of result offsets.new.items) ≤ cells_in self.now }
        ensures beside { length bases.new.items * length (runs_of result offsets.new.items) ≡ cells_in self.now }
        ensures some { 1 ≤ result }
        ensures scope { IsScope self.now }
        ensures listed { runs_of result offsets.new.items ≡ cells_with (size_in self.now) (values_moved self.now part.now false) self.now.variables }
    {
        let _ = (part.cells(), self.cells());
        let tail = self.tail_outside(part);
        self.cells_moved(part, true, no_tail(), bases);
        self.cells_moved(part, false, tail, offsets);
        tail.cells
    }

    /// Lists how far each cell lies from the first one with the values that it gives a part.
    pub(crate) fn cells_beside(&self, part: &Scope, cells: &mut CellList)
        ensures { cells.new.items ≡ cells_with (size_in self.now) (values_moved self.now part.now false) self.now.variables }
    {
        self.cells_moved(part, false, no_tail(), cells);
    }

    /// Lists the cells where each variable has its first value, but for those that a part has, or those that it has not. Of
    /// a tail each has its first value.
    fn cells_moved(&self, part: &Scope, inside: bool, tail: Tail, cells: &mut CellList)
        requires { IsTail self.now (values_moved self.now part.now inside) tail.variables tail.cells }
        ensures { runs_of tail.cells cells.new.items ≡ cells_with (size_in self.now) (values_moved self.now part.now inside) self.now.variables }
    {
        let mut stride = tail.cells;
        begin(cells);
        for passed in tail.variables..self.variables.len() {
            let place = self.variables.len() - 1 - passed;
            let size = self.sizes[place] as usize;
            let has = part.has(self.variables[place]);
            take_moved(cells, stride, size, is_moved(has, inside));
            stride *= size;
        }
    }

    /// The last variables, if a part has none of them.
    fn tail_outside(&self, part: &Scope) -> Tail
        ensures { IsTail self.now (values_moved self.now part.now false) result.variables result.cells }
    {
        let mut cells = 1;
        for passed in 0..self.variables.len() {
            let place = self.variables.len() - 1 - passed;
            if part.has(self.variables[place]) {
                return long_tail(passed, cells);
            }
            cells *= self.sizes[place] as usize;
        }
        long_tail(self.variables.len(), cells)
    }

    /// Counts the cell with the values of each cell of a whole.
    ///
    /// The numbers grow variable by variable, the first one first: the last variable's values change fastest.
    pub(crate) fn count_cells(&self, whole: &Scope, numbers: &mut [u16])
        requires lies_in { LiesIn self.now whole.now }
        requires one_each { length numbers.old ≡ cells_in whole.now }
        requires none { (c : ℕ) → c < length numbers.old → slice_index numbers.old c ≡ 0 }
        ensures { AreOnto self.now whole.now numbers.new }
    {
        let _ = whole.cells();
        for place in 0..self.variables.len() {
            let values = whole.column(self.variables[place]);
            count_values(numbers, values, self.sizes[place]);
        }
    }

    /// Whether the scope has a variable.
    pub fn has(&self, variable: u32) -> bool
        ensures { result ≡ has_variable self.now variable }
    {
        self.variables.contains(&variable)
    }

    /// How many values a variable of the scope has; 1 for any other.
    pub fn size(&self, variable: u32) -> u32
        ensures size { result ≡ size_in self.now variable }
        ensures some { 1 ≤ result }
    {
        let _ = self.cells();
        for place in 0..self.variables.len() {
            if self.variables[place] == variable {
                return self.sizes[place];
            }
        }
        1
    }

    /// The value that each cell gives a variable.
    pub fn column(&self, variable: u32) -> &[u8]
        requires { has_variable self.now variable ≡ true }
        ensures cells { length result.now ≡ cells_in self.now }
        ensures values { (c : ℕ) → c < cells_in self.now → slice_index result.now c ≡ values_at self.now c variable }
    {
        let start = self.starts[(variable - self.first) as usize] as usize;
        &self.columns[start..start + self.cells]
    }

    /// The value that a cell gives a variable.
    #[inline]
    pub fn value(&self, cell: usize, variable: u32) -> u32
        requires cell { cell < cells_in self.now }
        requires variable { has_variable self.now variable ≡ true }
        ensures { result ≡ values_at self.now cell variable }
    {
        let start = self.starts[(variable - self.first) as usize] as usize;
        self.columns[start + cell] as u32
    }
}

/// The variables of a set, in rising order.
fn members(alloc: Global, net: &Network, set: &VarSet) -> Result<Vec<u32>, NoMemory>
    requires { (x : ℕ) → is_member set.now x ≡ true → x < length net.now }
    ensures { IfOk result (λ vs. vs.items ≡ keep (is_member set.now) (variables (sizes net.now))) }
{
    let _ = net.variables();
    let mut members = Vec::new(alloc);
    let mut left = *set;
    while let Some(variable) = left.first() {
        left = left.without(&VarSet::empty().with(variable));
        members.push(variable)?;
    }
    Ok(members)
}

/// Their numbers of values.
fn sizes_of(alloc: Global, net: &Network, variables: &[u32]) -> Result<Vec<u32>, NoMemory>
    requires { All (λ x. x < length net.now) variables.now }
    ensures { IfOk result (λ ns. ns.items ≡ map (slice_index (sizes net.now)) variables.now) }
{
    let mut sizes = Vec::with_capacity(alloc, variables.len())?;
    for variable in variables {
        sizes.push(net.values(*variable))?;
    }
    Ok(sizes)
}

/// How many cells these variables have.
fn cells_of(net: &Network, variables: &[u32]) -> usize
    requires of_network { All (λ x. x < length net.now) variables.now }
    requires few_cells { cells (slice_index (sizes net.now)) variables.now ≤ max_clique_cells }
    ensures { result ≡ cells (slice_index (sizes net.now)) variables.now }
{
    let _ = net.variables();
    let mut cells = 1;
    for variable in variables {
        cells *= net.values(*variable) as usize;
    }
    cells
}

/// Counts the values of one variable more, which has so many.
fn count_values(numbers: &mut [u16], values: &[u8], size: u32)
    requires one_each { length values.now ≡ length numbers.old }
    requires few { (c : ℕ) → c < length numbers.old → slice_index numbers.old c * size + slice_index values.now c < max_clique_cells }
    ensures one_each { length numbers.new ≡ length numbers.old }
    ensures counted { (c : ℕ) → c < length numbers.old → slice_index numbers.new c ≡ slice_index numbers.old c * size + slice_index values.now c }
{
    for cell in 0..numbers.len() {
        numbers[cell] = (numbers[cell] as u32 * size + values[cell] as u32) as u16;
    }
}

/// The first of some variables, and how many variables there are from it to their last.
fn reach(variables: &[u32]) -> (u32, usize)
    requires { Rising variables.now }
    ensures { All (λ x. (result.0 ≤ x) × (x < result.0 + result.1)) variables.now }
{
    let count = variables.len();
    if count == 0 {
        return (0, 0);
    }
    let first = variables[0];
    (first, (variables[count - 1] - first) as usize + 1)
}

/// Writes the column of each variable, and where it starts. The starts are listed for the variables from `first` on.
fn lay_out(
    net: &Network,
    variables: &[u32],
    count: usize,
    first: u32,
    starts: &mut [u32],
    columns: &mut [u8],
)
    requires of_network { All (λ x. x < length net.now) variables.now }
    requires rising { Rising variables.now }
    requires few_variables { length variables.now ≤ max_variables }
    requires cells { count ≡ cells (slice_index (sizes net.now)) variables.now }
    requires few_cells { count ≤ max_clique_cells }
    requires starts { All (λ x. (first ≤ x) × (x < first + length starts.old)) variables.now }
    requires columns { length columns.old ≡ length variables.now * count }
    ensures { HaveColumns (slice_index (sizes net.now)) variables.now variables.now first starts.new columns.new }
{
    let _ = net.variables();
    let mut span = count;
    let mut start = 0;
    for variable in variables {
        let stride = span / net.values(*variable) as usize;
        starts[(*variable - first) as usize] = start as u32;
        write_column(columns, start, count, span, stride);
        start += count;
        span = stride;
    }
}

/// Writes the value of each cell, for a variable whose values come round every `span` cells and change every `stride`. They are
/// written once, and then come again, so that no cell costs a division.
fn write_column(columns: &mut [u8], start: usize, count: usize, span: usize, stride: usize)
    requires there { start + count ≤ length columns.old }
    requires stride { 1 ≤ stride }
    requires few { span ≤ stride * max_values }
    requires some { 1 ≤ span }
    requires within { span ≤ count }
    requires exact { span / stride * stride ≡ span }
    ensures long { length columns.new ≡ length columns.old }
    ensures before { (c : ℕ) → c < start → slice_index columns.new c ≡ slice_index columns.old c }
    ensures written { (c : ℕ) → c < count → slice_index columns.new (start + c) ≡ c % span / stride }
{
    write_values(columns, start, span / stride, stride);
    for cell in span..count {
        columns[start + cell] = columns[start + cell - span];
    }
}

/// Writes each value for so many cells.
fn write_values(columns: &mut [u8], start: usize, values: usize, stride: usize)
    requires there { start + values * stride ≤ length columns.old }
    requires few { values ≤ max_values }
    ensures long { length columns.new ≡ length columns.old }
    ensures before { (c : ℕ) → c < start → slice_index columns.new c ≡ slice_index columns.old c }
    ensures written { (c : ℕ) → c < values * stride → slice_index columns.new (start + c) ≡ c / stride }
{
    let mut first = start;
    for value in 0..values {
        write_run(columns, first, stride, value as u8);
        first += stride;
    }
}

/// Writes one value so many times.
fn write_run(columns: &mut [u8], first: usize, count: usize, value: u8)
    requires { first + count ≤ length columns.old }
    ensures long { length columns.new ≡ length columns.old }
    ensures before { (c : ℕ) → c < first → slice_index columns.new c ≡ slice_index columns.old c }
    ensures written { (c : ℕ) → c < count → slice_index columns.new (first + c) ≡ value }
{
    for cell in first..first + count {
        columns[cell] = value;
    }
}
