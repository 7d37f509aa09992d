//! Cells that are found by strides, without a division.

ghost use Rattle.std.specs.Prelude.{◌≡◌, ℕ, ◌+◌, ◌*◌, ◌<◌, ◌≤◌, true, [], ◌∷◌, ◌++◌, All, map, filter, take, length, max, vec_capacity, Option, IfOk, IfSome, IfNone, ◌==◌, if◌then◌else◌, not};
ghost use Rattle.mk_scope.specs.Below.{max_clique_cells, numbers_below, IsEvent};
ghost use Rattle.mk_scope.specs.inner.Strides.{MayRepeat, repeated, lets};

use mk_names::limits::MAX_CLIQUE_CELLS;
use mk_net::{NoMemory, Pair};
use std::alloc::Global;
use std::marker::Model;

/// The numbers of some cells of a scope, with room for each cell of a table. No place of it is written
/// before a list is that long.
#[derive(Drop)]
pub struct CellList {
    cells: Vec<u16>,
    count: usize,
}

impl Model for CellList {
    ghost use Rattle.std.specs.Prelude.{take, length, vec_capacity};
    ghost use Rattle.mk_scope.specs.Cells.{ListedCells};
    ghost use Rattle.mk_scope.specs.inner.Lists.{IsWithinRoom};

    ghost Value = { ListedCells };

    ghost view = { λ l. record { items = take l.count l.cells.items } };

    ghost invariant = { λ l. IsWithinRoom l.count (length l.cells.items) (vec_capacity l.cells) };
}

impl CellList {
    /// No cells. It fails where memory is wanting.
    pub fn new(alloc: Global) -> Result<CellList, NoMemory>
        ensures { IfOk result (λ list. list.items ≡ []) }
    {
        Ok(CellList {
            cells: Vec::with_capacity(alloc, MAX_CLIQUE_CELLS as usize)?,
            count: 0,
        })
    }

    /// Lists no cells.
    pub(crate) fn clear(&mut self)
        ensures { self.new.items ≡ [] }
    {
        self.count = 0;
    }

    /// How many cells are listed.
    fn len(&self) -> usize
        ensures { result ≡ length self.now.items }
    {
        self.count
    }

    /// Their numbers, in the order in which they are listed.
    pub fn as_slice(&self) -> &[u16]
        ensures { result.now ≡ self.now.items }
    {
        &self.cells[..self.count]
    }
}

/// Lists the first cell alone.
pub(crate) fn begin(cells: &mut CellList)
    ensures { cells.new.items ≡ 0 ∷ [] }
{
    reach(&mut cells.cells, 1);
    cells.cells[0] = 0;
    cells.count = 1;
}

/// Has so many places written, whatever stands in those that are new.
fn reach(written: &mut Vec<u16>, places: usize)
    requires { places ≤ vec_capacity written.old }
    ensures kept { take (length written.old.items) written.new.items ≡ written.old.items }
    ensures reached { length written.new.items ≡ max places (length written.old.items) }
    ensures room { vec_capacity written.new ≡ vec_capacity written.old }
{
    for _ in written.len()..places {
        written.push_reserved(0);
    }
}

/// Repeats what is listed for each value that the pairs let a variable have.
pub(crate) fn take_values(
    cells: &mut CellList,
    stride: usize,
    size: usize,
    pairs: &[Pair],
    variable: u32,
)
    requires event { IsEvent pairs.now }
    requires repeatable { MayRepeat stride size cells.old.items }
    ensures { cells.new.items ≡ repeated stride (filter (lets pairs.now variable) (numbers_below size)) cells.old.items }
{
    match value_in(pairs, variable) {
        None => repeat(cells, stride, size),
        Some(value) => {
            if (value as usize) < size {
                move_all(cells, value as usize * stride);
            } else {
                cells.clear();
            }
        }
    }
}

/// Repeats what is listed for each value of a variable that moves, and leaves it for the first value of another.
pub(crate) fn take_moved(cells: &mut CellList, stride: usize, size: usize, moved: bool)
    requires { MayRepeat stride size cells.old.items }
    ensures { cells.new.items ≡ repeated stride (if moved then numbers_below size else 0 ∷ []) cells.old.items }
{
    if moved {
        repeat(cells, stride, size);
    }
}

/// Whether a variable moves: one that a part has, or one that it has not.
pub(crate) fn is_moved(has: bool, inside: bool) -> bool
    ensures { result ≡ (if inside then has else not has) }
{
    if inside { has } else { !has }
}

/// Whether the pairs let a variable have each value.
pub(crate) fn is_free(pairs: &[Pair], variable: u32) -> bool
    requires { IsEvent pairs.now }
    ensures { result ≡ true → (v : ℕ) → lets pairs.now variable v ≡ true }
{
    match value_in(pairs, variable) {
        Some(_) => false,
        None => true,
    }
}

/// The value that the pairs give a variable.
fn value_in(pairs: &[Pair], variable: u32) -> Option<u32>
    requires { IsEvent pairs.now }
    ensures some { IfSome result (λ value. (v : ℕ) → lets pairs.now variable v ≡ (v == value)) }
    ensures none { IfNone result ((v : ℕ) → lets pairs.now variable v ≡ true) }
{
    for pair in pairs {
        if pair.variable == variable {
            return Some(pair.value);
        }
    }
    None
}

/// Repeats what is listed for each value of a variable.
fn repeat(cells: &mut CellList, stride: usize, size: usize)
    requires { MayRepeat stride size cells.old.items }
    ensures { cells.new.items ≡ repeated stride (numbers_below size) cells.old.items }
{
    let count = cells.len();
    for value in 1..size {
        append_moved(cells, count, value * stride);
    }
}

/// Lists the first cells once more, further on.
fn append_moved(cells: &mut CellList, count: usize, by: usize)
    requires there { count ≤ length cells.old.items }
    requires room { length cells.old.items + count ≤ max_clique_cells }
    requires below { All (λ c. by + c < max_clique_cells) (take count cells.old.items) }
    ensures { cells.new.items ≡ cells.old.items ++ map (λ c. by + c) (take count cells.old.items) }
{
    reach(&mut cells.cells, cells.count + count);
    write_again(&mut cells.cells, cells.count, count, by);
    cells.count += count;
}

/// Writes the first numbers of an array once more, increased, behind those that are listed.
fn write_again(cells: &mut [u16], listed: usize, count: usize, by: usize)
    requires there { count ≤ listed }
    requires room { listed + count ≤ length cells.old }
    requires below { All (λ c. by + c < max_clique_cells) (take count cells.old) }
    ensures { take (listed + count) cells.new ≡ take listed cells.old ++ map (λ c. by + c) (take count cells.old) }
{
    let (listed, room) = cells.split_at_mut(listed);
    write_moved(&listed[..count], &mut room[..count], by);
}

/// Writes each number, increased, in its place of another array. As these are two, the compiler moves several at a time.
fn write_moved(listed: &[u16], moved: &mut [u16], by: usize)
    requires one_each { length moved.old ≡ length listed.now }
    requires below { All (λ c. by + c < max_clique_cells) listed.now }
    ensures { moved.new ≡ map (λ c. by + c) listed.now }
{
    for place in 0..listed.len() {
        moved[place] = by as u16 + listed[place];
    }
}

/// Moves each cell of a list.
fn move_all(cells: &mut CellList, by: usize)
    requires { All (λ c. by + c < max_clique_cells) cells.old.items }
    ensures { cells.new.items ≡ map (λ c. by + c) cells.old.items }
{
    for place in 0..cells.count {
        cells.cells[place] += by as u16;
    }
}
