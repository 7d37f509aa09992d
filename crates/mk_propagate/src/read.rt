//! Beliefs, as they are read in a clique.

ghost use Rattle.std.specs.Prelude.{◌≡◌, ◌&&◌, ◌+◌, ◌*◌, ◌^◌, ◌<◌, ◌≤◌, length, true};
ghost use Rattle.mk_propagate.specs.Below.{widest_grade, table_in, HasEvent, HasRoom, is_untouched};
ghost use Rattle.mk_propagate.specs.Placings.{Placing};
ghost use Rattle.mk_propagate.specs.Flows.{HasPlaced, AreRightInto, CanRead, IsReading};
ghost use Rattle.mk_propagate.specs.Flows.{KeepsMessages, KeepsTables};
ghost use Rattle.mk_propagate.specs.inner.Boards.{places_of, CanSum};
ghost use Rattle.mk_propagate.specs.inner.Totals.{HaveTotal, IsTotal};

use crate::flow::Flow;
use crate::message::refresh;
use crate::sums::sum_core;
use mk_net::Event;
use mk_scope::{CellList, Places};
use mk_semiring::Semiring;
use mk_table::Tables;

impl<R: Semiring> Flow<R> {
    /// The belief in an event, read in a clique that holds it: the plus, over the cells where the event holds, of what is placed in
    /// the clique times the messages from all its neighbours. Where the core has the event, it is read there, in fewer cells; what is
    /// placed is summed over it first, which the next message needs too.
    pub fn read(&mut self, clique: u32, event: &Event) -> R::Value
        requires { CanRead R.plus_of self.old clique event.now }
        ensures kept { KeepsMessages self.old self.new }
        ensures still { KeepsTables R.plus_of self.old self.new }
        ensures reading { (p : Placing) → HasPlaced R.plus_of self.old p → AreRightInto R.plus_of self.old p clique
            → IsReading R.encloses R.has_grade R.is_exact R.plus_of self.old.shape.tree p clique event.now result }
    {
        let place = clique as usize - 1;
        refresh(
            &mut self.board,
            &mut self.gathered[place],
            &self.shape,
            clique,
        );
        let separators = self.shape.cliques() - 1;
        let cells = self.board.cells(clique) as u32;
        let grade = self.factors + self.cells + 2 * separators + cells;
        if self.shape.core_holds(clique, event) {
            sum_core(
                &mut self.board,
                &mut self.summed[place],
                &self.shape,
                clique,
            );
            let places = self.shape.own_places(clique);
            return self
                .board
                .core_value(clique, places, event, &mut self.chosen, grade);
        }
        let places = self.shape.core_places(clique);
        self.board
            .table_value(clique, places, event, &mut self.chosen, grade)
    }
}

/// The value of the plus, over the cells where an event holds, of a table's cells times those of a
/// product of messages: both by their
/// numbers. Where no ratio touched a cell of the event, it is exact if what is left of the plus
/// under no shift is small.
pub(crate) fn value_of<R: Semiring>(
    tables: &Tables<R>,
    both: (usize, usize),
    places: &Places,
    event: &Event,
    chosen: &mut CellList,
    grade: u32,
) -> R::Value
    requires table { both.0 < length tables.now }
    requires into { both.1 < length tables.now }
    requires places { places.now ≡ places_of (table_in tables.now both.0)
        (table_in tables.now both.1) }
    requires event { HasEvent (table_in tables.now both.0).scope event.now }
    requires room { CanSum (table_in tables.now both.0) }
    requires into_room { HasRoom (table_in tables.now both.1) 1 }
    requires grade_at_least { 1 ≤ grade }
    requires grade_at_most { grade ≤ widest_grade }
    requires total { HaveTotal (table_in tables.now both.0) (table_in tables.now both.1) grade }
    ensures { IsTotal R.encloses R.has_grade R.is_exact R.plus_of
        (table_in tables.now both.0) (table_in tables.now both.1) event.now grade result }
{
    let (table, into) = both;
    let total = tables.total_times(table, places, into, event, chosen);
    let untouched = are_untouched(tables, table, into, event);
    R::of_cell(
        total,
        tables.shift(table) + tables.shift(into),
        untouched,
        grade,
    )
}

/// Whether no ratio touched a cell of either table where an event holds.
fn are_untouched<R: Semiring>(tables: &Tables<R>, table: usize, into: usize, event: &Event) -> bool
    requires table { table < length tables.now }
    requires into { into < length tables.now }
    ensures { result ≡ (is_untouched (table_in tables.now table) event.now
        && is_untouched (table_in tables.now into) event.now) }
{
    tables.is_untouched(table, event) && tables.is_untouched(into, event)
}
