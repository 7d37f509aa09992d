//! All tables of a flow, in one piece.

ghost use Rattle.std.specs.Prelude.{◌≡◌, ◌+◌, ◌-◌, ◌*◌, ◌≤◌, ◌≢◌, true, IfOk, length};
ghost use Rattle.mk_propagate.specs.Below.{max_clique_cells, trade_ratio, widest_grade, HasEvent};
ghost use Rattle.mk_propagate.specs.Below.{cells_in, has_variable, HasRoom, RowsOf, SupportOf};
ghost use Rattle.mk_propagate.specs.Below.{max_tree_cliques};
ghost use Rattle.mk_propagate.specs.inner.Boards.{HasClique, HasBoth, table_of, core_of};
ghost use Rattle.mk_propagate.specs.inner.Boards.{product_of, message_of, places_of, CanSum};
ghost use Rattle.mk_propagate.specs.inner.Boards.{core_place, product_place, message_place};
ghost use Rattle.mk_propagate.specs.inner.Boards.{Table, Core, Product, Message, IsPut};
ghost use Rattle.mk_propagate.specs.inner.Boards.{HasFamily, HasRatio};
ghost use Rattle.mk_propagate.specs.inner.Changes.{IsTimesFactor, IsTimesRatio, IsRestricted};
ghost use Rattle.mk_propagate.specs.inner.Changes.{IsCleared, IsMarginAgain};
ghost use Rattle.mk_propagate.specs.inner.Gathered.{IsMargin, IsMarginOfProduct, IsMessageAlone};
ghost use Rattle.mk_propagate.specs.inner.Gathered.{IsTimesMessage};
ghost use Rattle.mk_propagate.specs.inner.Ones.{IsStart};
ghost use Rattle.mk_propagate.specs.inner.Totals.{HaveTotal, IsTotal};

use crate::read::value_of;
use mk_net::{Event, Network, NoMemory, Pair, Ratio};
use mk_plan::Shape;
use mk_scope::{CellList, Places};
use mk_semiring::Semiring;
use mk_table::Tables;
use std::alloc::Global;
use std::marker::Model;

/// The tables of the cliques, those over their cores, a product of messages over each core, and the
/// messages up and down, in this order.
#[derive(Drop)]
pub(crate) struct Board<R: Semiring> {
    tables: Tables<R>,
    cliques: u32,
}

impl<R: Semiring> Model for Board<R> {
    ghost use Rattle.mk_propagate.specs.inner.Boards.{BoardOf, board_of, IsBoard};

    ghost Value = { BoardOf };

    ghost view = { λ b. board_of b.cliques b.tables };

    ghost invariant = { λ b. IsBoard b.cliques b.tables };
}

impl<R: Semiring> Board<R> {
    /// A table of ones over each scope of a shape.
    pub(crate) fn ones(alloc: Global, shape: &Shape) -> Result<Board<R>, NoMemory>
        ensures { IfOk result (λ board. IsStart shape.now board) }
    {
        let cliques = shape.cliques();
        Ok(Board {
            tables: Tables::ones(alloc, shape.scopes())?,
            cliques,
        })
    }

    /// How many cells a clique has.
    pub(crate) fn cells(&self, clique: u32) -> usize
        requires { HasClique self.now clique }
        ensures cells { result ≡ cells_in (table_of self.now clique).scope }
        ensures few { result ≤ max_clique_cells }
    {
        self.tables.cells(clique as usize - 1)
    }

    /// Multiplies a clique's table by the rows of a variable.
    pub(crate) fn times_rows(&mut self, clique: u32, net: &Network, variable: u32)
        requires clique { HasClique self.old clique }
        requires family { HasFamily net.now variable (table_of self.old clique) }
        ensures { IsPut (IsTimesFactor net.now (RowsOf variable)) (Table clique) self.old self.new }
    {
        self.tables.times_rows(clique as usize - 1, net, variable);
    }

    /// Multiplies a clique's table by the support of a variable's rows.
    pub(crate) fn times_support(&mut self, clique: u32, net: &Network, variable: u32)
        requires clique { HasClique self.old clique }
        requires family { HasFamily net.now variable (table_of self.old clique) }
        ensures { IsPut (IsTimesFactor net.now (SupportOf variable)) (Table clique) self.old self.new }
    {
        self.tables
            .times_support(clique as usize - 1, net, variable);
    }

    /// Multiplies a clique's table by a ratio.
    pub(crate) fn times_ratio(&mut self, clique: u32, ratio: &Ratio, chosen: &mut CellList)
        requires clique { HasClique self.old clique }
        requires ratio { HasRatio (trade_ratio ratio.now) (table_of self.old clique) }
        ensures { IsPut (IsTimesRatio (trade_ratio ratio.now)) (Table clique) self.old self.new }
    {
        self.tables.times_ratio(clique as usize - 1, ratio, chosen);
    }

    /// Makes absent what gives a pair's variable another value in a clique's table.
    pub(crate) fn restrict(&mut self, clique: u32, pair: Pair)
        requires clique { HasClique self.old clique }
        requires variable { has_variable (table_of self.old clique).scope pair.variable ≡ true }
        ensures { IsPut (IsRestricted pair) (Table clique) self.old self.new }
    {
        self.tables.restrict(clique as usize - 1, pair);
    }

    /// Sums a clique's table over its core.
    pub(crate) fn sum_core(&mut self, clique: u32, places: &Places)
        requires clique { HasClique self.old clique }
        requires places { places.now ≡ places_of (table_of self.old clique)
            (core_of self.old clique) }
        requires room { CanSum (table_of self.old clique) }
        ensures { IsPut (IsMargin R.plus_of (table_of self.old clique)) (Core clique)
            self.old self.new }
    {
        let core = core_place(self.cliques, clique);
        self.tables.margin_into(clique as usize - 1, places, core);
    }

    /// Sums anew the cells of a core that an event allows.
    pub(crate) fn sum_again(
        &mut self,
        clique: u32,
        places: &Places,
        event: &Event,
        chosen: &mut CellList,
    )
        requires clique { HasClique self.old clique }
        requires places { places.now ≡ places_of (table_of self.old clique)
            (core_of self.old clique) }
        requires room { CanSum (table_of self.old clique) }
        ensures { IsPut (IsMarginAgain R.plus_of event.now (table_of self.old clique)) (Core clique)
            self.old self.new }
    {
        let core = core_place(self.cliques, clique);
        // The proof learns that the core's table has a place for each cell of its scope.
        let _ = self.tables.cells(core);
        self.tables
            .margin_again_into(clique as usize - 1, places, event, chosen, core);
    }

    /// Multiplies the sums over a core by a ratio.
    pub(crate) fn core_times_ratio(&mut self, clique: u32, ratio: &Ratio, chosen: &mut CellList)
        requires clique { HasClique self.old clique }
        requires ratio { HasRatio (trade_ratio ratio.now) (core_of self.old clique) }
        ensures { IsPut (IsTimesRatio (trade_ratio ratio.now)) (Core clique) self.old self.new }
    {
        let core = core_place(self.cliques, clique);
        self.tables.times_ratio(core, ratio, chosen);
    }

    /// Puts the message from a neighbour in the place of a clique's product.
    pub(crate) fn put_message(&mut self, clique: u32, places: &Places, neighbour: u32)
        requires both { HasBoth self.old neighbour clique }
        requires places { places.now ≡ places_of (product_of self.old clique)
            (message_of self.old neighbour clique) }
        ensures { IsPut (IsMessageAlone (message_of self.old neighbour clique)) (Product clique)
            self.old self.new }
    {
        let product = product_place(self.cliques, clique);
        let message = message_place(self.cliques, neighbour, clique);
        self.tables.put_message(product, places, message);
    }

    /// Multiplies a clique's product by the message from a neighbour.
    pub(crate) fn times_message(&mut self, clique: u32, places: &Places, neighbour: u32)
        requires both { HasBoth self.old neighbour clique }
        requires places { places.now ≡ places_of (product_of self.old clique)
            (message_of self.old neighbour clique) }
        requires room { HasRoom (product_of self.old clique) 1 }
        requires message_room { HasRoom (message_of self.old neighbour clique) 1 }
        ensures { IsPut (IsTimesMessage (message_of self.old neighbour clique)) (Product clique)
            self.old self.new }
    {
        let product = product_place(self.cliques, clique);
        let message = message_place(self.cliques, neighbour, clique);
        self.tables.times_message(product, places, message);
    }

    /// Makes each cell of a clique's product 1.
    pub(crate) fn clear_product(&mut self, clique: u32)
        requires { HasClique self.old clique }
        ensures { IsPut IsCleared (Product clique) self.old self.new }
    {
        let product = product_place(self.cliques, clique);
        self.tables.clear(product);
    }

    /// Makes the message from a clique to another of the sums over its core.
    pub(crate) fn send_core(&mut self, from: u32, to: u32, places: &Places)
        requires both { HasBoth self.old from to }
        requires places { places.now ≡ places_of (core_of self.old from)
            (message_of self.old from to) }
        requires room { CanSum (core_of self.old from) }
        ensures { IsPut (IsMargin R.plus_of (core_of self.old from)) (Message from to)
            self.old self.new }
    {
        let core = core_place(self.cliques, from);
        let message = message_place(self.cliques, from, to);
        self.tables.margin_into(core, places, message);
    }

    /// Makes it of those sums times the clique's product.
    pub(crate) fn send_product(&mut self, from: u32, to: u32, places: &Places, own: &Places)
        requires both { HasBoth self.old from to }
        requires places { places.now ≡ places_of (core_of self.old from)
            (message_of self.old from to) }
        requires own { own.now ≡ places_of (core_of self.old from) (product_of self.old from) }
        requires room { CanSum (core_of self.old from) }
        requires product_room { HasRoom (product_of self.old from) 1 }
        ensures { IsPut (IsMarginOfProduct R.plus_of (core_of self.old from) (product_of self.old from))
            (Message from to) self.old self.new }
    {
        let core = core_place(self.cliques, from);
        let product = product_place(self.cliques, from);
        let message = message_place(self.cliques, from, to);
        self.tables
            .margin_times_into(core, places, own, product, message);
    }

    /// The value of the plus, over the cells where an event holds, of a clique's cells times those
    /// of
    /// its product.
    pub(crate) fn table_value(
        &self,
        clique: u32,
        places: &Places,
        event: &Event,
        chosen: &mut CellList,
        grade: u32,
    ) -> R::Value
        requires clique { HasClique self.now clique }
        requires places { places.now ≡ places_of (table_of self.now clique)
            (product_of self.now clique) }
        requires event { HasEvent (table_of self.now clique).scope event.now }
        requires room { CanSum (table_of self.now clique) }
        requires into_room { HasRoom (product_of self.now clique) 1 }
        requires grade_at_least { 1 ≤ grade }
        requires grade_at_most { grade ≤ widest_grade }
        requires total { HaveTotal (table_of self.now clique) (product_of self.now clique) grade }
        ensures { IsTotal R.encloses R.has_grade R.is_exact R.plus_of (table_of self.now clique)
            (product_of self.now clique) event.now grade result }
    {
        let into = product_place(self.cliques, clique);
        value_of(
            &self.tables,
            (clique as usize - 1, into),
            places,
            event,
            chosen,
            grade,
        )
    }

    /// The same of the sums over its core.
    pub(crate) fn core_value(
        &self,
        clique: u32,
        places: &Places,
        event: &Event,
        chosen: &mut CellList,
        grade: u32,
    ) -> R::Value
        requires clique { HasClique self.now clique }
        requires places { places.now ≡ places_of (core_of self.now clique)
            (product_of self.now clique) }
        requires event { HasEvent (core_of self.now clique).scope event.now }
        requires room { CanSum (core_of self.now clique) }
        requires into_room { HasRoom (product_of self.now clique) 1 }
        requires grade_at_least { 1 ≤ grade }
        requires grade_at_most { grade ≤ widest_grade }
        requires total { HaveTotal (core_of self.now clique) (product_of self.now clique) grade }
        ensures { IsTotal R.encloses R.has_grade R.is_exact R.plus_of (core_of self.now clique)
            (product_of self.now clique) event.now grade result }
    {
        let core = core_place(self.cliques, clique);
        let into = product_place(self.cliques, clique);
        value_of(&self.tables, (core, into), places, event, chosen, grade)
    }
}

/// The number of the table over a clique's core.
fn core_place(cliques: u32, clique: u32) -> usize
    requires first { 1 ≤ clique }
    requires few { cliques ≤ max_tree_cliques }
    requires last { clique ≤ cliques }
    ensures { result ≡ core_place cliques clique }
{
    cliques as usize + (clique as usize - 1)
}

/// The number of a clique's product.
fn product_place(cliques: u32, clique: u32) -> usize
    requires first { 1 ≤ clique }
    requires few { cliques ≤ max_tree_cliques }
    requires last { clique ≤ cliques }
    ensures { result ≡ product_place cliques clique }
{
    2 * cliques as usize + (clique as usize - 1)
}

/// The number of the message from a clique to another.
fn message_place(cliques: u32, from: u32, to: u32) -> usize
    requires first { 1 ≤ from }
    requires to_first { 1 ≤ to }
    requires last { from ≤ cliques }
    requires to_last { to ≤ cliques }
    requires few { cliques ≤ max_tree_cliques }
    requires apart { from ≢ to }
    ensures { result ≡ message_place cliques from to }
{
    if to < from {
        3 * cliques as usize + (from as usize - 2)
    } else {
        4 * cliques as usize - 1 + (to as usize - 2)
    }
}
