//! The tables of an engine.

ghost use Rattle.std.specs.Prelude.{◌≡◌, ◌≢◌, ℕ, ◌+◌, ◌-◌, ◌*◌, ◌<◌, ◌≤◌, ◌==◌, length, true, All, IfOk, if◌then◌else◌, slice_set, slice_index_or, vec_capacity, None, Some};
ghost use Rattle.mk_table.specs.Below.{variable_at, ratio_pairs, max_clique_cells, trade_ratio};
ghost use Rattle.mk_table.specs.Below.{plus_over, share_there, support_there, ratio_there, Stands};
ghost use Rattle.mk_table.specs.Below.{IsOwnOf, HasEvent, HasOneEach, HasSized, cells_in};
ghost use Rattle.mk_table.specs.Below.{has_variable, values_at, cell_in, cells_onto, cells_beside};
ghost use Rattle.mk_table.specs.Below.{cells_where, IsFull, StandListed};
ghost use Rattle.mk_table.specs.Tables.{HasNumbers, HasRoom, is_untouched};
ghost use Rattle.mk_table.specs.Ratios.{KeepsPairs};
ghost use Rattle.mk_table.specs.Margins.{IsMarginBut};
ghost use Rattle.mk_table.specs.Lists.{IsOnes, no_scope, table_in};

use crate::changes::Change;
use crate::scopes::Scopes;
use crate::store::{Place, Spare, Store};
use crate::touched::pairs_within;
use mk_cell::Cell;
use mk_net::{Event, Network, NoMemory, Pair, Ratio};
use mk_passes::{
    Columns, Lists, fill, margin_times, one, plus_at_chosen, plus_of_each, plus_of_listed,
    plus_of_products,
};
use mk_scope::{CellList, Places};
use mk_semiring::Semiring;
use std::alloc::Global;
use std::marker::{Model, PhantomData};
use std::rc::Rc;

/// The tables of an engine, over scopes that are given, in one piece of memory. All of it is reserved at the start, and none
/// of it is written before a table is changed; a table of ones takes none.
///
/// A table is a scope, and a cell for each list of values of its variables. Each cell stands for a whole number, all of a
/// table under one shift, in a number of steps that each lose at most one part in `2^63`.
///
/// A ratio multiplies the cells that it does not touch by 2^40, for which the shift alone grows. So such a cell also stands,
/// under no shift, for a number of its own, of which its number is a multiple. A table keeps one event for all its ratios:
/// no ratio touched a cell where this event does not hold, nor any cell where there is none.
#[derive(Drop)]
pub struct Tables<R: Semiring> {
    scopes: Rc<Scopes>,
    store: Store,
    spare: Spare,
    semiring: PhantomData<R>,
}

impl<R: Semiring> Model for Tables<R> {
    ghost use Rattle.std.specs.Prelude.{List};
    ghost use Rattle.mk_table.specs.Tables.{TableOf};
    ghost use Rattle.mk_table.specs.inner.Store.{AreTables, store_tables};

    ghost Value = { List TableOf };

    ghost view = { λ t. store_tables t.scopes.value t.store };

    ghost invariant = { λ t. AreTables t.scopes.value t.store t.spare };
}

impl<R: Semiring> Tables<R> {
    /// Tables of ones, one over each scope.
    pub fn ones(alloc: Global, scopes: &Rc<Scopes>) -> Result<Tables<R>, NoMemory>
        ensures one_each { IfOk result (λ tables. length tables ≡ length scopes.now.value) }
        ensures ones { IfOk result (λ tables. (k : ℕ) → k < length scopes.now.value → IsOnes (slice_index_or scopes.now.value k no_scope) (table_in tables k)) }
    {
        let (cells, most) = scopes.cells();
        Ok(Tables {
            scopes: scopes.clone()?,
            store: Store {
                heads: Vec::with_capacity(alloc, scopes.count())?,
                digits: Vec::with_capacity(alloc, cells)?,
                exponents: Vec::with_capacity(alloc, cells)?,
            },
            spare: Spare {
                digits: Vec::with_capacity(alloc, most)?,
                exponents: Vec::with_capacity(alloc, most)?,
            },
            semiring: PhantomData,
        })
    }

    /// How many cells a table has.
    pub fn cells(&self, k: usize) -> usize
        requires table { k < length self.now }
        ensures cells { result ≡ cells_in (table_in self.now k).scope }
        ensures few { result ≤ max_clique_cells }
        ensures full { length (table_in self.now k).digits ≡ cells_in (table_in self.now k).scope }
    {
        self.scopes.scope(k).cells()
    }

    /// How many places of two its cells are shifted by.
    pub fn shift(&self, k: usize) -> u32
        requires table { k < length self.now }
        ensures { result ≡ (table_in self.now k).shift }
    {
        self.store.shift(k)
    }

    /// A cell of a table.
    pub fn get(&self, k: usize, cell: usize) -> Cell
        requires table { k < length self.now }
        requires cell { cell < cells_in (table_in self.now k).scope }
        ensures { (f : ℕ → ℕ) (n : ℕ) → HasNumbers (table_in self.now k) f n → Stands (table_in self.now k).shift result (f cell) n }
    {
        match self.store.place(k) {
            Place::Written(first) => Cell {
                digits: self.store.digits[first + cell],
                exponent: self.store.exponents[first + cell],
            },
            _ => one(),
        }
    }

    /// Whether no ratio touched a cell of a table where an event holds, as the table knows: it keeps no event of touched
    /// cells, or that event contradicts this one. Such cells have numbers of their own.
    pub fn is_untouched(&self, k: usize, event: &Event) -> bool
        requires table { k < length self.now }
        ensures { result ≡ is_untouched (table_in self.now k) event.now }
    {
        self.store.is_untouched(k, event)
    }

    /// Multiplies each cell by the share that it picks in the rows of a variable, in parts per million.
    pub fn times_rows(&mut self, k: usize, net: &Network, variable: u32)
        requires table { k < length self.old }
        requires variable { variable < length net.now }
        requires family { HasSized net.now (table_in self.old k).scope variable }
        requires parents { All (HasSized net.now (table_in self.old k).scope) (variable_at net.now variable).parents }
        requires room { HasRoom (table_in self.old k) 1 }
        ensures only { self.new ≡ slice_set self.old k (table_in self.new k) }
        ensures scope { (table_in self.new k).scope ≡ (table_in self.old k).scope }
        ensures full { length (table_in self.new k).digits ≡ cells_in (table_in self.new k).scope }
        ensures shift { (table_in self.new k).shift ≡ (table_in self.old k).shift }
        ensures numbers { (f : ℕ → ℕ) (n : ℕ) → HasNumbers (table_in self.old k) f n
            → HasNumbers (table_in self.new k) (λ c. f c * share_there net.now variable (values_at (table_in self.old k).scope c)) (n + 1) }
        ensures touched { (table_in self.new k).touched ≡ (table_in self.old k).touched }
    {
        let scopes: &Scopes = &self.scopes;
        self.store.open(scopes);
        self.store
            .change(scopes, k, Change::Shares { net, variable });
    }

    /// Makes absent each cell that picks a share of nothing in the rows of a variable.
    pub fn times_support(&mut self, k: usize, net: &Network, variable: u32)
        requires table { k < length self.old }
        requires variable { variable < length net.now }
        requires family { HasSized net.now (table_in self.old k).scope variable }
        requires parents { All (HasSized net.now (table_in self.old k).scope) (variable_at net.now variable).parents }
        requires room { HasRoom (table_in self.old k) 1 }
        ensures only { self.new ≡ slice_set self.old k (table_in self.new k) }
        ensures scope { (table_in self.new k).scope ≡ (table_in self.old k).scope }
        ensures full { length (table_in self.new k).digits ≡ cells_in (table_in self.new k).scope }
        ensures shift { (table_in self.new k).shift ≡ (table_in self.old k).shift }
        ensures numbers { (f : ℕ → ℕ) (n : ℕ) → HasNumbers (table_in self.old k) f n
            → HasNumbers (table_in self.new k) (λ c. f c * support_there net.now variable (values_at (table_in self.old k).scope c)) (n + 1) }
        ensures touched { (table_in self.new k).touched ≡ (table_in self.old k).touched }
    {
        let scopes: &Scopes = &self.scopes;
        self.store.open(scopes);
        self.store
            .change(scopes, k, Change::Supports { net, variable });
    }

    /// Multiplies each cell by the units of a trade there: the number for the value of the ratio's variable where its
    /// condition holds, and 2^40 elsewhere, for which the shift alone grows. The list is where the cells of the condition are
    /// written.
    pub fn times_ratio(&mut self, k: usize, ratio: &Ratio, chosen: &mut CellList)
        requires table { k < length self.old }
        requires event { HasEvent (table_in self.old k).scope (ratio_pairs (trade_ratio ratio.now)) }
        requires one_each { HasOneEach (table_in self.old k).scope (trade_ratio ratio.now) }
        requires room { HasRoom (table_in self.old k) 1 }
        ensures only { self.new ≡ slice_set self.old k (table_in self.new k) }
        ensures scope { (table_in self.new k).scope ≡ (table_in self.old k).scope }
        ensures full { length (table_in self.new k).digits ≡ cells_in (table_in self.new k).scope }
        ensures shift { (table_in self.new k).shift ≡ (table_in self.old k).shift + 40 }
        ensures numbers { (f : ℕ → ℕ) (n : ℕ) → HasNumbers (table_in self.old k) f n
            → HasNumbers (table_in self.new k) (λ c. f c * ratio_there (trade_ratio ratio.now) (values_at (table_in self.old k).scope c)) (n + 1) }
        ensures touched { KeepsPairs (table_in self.old k).scope (table_in self.old k).touched (Some ratio.now.condition) (table_in self.new k).touched }
    {
        let scopes: &Scopes = &self.scopes;
        self.store.open(scopes);
        scopes.scope(k).cells_where(&ratio.condition, chosen);
        let chosen = chosen.as_slice();
        self.store
            .change(scopes, k, Change::Units { ratio, chosen });
        self.store.take_ratio(scopes, k, ratio.condition);
    }

    /// Makes absent each cell that gives the pair's variable another value.
    pub fn restrict(&mut self, k: usize, pair: Pair)
        requires table { k < length self.old }
        requires variable { has_variable (table_in self.old k).scope pair.variable ≡ true }
        ensures only { self.new ≡ slice_set self.old k (table_in self.new k) }
        ensures scope { (table_in self.new k).scope ≡ (table_in self.old k).scope }
        ensures full { length (table_in self.new k).digits ≡ cells_in (table_in self.new k).scope }
        ensures shift { (table_in self.new k).shift ≡ (table_in self.old k).shift }
        ensures numbers { (f : ℕ → ℕ) (n : ℕ) → HasNumbers (table_in self.old k) f n
            → HasNumbers (table_in self.new k) (λ c. if values_at (table_in self.old k).scope c pair.variable == pair.value then f c else 0) n }
        ensures touched { KeepsPairs (table_in self.old k).scope (table_in self.old k).touched None (table_in self.new k).touched }
    {
        let scopes: &Scopes = &self.scopes;
        self.store.open(scopes);
        self.store.change(scopes, k, Change::Kept { pair });
        self.store.keep_beside(scopes, k, pair);
    }

    /// Makes each cell of a table 1 again. Its place stays.
    pub fn clear(&mut self, k: usize)
        requires table { k < length self.old }
        ensures only { self.new ≡ slice_set self.old k (table_in self.new k) }
        ensures scope { (table_in self.new k).scope ≡ (table_in self.old k).scope }
        ensures full { length (table_in self.new k).digits ≡ cells_in (table_in self.new k).scope }
        ensures shift { (table_in self.new k).shift ≡ 0 }
        ensures ones { HasNumbers (table_in self.new k) (λ c. 1) 0 }
        ensures touched { (table_in self.new k).touched ≡ None }
    {
        let scopes: &Scopes = &self.scopes;
        self.store.open(scopes);
        self.store.blank(scopes, k);
        self.store.drop_ratios(scopes, k);
    }

    /// Multiplies each cell of table `k` by the cell of table `message` that has its values.
    pub fn times_message(&mut self, k: usize, places: &Places, message: usize)
        requires table { k < length self.old }
        requires message_table { message < length self.old }
        requires apart { k ≢ message }
        requires places { places.now ≡ record { whole = (table_in self.old k).scope; part = (table_in self.old message).scope } }
        requires room { HasRoom (table_in self.old k) 1 }
        requires message_room { HasRoom (table_in self.old message) 1 }
        ensures only { self.new ≡ slice_set self.old k (table_in self.new k) }
        ensures scope { (table_in self.new k).scope ≡ (table_in self.old k).scope }
        ensures full { length (table_in self.new k).digits ≡ cells_in (table_in self.new k).scope }
        ensures shift { (table_in self.new k).shift ≡ (table_in self.old k).shift + (table_in self.old message).shift }
        ensures numbers { (f g : ℕ → ℕ) (n p : ℕ) → HasNumbers (table_in self.old k) f n → HasNumbers (table_in self.old message) g p
            → HasNumbers (table_in self.new k) (λ c. f c * g (cell_in (table_in self.old message).scope (table_in self.old k).scope c)) (n + p + 1) }
        ensures touched { KeepsPairs (table_in self.old k).scope (table_in self.old k).touched (table_in self.old message).touched (table_in self.new k).touched }
    {
        let scopes: &Scopes = &self.scopes;
        self.store.open(scopes);
        self.spare.take(&self.store, scopes, message);
        self.store.times(scopes, k, places, &self.spare);
        self.store.take_ratios(scopes, k, message);
    }

    /// Puts into each cell of table `k` the cell of table `message` that has its values, whatever was there.
    pub fn put_message(&mut self, k: usize, places: &Places, message: usize)
        requires table { k < length self.old }
        requires message_table { message < length self.old }
        requires apart { k ≢ message }
        requires places { places.now ≡ record { whole = (table_in self.old k).scope; part = (table_in self.old message).scope } }
        ensures only { self.new ≡ slice_set self.old k (table_in self.new k) }
        ensures scope { (table_in self.new k).scope ≡ (table_in self.old k).scope }
        ensures full { length (table_in self.new k).digits ≡ cells_in (table_in self.new k).scope }
        ensures shift { (table_in self.new k).shift ≡ (table_in self.old message).shift }
        ensures numbers { (g : ℕ → ℕ) (p : ℕ) → HasNumbers (table_in self.old message) g p
            → HasNumbers (table_in self.new k) (λ c. g (cell_in (table_in self.old message).scope (table_in self.old k).scope c)) p }
        ensures touched { (table_in self.new k).touched ≡ (table_in self.old message).touched }
    {
        let scopes: &Scopes = &self.scopes;
        self.store.open(scopes);
        self.spare.take(&self.store, scopes, message);
        self.store.spread(scopes, k, places, &self.spare);
        self.store.put_ratios(scopes, k, message);
    }

    /// Puts into each cell of table `out`, over some of the variables of table `k`, the plus of the cells of table `k` that
    /// have its values.
    pub fn margin_into(&mut self, k: usize, places: &Places, out: usize)
        requires table { k < length self.old }
        requires out_table { out < length self.old }
        requires apart { k ≢ out }
        requires places { places.now ≡ record { whole = (table_in self.old k).scope; part = (table_in self.old out).scope } }
        requires room { HasRoom (table_in self.old k) (2 * cells_in (table_in self.old k).scope) }
        ensures only { self.new ≡ slice_set self.old out (table_in self.new out) }
        ensures scope { (table_in self.new out).scope ≡ (table_in self.old out).scope }
        ensures full { length (table_in self.new out).digits ≡ cells_in (table_in self.new out).scope }
        ensures shift { (table_in self.new out).shift ≡ (table_in self.old k).shift }
        ensures numbers { (f : ℕ → ℕ) (n : ℕ) → HasNumbers (table_in self.old k) f n
            → HasNumbers (table_in self.new out) (λ d. plus_over R.plus_of 0 f (cells_onto (table_in self.old out).scope (table_in self.old k).scope d))
            (n + (2 * cells_beside (table_in self.old out).scope (table_in self.old k).scope - 1)) }
        ensures beside { cells_in (table_in self.old out).scope * cells_beside (table_in self.old out).scope (table_in self.old k).scope ≡ cells_in (table_in self.old k).scope }
        ensures touched { KeepsPairs (table_in self.old out).scope (table_in self.old k).touched None (table_in self.new out).touched }
    {
        let scopes: &Scopes = &self.scopes;
        self.store.open(scopes);
        self.spare.clear();
        let (bases, offsets, run) = places.lists();
        let (digits, exponents) = self.store.cells(scopes, k);
        plus_of_each::<R>(
            Columns { digits, exponents },
            scopes.scope(k).cells(),
            Lists {
                bases,
                offsets,
                run,
            },
            &mut self.spare.digits,
            &mut self.spare.exponents,
        );
        self.store.put(scopes, out, &self.spare);
        self.store.put_ratios_within(scopes, k, out);
    }

    /// Makes anew, in table `out` over some of the variables of table `k`, the cells whose values an event allows: each becomes
    /// the plus of the cells of table `k` that have its values. The others are left, and must be right already. The list is
    /// where the cells' numbers are written.
    pub fn margin_again_into(
        &mut self,
        k: usize,
        places: &Places,
        event: &Event,
        chosen: &mut CellList,
        out: usize,
    )
        requires table { k < length self.old }
        requires out_table { out < length self.old }
        requires apart { k ≢ out }
        requires places { places.now ≡ record { whole = (table_in self.old k).scope; part = (table_in self.old out).scope } }
        requires room { HasRoom (table_in self.old k) (2 * cells_in (table_in self.old k).scope) }
        ensures only { self.new ≡ slice_set self.old out (table_in self.new out) }
        ensures scope { (table_in self.new out).scope ≡ (table_in self.old out).scope }
        ensures full { length (table_in self.new out).digits ≡ cells_in (table_in self.new out).scope }
        ensures shift { (table_in self.new out).shift ≡ (table_in self.old k).shift }
        ensures numbers { (f : ℕ → ℕ) (n : ℕ) → HasNumbers (table_in self.old k) f n → IsMarginBut R.plus_of event.now (table_in self.old k) (table_in self.old out) f n
            → HasNumbers (table_in self.new out) (λ d. plus_over R.plus_of 0 f (cells_onto (table_in self.old out).scope (table_in self.old k).scope d))
            (n + (2 * cells_beside (table_in self.old out).scope (table_in self.old k).scope - 1)) }
        ensures touched { KeepsPairs (table_in self.old out).scope (table_in self.old k).touched (table_in self.old out).touched (table_in self.new out).touched }
    {
        if !self.store.is_written(k) {
            self.margin_into(k, places, out);
            return;
        }
        let scopes: &Scopes = &self.scopes;
        self.store.open(scopes);
        let part = scopes.scope(out);
        let allowed = pairs_within(event, part);
        part.cells_where(&allowed, chosen);
        let (bases, offsets, run) = places.lists();
        self.spare.take(&self.store, scopes, out);
        fill(
            &mut self.spare.digits,
            &mut self.spare.exponents,
            bases.len(),
        );
        let (digits, exponents) = self.store.cells(scopes, k);
        plus_at_chosen::<R>(
            Columns { digits, exponents },
            Lists {
                bases,
                offsets,
                run,
            },
            chosen.as_slice(),
            &mut self.spare.digits,
            &mut self.spare.exponents,
        );
        self.store.put(scopes, out, &self.spare);
        self.store.take_ratios_within(scopes, k, out);
    }

    /// Puts into each cell of table `out`, over some of the variables of table `k`, the plus, over the cells of table `k` that
    /// have its values, of each times the cell of table `other` that has the same values.
    pub fn margin_times_into(
        &mut self,
        k: usize,
        places: &Places,
        other_places: &Places,
        other: usize,
        out: usize,
    )
        requires table { k < length self.old }
        requires other_table { other < length self.old }
        requires out_table { out < length self.old }
        requires apart { out ≢ k }
        requires other_apart { out ≢ other }
        requires places { places.now ≡ record { whole = (table_in self.old k).scope; part = (table_in self.old out).scope } }
        requires other_places { other_places.now ≡ record { whole = (table_in self.old k).scope; part = (table_in self.old other).scope } }
        requires room { HasRoom (table_in self.old k) (2 * cells_in (table_in self.old k).scope) }
        requires other_room { HasRoom (table_in self.old other) 1 }
        ensures only { self.new ≡ slice_set self.old out (table_in self.new out) }
        ensures scope { (table_in self.new out).scope ≡ (table_in self.old out).scope }
        ensures full { length (table_in self.new out).digits ≡ cells_in (table_in self.new out).scope }
        ensures shift { (table_in self.new out).shift ≡ (table_in self.old k).shift + (table_in self.old other).shift }
        ensures numbers { (f g : ℕ → ℕ) (n p : ℕ) → HasNumbers (table_in self.old k) f n → HasNumbers (table_in self.old other) g p
            → HasNumbers (table_in self.new out) (λ d. plus_over R.plus_of 0 (λ c. f c * g (cell_in (table_in self.old other).scope (table_in self.old k).scope c))
            (cells_onto (table_in self.old out).scope (table_in self.old k).scope d))
            (n + p + (2 * cells_beside (table_in self.old out).scope (table_in self.old k).scope + 1)) }
        ensures beside { cells_in (table_in self.old out).scope * cells_beside (table_in self.old out).scope (table_in self.old k).scope ≡ cells_in (table_in self.old k).scope }
        ensures touched { KeepsPairs (table_in self.old out).scope (table_in self.old k).touched (table_in self.old other).touched (table_in self.new out).touched }
    {
        let scopes: &Scopes = &self.scopes;
        self.store.open(scopes);
        self.spare.clear();
        let (digits, exponents) = self.store.cells(scopes, k);
        let (other_digits, other_exponents) = self.store.cells(scopes, other);
        margin_times::<R>(
            Columns { digits, exponents },
            places,
            Columns {
                digits: other_digits,
                exponents: other_exponents,
            },
            other_places,
            &mut self.spare.digits,
            &mut self.spare.exponents,
        );
        self.store.put(scopes, out, &self.spare);
        self.store.put_both_ratios_within(scopes, k, other, out);
    }

    /// The plus of the cells of a table where an event holds; absent where none is. The list is where their numbers are written.
    /// Where no ratio touched a cell of the event, the plus also has a number of its own.
    pub fn total(&self, k: usize, event: &Event, chosen: &mut CellList) -> Cell
        requires table { k < length self.now }
        requires event { HasEvent (table_in self.now k).scope event.now }
        requires room { HasRoom (table_in self.now k) (2 * cells_in (table_in self.now k).scope) }
        ensures stands { (f : ℕ → ℕ) (n : ℕ) → HasNumbers (table_in self.now k) f n
            → Stands (table_in self.now k).shift result (plus_over R.plus_of 0 f (cells_where (table_in self.now k).scope event.now)) (n + 2 * cells_in (table_in self.now k).scope) }
        ensures own { is_untouched (table_in self.now k) event.now ≡ true → (f : ℕ → ℕ) (n : ℕ) → HasNumbers (table_in self.now k) f n
            → IsOwnOf (table_in self.now k).shift result (plus_over R.plus_of 0 f (cells_where (table_in self.now k).scope event.now)) (n + 2 * cells_in (table_in self.now k).scope) }
    {
        self.plus_where(k, event, chosen)
    }

    /// The plus, over the cells of table `k` where an event holds, of each times the cell of table `message` that has its values;
    /// absent where no cell is. The list is where their numbers are written. Where no ratio touched a cell of the event, the
    /// plus also has a number of its own.
    pub fn total_times(
        &self,
        k: usize,
        places: &Places,
        message: usize,
        event: &Event,
        chosen: &mut CellList,
    ) -> Cell
        requires table { k < length self.now }
        requires message_table { message < length self.now }
        requires places { places.now ≡ record { whole = (table_in self.now k).scope; part = (table_in self.now message).scope } }
        requires event { HasEvent (table_in self.now k).scope event.now }
        requires room { HasRoom (table_in self.now k) (2 * cells_in (table_in self.now k).scope) }
        requires message_room { HasRoom (table_in self.now message) 1 }
        ensures stands { (f g : ℕ → ℕ) (n p : ℕ) → HasNumbers (table_in self.now k) f n → HasNumbers (table_in self.now message) g p
            → Stands ((table_in self.now k).shift + (table_in self.now message).shift) result
            (plus_over R.plus_of 0 (λ c. f c * g (cell_in (table_in self.now message).scope (table_in self.now k).scope c)) (cells_where (table_in self.now k).scope event.now))
            (n + p + 2 * cells_in (table_in self.now k).scope + 1) }
        ensures own { is_untouched (table_in self.now k) event.now ≡ true → is_untouched (table_in self.now message) event.now ≡ true
            → (f g : ℕ → ℕ) (n p : ℕ) → HasNumbers (table_in self.now k) f n → HasNumbers (table_in self.now message) g p
            → IsOwnOf ((table_in self.now k).shift + (table_in self.now message).shift) result
            (plus_over R.plus_of 0 (λ c. f c * g (cell_in (table_in self.now message).scope (table_in self.now k).scope c)) (cells_where (table_in self.now k).scope event.now))
            (n + p + 2 * cells_in (table_in self.now k).scope + 1) }
    {
        let _ = places.part_cells();
        if !self.store.is_written(message) {
            return self.plus_where(k, event, chosen);
        }
        let scopes: &Scopes = &self.scopes;
        let (digits, exponents) = self.store.cells(scopes, k);
        let (other_digits, other_exponents) = self.store.cells(scopes, message);
        scopes.scope(k).cells_where(event, chosen);
        plus_of_products::<R>(
            Columns { digits, exponents },
            places.onto(),
            Columns {
                digits: other_digits,
                exponents: other_exponents,
            },
            0,
            chosen.as_slice(),
        )
    }

    /// The plus of the cells of a table where an event holds, whatever numbers they stand for; absent where no cell is.
    fn plus_where(&self, k: usize, event: &Event, chosen: &mut CellList) -> Cell
        requires table { k < length self.now }
        requires event { HasEvent (table_in self.now k).scope event.now }
        requires room { HasRoom (table_in self.now k) (2 * cells_in (table_in self.now k).scope) }
        ensures stands { (j : ℕ) (f : ℕ → ℕ) (n : ℕ) → StandListed j (table_in self.now k).digits (table_in self.now k).exponents f n 0 (cells_where (table_in self.now k).scope event.now)
            → Stands j result (plus_over R.plus_of 0 f (cells_where (table_in self.now k).scope event.now)) (n + 2 * cells_in (table_in self.now k).scope) }
        ensures full { IsFull (table_in self.now k).scope (table_in self.now k).digits (table_in self.now k).exponents }
    {
        let scopes: &Scopes = &self.scopes;
        let scope = scopes.scope(k);
        let (digits, exponents) = self.store.cells(scopes, k);
        let run = scope.runs_where(event, chosen);
        plus_of_listed::<R>(digits, exponents, scope.cells(), chosen.as_slice(), run)
    }
}
