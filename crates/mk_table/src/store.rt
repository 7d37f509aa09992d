//! The cells of all tables of an engine, in two arrays, and where those of each table stand.

ghost use Rattle.std.specs.Prelude.{◌≡◌, ℕ, ◌+◌, ◌<◌, ◌≤◌, ◌++◌, true, List, [], Option, None, Some, length, slice_index, replicate, vec_len, vec_capacity};
ghost use Rattle.mk_net.specs.declared.words.Pair.{Pair};
ghost use Rattle.mk_table.specs.Below.{HasEvent, LiesIn, cells_in, cell_in, max_shift};
ghost use Rattle.mk_table.specs.Below.{AreBlankOrFull, HaveRoom, IsChanged, IsFull, IsTimesCell};
ghost use Rattle.mk_table.specs.Below.{one_digits, one_exponent, filled};
ghost use Rattle.mk_table.specs.Tables.{is_untouched_by};
ghost use Rattle.mk_table.specs.inner.Touched.{IsBeside, IsEither, IsEitherWithin, IsWithin};
ghost use Rattle.mk_table.specs.inner.Store.{HasCells, HasRatiosOf, IsBlankFrom, IsNowhere, IsOpen, IsSame, IsStoreOf, IsWrittenFrom, StandsFrom, digits_in, exponents_in, head_in, is_written, no_head, scope_in};
ghost use Rattle.mk_table.specs.inner.Changes.{Fits, HasMade};

use crate::changes::Change;
use crate::scopes::Scopes;
use crate::touched::{beside, is_untouched_by, put_either_within, put_within, take_either};
use mk_names::limits::RATIO_PLACES;
use mk_net::{Event, Pair};
use mk_passes::{Columns, append_until, one};
use mk_scope::Places;

/// Where the cells of a table stand.
#[derive(Clone, Copy)]
pub(crate) enum Place {
    /// Nowhere yet: each is 1.
    Nowhere,
    /// They have a place from here on, of which nothing counts: each is 1.
    Blank(usize),
    /// From here on.
    Written(usize),
}

/// What is kept of a table beside its cells.
#[derive(Clone, Copy)]
pub(crate) struct Head {
    pub(crate) place: Place,
    pub(crate) shift: u32,
    pub(crate) touched: Option<Event>,
}

/// A head for each table, or none while no table was changed, and the cells of those that were written.
#[derive(Drop)]
pub(crate) struct Store {
    pub(crate) heads: Vec<Head>,
    pub(crate) digits: Vec<u64>,
    pub(crate) exponents: Vec<u32>,
}

/// Two arrays with room for the cells of each table, through which cells go from one table to another.
#[derive(Drop)]
pub(crate) struct Spare {
    pub(crate) digits: Vec<u64>,
    pub(crate) exponents: Vec<u32>,
}

impl Store {
    /// Writes the heads, if there are none yet.
    #[inline]
    pub(crate) fn open(&mut self, scopes: &Scopes)
        requires { IsStoreOf scopes.now self.old }
        ensures same { IsSame scopes.now self.old self.new }
        ensures kept { (k : ℕ) → head_in self.new.heads.items k ≡ head_in self.old.heads.items k }
    {
        if self.heads.is_empty() {
            put_heads(&mut self.heads, scopes.count());
        }
    }

    /// Where the cells of a table stand.
    #[inline]
    pub(crate) fn place(&self, k: usize) -> Place
        ensures { result ≡ (head_in self.now.heads.items k).place }
    {
        match self.heads.get(k) {
            Some(head) => head.place,
            None => Place::Nowhere,
        }
    }

    /// How many places of two the cells of a table are shifted by.
    #[inline]
    pub(crate) fn shift(&self, k: usize) -> u32
        ensures { result ≡ (head_in self.now.heads.items k).shift }
    {
        match self.heads.get(k) {
            Some(head) => head.shift,
            None => 0,
        }
    }

    /// Whether the cells of a table are written.
    #[inline]
    pub(crate) fn is_written(&self, k: usize) -> bool
        ensures { result ≡ is_written (head_in self.now.heads.items k).place }
    {
        match self.place(k) {
            Place::Written(_) => true,
            _ => false,
        }
    }

    /// Whether no ratio touched a cell of a table where an event holds.
    #[inline]
    pub(crate) fn is_untouched(&self, k: usize, event: &Event) -> bool
        ensures { result ≡ is_untouched_by (head_in self.now.heads.items k).touched event.now }
    {
        match self.heads.get(k) {
            Some(head) => is_untouched_by(&head.touched, event),
            None => true,
        }
    }

    /// The cells of a table, if they are written.
    #[inline]
    pub(crate) fn cells(&self, scopes: &Scopes, k: usize) -> (&[u64], &[u32])
        requires store { IsStoreOf scopes.now self.now }
        requires table { k < length scopes.now }
        ensures whole { AreBlankOrFull (cells_in (scope_in scopes.now k)) result.0.now result.1.now }
        ensures digits { filled one_digits (cells_in (scope_in scopes.now k)) result.0.now ≡ digits_in scopes.now self.now k }
        ensures exponents { filled one_exponent (cells_in (scope_in scopes.now k)) result.1.now ≡ exponents_in scopes.now self.now k }
        ensures written { is_written (head_in self.now.heads.items k).place ≡ true → length result.0.now ≡ cells_in (scope_in scopes.now k) }
    {
        match self.place(k) {
            Place::Written(first) => {
                let end = first + scopes.scope(k).cells();
                (&self.digits[first..end], &self.exponents[first..end])
            }
            _ => (&self.digits[..0], &self.exponents[..0]),
        }
    }

    /// Writes the cells of a table, if they are not written, and says where they begin.
    pub(crate) fn written(&mut self, scopes: &Scopes, k: usize) -> usize
        requires opened { IsOpen scopes.now self.old }
        requires table { k < length scopes.now }
        ensures same { IsSame scopes.now self.old self.new }
        ensures place { IsWrittenFrom self.new.heads.items k result }
    {
        match self.heads[k].place {
            Place::Nowhere => {
                let first = self.digits.len();
                self.fill_end(scopes, k);
                first
            }
            Place::Blank(first) => {
                self.fill_at(scopes, k, first);
                first
            }
            Place::Written(first) => first,
        }
    }

    /// Writes ones at the end, as the cells of a table that stands nowhere.
    fn fill_end(&mut self, scopes: &Scopes, k: usize)
        requires opened { IsOpen scopes.now self.old }
        requires table { k < length scopes.now }
        requires nowhere { IsNowhere self.old.heads.items k }
        ensures same { IsSame scopes.now self.old self.new }
        ensures place { IsWrittenFrom self.new.heads.items k (length self.old.digits.items) }
    {
        let count = scopes.scope(k).cells();
        let one = one();
        let first = self.digits.len();
        self.heads[k].place = Place::Written(first);
        append_until(&mut self.digits, one.digits, first + count);
        append_until(&mut self.exponents, one.exponent, first + count);
    }

    /// Writes ones where the cells of a blank table stand.
    fn fill_at(&mut self, scopes: &Scopes, k: usize, first: usize)
        requires opened { IsOpen scopes.now self.old }
        requires table { k < length scopes.now }
        requires blank { IsBlankFrom self.old.heads.items k first }
        requires stands { StandsFrom (head_in self.old.heads.items k).place first }
        ensures same { IsSame scopes.now self.old self.new }
        ensures place { IsWrittenFrom self.new.heads.items k first }
    {
        let count = scopes.scope(k).cells();
        let one = one();
        self.heads[k].place = Place::Written(first);
        put_each(&mut self.digits[first..first + count], one.digits);
        put_each(&mut self.exponents[first..first + count], one.exponent);
    }

    /// Puts cells into a table: ones, where nothing is written of them.
    pub(crate) fn put(&mut self, scopes: &Scopes, k: usize, spare: &Spare)
        requires opened { IsOpen scopes.now self.old }
        requires table { k < length scopes.now }
        requires whole { AreBlankOrFull (cells_in (scope_in scopes.now k)) spare.now.digits.items spare.now.exponents.items }
        ensures { HasCells scopes.now self.old self.new k (filled one_digits (cells_in (scope_in scopes.now k)) spare.now.digits.items)
            (filled one_exponent (cells_in (scope_in scopes.now k)) spare.now.exponents.items) }
    {
        let count = scopes.scope(k).cells();
        if spare.digits.len() < count {
            self.blank(scopes, k);
            return;
        }
        match self.heads[k].place {
            Place::Nowhere => self.put_end(scopes, k, spare),
            Place::Blank(first) => self.put_at(scopes, k, first, spare),
            Place::Written(first) => self.put_at(scopes, k, first, spare),
        }
    }

    /// Writes cells at the end, as those of a table that stands nowhere.
    fn put_end(&mut self, scopes: &Scopes, k: usize, spare: &Spare)
        requires opened { IsOpen scopes.now self.old }
        requires table { k < length scopes.now }
        requires nowhere { IsNowhere self.old.heads.items k }
        requires digits { length spare.now.digits.items ≡ cells_in (scope_in scopes.now k) }
        requires exponents { length spare.now.exponents.items ≡ cells_in (scope_in scopes.now k) }
        ensures { HasCells scopes.now self.old self.new k spare.now.digits.items spare.now.exponents.items }
    {
        let _ = scopes.count();
        self.heads[k].place = Place::Written(self.digits.len());
        append(&mut self.digits, &spare.digits);
        append(&mut self.exponents, &spare.exponents);
    }

    /// Writes cells where those of a table stand.
    fn put_at(&mut self, scopes: &Scopes, k: usize, first: usize, spare: &Spare)
        requires opened { IsOpen scopes.now self.old }
        requires table { k < length scopes.now }
        requires stands { StandsFrom (head_in self.old.heads.items k).place first }
        requires digits { length spare.now.digits.items ≡ cells_in (scope_in scopes.now k) }
        requires exponents { length spare.now.exponents.items ≡ cells_in (scope_in scopes.now k) }
        ensures { HasCells scopes.now self.old self.new k spare.now.digits.items spare.now.exponents.items }
    {
        let count = scopes.scope(k).cells();
        self.heads[k].place = Place::Written(first);
        put_over(
            &mut self.digits[first..first + count],
            &mut self.exponents[first..first + count],
            &spare.digits,
            &spare.exponents,
        );
    }

    /// Changes the cells of a table in place.
    #[inline]
    pub(crate) fn change(&mut self, scopes: &Scopes, k: usize, change: Change)
        requires opened { IsOpen scopes.now self.old }
        requires table { k < length scopes.now }
        requires fits { Fits change (scope_in scopes.now k) (digits_in scopes.now self.old k) (exponents_in scopes.now self.old k) }
        ensures cells { HasCells scopes.now self.old self.new k (digits_in scopes.now self.new k) (exponents_in scopes.now self.new k) }
        ensures made { HasMade change.entry (scope_in scopes.now k) (digits_in scopes.now self.old k) (exponents_in scopes.now self.old k)
            (digits_in scopes.now self.new k) (exponents_in scopes.now self.new k) }
    {
        let scope = scopes.scope(k);
        let first = self.written(scopes, k);
        let end = first + scope.cells();
        change.make(
            &mut self.digits[first..end],
            &mut self.exponents[first..end],
            scope,
        );
    }

    /// Multiplies each cell of a table by the cell of a message that has its values. A blank message changes nothing.
    pub(crate) fn times(&mut self, scopes: &Scopes, k: usize, places: &Places, spare: &Spare)
        requires opened { IsOpen scopes.now self.old }
        requires table { k < length scopes.now }
        requires places { places.now.whole ≡ scope_in scopes.now k }
        requires whole { AreBlankOrFull (cells_in places.now.part) spare.now.digits.items spare.now.exponents.items }
        requires room { (j : ℕ) × HaveRoom j (digits_in scopes.now self.old k) (exponents_in scopes.now self.old k) 1 }
        requires other_room { (j : ℕ) × HaveRoom j (filled one_digits (cells_in places.now.part) spare.now.digits.items) (filled one_exponent (cells_in places.now.part) spare.now.exponents.items) 1 }
        ensures cells { HasCells scopes.now self.old self.new k (digits_in scopes.now self.new k) (exponents_in scopes.now self.new k) }
        ensures changed { IsChanged (λ c d e x y. IsTimesCell d e (slice_index (filled one_digits (cells_in places.now.part) spare.now.digits.items) (cell_in places.now.part places.now.whole c))
            (slice_index (filled one_exponent (cells_in places.now.part) spare.now.exponents.items) (cell_in places.now.part places.now.whole c)) x y)
            (λ c. c < cells_in places.now.whole) (digits_in scopes.now self.old k) (exponents_in scopes.now self.old k)
            (digits_in scopes.now self.new k) (exponents_in scopes.now self.new k) }
        ensures lies_in { LiesIn places.now.part places.now.whole }
    {
        if spare.digits.len() < places.part_cells() {
            return;
        }
        if !self.is_written(k) {
            self.spread(scopes, k, places, spare);
            return;
        }
        let message = spare.columns();
        self.change(scopes, k, Change::Times { places, message });
    }

    /// Puts into each cell of a table the cell of a message that has its values. A blank message leaves it blank.
    pub(crate) fn spread(&mut self, scopes: &Scopes, k: usize, places: &Places, spare: &Spare)
        requires opened { IsOpen scopes.now self.old }
        requires table { k < length scopes.now }
        requires places { places.now.whole ≡ scope_in scopes.now k }
        requires whole { AreBlankOrFull (cells_in places.now.part) spare.now.digits.items spare.now.exponents.items }
        ensures cells { HasCells scopes.now self.old self.new k (digits_in scopes.now self.new k) (exponents_in scopes.now self.new k) }
        ensures full { IsFull places.now.whole (digits_in scopes.now self.new k) (exponents_in scopes.now self.new k) }
        ensures digits { (c : ℕ) → c < cells_in places.now.whole → slice_index (digits_in scopes.now self.new k) c
            ≡ slice_index (filled one_digits (cells_in places.now.part) spare.now.digits.items) (cell_in places.now.part places.now.whole c) }
        ensures exponents { (c : ℕ) → c < cells_in places.now.whole → slice_index (exponents_in scopes.now self.new k) c
            ≡ slice_index (filled one_exponent (cells_in places.now.part) spare.now.exponents.items) (cell_in places.now.part places.now.whole c) }
        ensures lies_in { LiesIn places.now.part places.now.whole }
    {
        if spare.digits.len() < places.part_cells() {
            self.blank(scopes, k);
            return;
        }
        let message = spare.columns();
        self.change(scopes, k, Change::Put { places, message });
    }

    /// Takes a ratio to those of a table.
    #[inline]
    pub(crate) fn take_ratio(&mut self, scopes: &Scopes, k: usize, condition: Event)
        requires opened { IsOpen scopes.now self.old }
        requires table { k < length scopes.now }
        requires event { HasEvent (scope_in scopes.now k) condition }
        requires small { (head_in self.old.heads.items k).shift < max_shift }
        ensures ratios { HasRatiosOf scopes.now self.old self.new k ((head_in self.old.heads.items k).shift + 40) }
        ensures either { IsEither (head_in self.old.heads.items k).touched (Some condition) (head_in self.new.heads.items k).touched }
    {
        let head = &mut self.heads[k];
        head.shift += RATIO_PLACES;
        take_either(&mut head.touched, &Some(condition));
    }

    /// Keeps the ratios of a table beside a pair.
    #[inline]
    pub(crate) fn keep_beside(&mut self, scopes: &Scopes, k: usize, pair: Pair)
        requires opened { IsOpen scopes.now self.old }
        requires table { k < length scopes.now }
        ensures ratios { HasRatiosOf scopes.now self.old self.new k ((head_in self.old.heads.items k).shift) }
        ensures beside { IsBeside pair (head_in self.old.heads.items k).touched (head_in self.new.heads.items k).touched }
    {
        let head = &mut self.heads[k];
        head.touched = beside(&head.touched, pair);
    }

    /// Takes the ratios of a table out.
    #[inline]
    pub(crate) fn drop_ratios(&mut self, scopes: &Scopes, k: usize)
        requires opened { IsOpen scopes.now self.old }
        requires table { k < length scopes.now }
        ensures ratios { HasRatiosOf scopes.now self.old self.new k 0 }
        ensures touched { (head_in self.new.heads.items k).touched ≡ None }
    {
        let head = &mut self.heads[k];
        head.shift = 0;
        head.touched = None;
    }

    /// Takes the ratios of a message to those of a table.
    #[inline]
    pub(crate) fn take_ratios(&mut self, scopes: &Scopes, k: usize, message: usize)
        requires opened { IsOpen scopes.now self.old }
        requires table { k < length scopes.now }
        requires message_table { message < length scopes.now }
        requires lies_in { LiesIn (scope_in scopes.now message) (scope_in scopes.now k) }
        requires small { (head_in self.old.heads.items k).shift < max_shift }
        requires small_too { (head_in self.old.heads.items message).shift < max_shift }
        ensures ratios { HasRatiosOf scopes.now self.old self.new k ((head_in self.old.heads.items k).shift + (head_in self.old.heads.items message).shift) }
        ensures either { IsEither (head_in self.old.heads.items k).touched (head_in self.old.heads.items message).touched (head_in self.new.heads.items k).touched }
    {
        let shift = self.heads[message].shift;
        let touched = self.heads[message].touched;
        let head = &mut self.heads[k];
        head.shift += shift;
        take_either(&mut head.touched, &touched);
    }

    /// Puts the ratios of a message into a table.
    #[inline]
    pub(crate) fn put_ratios(&mut self, scopes: &Scopes, k: usize, message: usize)
        requires opened { IsOpen scopes.now self.old }
        requires table { k < length scopes.now }
        requires message_table { message < length scopes.now }
        requires lies_in { LiesIn (scope_in scopes.now message) (scope_in scopes.now k) }
        ensures ratios { HasRatiosOf scopes.now self.old self.new k ((head_in self.old.heads.items message).shift) }
        ensures touched { (head_in self.new.heads.items k).touched ≡ (head_in self.old.heads.items message).touched }
    {
        let shift = self.heads[message].shift;
        let touched = self.heads[message].touched;
        let head = &mut self.heads[k];
        head.shift = shift;
        head.touched = touched;
    }

    /// Puts the ratios of a table into one over some of its variables.
    #[inline]
    pub(crate) fn put_ratios_within(&mut self, scopes: &Scopes, k: usize, out: usize)
        requires opened { IsOpen scopes.now self.old }
        requires table { k < length scopes.now }
        requires out_table { out < length scopes.now }
        ensures ratios { HasRatiosOf scopes.now self.old self.new out ((head_in self.old.heads.items k).shift) }
        ensures within { IsWithin (scope_in scopes.now out) (head_in self.old.heads.items k).touched (head_in self.new.heads.items out).touched }
    {
        let shift = self.heads[k].shift;
        let touched = self.heads[k].touched;
        let head = &mut self.heads[out];
        head.shift = shift;
        put_within(&touched, scopes.scope(out), &mut head.touched);
    }

    /// Takes the ratios of a table to those of one over some of its variables, under the table's shift.
    #[inline]
    pub(crate) fn take_ratios_within(&mut self, scopes: &Scopes, k: usize, out: usize)
        requires opened { IsOpen scopes.now self.old }
        requires table { k < length scopes.now }
        requires out_table { out < length scopes.now }
        ensures ratios { HasRatiosOf scopes.now self.old self.new out ((head_in self.old.heads.items k).shift) }
        ensures within { (within : Option (List Pair)) × IsWithin (scope_in scopes.now out) (head_in self.old.heads.items k).touched within
            × IsEither (head_in self.old.heads.items out).touched within (head_in self.new.heads.items out).touched }
    {
        let shift = self.heads[k].shift;
        let mut touched = None;
        put_within(&self.heads[k].touched, scopes.scope(out), &mut touched);
        let head = &mut self.heads[out];
        head.shift = shift;
        take_either(&mut head.touched, &touched);
    }

    /// Puts the ratios of two tables into one over some of the first one's variables.
    #[inline]
    pub(crate) fn put_both_ratios_within(
        &mut self,
        scopes: &Scopes,
        first: usize,
        second: usize,
        out: usize,
    )
        requires opened { IsOpen scopes.now self.old }
        requires table { first < length scopes.now }
        requires second_table { second < length scopes.now }
        requires out_table { out < length scopes.now }
        requires small { (head_in self.old.heads.items first).shift < max_shift }
        requires small_too { (head_in self.old.heads.items second).shift < max_shift }
        ensures ratios { HasRatiosOf scopes.now self.old self.new out ((head_in self.old.heads.items first).shift + (head_in self.old.heads.items second).shift) }
        ensures within { IsEitherWithin (scope_in scopes.now out) (head_in self.old.heads.items first).touched (head_in self.old.heads.items second).touched
            (head_in self.new.heads.items out).touched }
    {
        let shift = self.heads[first].shift + self.heads[second].shift;
        let mut touched = None;
        put_either_within(
            &self.heads[first].touched,
            &self.heads[second].touched,
            scopes.scope(out),
            &mut touched,
        );
        let head = &mut self.heads[out];
        head.shift = shift;
        head.touched = touched;
    }

    /// Makes each cell of a table 1. Its place stays.
    pub(crate) fn blank(&mut self, scopes: &Scopes, k: usize)
        requires opened { IsOpen scopes.now self.old }
        requires table { k < length scopes.now }
        ensures { HasCells scopes.now self.old self.new k (replicate (cells_in (scope_in scopes.now k)) one_digits)
            (replicate (cells_in (scope_in scopes.now k)) one_exponent) }
    {
        if let Place::Written(first) = self.heads[k].place {
            self.heads[k].place = Place::Blank(first);
        }
    }
}

impl Spare {
    /// What is there, to be read.
    #[inline]
    fn columns(&self) -> Columns<'_>
        ensures digits { result.digits.now ≡ self.now.digits.items }
        ensures exponents { result.exponents.now ≡ self.now.exponents.items }
    {
        Columns {
            digits: &self.digits,
            exponents: &self.exponents,
        }
    }

    /// Takes what is there out.
    #[inline]
    pub(crate) fn clear(&mut self)
        ensures digits { self.new.digits.items ≡ [] }
        ensures exponents { self.new.exponents.items ≡ [] }
        ensures digits_room { vec_capacity self.new.digits ≡ vec_capacity self.old.digits }
        ensures exponents_room { vec_capacity self.new.exponents ≡ vec_capacity self.old.exponents }
    {
        self.digits.clear();
        self.exponents.clear();
    }

    /// Takes the cells of a table.
    #[inline]
    pub(crate) fn take(&mut self, store: &Store, scopes: &Scopes, k: usize)
        requires store { IsStoreOf scopes.now store.now }
        requires table { k < length scopes.now }
        requires digits_fit { cells_in (scope_in scopes.now k) ≤ vec_capacity self.old.digits }
        requires exponents_fit { cells_in (scope_in scopes.now k) ≤ vec_capacity self.old.exponents }
        ensures whole { AreBlankOrFull (cells_in (scope_in scopes.now k)) self.new.digits.items self.new.exponents.items }
        ensures digits { filled one_digits (cells_in (scope_in scopes.now k)) self.new.digits.items ≡ digits_in scopes.now store.now k }
        ensures exponents { filled one_exponent (cells_in (scope_in scopes.now k)) self.new.exponents.items ≡ exponents_in scopes.now store.now k }
        ensures digits_room { vec_capacity self.old.digits ≤ vec_capacity self.new.digits }
        ensures exponents_room { vec_capacity self.old.exponents ≤ vec_capacity self.new.exponents }
    {
        let (digits, exponents) = store.cells(scopes, k);
        self.clear();
        for cell in 0..digits.len() {
            self.digits.push_reserved(digits[cell]);
            self.exponents.push_reserved(exponents[cell]);
        }
    }
}

/// Writes heads of tables that were not changed.
#[inline(never)]
fn put_heads(heads: &mut Vec<Head>, count: usize)
    requires none { length heads.old.items ≡ 0 }
    requires room { count ≤ vec_capacity heads.old }
    ensures heads { heads.new.items ≡ replicate count no_head }
    ensures room { vec_capacity heads.new ≡ vec_capacity heads.old }
{
    for _ in 0..count {
        heads.push_reserved(Head {
            place: Place::Nowhere,
            shift: 0,
            touched: None,
        });
    }
}

/// Puts one value everywhere.
fn put_each<T: Copy>(values: &mut [T], value: T)
    ensures { values.new ≡ replicate (length values.old) value }
{
    for place in 0..values.len() {
        values[place] = value;
    }
}

/// Puts each cell over another. Most messages have few cells, so a loop costs less than two calls that copy.
#[inline]
fn put_over(digits: &mut [u64], exponents: &mut [u32], from: &[u64], from_exponents: &[u32])
    requires digits { length digits.old ≡ length from.now }
    requires exponents { length exponents.old ≡ length from.now }
    requires as_many { length from_exponents.now ≡ length from.now }
    ensures digits { digits.new ≡ from.now }
    ensures exponents { exponents.new ≡ from_exponents.now }
{
    for cell in 0..from.len() {
        digits[cell] = from[cell];
        exponents[cell] = from_exponents[cell];
    }
}

/// Appends an array to another, which has room for it.
fn append<T: Copy>(values: &mut Vec<T>, more: &[T])
    requires { vec_len values.old + length more.now ≤ vec_capacity values.old }
    ensures items { values.new.items ≡ values.old.items ++ more.now }
    ensures room { vec_capacity values.old ≤ vec_capacity values.new }
{
    // It finds room, so it succeeds.
    let _ = values.extend_from_slice(more);
}
