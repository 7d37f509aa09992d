//! The faults of a draft's rows: how many there are, their widths, entries and sums.

ghost use Rattle.std.specs.Prelude.{◌≡◌, ◌≤◌, ◌↔◌, true, length, map, sum, string_bytes, slice_index, All, IsTrue};
ghost use Rattle.mk_net.specs.Bounds.{max_parents, max_values};
ghost use Rattle.mk_net.specs.Network.{choices};
ghost use Rattle.mk_net.specs.Drafts.{drafts_of, draft_of_variable};
ghost use Rattle.mk_net.specs.Firsts.{first_in};
ghost use Rattle.mk_net.specs.Checked.{counts, number_of, share, is_share, rows_at, width_at, entry_of, entry_at, sum_of, sum_at};
ghost use Rattle.mk_net.specs.inner.Counted.{IsCounted, IsNumbered, HasWidths, HasShares};

use crate::draft::{Draft, VariableDraft};
use crate::fault::NetFault;
use mk_names::limits::MILLION;

/// The greatest share: all of a row.
const WHOLE: i64 = MILLION as i64;

impl Draft {
    /// Whether each row of each variable has a number.
    pub(crate) fn is_numbered(&self) -> bool
        ensures { IsTrue result ↔ All IsNumbered self.now.variables.items }
    {
        self.variables
            .iter()
            .all(|variable| variable.rows.len() < 1 << 32)
    }

    /// Whether the variable of this number has another number of rows than its parents have lists of values.
    pub(crate) fn rows_of(&self, place: u32, variable: &VariableDraft) -> Option<NetFault>
        requires counted { All IsCounted self.now.variables.items }
        requires few_parents { length variable.now.parents.items ≤ max_parents }
        ensures { result ≡ rows_at (drafts_of self.now) place (draft_of_variable variable.now) }
    {
        let rows = variable.rows.len();
        if rows as u64 == self.choices(&variable.parents) {
            None
        } else {
            Some(NetFault::Rows {
                variable: place,
                n: rows as i64,
            })
        }
    }

    /// How many lists of values the variables of these names have together.
    fn choices(&self, names: &[String]) -> u64
        requires counted { All IsCounted self.now.variables.items }
        requires few { length names.now ≤ max_parents }
        ensures { result ≡ choices (counts (drafts_of self.now)) (map (number_of (drafts_of self.now)) (map string_bytes names.now)) }
    {
        let mut choices = 1;
        'names: for name in names {
            choices *= self.values_of(name);
        }
        choices
    }

    /// How many values the first variable of the name has: 0 where there is none.
    fn values_of(&self, name: &str) -> u64
        requires { All IsCounted self.now.variables.items }
        ensures count { result ≡ slice_index (counts (drafts_of self.now)) (number_of (drafts_of self.now) name.now) }
        ensures few { result ≤ max_values }
    {
        match self.variables.get(self.number_of(name)) {
            Some(variable) => variable.values.len() as u64,
            None => 0,
        }
    }
}

impl VariableDraft {
    /// The first row with another number of entries than there are values, for the variable of this number.
    pub(crate) fn width_fault(&self, place: u32) -> Option<NetFault>
        requires { IsNumbered self.now }
        ensures { result ≡ width_at place (draft_of_variable self.now) }
    {
        let values = self.values.len();
        let mut row = 0;
        'rows: for entries in &self.rows {
            row += 1;
            let n = entries.len();
            if n != values {
                return Some(NetFault::Width {
                    variable: place,
                    row,
                    n: n as i64,
                });
            }
        }
        None
    }

    /// The first entry that is no share, for the variable of this number.
    pub(crate) fn entry_fault(&self, zeros: bool, place: u32) -> Option<NetFault>
        requires numbered { IsNumbered self.now }
        requires widths { HasWidths self.now }
        ensures { result ≡ entry_at zeros place (draft_of_variable self.now) }
    {
        let mut row = 0;
        'rows: for entries in &self.rows {
            row += 1;
            if let Some(fault) = entry_fault(zeros, entries, place, row) {
                return Some(fault);
            }
        }
        None
    }

    /// The first row whose entries are not a million together, for the variable of this number.
    pub(crate) fn sum_fault(&self, place: u32) -> Option<NetFault>
        requires numbered { IsNumbered self.now }
        requires widths { HasWidths self.now }
        requires shares { HasShares self.now }
        ensures { result ≡ sum_at place (draft_of_variable self.now) }
    {
        let mut row = 0;
        'rows: for entries in &self.rows {
            row += 1;
            if let Some(fault) = sum_fault(entries, place, row) {
                return Some(fault);
            }
        }
        None
    }
}

/// The first entry that is no share, in this row of the variable of this number.
fn entry_fault(zeros: bool, entries: &[i64], variable: u32, row: u32) -> Option<NetFault>
    requires { length entries.now ≤ max_values }
    ensures { result ≡ first_in (entry_of zeros variable row) 1 entries.now }
{
    let mut column = 0;
    'columns: for entry in entries {
        column += 1;
        if !is_share(zeros, *entry) {
            return Some(NetFault::Entry {
                variable,
                row,
                column,
            });
        }
    }
    None
}

/// Whether the entries of this row of the variable of this number are not a million together.
fn sum_fault(entries: &[i64], variable: u32, row: u32) -> Option<NetFault>
    requires few { length entries.now ≤ max_values }
    requires shares { All (λ e. is_share true e ≡ true) entries.now }
    ensures { result ≡ sum_of variable row entries.now }
{
    let sum = sum_of(entries);
    if sum == WHOLE as u64 {
        None
    } else {
        Some(NetFault::Sum {
            variable,
            row,
            sum: sum as i64,
        })
    }
}

/// The sum of the shares of a row.
fn sum_of(entries: &[i64]) -> u64
    requires few { length entries.now ≤ max_values }
    requires shares { All (λ e. is_share true e ≡ true) entries.now }
    ensures sum { result ≡ sum (map share entries.now) }
    ensures small { result ≤ 16000000 }
{
    let mut sum = 0;
    'columns: for entry in entries {
        sum += u64::from(share(*entry));
    }
    sum
}

/// Whether an entry is from 1, or from 0 where shares of nothing may occur, to a million.
fn is_share(zeros: bool, entry: i64) -> bool
    ensures { result ≡ is_share zeros entry }
{
    let least = if zeros { 0 } else { 1 };
    entry >= least && entry <= WHOLE
}

/// An entry as a share.
pub(crate) fn share(entry: i64) -> u32
    requires { is_share true entry ≡ true }
    ensures share { result ≡ share entry }
    ensures small { result ≤ 1000000 }
{
    entry as u32
}
