//! The order in which the kinds of faults of a draft are tried.

ghost use Rattle.std.specs.Prelude.{◌≡◌, ◌≤◌, length, All};
ghost use Rattle.mk_net.specs.Bounds.{max_variables};
ghost use Rattle.mk_net.specs.Drafts.{drafts_of, draft_of_variable};
ghost use Rattle.mk_net.specs.Firsts.{first_in};
ghost use Rattle.mk_net.specs.Checked.{first_fault, later_fault};
ghost use Rattle.mk_net.specs.inner.Counted.{IsCounted, IsNumbered};
ghost use Rattle.mk_net.specs.inner.Kinds.{fault_at, IsReady, Allows};

use crate::draft::{Draft, VariableDraft};
use crate::fault::NetFault;

/// The kinds of faults that a variable may have.
#[derive(Clone, Copy)]
pub(crate) enum Kind {
    Counts,
    Names,
    Repeats,
    Parents,
    Rows,
    Widths,
    Entries,
    Sums,
}

impl Draft {
    /// The first fault.
    pub(crate) fn first_fault(&self) -> Option<NetFault>
        requires { All IsNumbered self.now.variables.items }
        ensures { result ≡ first_fault self.now.zeros (drafts_of self.now) }
    {
        if let Some(fault) = self.count_fault() {
            return Some(fault);
        }
        self.later_fault()
    }

    /// The first fault that is no number outside its limits.
    fn later_fault(&self) -> Option<NetFault>
        requires few { length self.now.variables.items ≤ max_variables }
        requires counted { All IsCounted self.now.variables.items }
        requires numbered { All IsNumbered self.now.variables.items }
        ensures { result ≡ later_fault self.now.zeros (drafts_of self.now) }
    {
        if let Some(fault) = self.first_of(Kind::Names) {
            return Some(fault);
        }
        if let Some(fault) = self.first_of(Kind::Repeats) {
            return Some(fault);
        }
        if let Some(fault) = self.first_of(Kind::Parents) {
            return Some(fault);
        }
        if let Some(fault) = self.first_of(Kind::Rows) {
            return Some(fault);
        }
        if let Some(fault) = self.first_of(Kind::Widths) {
            return Some(fault);
        }
        if let Some(fault) = self.first_of(Kind::Entries) {
            return Some(fault);
        }
        self.first_of(Kind::Sums)
    }

    /// The first fault of a kind.
    pub(crate) fn first_of(&self, kind: Kind) -> Option<NetFault>
        requires few { length self.now.variables.items ≤ max_variables }
        requires ready { IsReady kind self.now.variables.items }
        ensures { result ≡ first_in (fault_at kind self.now.zeros (drafts_of self.now)) 1
            (drafts_of self.now) }
    {
        let mut place = 0;
        'variables: for variable in &self.variables {
            place += 1;
            if let Some(fault) = self.fault_of(kind, place, variable) {
                return Some(fault);
            }
        }
        None
    }

    /// The fault of a kind that the variable of this number has.
    fn fault_of(&self, kind: Kind, place: u32, variable: &VariableDraft) -> Option<NetFault>
        requires ready { IsReady kind self.now.variables.items }
        requires allowed { Allows kind variable.now }
        ensures { result ≡ fault_at kind self.now.zeros (drafts_of self.now) place
            (draft_of_variable variable.now) }
    {
        match kind {
            Kind::Counts => variable.count_fault(place),
            Kind::Names => variable.name_fault(place),
            Kind::Repeats => self.repeat_of(place, variable),
            Kind::Parents => self.parent_of(place, variable),
            Kind::Rows => self.rows_of(place, variable),
            Kind::Widths => variable.width_fault(place),
            Kind::Entries => variable.entry_fault(self.zeros, place),
            Kind::Sums => variable.sum_fault(place),
        }
    }
}
