//! Groups of named variables: two variables are in one group where a trade names both.

ghost use Rattle.std.specs.Prelude.{◌≡◌, ◌≢◌, ℕ, ◌+◌, ◌<◌, ◌≤◌, ◌||◌, ◌==◌, true, false, List, All};
ghost use Rattle.std.specs.Prelude.{length, []};
ghost use Rattle.std.specs.Prelude.{IfOk, IfSome, IfNone, vec_capacity};
ghost use Rattle.mk_user_engine.specs.Below.{list_all, Variable, sizes, trade_ratio, HasSized};
ghost use Rattle.mk_net.specs.declared.words.Pair.{Pair};
ghost use Rattle.mk_user_engine.specs.Names.{is_named, IsSize};
ghost use Rattle.mk_user_engine.specs.Grouped.{HasGroups, names, AreJoined, AreTwo, IsFree};
ghost use Rattle.mk_user_engine.specs.Grouped.{IsNamedAt, HasGathered, KeepsTogether, IsGathered};

use crate::group::Group;
use crate::names::{Named, is_named};
use mk_net::{NoMemory, Pair, Ratio};
use mk_scope::Scope;
use std::alloc::Global;
use std::mem::replace;

/// The most groups.
pub(crate) const MAX_GROUPS: usize = 128;

/// Groups, no two of which name one variable.
#[derive(Drop)]
pub(crate) struct Groups {
    pub(crate) list: Vec<Group>,
}

impl Groups {
    /// No group, and room for as many as there may be.
    pub(crate) fn none(alloc: Global) -> Result<Groups, NoMemory>
        ensures { (sizes : List ℕ) → IfOk result (HasGroups sizes) }
    {
        let list = Vec::with_capacity(alloc, MAX_GROUPS)?;
        Ok(Groups { list })
    }

    /// The group that names a variable.
    pub(crate) fn naming(&self, variable: u32) -> Option<usize>
        ensures found { IfSome result (λ k. k < length self.now.list.items) }
        ensures named { IfSome result (λ k. names self.now.list.items k variable ≡ true) }
        ensures none { IfNone result ((k : ℕ) → names self.now.list.items k variable
            ≡ false) }
    {
        for place in 0..self.list.len() {
            if is_named(&self.list[place].names, variable) {
                return Some(place);
            }
        }
        None
    }

    /// The group that names each variable of a ratio, if there is one.
    pub(crate) fn holding(&self, ratio: &Ratio) -> Option<usize>
        ensures within { IfSome result (λ k. k < length self.now.list.items) }
        ensures variable { IfSome result (λ k. names self.now.list.items k ratio.now.variable
            ≡ true) }
        ensures condition { IfSome result (λ k. All (λ (p : Pair). names self.now.list.items k
            p.variable ≡ true) ratio.now.condition) }
    {
        let place = self.naming(ratio.variable)?;
        if !names_all(&self.list[place].names, ratio.condition.pairs()) {
            return None;
        }
        Some(place)
    }

    /// Makes one group of two. Refused where there would be too many cells.
    pub(crate) fn join(&mut self, first: usize, second: usize) -> bool
        requires groups { (sizes : List ℕ) × HasGroups sizes self.old }
        requires two { AreTwo self.old.list.items first second }
        ensures grown { (sizes : List ℕ) → HasGroups sizes self.old → HasGroups sizes self.new }
        ensures joined { result ≡ true
            → AreJoined self.old.list.items self.new.list.items first second }
        ensures left { result ≡ false → self.new ≡ self.old }
    {
        if !self.list[first].can_join(&self.list[second]) {
            return false;
        }
        let other = replace(&mut self.list[second], Group::none());
        self.list[first].join(&other);
        true
    }

    /// Names a variable in a group, where none names it. Refused where there would be too many
    /// cells.
    fn name(&mut self, place: usize, variable: u32, values: u32) -> bool
        requires groups { (sizes : List ℕ) × HasGroups sizes self.old
            × IsSize sizes variable values }
        requires place { place < length self.old.list.items }
        requires free { IsFree self.old.list.items variable }
        ensures grown { (sizes : List ℕ) → HasGroups sizes self.old → IsSize sizes variable values
            → HasGroups sizes self.new }
        ensures named { result ≡ true
            → IsNamedAt self.old.list.items self.new.list.items place variable }
        ensures as_many { length self.new.list.items ≡ length self.old.list.items }
        ensures left { result ≡ false → (k x : ℕ) → names self.new.list.items k x
            ≡ names self.old.list.items k x }
    {
        self.list[place].name(variable, values)
    }

    /// Begins a group with a variable that none names. Refused where there are too many groups, or
    /// the variable has too many values.
    fn begin(&mut self, variable: u32, values: u32) -> bool
        requires groups { (sizes : List ℕ) × HasGroups sizes self.old
            × IsSize sizes variable values }
        requires free { IsFree self.old.list.items variable }
        ensures grown { (sizes : List ℕ) → HasGroups sizes self.old → IsSize sizes variable values
            → HasGroups sizes self.new }
        ensures named { result ≡ true → IsNamedAt self.old.list.items self.new.list.items
            (length self.old.list.items) variable }
        ensures as_many { result ≡ true
            → length self.new.list.items ≡ length self.old.list.items + 1 }
        ensures left { result ≡ false → self.new ≡ self.old }
    {
        let mut group = Group::none();
        if self.list.len() >= MAX_GROUPS || !group.name(variable, values) {
            return false;
        }
        self.list.push_reserved(group);
        true
    }

    /// Names a variable in a group, together with what another group names with it. Refused where
    /// there would be too many cells.
    fn gather(&mut self, place: usize, variable: u32, values: u32) -> bool
        requires groups { (sizes : List ℕ) × HasGroups sizes self.old
            × IsSize sizes variable values }
        requires place { place < length self.old.list.items }
        ensures grown { (sizes : List ℕ) → HasGroups sizes self.old → IsSize sizes variable values
            → HasGroups sizes self.new }
        ensures kept { HasGathered self.old.list.items self.new.list.items place }
        ensures named { result ≡ true → names self.new.list.items place variable ≡ true }
    {
        match self.naming(variable) {
            None => self.name(place, variable, values),
            Some(other) => other == place || self.join(place, other),
        }
    }

    /// Names the variables of some pairs in a group.
    fn gather_pairs(&mut self, place: usize, scope: &Scope, pairs: &[Pair]) -> bool
        requires groups { (m : List Variable) × HasGroups (sizes m) self.old
            × All (λ (p : Pair). HasSized m scope.now p.variable) pairs.now }
        requires place { place < length self.old.list.items }
        ensures grown { (m : List Variable) → HasGroups (sizes m) self.old
            → All (λ (p : Pair). HasSized m scope.now p.variable) pairs.now
            → HasGroups (sizes m) self.new }
        ensures kept { HasGathered self.old.list.items self.new.list.items place }
        ensures named { result ≡ true → All (λ (p : Pair). names self.new.list.items place
            p.variable ≡ true) pairs.now }
    {
        for pair in pairs {
            if !self.gather(place, pair.variable, scope.size(pair.variable)) {
                return false;
            }
        }
        true
    }

    /// The group that names a variable, or one that is begun with it. Refused where there are too
    /// many groups, or the variable has too many values.
    fn place_of(&mut self, variable: u32, values: u32) -> Option<usize>
        requires groups { (sizes : List ℕ) × HasGroups sizes self.old
            × IsSize sizes variable values }
        ensures grown { (sizes : List ℕ) → HasGroups sizes self.old → IsSize sizes variable values
            → HasGroups sizes self.new }
        ensures together { KeepsTogether self.old.list.items self.new.list.items }
        ensures found { IfSome result (λ k. k < length self.new.list.items) }
        ensures named { IfSome result (λ k. names self.new.list.items k variable ≡ true) }
    {
        if let Some(place) = self.naming(variable) {
            return Some(place);
        }
        if !self.begin(variable, values) {
            return None;
        }
        Some(self.list.len() - 1)
    }

    /// Names the variables of a ratio in one group. Refused where a limit would be passed.
    pub(crate) fn gather_ratio(&mut self, scope: &Scope, ratio: &Ratio) -> bool
        requires { (m : List Variable) × HasGroups (sizes m) self.old
            × IsSize (sizes m) ratio.now.variable (length ratio.now.factors.items)
            × All (λ (p : Pair). HasSized m scope.now p.variable) ratio.now.condition }
        ensures grown { (m : List Variable) → HasGroups (sizes m) self.old
            → IsSize (sizes m) ratio.now.variable (length ratio.now.factors.items)
            → All (λ (p : Pair). HasSized m scope.now p.variable) ratio.now.condition
            → HasGroups (sizes m) self.new }
        ensures together { KeepsTogether self.old.list.items self.new.list.items }
        ensures gathered { result ≡ true
            → IsGathered self.new.list.items (trade_ratio ratio.now) }
    {
        match self.place_of(ratio.variable, ratio.factors.len() as u32) {
            None => false,
            Some(place) => self.gather_pairs(place, scope, ratio.condition.pairs()),
        }
    }
}

/// Whether each of some pairs has a named variable.
fn names_all(names: &[Named], pairs: &[Pair]) -> bool
    ensures { result ≡ list_all (λ (p : Pair). is_named names.now p.variable) pairs.now }
{
    pairs.iter().all(|pair| is_named(names, pair.variable))
}
