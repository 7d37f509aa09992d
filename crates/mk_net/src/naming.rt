//! The faults of a draft's words: its names, their repeats, and the parents.

ghost use Rattle.std.specs.Prelude.{◌≡◌, ◌<◌, ◌≤◌, length, map, position, string_bytes, IfSome};
ghost use Rattle.mk_net.specs.Below.{list_all, list_any, same_text};
ghost use Rattle.mk_names.specs.Name as name;
ghost use Rattle.mk_net.specs.Drafts.{drafts_of, draft_of_variable};
ghost use Rattle.mk_net.specs.Checked.{is_before, number_of, has_double, name_at, repeat_at, parent_at};

use crate::draft::{Draft, VariableDraft};
use crate::fault::NetFault;
use mk_names::is_name;

impl Draft {
    /// Whether the variable of this number repeats a name.
    pub(crate) fn repeat_of(&self, place: u32, variable: &VariableDraft) -> Option<NetFault>
        ensures { result ≡ repeat_at (drafts_of self.now) place (draft_of_variable variable.now) }
    {
        if self.is_before(place, &variable.name) || has_double(&variable.values) {
            Some(NetFault::Repeat { variable: place })
        } else {
            None
        }
    }

    /// Whether a parent of the variable of this number is no earlier variable, or stands twice.
    pub(crate) fn parent_of(&self, place: u32, variable: &VariableDraft) -> Option<NetFault>
        ensures { result ≡ parent_at (drafts_of self.now) place (draft_of_variable variable.now) }
    {
        if self.are_before(place, &variable.parents) && !has_double(&variable.parents) {
            None
        } else {
            Some(NetFault::Parent { variable: place })
        }
    }

    /// Whether a variable before the one of this number has the name.
    fn is_before(&self, place: u32, name: &str) -> bool
        ensures { result ≡ is_before (drafts_of self.now) place name.now }
    {
        self.number_of(name) + 1 < place as usize
    }

    /// Whether variables before the one of this number have the names.
    fn are_before(&self, place: u32, names: &[String]) -> bool
        ensures { result ≡ list_all (is_before (drafts_of self.now) place) (map string_bytes names.now) }
    {
        names.iter().all(|name| self.is_before(place, name))
    }

    /// The number, from 0, of the first variable of the name: the number of variables where there is none.
    pub(crate) fn number_of(&self, name: &str) -> usize
        ensures number { result ≡ number_of (drafts_of self.now) name.now }
        ensures within { result ≤ length self.now.variables.items }
    {
        match position_of(&self.variables, name) {
            Some(number) => number,
            None => self.variables.len(),
        }
    }
}

impl VariableDraft {
    /// Whether its name or one of its values is no name, for the variable of this number.
    pub(crate) fn name_fault(&self, place: u32) -> Option<NetFault>
        ensures { result ≡ name_at place (draft_of_variable self.now) }
    {
        if is_name(self.name.as_bytes()) && are_names(&self.values) {
            None
        } else {
            Some(NetFault::BadName { variable: place })
        }
    }
}

/// The number, from 0, of the first variable of the name.
fn position_of(variables: &[VariableDraft], name: &str) -> Option<usize>
    ensures first { result ≡ position (λ v. same_text name.now (string_bytes v.name)) variables.now }
    ensures within { IfSome result (λ number. number < length variables.now) }
{
    variables
        .iter()
        .position(|variable| is_same_text(name, &variable.name))
}

/// Whether each of the texts is a name.
fn are_names(texts: &[String]) -> bool
    ensures { result ≡ list_all name.is_name (map string_bytes texts.now) }
{
    texts.iter().all(|text| is_name(text.as_bytes()))
}

/// Whether the text is one of the others.
fn holds(others: &[String], text: &str) -> bool
    ensures { result ≡ list_any (same_text text.now) (map string_bytes others.now) }
{
    others.iter().any(|other| is_same_text(text, other))
}

/// Whether some text stands twice.
fn has_double(texts: &[String]) -> bool
    ensures { result ≡ has_double (map string_bytes texts.now) }
{
    match texts {
        [] => false,
        [text, later @ ..] => { holds(later, text) || has_double(later) }
    }
}

/// Whether two texts have the same bytes.
fn is_same_text(first: &str, second: &str) -> bool
    ensures { result ≡ same_text first.now second.now }
{
    first == second
}
