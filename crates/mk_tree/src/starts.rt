//! Where a search of a tree's cliques begins.

ghost use Rattle.std.specs.Prelude.{◌≡◌, ℕ, ◌<◌, ◌≤◌, List, length, slice_index, position, IfOk};
ghost use Rattle.std.specs.Prelude.{IfSome, if◌then◌else◌};
ghost use Rattle.mk_tree.specs.Below.{is_member, max_variables};
ghost use Rattle.mk_tree.specs.Given.{max_tree_cliques, holds_event};
ghost use Rattle.mk_tree.specs.inner.Starts.{AreStarts, event_start};

use mk_names::limits::MAX_VARIABLES;
use mk_net::Pair;
use mk_sets::VarSet;
use std::alloc::{AllocError, Global};

/// For each variable the place, counted from 0, of the first clique that holds it: the number of
/// cliques where none does. It fails where memory is wanting.
pub(crate) fn find_starts(alloc: Global, cliques: &[VarSet]) -> Result<Vec<u32>, AllocError>
    requires few { length cliques.now ≤ max_tree_cliques }
    ensures starts { IfOk result (λ starts. AreStarts cliques.now starts.items) }
{
    let mut starts = vec![in alloc; cliques.len() as u32; MAX_VARIABLES as usize]?;
    for place in (0..cliques.len()).rev() {
        begin_at(&mut starts, &cliques[place], place as u32);
    }
    Ok(starts)
}

/// The variables of a clique begin at its place.
fn begin_at(starts: &mut [u32], clique: &VarSet, place: u32)
    requires one_each { length starts.old ≡ max_variables }
    ensures one_each { length starts.new ≡ max_variables }
    ensures begun { (x : ℕ) → x < max_variables → slice_index starts.new x
        ≡ (if is_member clique.now x then place else slice_index starts.old x) }
{
    let mut left = *clique;
    while let Some(variable) = left.first() {
        left = left.without(&VarSet::empty().with(variable));
        starts[variable as usize] = place;
    }
}

/// The place, counted from 0, of the first clique that holds each variable of the pairs.
pub(crate) fn first_holder(cliques: &[VarSet], starts: &[u32], pairs: &[Pair]) -> Option<usize>
    requires starts { AreStarts cliques.now starts.now }
    ensures first { result ≡ position (holds_event pairs.now) cliques.now }
    ensures within { IfSome result (λ place. place < length cliques.now) }
{
    let start = event_start(starts, pairs);
    let (_, rest) = cliques.split_at(start);
    let place = first_holding(rest, pairs)?;
    Some(start + place)
}

/// The greatest start of the pairs' variables. No clique before it holds them all.
fn event_start(starts: &[u32], pairs: &[Pair]) -> usize
    ensures { result ≡ event_start starts.now pairs.now }
{
    let mut start = 0;
    for pair in pairs {
        if let Some(own) = starts.get(pair.variable as usize) {
            start = start.max(*own);
        }
    }
    start as usize
}

/// The same, where the search begins at the first of these cliques.
fn first_holding(cliques: &[VarSet], pairs: &[Pair]) -> Option<usize>
    ensures first { result ≡ position (holds_event pairs.now) cliques.now }
    ensures within { IfSome result (λ place. place < length cliques.now) }
{
    cliques.iter().position(|clique| holds_event(clique, pairs))
}

fn holds_event(clique: &VarSet, pairs: &[Pair]) -> bool
    ensures { result ≡ holds_event pairs.now clique.now }
{
    pairs.iter().all(|pair| clique.has(pair.variable))
}
