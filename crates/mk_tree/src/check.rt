//! What a tree is refused for.

ghost use Rattle.std.specs.Prelude.{◌≡◌, ℕ, ◌+◌, ◌<◌, ◌≤◌, ◌↔◌, List, length, not, true, Some};
ghost use Rattle.std.specs.Prelude.{None, nat_le, if◌then◌else◌, All, sum_by};
ghost use Rattle.mk_tree.specs.Below.{max_clique_cells, max_cells, is_member, IsSubset, Variable};
ghost use Rattle.mk_tree.specs.Below.{IsNetwork};
ghost use Rattle.mk_tree.specs.Given.{AreLinked, AreOfNetwork};
ghost use Rattle.mk_tree.specs.Tests.{holds_family, is_covered, are_connected, cells_of, first_failing, first_too_large, tree_fault};
ghost use Rattle.mk_tree.specs.inner.Tops.{is_top};

use crate::fault::TreeFault;
use mk_names::limits::{MAX_CELLS, MAX_CLIQUE_CELLS};
use mk_net::Network;
use mk_sets::VarSet;

/// The first fault of a tree.
pub fn find_fault(net: &Network, cliques: &[VarSet], links: &[u32]) -> Option<TreeFault>
    requires linked { AreLinked (record { cliques = cliques.now; links = links.now }) }
    requires of_network { AreOfNetwork net.now cliques.now }
    ensures { result ≡ tree_fault net.now (record { cliques = cliques.now; links = links.now }) }
{
    if let Some(variable) = first_uncovered(net, cliques) {
        return Some(TreeFault::Cover { variable });
    }
    if let Some(variable) = first_apart(cliques, links) {
        return Some(TreeFault::NotRunning { variable });
    }
    let clique = first_too_large(net, cliques)?;
    Some(TreeFault::Cells { clique })
}

/// The first variable, counted from 1, that lies in no clique together with its parents.
fn first_uncovered(net: &Network, cliques: &[VarSet]) -> Option<u32>
    ensures network { IsNetwork net.now }
    ensures first { result ≡ first_failing net.now (is_covered net.now cliques.now) }
{
    for variable in 0..net.variables() {
        if !is_covered(net, cliques, variable) {
            return Some(variable + 1);
        }
    }
    None
}

/// Whether some clique holds a variable and its parents.
fn is_covered(net: &Network, cliques: &[VarSet], variable: u32) -> bool
    requires network { IsNetwork net.now }
    requires variable { variable < length net.now }
    ensures { result ≡ is_covered net.now cliques.now variable }
{
    let family = family(net, variable);
    cliques.iter().any(|set| family.is_within(set))
}

/// The set of a variable and its parents.
fn family(net: &Network, variable: u32) -> VarSet
    requires network { IsNetwork net.now }
    requires variable { variable < length net.now }
    ensures { (set : VarSet) → IsSubset result set ↔ (holds_family net.now variable set ≡ true) }
{
    let mut family = VarSet::empty().with(variable);
    for parent in net.parents(variable) {
        family = family.with(*parent);
    }
    family
}

/// The first variable, counted from 1, whose cliques are not connected.
fn first_apart(cliques: &[VarSet], links: &[u32]) -> Option<u32>
    requires { AreLinked (record { cliques = cliques.now; links = links.now }) }
    ensures { (network : List Variable) → AreOfNetwork network cliques.now
        → result ≡ first_failing network (are_connected (record { cliques = cliques.now; links = links.now })) }
{
    let variable = with_several_tops(cliques, links).first()?;
    Some(variable + 1)
}

/// The variables whose cliques are not connected: those that have more than one top, which is a clique that holds the
/// variable, and is the first of all or is linked to one that does not.
fn with_several_tops(cliques: &[VarSet], links: &[u32]) -> VarSet
    requires { AreLinked (record { cliques = cliques.now; links = links.now }) }
    ensures { (x : ℕ) → is_member result x ≡ not (are_connected (record { cliques = cliques.now; links = links.now }) x) }
{
    let mut once = VarSet::empty();
    let mut twice = VarSet::empty();
    for place in 0..cliques.len() {
        let tops = top_variables(cliques, links, place);
        twice = twice.union(&once.common(&tops));
        once = once.union(&tops);
    }
    twice
}

/// The variables of which a clique is a top. Its place is counted from 0.
fn top_variables(cliques: &[VarSet], links: &[u32], place: usize) -> VarSet
    requires linked { AreLinked (record { cliques = cliques.now; links = links.now }) }
    requires place { place < length cliques.now }
    ensures { (x : ℕ) → is_member result x ≡ is_top (record { cliques = cliques.now; links = links.now }) x (place + 1) }
{
    let clique = cliques[place];
    if place == 0 {
        return clique;
    }
    let link = links[place - 1] as usize;
    clique.without(&cliques[link - 1])
}

/// The first clique, counted from 1, that has too many cells, or with which there are too many.
fn first_too_large(net: &Network, cliques: &[VarSet]) -> Option<u32>
    requires network { IsNetwork net.now }
    requires of_network { AreOfNetwork net.now cliques.now }
    requires few { length cliques.now ≤ 511 }
    ensures { result ≡ first_too_large net.now 1 0 cliques.now }
{
    let mut total = 0;
    for (place, clique) in cliques.iter().enumerate() {
        match cells(net, clique) {
            Some(cells) if total + cells <= MAX_CELLS => total += cells,
            _ => return Some(place as u32 + 1),
        }
    }
    None
}

/// How many cells the cliques of a tree have together.
pub(crate) fn total_cells(net: &Network, cliques: &[VarSet]) -> u32
    requires of_network { AreOfNetwork net.now cliques.now }
    requires small { All (λ set. cells_of net.now set ≤ max_clique_cells) cliques.now }
    requires few { sum_by (cells_of net.now) cliques.now ≤ max_cells }
    ensures { result ≡ sum_by (cells_of net.now) cliques.now }
{
    let mut total = 0;
    'cliques: for clique in cliques {
        total += clique_cells(net, clique).unwrap();
    }
    total
}

/// How many cells a clique of a network's variables has: one for each list of their values. None
/// exactly where it has
/// more than 4,096.
pub fn clique_cells(net: &Network, clique: &VarSet) -> Option<u32>
    requires of_network { (x : ℕ) → is_member clique.now x ≡ true → x < length net.now }
    ensures { result ≡ (if nat_le (cells_of net.now clique.now) max_clique_cells then Some
        (cells_of net.now clique.now) else None) }
{
    // The call says that this is a network.
    let _ = net.variables();
    cells(net, clique)
}

/// How many cells a clique has. None exactly where it has more than 4,096.
fn cells(net: &Network, clique: &VarSet) -> Option<u32>
    requires network { IsNetwork net.now }
    requires of_network { (x : ℕ) → is_member clique.now x ≡ true → x < length net.now }
    ensures { result ≡ (if nat_le (cells_of net.now clique.now) 4096 then Some (cells_of net.now clique.now) else None) }
{
    let mut cells = 1;
    let mut left = *clique;
    while let Some(variable) = left.first() {
        left = left.without(&VarSet::empty().with(variable));
        cells *= net.values(variable);
        if cells > MAX_CLIQUE_CELLS {
            return None;
        }
    }
    Some(cells)
}
