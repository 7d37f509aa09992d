//! What sets and cliques hold.

ghost use Rattle.std.specs.Prelude.{◌≡◌, ℕ, ◌<◌, ◌≤◌, length, true};
ghost use Rattle.mk_sets.specs.Sets.{is_member};
ghost use Rattle.mk_tree.specs.Given.{clique_at, holds_event};

use mk_net::{Event, Network};
use mk_sets::VarSet;
use mk_tree::Tree;

/// The variables of a network, and no other.
pub fn all_variables(net: &Network) -> VarSet
    ensures all { (x : ℕ) → x < length net.now → is_member result x ≡ true }
    ensures no_other { (x : ℕ) → is_member result x ≡ true → x < length net.now }
{
    let mut all = VarSet::empty();
    for variable in 0..net.variables() {
        all = all.with(variable);
    }
    all
}

/// Whether a clique holds each variable of an event.
pub fn holds_event(tree: &Tree, clique: u32, event: &Event) -> bool
    requires first { 1 ≤ clique }
    requires last { clique ≤ length tree.now.cliques }
    ensures { result ≡ holds_event event.now (clique_at tree.now clique) }
{
    let set = tree.clique(clique);
    event.pairs().iter().all(|pair| set.has(pair.variable))
}
