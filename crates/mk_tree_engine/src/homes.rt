//! Where rows and supports are placed.

ghost use Rattle.std.specs.Prelude.{◌≡◌, ℕ, ◌+◌, ◌<◌, ◌≤◌, ◌&&◌, length, true};
ghost use Rattle.mk_tree_engine.specs.Below.{list_all, is_member, IsNetwork, clique_at};
ghost use Rattle.mk_tree_engine.specs.Below.{holds_family, IsTreeOf, RowsOf, IsClique};
ghost use Rattle.mk_tree_engine.specs.Engines.{factor_home};

use mk_net::Network;
use mk_sets::VarSet;
use mk_tree::Tree;

/// The first clique that holds a variable and its parents.
pub(crate) fn family_home(tree: &Tree, net: &Network, variable: u32) -> u32
    requires tree { IsTreeOf net.now tree.now }
    requires variable { variable < length net.now }
    ensures home { result ≡ factor_home net.now tree.now (RowsOf variable) }
    ensures clique { IsClique tree.now result }
    ensures fits { holds_family net.now variable (clique_at tree.now result) ≡ true }
{
    for passed in 0..tree.cliques() {
        if holds_family(tree.clique(passed + 1), net, variable) {
            return passed + 1;
        }
    }
    unreachable!()
}

/// Whether a set holds a variable and its parents.
fn holds_family(set: VarSet, net: &Network, variable: u32) -> bool
    requires { variable < length net.now }
    ensures { result ≡ holds_family net.now variable set }
{
    set.has(variable) && holds_each(&set, net.parents(variable))
}

fn holds_each(set: &VarSet, variables: &[u32]) -> bool
    ensures { result ≡ list_all (is_member set.now) variables.now }
{
    variables.iter().all(|variable| set.has(*variable))
}
