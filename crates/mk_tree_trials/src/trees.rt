//! A tree of a small network, and trees at the limits of cliques.

ghost use Rattle.std.specs.Prelude.{ℕ, ◌+◌, ◌<◌, ◌≤◌, length, slice_index};
ghost use Rattle.mk_tree.specs.Given.{AreOfNetwork};

use mk_file::read_market;
use mk_fixtures::all_variables;
use mk_net::{Event, Network, Pair};
use mk_sets::VarSet;
use mk_tree::{Tree, TreeFault};
use std::alloc::Global;
use std::process::Abort;
use std::test::Fail;

/// Three variables of 16 values each, and one of two, which is a clique of its own.
const WIDE: &str = "points_per_bit = 1
max_trades = 1
cliques = [['d'], ['a', 'b', 'c']]
links = [1]
variable = [
{name = 'a', values = ['x0', 'x1', 'x2', 'x3', 'x4', 'x5', 'x6', 'x7',
'x8', 'x9', 'x10', 'x11', 'x12', 'x13', 'x14', 'x15'], parents = [], rows = [
[999985, 1, 1, 1, 1, 1, 1, 1, 1, 1, 1, 1, 1, 1, 1, 1]]},
{name = 'b', values = ['x0', 'x1', 'x2', 'x3', 'x4', 'x5', 'x6', 'x7',
'x8', 'x9', 'x10', 'x11', 'x12', 'x13', 'x14', 'x15'], parents = [], rows = [
[999985, 1, 1, 1, 1, 1, 1, 1, 1, 1, 1, 1, 1, 1, 1, 1]]},
{name = 'c', values = ['x0', 'x1', 'x2', 'x3', 'x4', 'x5', 'x6', 'x7',
'x8', 'x9', 'x10', 'x11', 'x12', 'x13', 'x14', 'x15'], parents = [], rows = [
[999985, 1, 1, 1, 1, 1, 1, 1, 1, 1, 1, 1, 1, 1, 1, 1]]},
{name = 'd', values = ['x0', 'x1'], parents = [], rows = [[999999, 1]]},
]
";

fn set(rt: &impl Abort, variables: &[u32]) -> VarSet {
    let mut set = VarSet::empty();
    for variable in variables {
        assert!(rt; *variable < 256);
        set = set.with(*variable);
    }
    set
}

/// Stops unless each link leads to an earlier clique.
fn expect_links(rt: &impl Abort, links: &[u32])
    ensures first { (k : ℕ) → k < length links.now → 1 ≤ slice_index links.now k }
    ensures earlier { (k : ℕ) → k < length links.now → slice_index links.now k ≤ k + 1 }
{
    for (place, link) in links.iter().enumerate() {
        assert!(rt; *link >= 1 && *link as usize <= place + 1);
    }
}

/// Stops unless the cliques hold variables of the network alone.
fn expect_of_network(rt: &impl Abort, net: &Network, cliques: &[VarSet])
    ensures { AreOfNetwork net.now cliques.now }
{
    let all = all_variables(net);
    for clique in cliques {
        assert!(rt; clique.is_within(&all));
    }
}

/// The tree, or its fault.
fn tree(
    rt: &impl Abort,
    alloc: Global,
    net: &Network,
    cliques: &[VarSet],
    links: &[u32],
) -> Result<Tree, TreeFault> {
    assert!(rt; cliques.len() <= 256);
    assert!(rt; links.len() + 1 == cliques.len());
    expect_links(rt, links);
    expect_of_network(rt, net, cliques);
    Tree::from_cliques(alloc, net, cliques, links)
}

fn event(rt: &impl Abort, variables: &[u32]) -> Event {
    let mut event = Event::empty();
    for variable in variables {
        let pair = Pair {
            variable: *variable,
            value: 0,
        };
        event = event.with(pair).expect(rt, "a pair");
    }
    event
}

/// Stops unless this clique is the home of a pair of each variable.
fn expect_home(rt: &impl Abort, tree: &Tree, variables: &[u32], home: Option<u32>) {
    assert!(rt;
        tree.home(&event(rt, variables)) == home,
        "at {variables:?}"
    );
}

fn expect_link(rt: &impl Abort, tree: &Tree, clique: u32, link: Option<u32>) {
    assert!(rt; clique >= 1 && clique <= tree.cliques());
    assert!(rt; tree.link(clique) == link);
}

fn check_chain(rt: &impl Abort, tree: &Tree) {
    assert!(rt; tree.cliques() == 3);
    assert!(rt; tree.clique(2) == set(rt, &[1, 2]));
    expect_link(rt, tree, 1, None);
    expect_link(rt, tree, 2, Some(1));
    expect_link(rt, tree, 3, Some(2));
    expect_home(rt, tree, &[], Some(1));
    expect_home(rt, tree, &[1], Some(1));
    expect_home(rt, tree, &[2], Some(2));
    expect_home(rt, tree, &[2, 1], Some(2));
    expect_home(rt, tree, &[0, 2], None);
    expect_home(rt, tree, &[1, 0], Some(1));
}

/// Of the chain's tree.
pub(crate) fn check_copy(rt: &impl Abort, alloc: Global, tree: &Tree) -> Result<(), Fail> {
    let copy = tree.copy(alloc)?;
    check_chain(rt, &copy);
    Ok(())
}

fn check_cells(rt: &impl Abort, alloc: Global, net: &Network) {
    let cliques = [set(rt, &[3]), set(rt, &[0, 1, 2, 3])];
    let fault = tree(rt, alloc, net, &cliques, &[1]).err();
    assert!(rt; fault == Some(TreeFault::Cells { clique: 2 }));
}

fn check_last(rt: &impl Abort, tree: &Tree) {
    assert!(rt; tree.cliques() == 256);
    expect_home(rt, tree, &[3], Some(256));
}

fn check_256_cliques(rt: &impl Abort, alloc: Global, net: &Network) -> Result<(), Fail> {
    let mut cliques = [set(rt, &[0]); 256];
    cliques[253] = set(rt, &[1]);
    cliques[254] = set(rt, &[2]);
    cliques[255] = set(rt, &[3]);
    let tree = tree(rt, alloc, net, &cliques, &[1; 255])?;
    check_last(rt, &tree);
    Ok(())
}

fn check_limits(rt: &impl Abort, alloc: Global, net: &Network) -> Result<(), Fail> {
    check_cells(rt, alloc, net);
    check_256_cliques(rt, alloc, net)
}

#[test]
fn cliques_at_their_limits(rt: HostRuntime) -> Result<(), Fail> {
    // A clique of 4,096 cells is taken where the file is read.
    let file = read_market(rt.alloc(), WIDE.as_bytes())?;
    check_limits(&rt, rt.alloc(), &file.net)
}
