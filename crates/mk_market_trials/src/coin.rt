//! The network and the tree of a coin.

ghost use Rattle.std.specs.Prelude.{◌≡◌, [], length, slice_index, IfOk};
ghost use Rattle.mk_net.specs.Network.{sizes};
ghost use Rattle.mk_net.specs.Zeros.{with_zeros};
ghost use Rattle.mk_tree.specs.Checked.{IsTreeOf};

use mk_file::read_market;
use mk_fixtures::COIN;
use mk_net::Network;
use mk_tree::Tree;
use std::alloc::Global;
use std::process::Abort;
use std::test::Fail;

/// A network of one variable of two values without a share of nothing, and a tree of it.
#[derive(Drop)]
pub struct Coin {
    pub net: Network,
    pub tree: Tree,
    ghost one: { length net ≡ 1 },
    ghost sides: { slice_index (sizes net) 0 ≡ 2 },
    ghost plain: { with_zeros net ≡ [] },
}

pub fn make_coin(rt: &impl Abort, alloc: Global) -> Result<Coin, Fail>
    ensures tree { IfOk result (λ coin. IsTreeOf coin.net coin.tree) }
{
    let file = read_market(alloc, COIN.as_bytes())?;
    assert!(rt; file.net.variables() == 1);
    assert!(rt; file.net.values(0) == 2);
    assert!(rt; file.net.with_zeros().is_empty());
    Ok(Coin {
        net: file.net,
        tree: file.tree,
    })
}
