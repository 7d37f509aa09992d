//! The market of a run.

ghost use Rattle.std.specs.Prelude.{◌≡◌, [], IfOk};
ghost use Rattle.mk_session.specs.Below.{IsTreeOf, market_of, IsMarket, opening};

use mk_engine::Engine;
use mk_file::MarketFile;
use mk_market::Market;
use mk_net::NoMemory;
use mk_semiring::SumProd;
use mk_tree_engine::TreeEngine;
use mk_user_engine::UserEngine;
use std::alloc::Global;

/// A market whose prices come by messages along its tree, and a user's least factors by a list of
/// trades until these name too many variables, by messages from then on.
pub type TreeMarket = Market<TreeEngine<SumProd>, UserEngine>;

/// The market of an accepted file, before any command. Its engines share one plan, since that of a
/// long chain takes long to make.
pub fn open(alloc: Global, file: MarketFile) -> Result<TreeMarket, NoMemory>
    requires { IsTreeOf file.net file.tree }
    ensures opened { IfOk result (λ market. market ≡ record {
      market = market_of file;
      standing = opening;
      accounts = [];
      assets = [];
    }) }
    ensures is_market { IfOk result (λ _. IsMarket (market_of file)) }
{
    let plan = TreeEngine::<SumProd>::plan(alloc, &file.net, &file.tree)?;
    let users = plan.clone()?;
    TreeMarket::with_plans(alloc, file, &plan, users)
}
