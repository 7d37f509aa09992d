//! An accepted market file.

ghost use Rattle.std.specs.Prelude.{◌≡◌, ◌≤◌, false, None};
ghost use Rattle.mk_names.specs.declared.limits.TheConstants.{MAX_MARKET_TRADES, MAX_TRANSFERS};
ghost use Rattle.mk_names.specs.declared.limits.TheConstants.{MAX_POINTS_PER_BIT, MAX_USERS};
ghost use Rattle.mk_net.specs.Zeros.{HasNoZeros};
ghost use Rattle.mk_tree.specs.Checked.{IsTreeOf};
ghost use Rattle.mk_tree.specs.Tests.{tree_fault};

use mk_net::Network;
use mk_tree::Tree;

/// An accepted market file: the network of its questions, its tree, the points of one bit of score, how many trades,
/// users and transfers the market takes, and whether a row may give a value a share of nothing.
#[derive(Drop)]
pub struct MarketFile {
    pub net: Network,
    pub tree: Tree,
    pub points_per_bit: u32,
    pub max_trades: u32,
    pub max_users: u32,
    pub max_transfers: u32,
    pub zeros: bool,
    ghost points_positive: { 1 ≤ points_per_bit },
    ghost points_most: { points_per_bit ≤ MAX_POINTS_PER_BIT },
    ghost trades_positive: { 1 ≤ max_trades },
    ghost trades_most: { max_trades ≤ MAX_MARKET_TRADES },
    ghost users_positive: { 1 ≤ max_users },
    ghost users_most: { max_users ≤ MAX_USERS },
    ghost transfers_positive: { 1 ≤ max_transfers },
    ghost transfers_most: { max_transfers ≤ MAX_TRANSFERS },
    ghost tree_of_net: { ∥ IsTreeOf net tree ∥₁ },
    ghost tree_faultless: { tree_fault net tree ≡ None },
    ghost no_zeros: { zeros ≡ false → HasNoZeros net },
}
