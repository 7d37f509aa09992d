//! The homes of what a history places.
ghost use Rattle.std.specs.Prelude.{◌≡◌, [], ◌∷◌, true, is_some, Some};
ghost use Rattle.mk_net.specs.Asked.{ratio_pairs};
ghost use Rattle.mk_net.specs.Trades.{trade_ratio};
ghost use Rattle.mk_tree.specs.Given.{home};

use mk_net::{Pair, Ratio};
use mk_tree::Tree;

/// The home of a trade.
pub(crate) fn home_of_trade(tree: &Tree, ratio: &Ratio) -> u32
    requires { is_some (home tree.now (ratio_pairs (trade_ratio ratio.now))) ≡ true }
    ensures { home tree.now (ratio_pairs (trade_ratio ratio.now)) ≡ Some result }
{
    let Some(home) = tree.home(&ratio.event()) else {
        unreachable!()
    };
    home
}

/// The home of a pair.
pub(crate) fn home_of_pair(tree: &Tree, pair: Pair) -> u32
    requires { is_some (home tree.now (pair ∷ [])) ≡ true }
    ensures { home tree.now (pair ∷ []) ≡ Some result }
{
    let Some(home) = tree.pair_home(pair) else {
        unreachable!()
    };
    home
}
