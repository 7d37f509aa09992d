//! The home of a pair.

ghost use Rattle.std.specs.Prelude.{◌≡◌, [], ◌∷◌, true, is_some, Some};
ghost use Rattle.mk_tree.specs.Given.{home};

use mk_file::MarketFile;
use mk_net::Pair;

/// The home of a pair of the network.
pub fn home_of(file: &MarketFile, pair: Pair) -> u32
    requires { is_some (home file.now.tree (pair ∷ [])) ≡ true }
    ensures { home file.now.tree (pair ∷ []) ≡ Some result }
{
    let Some(home) = file.tree.pair_home(pair) else {
        unreachable!()
    };
    home
}
