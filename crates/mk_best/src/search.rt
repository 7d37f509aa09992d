//! The search for a best state.
ghost use Rattle.std.specs.Prelude.{◌≡◌, ℕ, ◌≤◌, List, length, IfOk};
ghost use Rattle.mk_best.specs.Below.{max_market_trades, Variable, Entry, trades, weights_of};
ghost use Rattle.mk_best.specs.inner.Engines.{learned};
ghost use Rattle.mk_best.specs.inner.Picks.{CanSearch, AreFound};

use crate::known::know_all;
use crate::picks::best_value;
use mk_engine::Engine;
use mk_net::{Network, NoMemory, Pair};
use mk_semiring::MaxProd;
use mk_tree::Tree;
use std::alloc::Global;

/// One pair for each variable, each of which becomes known before the next is chosen.
pub(crate) fn best_pairs<E: Engine<MaxProd>>(
    alloc: Global,
    engine: &mut E,
    net: &Network,
    tree: &Tree,
) -> Result<Vec<Pair>, NoMemory>
    requires { CanSearch E.stands_for engine.old net.now tree.now }
    ensures learned { IfOk result (λ pairs. (H : List Entry)
        → E.stands_for engine.old (weights_of net.now tree.now H)
        → E.stands_for engine.new (weights_of net.now tree.now (learned H pairs.items))) }
    ensures found { IfOk result (λ pairs. (H : List Entry)
        → E.stands_for engine.old (weights_of net.now tree.now H)
        → length (trades H) ≤ max_market_trades
        → AreFound net.now H (length net.now) pairs.items) }
{
    let mut pairs = Vec::new(alloc);
    for variable in 0..net.variables() {
        let value = best_value(engine, net, tree, variable);
        let pair = Pair { variable, value };
        know_all::<MaxProd, E>(engine, tree, &[pair]);
        pairs.push(pair)?;
    }
    Ok(pairs)
}
