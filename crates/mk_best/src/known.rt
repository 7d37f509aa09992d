//! Pairs that become known.
ghost use Rattle.std.specs.Prelude.{List};
ghost use Rattle.mk_best.specs.Below.{Variable, Entry, weights_of};
ghost use Rattle.mk_best.specs.inner.Engines.{CanLearn, learned};

use mk_engine::Engine;
use mk_net::Pair;
use mk_semiring::Semiring;
use mk_tree::Tree;

/// The engine learns each of the pairs, as if it were resolved.
pub(crate) fn know_all<R: Semiring, E: Engine<R>>(engine: &mut E, tree: &Tree, pairs: &[Pair])
    requires { CanLearn E.stands_for engine.old tree.now pairs.now }
    ensures { (network : List Variable) (H : List Entry)
        → E.stands_for engine.old (weights_of network tree.now H)
        → E.stands_for engine.new (weights_of network tree.now (learned H pairs.now)) }
{
    mk_replay::know_all::<R, E>(engine, tree, pairs);
}
