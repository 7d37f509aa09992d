//! Pairs that nothing but which can come.
ghost use Rattle.std.specs.Prelude.{◌≡◌, ◌≤◌, List, true, false, not, ◌↔◌};
ghost use Rattle.mk_best.specs.Below.{Variable, has, holds, always, Entry, total, Meaning};
ghost use Rattle.mk_best.specs.Below.{weights_of};
ghost use Rattle.mk_best.specs.inner.Engines.{CanAsk, CanAskPair};

use mk_engine::{Engine, belief_of_others};
use mk_net::{Event, Network, Pair, Question};
use mk_semiring::{Held, SumProd};
use mk_tree::Tree;

/// Whether all states that are left have each of the pairs: whether none has another value than
/// that of one of them. It leaves
/// what the engine stands for as it was.
pub(crate) fn are_sure<E: Engine<SumProd>>(
    engine: &mut E,
    net: &Network,
    tree: &Tree,
    pairs: &[Pair],
) -> bool
    requires { CanAsk E.stands_for engine.old net.now tree.now pairs.now }
    ensures kept { (m : Meaning) → E.stands_for engine.old m → E.stands_for engine.new m }
    ensures sure { (H : List Entry) → E.stands_for engine.old (weights_of net.now tree.now H)
        → (result ≡ true) ↔ (total net.now H (holds pairs.now) ≡ total net.now H always) }
{
    for pair in pairs {
        if can_fail(engine, net, tree, *pair) {
            return false;
        }
    }
    true
}

/// Whether some state that is left has another value than that of a pair. It leaves what the engine
/// stands for as it was.
fn can_fail<E: Engine<SumProd>>(engine: &mut E, net: &Network, tree: &Tree, pair: Pair) -> bool
    requires { CanAskPair E.stands_for engine.old net.now tree.now pair }
    ensures kept { (m : Meaning) → E.stands_for engine.old m → E.stands_for engine.new m }
    ensures fails { (H : List Entry) → E.stands_for engine.old (weights_of net.now tree.now H)
        → (result ≡ false) ↔ (total net.now H (λ s. not (has pair s)) ≡ 0) }
{
    let Some(home) = tree.pair_home(pair) else {
        unreachable!()
    };
    let Some(asked) = Question::make(pair, Event::empty()) else {
        unreachable!()
    };
    let values = net.values(pair.variable);
    match belief_of_others::<SumProd, E>(engine, home, &asked, values) {
        Held::Absent => false,
        Held::Present(_) => true,
    }
}
