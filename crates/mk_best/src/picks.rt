//! The value of a variable with which a best state goes on.
ghost use Rattle.std.specs.Prelude.{◌≡◌, ◌<◌, ◌≤◌, ◌↔◌, List, [], ◌∷◌, length, true};
ghost use Rattle.std.specs.Prelude.{slice_index};
ghost use Rattle.mk_best.specs.Below.{max_market_trades, Variable, IsNetwork, sizes, holds, Entry};
ghost use Rattle.mk_best.specs.Below.{trades, IsSmall, Meaning, weights_of, IsBeliefIn};
ghost use Rattle.mk_best.specs.BestStates.{greatest};
ghost use Rattle.mk_best.specs.inner.Picks.{low_of, CanAskIn, CanSearch, IsPick};

use mk_engine::Engine;
use mk_net::{Event, Network, Pair};
use mk_semiring::{Held, MaxProd};
use mk_tree::Tree;

/// The value of a variable with the greatest lower end of the belief in it, the first of equals. It
/// leaves what the engine stands for as it was.
pub(crate) fn best_value<E: Engine<MaxProd>>(
    engine: &mut E,
    net: &Network,
    tree: &Tree,
    variable: u32,
) -> u32
    requires search { CanSearch E.stands_for engine.old net.now tree.now }
    requires variable { variable < length net.now }
    ensures kept { (m : Meaning) → E.stands_for engine.old m → E.stands_for engine.new m }
    ensures within { result < slice_index (sizes net.now) variable }
    ensures pick { (H : List Entry) → E.stands_for engine.old (weights_of net.now tree.now H)
        → length (trades H) ≤ max_market_trades → IsPick net.now H variable result }
{
    let values = net.values(variable);
    let mut best = 0;
    let mut most = Held::Absent;
    for value in 0..values {
        let belief = belief_in(engine, tree, Pair { variable, value });
        if is_above(&belief, &most) {
            best = value;
            most = belief;
        }
    }
    best
}

/// The belief in one pair. It leaves what the engine stands for as it was.
fn belief_in<E: Engine<MaxProd>>(engine: &mut E, tree: &Tree, pair: Pair) -> Held
    requires { CanAskIn E.stands_for engine.old tree.now pair }
    ensures kept { (m : Meaning) → E.stands_for engine.old m → E.stands_for engine.new m }
    ensures belief { (network : List Variable) (H : List Entry) → IsNetwork network
        → E.stands_for engine.old (weights_of network tree.now H)
        → length (trades H) ≤ max_market_trades
        → IsBeliefIn result (IsSmall network H) (greatest network H (holds (pair ∷ []))) }
{
    let Some(home) = tree.pair_home(pair) else {
        unreachable!()
    };
    engine.belief(home, &alone(pair))
}

/// The event of one pair.
fn alone(pair: Pair) -> Event
    ensures { result ≡ pair ∷ [] }
{
    let Some(event) = Event::empty().with(pair) else {
        unreachable!()
    };
    event
}

/// Whether the lower end of the one belief is above that of the other.
fn is_above(belief: &Held, other: &Held) -> bool
    ensures { (result ≡ true) ↔ (low_of other.now < low_of belief.now) }
{
    match belief {
        Held::Absent => false,
        Held::Present(belief) => match other {
            Held::Absent => true,
            Held::Present(other) => other.lo() < belief.lo(),
        },
    }
}
