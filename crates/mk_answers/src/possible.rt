//! What can come.
ghost use Rattle.std.specs.Prelude.{◌≡◌, ◌<◌, [], List, length, IfSome};
ghost use Rattle.mk_answers.specs.Below.{Variable, Entry, GivenTree, Meaning, weights_of};
ghost use Rattle.mk_answers.specs.Open.{IsOpen};
ghost use Rattle.mk_answers.specs.Calls.{CanSearch};
ghost use Rattle.mk_answers.specs.Results.{first_impossible};

use mk_engine::Engine;
use mk_net::{Event, Pair};
use mk_semiring::{Held, SumProd};

/// The place of the first pair of an event with which, beside those before it, no possible state is
/// left. None where some state has all of them. It asks one belief a pair, in a clique that holds
/// the event, and leaves what the engine stands for as it was.
pub fn first_impossible<P: Engine<SumProd>>(prices: &mut P, at: u32, event: &Event) -> Option<usize>
    requires { CanSearch P.stands_for prices.old at event.now }
    ensures kept { (m : Meaning) → P.stands_for prices.old m → P.stands_for prices.new m }
    ensures first { (network : List Variable) (tree : GivenTree) (H : List Entry) → P.stands_for prices.old (weights_of network tree H)
        → IsOpen network tree H → result ≡ first_impossible network H [] event.now }
    ensures within { IfSome result (λ place. place < length event.now) }
{
    let mut held = Event::empty();
    for (place, pair) in event.pairs().iter().enumerate() {
        let Some(longer) = held.with(*pair) else {
            unreachable!()
        };
        held = longer;
        if let Held::Absent = prices.belief(at, &held) {
            return Some(place);
        }
    }
    None
}
