//! Prices.
ghost use Rattle.std.specs.Prelude.{ℕ, ◌-◌, ◌≤◌, List, length};
ghost use Rattle.mk_answers.specs.Below.{grade_room, Entry, trades, IsProper, GivenTree, Meaning};
ghost use Rattle.mk_answers.specs.Below.{weights_of, Asked, Variable, IsNetwork, HasHeldGrade};
ghost use Rattle.mk_answers.specs.Open.{IsOpen, CanBeAnswered};
ghost use Rattle.mk_answers.specs.Calls.{CanPrice};
ghost use Rattle.mk_answers.specs.Results.{IsPriceFor};
ghost use Rattle.mk_answers.specs.inner.Found.{AreSidesIn, HasSides};

use crate::found::enclosure_of;
use mk_enclose::Enclosure;
use mk_engine::{Engine, belief_of_others};
use mk_names::limits::PRICE_UNIT;
use mk_net::{Network, Question};
use mk_semiring::{Held, SumProd};

/// Bounds on the price of a question, in units of 10^-10: at most two apart. They are the floor and
/// the ceiling in the small case, and else but for a price that is a part in 2^42 from a unit, or
/// one in 2^39 in a market of more than 65,536 trades; and nothing or all of one where the target
/// cannot come or nothing else can. None where the condition cannot come. It leaves what the engine
/// stands for as it was. All is asked in one clique that holds the question, so no message is made
/// for the condition.
///
/// Where the network has shares of nothing it asks for both sides. Elsewhere both can come: of two
/// values the other one's states are half of the condition's, and of more, or without a condition,
/// the condition is asked for.
pub fn price_of<P: Engine<SumProd>>(
    prices: &mut P,
    net: &Network,
    at: u32,
    asked: &Question,
) -> Option<(u64, u64)>
    requires { CanPrice P.stands_for prices.old net.now at asked.now }
    ensures kept { (m : Meaning) → P.stands_for prices.old m → P.stands_for prices.new m }
    ensures price { (tree : GivenTree) (H : List Entry) (most_trades : ℕ)
        → P.stands_for prices.old (weights_of net.now tree H) → IsOpen net.now tree H
        → length (trades H) ≤ most_trades → CanBeAnswered net.now tree H asked.now
        → IsPriceFor net.now H most_trades asked.now result }
{
    let part = prices.belief(at, &asked.event());
    let condition = asked.condition();
    let values = net.values(asked.target().variable);
    if !net.with_zeros().is_empty() || (values == 2 && !condition.pairs().is_empty()) {
        let rest = belief_of_others::<SumProd, P>(prices, at, asked, values);
        return price_of_sides(&part, &rest);
    }
    let whole = prices.belief(at, &condition);
    Some(Enclosure::parts(&enclosure_of(&part), &enclosure_of(&whole), PRICE_UNIT))
}

/// The price of a question from the beliefs in its target and in its other values.
fn price_of_sides(part: &Held, rest: &Held) -> Option<(u64, u64)>
    requires { HasSides part.now rest.now }
    ensures { (network : List Variable) (H : List Entry) (most_trades : ℕ) (asked : Asked)
        → IsNetwork network → IsProper network H → AreSidesIn network H asked part.now rest.now
        → HasHeldGrade part.now (grade_room most_trades - 1)
        → HasHeldGrade rest.now (grade_room most_trades - 1)
        → IsPriceFor network H most_trades asked result }
{
    match (part, rest) {
        (Held::Absent, Held::Absent) => None,
        (Held::Absent, Held::Present(_)) => Some((0, 0)),
        (Held::Present(_), Held::Absent) => Some((PRICE_UNIT, PRICE_UNIT)),
        (Held::Present(part), Held::Present(rest)) => {
            Some(Enclosure::parts(part, &part.add(rest), PRICE_UNIT))
        }
    }
}
