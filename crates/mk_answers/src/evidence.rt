//! What a judge of printed numbers asks: enclosures of the exact ones, before they are rounded.
ghost use Rattle.std.specs.Prelude.{◌≡◌, ℕ, ◌+◌, ◌≤◌, List, IfSome};
ghost use Rattle.mk_answers.specs.Below.{with_target, Entry, IsProper, widest_grade, GivenTree};
ghost use Rattle.mk_answers.specs.Below.{Meaning, weights_of, rows_of, Holding, Owns, Asked};
ghost use Rattle.mk_answers.specs.Below.{Variable, IsNetwork, spread_in, HasHeldGrade, gains_of};
ghost use Rattle.mk_answers.specs.Open.{IsOpen, CanBeAnswered, CanBeSpreadHere, holding_of};
ghost use Rattle.mk_answers.specs.Calls.{CanPrice, CanFindBound};
ghost use Rattle.mk_answers.specs.Evidence.{IsPriceBounded, AreSureFactors, IsSureFactor};
ghost use Rattle.mk_answers.specs.Evidence.{ArePricesBounded, ArePriceGraded, IsLeastWeight};
ghost use Rattle.mk_answers.specs.Evidence.{grade_together};
ghost use Rattle.mk_answers.specs.Telling.{CanTellPrices, CanTellPosition};
ghost use Rattle.mk_answers.specs.inner.Found.{AreSidesIn, HasSides, CanFindSure};

use crate::found::enclosure_of;
use crate::spread::question_at;
use arrayvec::ArrayVec;
use mk_assets::Assets;
use mk_enclose::{Enclosure, Factor};
use mk_engine::{Engine, belief_of_others};
use mk_judge::PriceBounds;
use mk_net::{Event, Network, Question};
use mk_quote::SpreadQuestion;
use mk_semiring::{Held, MinProd, SumProd};
use mk_tree::ROOT;

/// The bounds of a question's price: those that `price_of` makes an interval of. None where the
/// condition cannot come. It asks the same beliefs in the same order, and leaves what the engine
/// stands for as it was.
pub fn price_bounds_of<P: Engine<SumProd>>(
    prices: &mut P,
    net: &Network,
    at: u32,
    asked: &Question,
) -> Option<PriceBounds>
    requires { CanPrice P.stands_for prices.old net.now at asked.now }
    ensures kept { (m : Meaning) → P.stands_for prices.old m → P.stands_for prices.new m }
    ensures bounds { (tree : GivenTree) (H : List Entry) (most : ℕ)
        → P.stands_for prices.old (weights_of net.now tree H) → IsOpen net.now tree H
        → CanBeAnswered net.now tree H asked.now
        → grade_together (P.grade_of (weights_of net.now tree H)) ≤ most
        → IsPriceBounded most net.now H asked.now result }
{
    let part = prices.belief(at, &asked.event());
    let condition = asked.condition();
    let values = net.values(asked.target().variable);
    if !net.with_zeros().is_empty() || (values == 2 && !condition.pairs().is_empty()) {
        let rest = belief_of_others::<SumProd, P>(prices, at, asked, values);
        return bounds_of_beliefs(&part, &rest);
    }
    let whole = prices.belief(at, &condition);
    Some(PriceBounds::Between {
        part: enclosure_of(&part),
        whole: enclosure_of(&whole),
    })
}

/// The bounds of a price from the beliefs in a question's target and in its other values.
fn bounds_of_beliefs(part: &Held, rest: &Held) -> Option<PriceBounds>
    requires { HasSides part.now rest.now }
    ensures bounds { (network : List Variable) (H : List Entry) (asked : Asked) → IsNetwork network
        → IsProper network H → AreSidesIn network H asked part.now rest.now
        → IsPriceBounded widest_grade network H asked result }
    ensures graded { (g most : ℕ) → HasHeldGrade part.now g → HasHeldGrade rest.now g
        → g + 1 ≤ most → IfSome result (ArePriceGraded most) }
{
    match (part, rest) {
        (Held::Absent, Held::Absent) => None,
        (Held::Absent, Held::Present(_)) => Some(PriceBounds::Never),
        (Held::Present(_), Held::Absent) => Some(PriceBounds::Always),
        (Held::Present(part), Held::Present(rest)) => Some(PriceBounds::Between {
            part: *part,
            whole: part.add(rest),
        }),
    }
}

/// The bounds of the price of each value of a variable under a condition, in order: each as
/// `price_bounds_of` gives them, and so Some, asked in a clique that holds them. None at all where
/// the condition cannot come. It leaves what the engine stands for as it was.
pub fn value_price_bounds_of<P: Engine<SumProd>>(
    prices: &mut P,
    net: &Network,
    at: u32,
    asked: &SpreadQuestion,
) -> Option<ArrayVec<Option<PriceBounds>, 16>>
    requires { CanTellPrices P.stands_for prices.old net.now at (spread_in asked.now) }
    ensures kept { (m : Meaning) → P.stands_for prices.old m → P.stands_for prices.new m }
    ensures bounds { (tree : GivenTree) (H : List Entry) (most : ℕ)
        → P.stands_for prices.old (weights_of net.now tree H) → IsOpen net.now tree H
        → CanBeSpreadHere net.now tree H (spread_in asked.now)
        → grade_together (P.grade_of (weights_of net.now tree H)) ≤ most
        → ArePricesBounded most net.now H (spread_in asked.now) result }
{
    let mut parts = ArrayVec::new();
    for value in 0..net.values(asked.variable) {
        let question = question_at(asked, value);
        match price_bounds_of(prices, net, at, &question) {
            Some(bounds) => parts.push(Some(bounds)),
            None => return None,
        }
    }
    Some(parts)
}

/// For each value of a variable a user's least factor where it comes and a condition holds, and
/// none for a value that cannot come. None at all where the condition cannot come. All is asked in
/// a clique that holds the values with the condition. It leaves what the assets stand for as it
/// was.
pub fn sure_factors_of<A: Engine<MinProd>>(
    assets: &mut Assets<A>,
    net: &Network,
    at: u32,
    asked: &SpreadQuestion,
) -> Option<ArrayVec<Option<Factor>, 16>>
    requires { CanTellPosition A.stands_for assets.old net.now at (spread_in asked.now) }
    ensures kept_assets { (h : Holding) → Owns A.stands_for assets.old h
        → Owns A.stands_for assets.new h }
    ensures factors { (tree : GivenTree) (H : List Entry) (u most : ℕ)
        → Owns A.stands_for assets.old (holding_of net.now tree H u) → IsOpen net.now tree H
        → CanBeSpreadHere net.now tree H (spread_in asked.now)
        → A.grade_of (gains_of net.now tree H u) ≤ most
        → AreSureFactors most net.now H u (spread_in asked.now) result }
{
    let Some(_) = assets.least(at, &asked.condition) else {
        return None;
    };
    let mut factors = ArrayVec::new();
    for value in 0..net.values(asked.variable) {
        let question = question_at(asked, value);
        factors.push(sure_factor_of(assets, net, at, &question));
    }
    Some(factors)
}

/// A user's least factor where the target of a question comes. None where it cannot come. It leaves
/// what the assets stand for as it was.
fn sure_factor_of<A: Engine<MinProd>>(
    assets: &mut Assets<A>,
    net: &Network,
    at: u32,
    asked: &Question,
) -> Option<Factor>
    requires { CanFindSure A.stands_for assets.old net.now at asked.now }
    ensures kept_assets { (h : Holding) → Owns A.stands_for assets.old h
        → Owns A.stands_for assets.new h }
    ensures factor { (tree : GivenTree) (H : List Entry) (u most : ℕ)
        → Owns A.stands_for assets.old (holding_of net.now tree H u) → IsOpen net.now tree H
        → A.grade_of (gains_of net.now tree H u) ≤ most
        → IsSureFactor most net.now H u (with_target asked.now) result }
{
    assets.least(at, &asked.event())
}

/// The least initial weight of the possible states, by an engine that has the initial weights:
/// what `bound_of` makes an interval of. It leaves what the engine stands for as it was.
pub fn least_weight_of<A: Engine<MinProd>>(rows: &mut A, net: &Network) -> Enclosure
    requires { CanFindBound A.stands_for rows.old net.now }
    ensures kept { (m : Meaning) → A.stands_for rows.old m → A.stands_for rows.new m }
    ensures least { (tree : GivenTree) (H : List Entry) (most : ℕ)
        → A.stands_for rows.old (rows_of net.now tree H) → IsOpen net.now tree H
        → A.grade_of (rows_of net.now tree H) ≤ most → IsLeastWeight most net.now H result }
{
    enclosure_of(&rows.belief(ROOT, &Event::empty()))
}
