//! The bounds by which an edit of a whole distribution is judged.
ghost use Rattle.std.specs.Prelude.{◌≡◌, ◌≤◌, ℕ, List, length};
ghost use Rattle.mk_answers.specs.Below.{max_values, Entry, asked_of, GivenTree, Meaning};
ghost use Rattle.mk_answers.specs.Below.{weights_of, gains_of, Holding, Owns, spread_in};
ghost use Rattle.mk_answers.specs.Open.{IsOpen, CanBeSpreadHere, holding_of};
ghost use Rattle.mk_answers.specs.Calls.{CanBoundSpread};
ghost use Rattle.mk_answers.specs.Results.{AreSpreadSidesFor};
ghost use Rattle.mk_answers.specs.Evidence.{AreSpreadSidesBounded};
ghost use Rattle.mk_answers.specs.inner.Found.{IsValueFound, IsValueCounted, IsValueGraded};
ghost use Rattle.mk_answers.specs.inner.Found.{CanFindValue};
ghost use Rattle.mk_answers.specs.inner.Alone.{alone_in};

use crate::found::factor_of;
use arrayvec::ArrayVec;
use mk_assets::Assets;
use mk_engine::Engine;
use mk_net::{Network, Pair, Question};
use mk_quote::{SpreadBounds, SpreadQuestion, ValueBounds};
use mk_semiring::{Held, MinProd, SumProd};

/// The sides of all values of a variable in a market in use.
#[derive(Debug, Drop)]
pub enum SpreadSides {
    /// Two values can come where the condition holds: the bounds of each that can.
    Open(SpreadBounds),
    /// The condition cannot come.
    Impossible,
    /// This value alone can come where the condition holds.
    Sure(u32),
}

/// The sides of a question about every value of a variable, for a user, asked in a clique that
/// holds it: their bounds enclose them, and are exact in the small case. It leaves what the engine
/// and the assets stand for as it was.
pub fn spread_bounds_of<P: Engine<SumProd>, A: Engine<MinProd>>(
    prices: &mut P,
    assets: &mut Assets<A>,
    net: &Network,
    at: u32,
    asked: &SpreadQuestion,
) -> SpreadSides
    requires { CanBoundSpread P.stands_for A.stands_for prices.old assets.old net.now at
        (spread_in asked.now) }
    ensures kept { (m : Meaning) → P.stands_for prices.old m → P.stands_for prices.new m }
    ensures kept_assets { (h : Holding) → Owns A.stands_for assets.old h → Owns A.stands_for assets.new h }
    ensures sides { (tree : GivenTree) (H : List Entry) (u : ℕ)
        → P.stands_for prices.old (weights_of net.now tree H) → Owns A.stands_for assets.old (holding_of net.now tree H u)
        → IsOpen net.now tree H → CanBeSpreadHere net.now tree H (spread_in asked.now) → AreSpreadSidesFor net.now H u (spread_in asked.now) result }
    ensures bounded { (tree : GivenTree) (H : List Entry) (u most : ℕ)
        → P.stands_for prices.old (weights_of net.now tree H)
        → Owns A.stands_for assets.old (holding_of net.now tree H u) → IsOpen net.now tree H
        → CanBeSpreadHere net.now tree H (spread_in asked.now)
        → P.grade_of (weights_of net.now tree H) ≤ most
        → A.grade_of (gains_of net.now tree H u) ≤ most
        → AreSpreadSidesBounded most net.now H u (spread_in asked.now) result }
{
    let Held::Present(whole) = prices.belief(at, &asked.condition) else {
        return SpreadSides::Impossible;
    };
    let mut parts = ArrayVec::new();
    for value in 0..net.values(asked.variable) {
        let question = question_at(asked, value);
        parts.push(value_bounds_of(prices, assets, net, at, &question));
    }
    match alone(parts.as_slice()) {
        Some(value) => SpreadSides::Sure(value),
        None => SpreadSides::Open(SpreadBounds { whole, parts }),
    }
}

/// The one place that has bounds, where no other has.
fn alone(parts: &[Option<ValueBounds>]) -> Option<u32>
    requires { length parts.now ≤ max_values }
    ensures { result ≡ alone_in parts.now }
{
    let mut found = None;
    for (place, part) in parts.iter().enumerate() {
        if part.is_some() {
            if found.is_some() {
                return None;
            }
            found = Some(place as u32);
        }
    }
    found
}

/// The question about one value, which counts from 0.
pub(crate) fn question_at(asked: &SpreadQuestion, value: u32) -> Question
    ensures { result ≡ asked_of (spread_in asked.now) value }
{
    let target = Pair {
        variable: asked.variable,
        value,
    };
    match Question::make(target, asked.condition) {
        None => unreachable!(),
        Some(question) => question,
    }
}

/// The bounds of the value that a question asks about: on the weight of the states where its target and its condition
/// hold, and on the user's least factor over them. None where it cannot come. It leaves what the engine and the assets stand for
/// as it was.
fn value_bounds_of<P: Engine<SumProd>, A: Engine<MinProd>>(
    prices: &mut P,
    assets: &mut Assets<A>,
    net: &Network,
    at: u32,
    asked: &Question,
) -> Option<ValueBounds>
    requires { CanFindValue P.stands_for A.stands_for prices.old assets.old net.now at asked.now }
    ensures kept { (m : Meaning) → P.stands_for prices.old m → P.stands_for prices.new m }
    ensures kept_assets { (h : Holding) → Owns A.stands_for assets.old h → Owns A.stands_for assets.new h }
    ensures found { (tree : GivenTree) (H : List Entry) (u : ℕ)
        → P.stands_for prices.old (weights_of net.now tree H) → Owns A.stands_for assets.old (holding_of net.now tree H u)
        → IsOpen net.now tree H → IsValueFound net.now H u asked.now result }
    ensures counted { (tree : GivenTree) (H : List Entry) (u : ℕ)
        → Owns A.stands_for assets.old (holding_of net.now tree H u) → IsOpen net.now tree H
        → IsValueCounted H u result }
    ensures graded { (m : Meaning) (h : Holding) (most : ℕ) → P.stands_for prices.old m
        → Owns A.stands_for assets.old h → P.grade_of m ≤ most → A.grade_of h.meaning ≤ most
        → IsValueGraded most result }
{
    let event = asked.event();
    match prices.belief(at, &event) {
        Held::Absent => None,
        Held::Present(part) => Some(ValueBounds {
            part,
            factor: factor_of(assets.least(at, &event)),
        }),
    }
}
