//! What is told of every value of a variable: its price, and what a user is sure of where it comes.
ghost use Rattle.std.specs.Prelude.{◌≡◌, ◌≤◌, ℕ, List, length};
ghost use Rattle.mk_answers.specs.Below.{max_points_per_bit, Entry, trades, IsSound, GivenTree};
ghost use Rattle.mk_answers.specs.Below.{Meaning, weights_of, Holding, Owns, spread_in};
ghost use Rattle.mk_answers.specs.Open.{IsOpen, CanBeSpreadHere, holding_of};
ghost use Rattle.mk_answers.specs.Telling.{ArePricesFor, IsPositionFor, IsSureAt};
ghost use Rattle.mk_answers.specs.Telling.{CanTellPrices, CanTellPosition};
ghost use Rattle.mk_answers.specs.inner.Found.{CanBeValuedHere, CanFindSure};

use crate::price::price_of;
use crate::spread::question_at;
use arrayvec::ArrayVec;
use mk_assets::Assets;
use mk_cash::cash;
use mk_engine::Engine;
use mk_net::{Network, Question};
use mk_quote::SpreadQuestion;
use mk_semiring::{MinProd, SumProd};

/// Bounds on the price of each value of a variable under a condition, in units of 10^-10 and in the
/// order of the values, asked in a clique that holds them: each as `price_of` gives it. None where
/// the condition cannot come. It leaves what the engine stands for as it was.
pub fn prices_of<P: Engine<SumProd>>(
    prices: &mut P,
    net: &Network,
    at: u32,
    asked: &SpreadQuestion,
) -> Option<ArrayVec<(u64, u64), 16>>
    requires { CanTellPrices P.stands_for prices.old net.now at (spread_in asked.now) }
    ensures kept { (m : Meaning) → P.stands_for prices.old m → P.stands_for prices.new m }
    ensures prices { (tree : GivenTree) (H : List Entry) (most_trades : ℕ)
        → P.stands_for prices.old (weights_of net.now tree H) → IsOpen net.now tree H
        → length (trades H) ≤ most_trades → CanBeSpreadHere net.now tree H (spread_in asked.now)
        → ArePricesFor net.now H most_trades (spread_in asked.now) result }
{
    let mut intervals = ArrayVec::new();
    for value in 0..net.values(asked.variable) {
        let question = question_at(asked, value);
        match price_of(prices, net, at, &question) {
            Some(ends) => intervals.push(ends),
            None => return None,
        }
    }
    Some(intervals)
}

/// For each value of a variable bounds on what a user is sure of where it comes and a condition
/// holds, in points: the cash of the least factor there, and none for a value that cannot come.
/// None at all where the condition cannot come. All is asked in a clique that holds the values with
/// the condition. Where the history isn't sound, nothing is said of the points. It leaves what the
/// assets stand for as it was.
pub fn position_of<A: Engine<MinProd>>(
    assets: &mut Assets<A>,
    net: &Network,
    at: u32,
    asked: &SpreadQuestion,
    points_per_bit: u32,
) -> Option<ArrayVec<Option<(u64, u64)>, 16>>
    requires some_points { 1 ≤ points_per_bit }
    requires few_points { points_per_bit ≤ max_points_per_bit }
    requires assets { CanTellPosition A.stands_for assets.old net.now at (spread_in asked.now) }
    ensures kept_assets { (h : Holding) → Owns A.stands_for assets.old h
        → Owns A.stands_for assets.new h }
    ensures position { (tree : GivenTree) (H : List Entry) (most_trades u : ℕ)
        → Owns A.stands_for assets.old (holding_of net.now tree H u) → IsOpen net.now tree H
        → length (trades H) ≤ most_trades → CanBeSpreadHere net.now tree H (spread_in asked.now)
        → IsPositionFor net.now H most_trades u points_per_bit (spread_in asked.now) result }
{
    let Some(_) = assets.least(at, &asked.condition) else {
        return None;
    };
    let mut intervals = ArrayVec::new();
    for value in 0..net.values(asked.variable) {
        let question = question_at(asked, value);
        intervals.push(sure_of(assets, net, at, &question, points_per_bit));
    }
    Some(intervals)
}

/// Bounds on the cash of a user's least factor where the target of a question comes. None where it
/// cannot come. It leaves what the assets stand for as it was.
fn sure_of<A: Engine<MinProd>>(
    assets: &mut Assets<A>,
    net: &Network,
    at: u32,
    asked: &Question,
    points_per_bit: u32,
) -> Option<(u64, u64)>
    requires some_points { 1 ≤ points_per_bit }
    requires few_points { points_per_bit ≤ max_points_per_bit }
    requires assets { CanFindSure A.stands_for assets.old net.now at asked.now }
    ensures kept_assets { (h : Holding) → Owns A.stands_for assets.old h
        → Owns A.stands_for assets.new h }
    ensures sure { (tree : GivenTree) (H : List Entry) (most_trades u : ℕ)
        → Owns A.stands_for assets.old (holding_of net.now tree H u) → IsOpen net.now tree H
        → length (trades H) ≤ most_trades → IsSound net.now H
        → IsSureAt net.now H most_trades u points_per_bit asked.now result }
{
    match assets.least(at, &asked.event()) {
        None => None,
        Some(factor) => Some(cash(&factor, points_per_bit)),
    }
}
