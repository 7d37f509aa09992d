//! The bounds by which an edit of a question is judged.
ghost use Rattle.std.specs.Prelude.{◌≡◌, ℕ, ◌+◌, ◌≤◌, List, slice_index};
ghost use Rattle.mk_answers.specs.Below.{max_values, Variable, sizes, Entry, Side, AreSides};
ghost use Rattle.mk_answers.specs.Below.{IsSmall, GivenTree, Meaning, HasGrade, weights_of};
ghost use Rattle.mk_answers.specs.Below.{gains_of, Holding, Owns};
ghost use Rattle.mk_answers.specs.Open.{IsOpen, CanBeAnswered, AreBoundsFor, holding_of};
ghost use Rattle.mk_answers.specs.Calls.{CanBound};
ghost use Rattle.mk_answers.specs.Results.{AreBothLeft, AreSidesFor};
ghost use Rattle.mk_answers.specs.Evidence.{AreSidesBounded, grade_together};
ghost use Rattle.mk_answers.specs.inner.Found.{CanOpen, IsPartFor, IsRestFor, IsCounted};
ghost use Rattle.mk_answers.specs.inner.Found.{AreWeightsGraded, AreGainsGraded};

use crate::found::factor_of;
use mk_assets::Assets;
use mk_enclose::Enclosure;
use mk_engine::{Engine, belief_of_others};
use mk_net::{Network, Question};
use mk_quote::Bounds;
use mk_semiring::{Held, MinProd, SumProd};

/// Both sides of a question in a market in use.
#[derive(Debug)]
pub enum Sides {
    /// The target can come where the condition holds, and so can something else: the bounds of both.
    Open(Bounds),
    /// The condition cannot come.
    Impossible,
    /// The target cannot come where the condition holds.
    Never,
    /// Nothing but the target can come where the condition holds.
    Sure,
}

/// The sides of a question for a user, asked in a clique that holds it: their bounds enclose them,
/// and are exact in the small case. It leaves what the engine and the assets stand for as it was.
pub fn bounds_of<P: Engine<SumProd>, A: Engine<MinProd>>(
    prices: &mut P,
    assets: &mut Assets<A>,
    net: &Network,
    at: u32,
    asked: &Question,
) -> Sides
    requires { CanBound P.stands_for A.stands_for prices.old assets.old net.now at asked.now }
    ensures kept { (m : Meaning) → P.stands_for prices.old m → P.stands_for prices.new m }
    ensures kept_assets { (h : Holding) → Owns A.stands_for assets.old h → Owns A.stands_for assets.new h }
    ensures sides { (tree : GivenTree) (H : List Entry) (u : ℕ)
        → P.stands_for prices.old (weights_of net.now tree H) → Owns A.stands_for assets.old (holding_of net.now tree H u)
        → IsOpen net.now tree H → CanBeAnswered net.now tree H asked.now → AreSidesFor net.now H u asked.now result }
    ensures bounded { (tree : GivenTree) (H : List Entry) (u most : ℕ)
        → P.stands_for prices.old (weights_of net.now tree H)
        → Owns A.stands_for assets.old (holding_of net.now tree H u) → IsOpen net.now tree H
        → CanBeAnswered net.now tree H asked.now
        → grade_together (P.grade_of (weights_of net.now tree H)) ≤ most
        → A.grade_of (gains_of net.now tree H u) + max_values ≤ most
        → AreSidesBounded most net.now H u asked.now result }
{
    let values = net.values(asked.target().variable);
    let hit = prices.belief(at, &asked.event());
    let miss = belief_of_others::<SumProd, P>(prices, at, asked, values);
    match (hit, miss) {
        (Held::Present(hit), Held::Present(miss)) => {
            Sides::Open(open_bounds(assets, at, asked, values, &hit, &miss))
        }
        (Held::Absent, Held::Absent) => Sides::Impossible,
        (Held::Absent, Held::Present(_)) => Sides::Never,
        (Held::Present(_), Held::Absent) => Sides::Sure,
    }
}

/// The bounds of a question both of whose sides can come, from those on their weights, where its variable has so many values. It
/// leaves what the assets stand for as it was.
fn open_bounds<A: Engine<MinProd>>(
    assets: &mut Assets<A>,
    at: u32,
    asked: &Question,
    values: u32,
    hit: &Enclosure,
    miss: &Enclosure,
) -> Bounds
    requires { CanOpen A.stands_for assets.old at asked.now values hit.now miss.now }
    ensures kept_assets { (h : Holding) → Owns A.stands_for assets.old h → Owns A.stands_for assets.new h }
    ensures bounds { (network : List Variable) (tree : GivenTree) (H : List Entry) (u : ℕ) (on_hit on_miss : Side)
        → Owns A.stands_for assets.old (holding_of network tree H u) → IsOpen network tree H → CanBeAnswered network tree H asked.now
        → values ≡ slice_index (sizes network) asked.now.target.variable
        → IsPartFor network H asked.now hit.now → IsRestFor network H asked.now miss.now
        → AreSides network H u asked.now on_hit on_miss → AreBoundsFor result (IsSmall network H) on_hit on_miss }
    ensures hit_counted { (network : List Variable) (tree : GivenTree) (H : List Entry) (u : ℕ)
        → Owns A.stands_for assets.old (holding_of network tree H u) → IsOpen network tree H
        → IsCounted H u result.hit_factor }
    ensures miss_counted { (network : List Variable) (tree : GivenTree) (H : List Entry) (u : ℕ)
        → Owns A.stands_for assets.old (holding_of network tree H u) → IsOpen network tree H
        → values ≡ slice_index (sizes network) asked.now.target.variable
        → IsCounted H u result.miss_factor }
    ensures weights { (g : ℕ) → HasGrade hit.now g → HasGrade miss.now g
        → AreWeightsGraded g result }
    ensures gains { (h : Holding) → Owns A.stands_for assets.old h
        → values ≡ slice_index (sizes h.meaning.network) asked.now.target.variable
        → AreGainsGraded (A.grade_of h.meaning + max_values) result }
{
    let hit_factor = assets.least(at, &asked.event());
    let miss_factor = assets.least_of_others(at, asked, values);
    Bounds {
        hit: *hit,
        miss: *miss,
        whole: hit.add(miss),
        hit_factor: factor_of(hit_factor),
        miss_factor: factor_of(miss_factor),
    }
}
