//! The most that the operator can lose.
ghost use Rattle.std.specs.Prelude.{ℕ, ◌<◌, ◌≤◌, List, IsSomeAnd};
ghost use Rattle.mk_answers.specs.Below.{max_points_per_bit, number_limit, Entry, initial_total};
ghost use Rattle.mk_answers.specs.Below.{least_weight, CoversBound, GivenTree, Meaning, rows_of};
ghost use Rattle.mk_answers.specs.Open.{IsOpen};
ghost use Rattle.mk_answers.specs.Calls.{CanFindBound};

use crate::found::enclosure_of;
use mk_cash::bound;
use mk_engine::Engine;
use mk_net::{Event, Network};
use mk_semiring::MinProd;
use mk_tree::ROOT;

/// Bounds on the most that the operator can lose, in points: the cash of one over the least initial probability of a possible
/// state, by an engine that has the initial weights. It leaves what the engine stands for as it was.
pub fn bound_of<A: Engine<MinProd>>(rows: &mut A, net: &Network, points_per_bit: u32) -> (u64, u64)
    requires some_points { 1 ≤ points_per_bit }
    requires few_points { points_per_bit ≤ max_points_per_bit }
    requires rows { CanFindBound A.stands_for rows.old net.now }
    ensures kept { (m : Meaning) → A.stands_for rows.old m → A.stands_for rows.new m }
    ensures covers { (tree : GivenTree) (H : List Entry) → A.stands_for rows.old (rows_of net.now tree H) → IsOpen net.now tree H
        → IsSomeAnd (least_weight net.now H) (λ least. CoversBound (initial_total net.now) least points_per_bit result.0 result.1) }
    ensures low_fits { result.0 < number_limit }
    ensures high_fits { result.1 < number_limit }
{
    let least = enclosure_of(&rows.belief(ROOT, &Event::empty()));
    bound(&least, net.variables(), points_per_bit)
}
