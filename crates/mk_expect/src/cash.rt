//! The cash that a user may expect to have.
ghost use Rattle.std.specs.Prelude.{ℕ, ◌^◌, ◌≤◌, List, IfOk};
ghost use Rattle.mk_expect.specs.Below.{max_points_per_bit, Variable, IsNetwork, IsTreeOf};
ghost use Rattle.mk_expect.specs.Below.{weights_of, IsPlaced};
ghost use Rattle.mk_expect.specs.Expectation.{CoversExpectation, HasFewBits};
ghost use Rattle.mk_expect.specs.inner.Added.{AddsAll};
ghost use Rattle.mk_expect.specs.inner.Tallies.{IsWithin};
ghost use Rattle.mk_expect.specs.inner.Shares.{CanExpect};

use crate::entries::entries_tally;
use crate::points::points_of;
use crate::tally::Tally;
use mk_best::engine_after;
use mk_engine::Engine;
use mk_net::{Event, Network, NoMemory};
use mk_record::Journal;
use mk_semiring::{Held, SumProd};
use mk_tree::{ROOT, Tree};
use mk_tree_engine::TreeEngine;
use std::alloc::Global;

/// Bounds on the points that a user may expect to have after a history, at so many points a bit: by
/// the weights of the possible states, what was deposited less what was withdrawn, and what the
/// user's trades are worth. Both may be negative. All memory that it takes it gives back.
pub fn expect(
    alloc: Global,
    net: &Network,
    tree: &Tree,
    history: &Journal,
    points_per_bit: u32,
    user: u32,
) -> Result<(i64, i64), NoMemory>
    requires tree { IsTreeOf net.now tree.now }
    requires history { IsPlaced net.now tree.now history.now.history }
    requires few_points { points_per_bit ≤ max_points_per_bit }
    requires few_bits { HasFewBits history.now.history user }
    ensures { IfOk result (λ points. CoversExpectation net.now history.now.history
        points_per_bit user points.0 points.1) }
{
    expect_by::<TreeEngine<SumProd>>(alloc, net, tree, history, points_per_bit, user)
}

/// The same by any engine of sums.
pub fn expect_by<E: Engine<SumProd>>(
    alloc: Global,
    net: &Network,
    tree: &Tree,
    history: &Journal,
    points_per_bit: u32,
    user: u32,
) -> Result<(i64, i64), NoMemory>
    requires suits { E.suits net.now tree.now }
    requires tree { IsTreeOf net.now tree.now }
    requires history { IsPlaced net.now tree.now history.now.history }
    requires few_points { points_per_bit ≤ max_points_per_bit }
    requires few_bits { HasFewBits history.now.history user }
    ensures { IfOk result (λ points. CoversExpectation net.now history.now.history
        points_per_bit user points.0 points.1) }
{
    let mut engine = engine_after::<SumProd, E>(alloc, net, tree, history)?;
    let tally = history_tally(&mut engine, tree, history, user);
    Ok(points_of(&tally, points_per_bit))
}

/// The tally of a user's entries, asked of an engine that has the weights after all of them.
fn history_tally<E: Engine<SumProd>>(
    engine: &mut E,
    tree: &Tree,
    history: &Journal,
    user: u32,
) -> Tally
    requires { CanExpect E.stands_for engine.old tree.now history.now.history user }
    ensures adds { (network : List Variable) → IsNetwork network
        → E.stands_for engine.old (weights_of network tree.now history.now.history)
        → AddsAll network history.now.history user result }
    ensures small { IsWithin result (2 ^ 86) (2 ^ 86) }
{
    let Held::Present(whole) = engine.belief(ROOT, &Event::empty()) else {
        unreachable!()
    };
    entries_tally(engine, tree, history, user, &whole)
}
