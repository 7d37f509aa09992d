//! Engines of a history.
ghost use Rattle.std.specs.Prelude.{[], IfOk};
ghost use Rattle.mk_replay.specs.Below.{IsNetwork, IsTreeOf, GivenTree, Meaning, weights_of};
ghost use Rattle.mk_replay.specs.Below.{rows_of, grown, change_of};
ghost use Rattle.mk_replay.specs.Placed.{IsPlaced};
ghost use Rattle.mk_replay.specs.inner.Taking.{CanTake};

use crate::homes::{home_of_pair, home_of_trade};
use mk_engine::Engine;
use mk_history::Entry;
use mk_net::{Network, NoMemory};
use mk_record::Journal;
use mk_semiring::Semiring;
use mk_tree::Tree;
use std::alloc::Global;

/// An engine that has taken each entry of a history, from a plan that is there: it stands for the
/// weights after it. All memory that it takes it gives back with the engine.
pub fn engine_after<R: Semiring, E: Engine<R>>(
    alloc: Global,
    net: &Network,
    tree: &Tree,
    plan: &E::Plan,
    history: &Journal,
) -> Result<E, NoMemory>
    requires tree { IsTreeOf net.now tree.now }
    requires plan { E.plan_for plan.now net.now tree.now }
    requires history { IsPlaced net.now tree.now history.now.history }
    ensures stands { IfOk result (λ engine. E.stands_for engine
        (weights_of net.now tree.now history.now.history)) }
    ensures network { IfOk result (λ _. IsNetwork net.now) }
{
    let mut engine = weighed::<R, E>(alloc, net, plan)?;
    for number in 0..history.length() {
        let entry = history.entry(number);
        take::<R, E>(&mut engine, tree, &entry);
    }
    Ok(engine)
}

/// An engine with the rows of each variable, once, before any entry.
pub(crate) fn weighed<R: Semiring, E: Engine<R>>(
    alloc: Global,
    net: &Network,
    plan: &E::Plan,
) -> Result<E, NoMemory>
    requires { (tree : GivenTree) × E.plan_for plan.now net.now tree }
    ensures stands { IfOk result (λ engine. (tree : GivenTree)
        → E.plan_for plan.now net.now tree → E.stands_for engine (rows_of net.now tree [])) }
    ensures network { IfOk result (λ _. IsNetwork net.now) }
{
    let mut engine = E::start(alloc, plan)?;
    for variable in 0..net.variables() {
        engine.weigh(net, variable);
    }
    Ok(engine)
}

/// The engine takes one entry: a trade multiplies the weights, a resolution is known, and nothing
/// else changes them.
fn take<R: Semiring, E: Engine<R>>(engine: &mut E, tree: &Tree, entry: &Entry<'_>)
    requires { CanTake E.stands_for engine.old tree.now (change_of entry.now) }
    ensures { (m : Meaning) → E.stands_for engine.old m
        → E.stands_for engine.new (grown (change_of entry.now) m) }
{
    match entry {
        Entry::Trade { ratio, .. } => engine.multiply(home_of_trade(tree, ratio), ratio),
        Entry::Resolve { pair } => engine.know(home_of_pair(tree, *pair), *pair),
        Entry::Join { .. }
        | Entry::Deposit { .. }
        | Entry::Withdraw { .. }
        | Entry::Settle { .. }
        | Entry::Add { .. } => {}
    }
}
