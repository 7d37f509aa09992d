//! The rows of a network alone, and what is known of them.
ghost use Rattle.std.specs.Prelude.{◌≡◌, List, IfOk};
ghost use Rattle.mk_replay.specs.Below.{Entry, resolutions, IsTreeOf, Meaning, ArePairsOf, rows_of};
ghost use Rattle.mk_replay.specs.Known.{CanKnowAll, with_all_known};

use crate::engines::weighed;
use crate::homes::home_of_pair;
use mk_engine::Engine;
use mk_net::{Network, NoMemory, Pair};
use mk_semiring::Semiring;
use mk_tree::Tree;
use std::alloc::Global;

/// An engine with the rows of each variable, once, that knows these pairs, from a plan that is
/// there: it stands for the initial weights after each history that resolved them. All memory that
/// it takes it gives back with the engine.
pub fn rows_after<R: Semiring, E: Engine<R>>(
    alloc: Global,
    net: &Network,
    tree: &Tree,
    plan: &E::Plan,
    known: &[Pair],
) -> Result<E, NoMemory>
    requires tree { IsTreeOf net.now tree.now }
    requires plan { E.plan_for plan.now net.now tree.now }
    requires known { ArePairsOf net.now known.now }
    ensures { IfOk result (λ engine. (H : List Entry) → resolutions H ≡ known.now
        → E.stands_for engine (rows_of net.now tree.now H)) }
{
    let mut engine = weighed::<R, E>(alloc, net, plan)?;
    know_all::<R, E>(&mut engine, tree, known);
    Ok(engine)
}

/// The engine learns each of the pairs, in their order.
pub fn know_all<R: Semiring, E: Engine<R>>(engine: &mut E, tree: &Tree, pairs: &[Pair])
    requires { CanKnowAll E.stands_for engine.old tree.now pairs.now }
    ensures { (m : Meaning) → E.stands_for engine.old m
        → E.stands_for engine.new (with_all_known pairs.now m) }
{
    for pair in pairs {
        engine.know(home_of_pair(tree, *pair), *pair);
    }
}
