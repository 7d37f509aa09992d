//! The engine of a history.
ghost use Rattle.std.specs.Prelude.{IfOk};
ghost use Rattle.mk_best.specs.Below.{IsNetwork, IsTreeOf, weights_of, IsPlaced};

use mk_engine::Engine;
use mk_net::{Network, NoMemory};
use mk_record::Journal;
use mk_semiring::Semiring;
use mk_tree::Tree;
use std::alloc::Global;

/// An engine that has taken each entry of a history: it stands for the weights after it. Its plan
/// is made here. All memory that it takes it gives back with the engine.
pub fn engine_after<R: Semiring, E: Engine<R>>(
    alloc: Global,
    net: &Network,
    tree: &Tree,
    history: &Journal,
) -> Result<E, NoMemory>
    requires suits { E.suits net.now tree.now }
    requires tree { IsTreeOf net.now tree.now }
    requires history { IsPlaced net.now tree.now history.now.history }
    ensures stands { IfOk result (λ engine. E.stands_for engine
        (weights_of net.now tree.now history.now.history)) }
    ensures network { IfOk result (λ _. IsNetwork net.now) }
{
    let plan = E::plan(alloc, net, tree)?;
    mk_replay::engine_after::<R, E>(alloc, net, tree, &plan, history)
}
