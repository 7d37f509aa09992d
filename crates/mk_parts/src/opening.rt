//! The engines of a market at its opening.

ghost use Rattle.std.specs.Prelude.{◌≡◌, [], IfOk};
ghost use Rattle.mk_net.specs.Network.{IsNetwork};
ghost use Rattle.mk_tree.specs.Checked.{IsTreeOf};
ghost use Rattle.mk_beliefs.specs.Meanings.{rows_of};

use mk_engine::Engine;
use mk_file::MarketFile;
use mk_net::NoMemory;
use mk_semiring::Semiring;
use std::alloc::Global;

/// An engine with the rows of each variable, once.
pub fn weighed<R: Semiring, E: Engine<R>>(
    alloc: Global,
    file: &MarketFile,
    plan: &E::Plan,
) -> Result<E, NoMemory>
    requires tree { IsTreeOf file.now.net file.now.tree }
    requires plan { E.plan_for plan.now file.now.net file.now.tree }
    ensures stands { IfOk result (λ engine. E.stands_for engine (rows_of file.now.net file.now.tree [])) }
    ensures network { IfOk result (λ _. IsNetwork file.now.net) }
{
    let mut engine = E::start(alloc, plan)?;
    for variable in 0..file.net.variables() {
        engine.weigh(&file.net, variable);
    }
    Ok(engine)
}
