//! Chances.
ghost use Rattle.std.specs.Prelude.{◌≡◌, ℕ, ◌^◌, ◌≤◌, List, [], length, IfOk};
ghost use Rattle.mk_best.specs.Below.{max_market_trades, sharpness, Variable, trades, CoversPrice};
ghost use Rattle.mk_best.specs.Below.{IsSmall, IsTreeOf, ArePairsOf, IsPlaced, weights_of};
ghost use Rattle.mk_exact.specs.History.{Entry as Change};
ghost use Rattle.mk_best.specs.Chances.{IsChance};
ghost use Rattle.mk_best.specs.inner.Engines.{CanAsk, IsLeftFor, ArePartAndWhole, HasPartAndWhole};

use crate::found::Chance;
use crate::history::engine_after;
use crate::known::know_all;
use crate::sure::are_sure;
use mk_enclose::Enclosure;
use mk_engine::Engine;
use mk_names::limits::PRICE_UNIT;
use mk_net::{Event, Network, NoMemory, Pair};
use mk_record::Journal;
use mk_semiring::{Held, SumProd};
use mk_tree::{ROOT, Tree};
use mk_tree_engine::TreeEngine;
use std::alloc::Global;

/// The chance that a possible state that meets `given` meets `want` too, after a history, in units
/// of 10^-10. The pairs need no
/// clique that holds them together, and a variable may stand among them more than once. It is
/// impossible exactly where no possible
/// state meets `given`. All memory that it takes it gives back.
pub fn chance(
    alloc: Global,
    net: &Network,
    tree: &Tree,
    history: &Journal,
    want: &[Pair],
    given: &[Pair],
) -> Result<Chance, NoMemory>
    requires tree { IsTreeOf net.now tree.now }
    requires history { IsPlaced net.now tree.now history.now.history }
    requires want { ArePairsOf net.now want.now }
    requires given { ArePairsOf net.now given.now }
    ensures { IfOk result (IsChance net.now history.now.history want.now given.now) }
{
    chance_by::<TreeEngine<SumProd>>(alloc, net, tree, history, want, given)
}

/// The same by any engine of sums.
pub fn chance_by<E: Engine<SumProd>>(
    alloc: Global,
    net: &Network,
    tree: &Tree,
    history: &Journal,
    want: &[Pair],
    given: &[Pair],
) -> Result<Chance, NoMemory>
    requires suits { E.suits net.now tree.now }
    requires tree { IsTreeOf net.now tree.now }
    requires history { IsPlaced net.now tree.now history.now.history }
    requires want { ArePairsOf net.now want.now }
    requires given { ArePairsOf net.now given.now }
    ensures { IfOk result (IsChance net.now history.now.history want.now given.now) }
{
    let mut engine = engine_after::<SumProd, E>(alloc, net, tree, history)?;
    know_all::<SumProd, E>(&mut engine, tree, given);
    Ok(chance_left(&mut engine, net, tree, want))
}

/// The chance of pairs among the states that are left.
pub(crate) fn chance_left<E: Engine<SumProd>>(
    engine: &mut E,
    net: &Network,
    tree: &Tree,
    want: &[Pair],
) -> Chance
    requires { CanAsk E.stands_for engine.old net.now tree.now want.now }
    ensures { (H : List Change) → E.stands_for engine.old (weights_of net.now tree.now H)
        → length (trades H) ≤ max_market_trades → IsLeftFor net.now H want.now result }
{
    let Held::Present(whole) = engine.belief(ROOT, &Event::empty()) else {
        return Chance::Impossible;
    };
    if are_sure(engine, net, tree, want) {
        return Chance::Price {
            low: PRICE_UNIT,
            high: PRICE_UNIT,
        };
    }
    know_all::<SumProd, E>(engine, tree, want);
    let part = engine.belief(ROOT, &Event::empty());
    let (low, high) = share_of(&part, &whole);
    Chance::Price { low, high }
}

/// The share of a part in a whole that is more.
fn share_of(part: &Held, whole: &Enclosure) -> (u64, u64)
    requires { HasPartAndWhole part.now whole.now }
    ensures { (network : List Variable) (H : List Change) (v w : ℕ)
        → ArePartAndWhole network H part.now whole.now v w
        → CoversPrice (IsSmall network H) (sharpness (length (trades H)))
        (record { num = v; den = w }) result.0 result.1 }
{
    match part {
        Held::Absent => (0, 0),
        Held::Present(part) => Enclosure::parts(part, whole, PRICE_UNIT),
    }
}
