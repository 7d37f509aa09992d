//! Best states.
ghost use Rattle.std.specs.Prelude.{◌≡◌, ℕ, ◌≤◌, List, length, IfOk};
ghost use Rattle.mk_best.specs.Below.{max_market_trades, Variable, IsNetwork, trades, IsSmall};
ghost use Rattle.mk_best.specs.Below.{IsTreeOf, ArePairsOf, weights_of, IsPlaced};
ghost use Rattle.mk_exact.specs.History.{Entry as Change};
ghost use Rattle.mk_best.specs.BestStates.{IsBestFound};
ghost use Rattle.mk_best.specs.inner.Engines.{learned};
ghost use Rattle.mk_best.specs.inner.Picks.{CanSearchBoth, AreEnds, HasEnds, IsCertificate};
ghost use Rattle.mk_best.specs.inner.Picks.{IsBestLeft};

use crate::chances::chance_left;
use crate::found::{Best, Chance, StateList};
use crate::history::engine_after;
use crate::known::know_all;
use crate::search::best_pairs;
use mk_enclose::Enclosure;
use mk_engine::Engine;
use mk_names::limits::PRICE_UNIT;
use mk_net::{Event, Network, NoMemory, Pair};
use mk_record::Journal;
use mk_semiring::{Held, MaxProd, Semiring, SumProd};
use mk_tree::{ROOT, Tree};
use mk_tree_engine::TreeEngine;
use std::alloc::Global;

/// A best state of those that meet `given`, after a history: a possible state of the greatest
/// weight, as far as lower ends tell, with bounds in units of 10^-10 of its share among all that
/// meet `given`. A variable may stand among the pairs more than once. It is impossible exactly
/// where no possible state meets `given`. All memory that it takes but the list of values it gives
/// back.
pub fn best(
    alloc: Global,
    net: &Network,
    tree: &Tree,
    history: &Journal,
    given: &[Pair],
) -> Result<Best, NoMemory>
    requires tree { IsTreeOf net.now tree.now }
    requires history { IsPlaced net.now tree.now history.now.history }
    requires given { ArePairsOf net.now given.now }
    ensures { IfOk result (IsBestFound net.now history.now.history given.now) }
{
    best_by::<TreeEngine<SumProd>, TreeEngine<MaxProd>>(alloc, net, tree, history, given)
}

/// The same by any engines of sums and of maxima.
pub fn best_by<S: Engine<SumProd>, M: Engine<MaxProd>>(
    alloc: Global,
    net: &Network,
    tree: &Tree,
    history: &Journal,
    given: &[Pair],
) -> Result<Best, NoMemory>
    requires suits { S.suits net.now tree.now }
    requires maxima_suit { M.suits net.now tree.now }
    requires tree { IsTreeOf net.now tree.now }
    requires history { IsPlaced net.now tree.now history.now.history }
    requires given { ArePairsOf net.now given.now }
    ensures { IfOk result (IsBestFound net.now history.now.history given.now) }
{
    let mut sums = engine_with::<SumProd, S>(alloc, net, tree, history, given)?;
    let mut maxima = engine_with::<MaxProd, M>(alloc, net, tree, history, given)?;
    let found = best_left(alloc, &mut sums, &mut maxima, net, tree)?;
    Ok(found)
}

/// An engine of a history, to which pairs are known beside it.
fn engine_with<R: Semiring, E: Engine<R>>(
    alloc: Global,
    net: &Network,
    tree: &Tree,
    history: &Journal,
    given: &[Pair],
) -> Result<E, NoMemory>
    requires suits { E.suits net.now tree.now }
    requires tree { IsTreeOf net.now tree.now }
    requires history { IsPlaced net.now tree.now history.now.history }
    requires given { ArePairsOf net.now given.now }
    ensures stands { IfOk result (λ engine. E.stands_for engine
        (weights_of net.now tree.now (learned history.now.history given.now))) }
    ensures network { IfOk result (λ _. IsNetwork net.now) }
{
    let mut engine = engine_after::<R, E>(alloc, net, tree, history)?;
    know_all::<R, E>(&mut engine, tree, given);
    Ok(engine)
}

/// A best state of those that are left.
fn best_left<S: Engine<SumProd>, M: Engine<MaxProd>>(
    alloc: Global,
    sums: &mut S,
    maxima: &mut M,
    net: &Network,
    tree: &Tree,
) -> Result<Best, NoMemory>
    requires { CanSearchBoth S.stands_for M.stands_for sums.old maxima.old net.now tree.now }
    ensures { IfOk result (λ found. (H : List Change)
        → S.stands_for sums.old (weights_of net.now tree.now H)
        → M.stands_for maxima.old (weights_of net.now tree.now H)
        → length (trades H) ≤ max_market_trades → IsBestLeft net.now H found) }
{
    let Held::Present(whole) = sums.belief(ROOT, &Event::empty()) else {
        return Ok(Best::Impossible);
    };
    let top = maxima.belief(ROOT, &Event::empty());
    let pairs = best_pairs(alloc, maxima, net, tree)?;
    let own = maxima.belief(ROOT, &Event::empty());
    let Chance::Price { low, high } = chance_left(sums, net, tree, &pairs) else {
        return Ok(Best::Impossible);
    };
    let state = StateList::of(alloc, &pairs)?;
    let (value, most) = certificate(&own, &top, &whole);
    Ok(Best::Found {
        low,
        high,
        most,
        value,
        state,
    })
}

/// One enclosure of a state's weight and of the best, and what part of a whole the best is at most.
fn certificate(own: &Held, top: &Held, whole: &Enclosure) -> (Enclosure, u64)
    requires { HasEnds own.now top.now whole.now }
    ensures { (network : List Variable) (H : List Change) (v w t : ℕ)
        → AreEnds own.now top.now whole.now (IsSmall network H) v w t
        → IsCertificate result.0 result.1 (IsSmall network H) v w t }
{
    let Held::Present(own) = own else {
        unreachable!()
    };
    let Held::Present(top) = top else {
        unreachable!()
    };
    let Some(units) = top.hi().div_ceil(PRICE_UNIT, &whole.lo(), 1) else {
        unreachable!()
    };
    (Enclosure::between(own.lo(), top.hi()), units)
}
