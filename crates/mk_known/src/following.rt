//! Going on behind an allowed reply.

ghost use Rattle.std.specs.Prelude.{◌≡◌, ◌++◌, ◌↔◌, true, false, List, Option, option_to_list};
ghost use Rattle.std.specs.Prelude.{OnOk, OnErr};
ghost use Rattle.mk_known.specs.Below.{Entry, IsProper, IsSmall, command_of, IsReply, Quotes};
ghost use Rattle.mk_known.specs.Below.{IsAllowed, entry_of, next_history, next_quotes, OfCommand};
ghost use Rattle.mk_known.specs.Below.{with_entries, market_after, SuitsNext};
ghost use Rattle.mk_exact.specs.Market.{Market as TheMarket};
ghost use Rattle.mk_command.specs.declared.command.Command.{Command};
ghost use Rattle.mk_known.specs.Known.{IsKnown};
ghost use Rattle.mk_known.specs.inner.Walks.{LeavesWeights};

use crate::known::Known;
use crate::noting::note;
use mk_command::CommandRef;
use mk_engine::Engine;
use mk_market::{Market, RestoreFault};
use mk_net::NoMemory;
use mk_reply::Reply;
use mk_semiring::{MinProd, SumProd};
use mk_small::is_small;
use std::alloc::Global;

/// Goes on behind an allowed reply to a command. Both engines have to suit the market with a
/// question that the command adds. After a fault the market is as it was, and nothing is said of
/// what is known.
pub fn follow<P: Engine<SumProd>, A: Engine<MinProd>>(
    alloc: Global,
    market: &mut Market<P, A>,
    known: &mut Known,
    command: &CommandRef,
    reply: &Reply,
) -> Result<(), NoMemory>
    requires known { IsKnown market.old.market (market.old.standing).history known.old }
    requires reply { IsReply reply.now }
    requires prices { SuitsNext P.suits market.old (command_of command.now) }
    requires assets { SuitsNext A.suits market.old (command_of command.now) }
    ensures market { OnOk result (IsAllowed market.old.market (market.old.standing).history
        known.old.quotes (command_of command.now) reply.now
        → market.new.market ≡ market_after market.old.market market.old.standing
        (OfCommand (command_of command.now)) reply.now) }
    ensures same { OnErr result (market.new ≡ market.old) }
    ensures next { OnOk result (IsAllowed market.old.market (market.old.standing).history
        known.old.quotes (command_of command.now) reply.now
        → ((market.new.standing).history ≡ next_history market.old.market
        (market.old.standing).history (command_of command.now) reply.now)
        × (known.new.quotes ≡ next_quotes market.old.market (market.old.standing).history
        known.old.quotes (command_of command.now) reply.now)
        × IsKnown market.new.market (market.new.standing).history known.new) }
{
    // Before the reply users, pairs and units of the history are in range.
    let _ = market.history();
    note(market, known, command, reply)?;
    take_back(alloc, market, command, reply)?;
    note_size(market, known, reply);
    Ok(())
}

/// Takes back the change of an allowed reply, if it is one.
fn take_back<P: Engine<SumProd>, A: Engine<MinProd>>(
    alloc: Global,
    market: &mut Market<P, A>,
    command: &CommandRef,
    reply: &Reply,
) -> Result<(), NoMemory>
    requires reply { IsReply reply.now }
    requires prices { SuitsNext P.suits market.old (command_of command.now) }
    requires assets { SuitsNext A.suits market.old (command_of command.now) }
    ensures market { OnOk result ((quotes : Quotes) → IsAllowed market.old.market
        (market.old.standing).history quotes (command_of command.now) reply.now
        → market.new.market ≡ market_after market.old.market market.old.standing
        (OfCommand (command_of command.now)) reply.now) }
    ensures same { OnErr result (market.new ≡ market.old) }
    ensures next { OnOk result ((quotes : Quotes) → IsAllowed market.old.market
        (market.old.standing).history quotes (command_of command.now) reply.now
        → (market.new.standing).history ≡ next_history market.old.market
        (market.old.standing).history (command_of command.now) reply.now) }
{
    match market.restore(alloc, command, reply) {
        Ok(()) => Ok(()),
        Err(RestoreFault::Unfit) => Ok(()),
        Err(RestoreFault::Memory) => Err(NoMemory),
    }
}

/// Keeps whether a history is small behind the change of a reply, where it is known of the history
/// before. A trade weighs on states, and an added question on all of them: behind every other
/// change the weights, which would be walked along the whole history, are as they were.
fn note_size<P: Engine<SumProd>, A: Engine<MinProd>>(
    market: &Market<P, A>,
    known: &mut Known,
    reply: &Reply,
)
    ensures quotes { known.new.quotes ≡ known.old.quotes }
    ensures small { (before : TheMarket) (H : List Entry) (command : Command)
        → IsProper before.network H
        → market.now.market ≡ with_entries (entry_of before H command reply.now) before
        → (market.now.standing).history ≡ next_history before H command reply.now
        → (known.old.small ≡ true) ↔ IsSmall before.network H
        → (known.new.small ≡ true) ↔ IsSmall
        market.now.market.network
        (market.now.standing).history }
{
    if !changes_weights(reply) {
        return;
    }
    let small = stays_small(market, known.is_small());
    known.set_small(small);
}

/// Whether a reply tells of a change that weighs on states, as no other reply does.
fn changes_weights(reply: &Reply) -> bool
    ensures { result ≡ false → (market : TheMarket) (H : List Entry) (command : Command)
        → LeavesWeights (entry_of market H command reply.now) }
{
    matches!(
        reply,
        Reply::Traded { .. } | Reply::Spreaded { .. } | Reply::Added { .. }
    )
}

/// Whether a history is small behind at most one change more, where it is known of the history
/// before: one that is not small never is again.
fn stays_small<P: Engine<SumProd>, A: Engine<MinProd>>(market: &Market<P, A>, was: bool) -> bool
    ensures { (before : TheMarket) (H : List Entry) (change : Option Entry)
        → IsProper before.network H
        → market.now.market ≡ with_entries change before
        → (market.now.standing).history ≡ H ++ option_to_list change
        → (was ≡ true) ↔ IsSmall before.network H
        → (result ≡ true) ↔ IsSmall
        market.now.market.network
        (market.now.standing).history }
{
    let history = market.history();
    was && is_small(market.network(), history)
}
