//! Judgements of replies that are decided by their words alone.
ghost use Rattle.std.specs.Prelude.{◌≡◌, ◌+◌, ◌⊎◌, ◌↔◌, true};
ghost use Rattle.mk_verify.specs.Below.{IsAddText, revision};
ghost use Rattle.mk_command.specs.declared.command.Command.TheVariants as command;
ghost use Rattle.mk_reply.specs.declared.refusal.Refusal.TheVariants.{Memory};
ghost use Rattle.mk_reply.specs.declared.reply.Reply.TheVariants.{Added, Refused};
ghost use Rattle.mk_verify.specs.inner.Judging.{JudgesReply, by_words};

use crate::refused::judge_refused;
use mk_addition::AddText;
use mk_engine::Engine;
use mk_evidence::{refused_addition, refused_deposit, refused_join, refused_resolution};
use mk_judge::Judged;
use mk_market::Market;
use mk_names::Name;
use mk_net::PairText;
use mk_reply::{Refusal, Reply};
use mk_semiring::{MinProd, SumProd};
use mk_told::{has_text, tells_addition, tells_deposit, tells_join, tells_resolution};

/// What is judged by words alone is never left open.
pub fn judge_words(allowed: bool) -> Judged
    ensures { result ≡ by_words allowed }
{
    if allowed {
        Judged::Allowed
    } else {
        Judged::Wrong
    }
}

/// Whether a reply tells what was done, or that memory was wanting.
fn or_want(tells: bool, reply: &Reply) -> bool
    ensures { (result ≡ true) ↔ ((tells ≡ true) ⊎ (reply.now ≡ Refused Memory)) }
{
    if tells {
        return true;
    }
    match reply {
        Reply::Refused { why } => matches!(why, Refusal::Memory),
        _ => false,
    }
}

/// Judges a reply to `user`: the user joined by the next change, or memory was wanting.
pub fn judge_join<P: Engine<SumProd>, A: Engine<MinProd>>(
    market: &Market<P, A>,
    name: &Name,
    reply: &Reply,
) -> Judged
    ensures { JudgesReply market.now.market (market.now.standing).history (command.User name.now)
        reply.now result }
{
    match refused_join(market, name) {
        Err(why) => judge_refused(&why, reply),
        Ok(()) => judge_words(or_want(tells_join(market.history(), name, reply), reply)),
    }
}

/// Judges a reply to `add`: the question was added by the next change, or memory was wanting. A
/// question whose words no line could have wants memory.
pub fn judge_addition<P: Engine<SumProd>, A: Engine<MinProd>>(
    market: &Market<P, A>,
    add: &AddText,
    reply: &Reply,
) -> Judged
    ensures { JudgesReply market.now.market (market.now.standing).history (command.Add add.now)
        reply.now result }
{
    match refused_addition(market, add) {
        Err(why) => judge_refused(&why, reply),
        Ok(()) => judge_words(or_want(tells_question(market, add, reply), reply)),
    }
}

/// Whether a line could have the words of a question, and a reply tells that it was added.
fn tells_question<P: Engine<SumProd>, A: Engine<MinProd>>(
    market: &Market<P, A>,
    add: &AddText,
    reply: &Reply,
) -> bool
    ensures { (result ≡ true) ↔ (IsAddText add.now × (reply.now ≡ Added add.now.variable
        (revision (market.now.standing).history + 1))) }
{
    has_text(add) && tells_addition(market.history(), add, reply)
}

/// Judges a reply to `deposit`: the user paid in these bits by the next change.
pub fn judge_deposit<P: Engine<SumProd>, A: Engine<MinProd>>(
    market: &Market<P, A>,
    name: &Name,
    bits: u32,
    reply: &Reply,
) -> Judged
    ensures { JudgesReply market.now.market (market.now.standing).history
        (command.Deposit name.now bits) reply.now result }
{
    match refused_deposit(market, name, bits) {
        Err(why) => judge_refused(&why, reply),
        Ok(()) => judge_words(tells_deposit(market.history(), name, bits, reply)),
    }
}

/// Judges a reply to `resolve`: the variable was resolved by the next change.
pub fn judge_resolution<P: Engine<SumProd>, A: Engine<MinProd>>(
    market: &mut Market<P, A>,
    words: &PairText,
    reply: &Reply,
) -> Judged
    ensures same { market.new ≡ market.old }
    ensures judged { JudgesReply market.old.market (market.old.standing).history
        (command.Resolve words.now) reply.now result }
{
    match refused_resolution(market, words) {
        Err(why) => judge_refused(&why, reply),
        Ok(()) => judge_words(tells_resolution(market.history(), words, reply)),
    }
}

/// Judges a reply to `status`: what the market itself would answer.
pub fn judge_status<P: Engine<SumProd>, A: Engine<MinProd>>(
    market: &Market<P, A>,
    reply: &Reply,
) -> Judged
    ensures { JudgesReply market.now.market (market.now.standing).history command.Status reply.now
        result }
{
    let expected = market.status();
    judge_words(reply == &expected)
}

/// Judges a reply to `paid`: what the market itself would answer.
pub fn judge_paid<P: Engine<SumProd>, A: Engine<MinProd>>(
    market: &Market<P, A>,
    name: &Name,
    reply: &Reply,
) -> Judged
    ensures { JudgesReply market.now.market (market.now.standing).history (command.Paid name.now)
        reply.now result }
{
    let expected = market.paid(name);
    judge_words(reply == &expected)
}
