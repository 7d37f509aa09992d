//! The judge of a reply to any command.
ghost use Rattle.mk_verify.specs.Below.{command_of, IsReply, IsAllowed, Stands, IsOnlyAsked};
ghost use Rattle.mk_verify.specs.Below.{Judges, TellsSmall, IsKnown};
ghost use Rattle.mk_verify.specs.Clear.{IsOpen};
ghost use Rattle.mk_verify.specs.inner.Judging.{IsUnquoted, JudgesReply};

use crate::numbers::{
    judge_bound_reply, judge_position, judge_price_reply, judge_prices, judge_withdrawal,
    judge_worst_reply,
};
use crate::plain::{
    judge_addition, judge_deposit, judge_join, judge_paid, judge_resolution, judge_status,
};
use crate::quoting::{
    AskedEdit, AskedSpread, judge_bounds_reply, judge_edit_reply, judge_limits_reply,
    judge_spread_reply,
};
use crate::settlement::judge_settlement;
use mk_command::CommandRef;
use mk_engine::TreeGraded;
use mk_judge::Judged;
use mk_known::Known;
use mk_market::Market;
use mk_reply::Reply;
use mk_semiring::{MinProd, SumProd};

/// Judges a reply to a command.
#[tactic(auto, unfolding(mk_command::specs::Commands::command_of))]
pub fn judge<P: TreeGraded<SumProd>, A: TreeGraded<MinProd>>(
    market: &mut Market<P, A>,
    known: &Known,
    command: &CommandRef,
    reply: &Reply,
) -> Judged
    requires known { IsKnown market.old.market (market.old.standing).history known.now }
    requires reply { IsReply reply.now }
    ensures same { IsOnlyAsked market.old market.new }
    ensures judged { Stands market.old.market (market.old.standing).history
        → Judges result
        (IsAllowed market.old.market (market.old.standing).history known.now.quotes
        (command_of command.now) reply.now)
        (IsOpen market.old.market (market.old.standing).history known.now.quotes
        (command_of command.now) reply.now) }
{
    match command {
        CommandRef::Limits { user, question } => {
            judge_limits_reply(market, known, user, question, reply)
        }
        CommandRef::Edit {
            user,
            question,
            to,
            at,
        } => {
            let asked = AskedEdit {
                question,
                to: *to,
                at: *at,
            };
            judge_edit_reply(market, known, user, asked, reply)
        }
        CommandRef::Bounds {
            user,
            variable,
            condition,
        } => judge_bounds_reply(market, known, user, variable, condition, reply),
        CommandRef::Spread {
            user,
            variable,
            condition,
            to,
            at,
        } => {
            let asked = AskedSpread {
                variable,
                condition,
                to,
                at: *at,
            };
            judge_spread_reply(market, known, user, asked, reply)
        }
        _ => judge_unquoted(market, known.is_small(), command, reply),
    }
}

/// The same of a command on whose reply no quote bears.
#[tactic(auto, unfolding(mk_command::specs::Commands::command_of))]
fn judge_unquoted<P: TreeGraded<SumProd>, A: TreeGraded<MinProd>>(
    market: &mut Market<P, A>,
    small: bool,
    command: &CommandRef,
    reply: &Reply,
) -> Judged
    requires small { TellsSmall small market.old.market (market.old.standing).history }
    requires command { IsUnquoted (command_of command.now) }
    requires reply { IsReply reply.now }
    ensures same { IsOnlyAsked market.old market.new }
    ensures judged { JudgesReply market.old.market (market.old.standing).history
        (command_of command.now) reply.now result }
{
    match command {
        CommandRef::User { user } => judge_join(market, user, reply),
        CommandRef::Deposit { user, bits } => judge_deposit(market, user, *bits, reply),
        CommandRef::Withdraw { user, bits } => {
            judge_withdrawal(market, small, user, *bits, reply)
        }
        CommandRef::Price { question } => judge_price_reply(market, small, question, reply),
        CommandRef::Worst { user } => judge_worst_reply(market, small, user, reply),
        CommandRef::Resolve { pair } => judge_resolution(market, pair, reply),
        CommandRef::Settle => judge_settlement(market, small, reply),
        CommandRef::Bound => judge_bound_reply(market, reply),
        CommandRef::Status => judge_status(market, reply),
        CommandRef::Paid { user } => judge_paid(market, user, reply),
        CommandRef::Add { addition } => judge_addition(market, addition, reply),
        CommandRef::Prices {
            variable,
            condition,
        } => judge_prices(market, small, variable, condition, reply),
        CommandRef::Position {
            user,
            variable,
            condition,
        } => judge_position(market, small, user, variable, condition, reply),
        _ => unreachable!(),
    }
}
