//! Judgements of replies that tell numbers.
ghost use Rattle.std.specs.Prelude.{◌≡◌, ◌<◌, ℕ, IfSome, IfNone};
ghost use Rattle.mk_reply.specs.declared.refusal.Refusal.TheVariants.{Short};
ghost use Rattle.mk_reply.specs.declared.reply.Reply.TheVariants.{Refused};
ghost use Rattle.mk_command.specs.declared.command.Command.TheVariants as command;
ghost use Rattle.mk_verify.specs.Below.{IsReply, IsOnlyAsked, TellsSmall};
ghost use Rattle.mk_verify.specs.inner.Judging.{JudgesReply};

use crate::each::{judge_each_position, judge_each_price};
use crate::refused::judge_refused;
use arrayvec::ArrayVec;
use mk_engine::TreeGraded;
use mk_evidence::{
    bound_evidence, position_evidence, price_evidence, prices_evidence, withdrawal_evidence,
    worst_evidence,
};
use mk_judge::{Judged, judge_price};
use mk_judge_points::{judge_bound, judge_cash, judge_covered, judge_most};
use mk_market::Market;
use mk_names::Name;
use mk_net::{PairText, QuestionText};
use mk_reply::{Refusal, Reply};
use mk_semiring::{MinProd, SumProd};
use mk_told::tells_withdrawal;

/// Judges a reply to `price`.
pub fn judge_price_reply<P: TreeGraded<SumProd>, A: TreeGraded<MinProd>>(
    market: &mut Market<P, A>,
    small: bool,
    question: &QuestionText,
    reply: &Reply,
) -> Judged
    requires small { TellsSmall small market.old.market (market.old.standing).history }
    ensures same { market.new ≡ market.old }
    ensures judged { JudgesReply market.old.market (market.old.standing).history
        (command.Price question.now) reply.now result }
{
    match price_evidence(market, question) {
        Err(why) => judge_refused(&why, reply),
        Ok(bounds) => match reply {
            Reply::Price { low, high } => {
                judge_price(&bounds, small, market.max_trades(), *low, *high)
            }
            _ => Judged::Wrong,
        },
    }
}

/// Judges a reply to `worst`.
pub fn judge_worst_reply<P: TreeGraded<SumProd>, A: TreeGraded<MinProd>>(
    market: &mut Market<P, A>,
    small: bool,
    name: &Name,
    reply: &Reply,
) -> Judged
    requires small { TellsSmall small market.old.market (market.old.standing).history }
    requires reply { IsReply reply.now }
    ensures same { IsOnlyAsked market.old market.new }
    ensures judged { JudgesReply market.old.market (market.old.standing).history
        (command.Worst name.now) reply.now result }
{
    match worst_evidence(market, name) {
        Err(why) => judge_refused(&why, reply),
        Ok(factor) => match reply {
            Reply::Worst { low, high } => judge_cash(
                &factor,
                small,
                market.max_trades(),
                market.points_per_bit(),
                *low,
                *high,
            ),
            _ => Judged::Wrong,
        },
    }
}

/// Judges a reply to `withdraw`: the bits that were asked for are covered, or fewer are the most
/// that can be taken out.
pub fn judge_withdrawal<P: TreeGraded<SumProd>, A: TreeGraded<MinProd>>(
    market: &mut Market<P, A>,
    small: bool,
    name: &Name,
    bits: u32,
    reply: &Reply,
) -> Judged
    requires small { TellsSmall small market.old.market (market.old.standing).history }
    ensures same { IsOnlyAsked market.old market.new }
    ensures judged { JudgesReply market.old.market (market.old.standing).history
        (command.Withdraw name.now bits) reply.now result }
{
    match withdrawal_evidence(market, name, bits) {
        Err(why) => judge_refused(&why, reply),
        Ok(factor) => {
            if tells_withdrawal(market.history(), name, bits, reply) {
                return judge_covered(&factor, bits as u64);
            }
            match told_most(bits, reply) {
                Some(most) => judge_most(&factor, small, market.max_trades(), most),
                None => Judged::Wrong,
            }
        }
    }
}

/// The most bits that can be taken out, as they are told to who asked for more.
fn told_most(bits: u32, reply: &Reply) -> Option<u64>
    ensures some { IfSome result (λ most. (most < bits) × (reply.now ≡ Refused (Short most))) }
    ensures none { IfNone result ((most : ℕ) → most < bits → reply.now ≡ Refused (Short most) → ⊥) }
{
    match reply {
        Reply::Refused { why } => match why {
            Refusal::Short { bits: most } if *most < bits as u64 => Some(*most),
            _ => None,
        },
        _ => None,
    }
}

/// Judges a reply to `bound`.
pub fn judge_bound_reply<P: TreeGraded<SumProd>, A: TreeGraded<MinProd>>(
    market: &mut Market<P, A>,
    reply: &Reply,
) -> Judged
    requires reply { IsReply reply.now }
    ensures same { market.new ≡ market.old }
    ensures judged { JudgesReply market.old.market (market.old.standing).history command.Bound
        reply.now result }
{
    match bound_evidence(market) {
        Err(why) => judge_refused(&why, reply),
        Ok(least) => match reply {
            Reply::Bound { low, high } => judge_bound(
                &least,
                market.variables(),
                market.points_per_bit(),
                *low,
                *high,
            ),
            _ => Judged::Wrong,
        },
    }
}

/// Judges a reply to `prices`.
pub fn judge_prices<P: TreeGraded<SumProd>, A: TreeGraded<MinProd>>(
    market: &mut Market<P, A>,
    small: bool,
    variable: &Name,
    condition: &ArrayVec<PairText, 8>,
    reply: &Reply,
) -> Judged
    requires small { TellsSmall small market.old.market (market.old.standing).history }
    ensures same { market.new ≡ market.old }
    ensures judged { JudgesReply market.old.market (market.old.standing).history
        (command.Prices variable.now condition.now) reply.now result }
{
    match prices_evidence(market, variable, condition) {
        Err(why) => judge_refused(&why, reply),
        Ok(bounds) => match reply {
            Reply::Prices { intervals } => judge_each_price(
                bounds.as_slice(),
                small,
                market.max_trades(),
                intervals.as_slice(),
            ),
            _ => Judged::Wrong,
        },
    }
}

/// Judges a reply to `position`.
pub fn judge_position<P: TreeGraded<SumProd>, A: TreeGraded<MinProd>>(
    market: &mut Market<P, A>,
    small: bool,
    name: &Name,
    variable: &Name,
    condition: &ArrayVec<PairText, 8>,
    reply: &Reply,
) -> Judged
    requires small { TellsSmall small market.old.market (market.old.standing).history }
    requires reply { IsReply reply.now }
    ensures same { IsOnlyAsked market.old market.new }
    ensures judged { JudgesReply market.old.market (market.old.standing).history
        (command.Position name.now variable.now condition.now) reply.now result }
{
    match position_evidence(market, name, variable, condition) {
        Err(why) => judge_refused(&why, reply),
        Ok(factors) => match reply {
            Reply::Position { intervals } => judge_each_position(
                factors.as_slice(),
                small,
                market.max_trades(),
                market.points_per_bit(),
                intervals.as_slice(),
            ),
            _ => Judged::Wrong,
        },
    }
}
