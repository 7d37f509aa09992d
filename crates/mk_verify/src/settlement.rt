//! Judgements of replies to `settle`.
ghost use Rattle.std.specs.Prelude.{◌≡◌, ◌+◌, ◌<◌, ◌^◌, ◌↔◌, true, length, map, All};
ghost use Rattle.std.specs.Prelude.{None, IfSome, IfNone};
ghost use Rattle.mk_verify.specs.Below.{HasOutcome, revision, users, IsReply, IsListed};
ghost use Rattle.mk_verify.specs.Below.{settled_by_rule, first_refusal, IsOnlyAsked, Judges};
ghost use Rattle.mk_verify.specs.Below.{TellsSmall};
ghost use Rattle.mk_command.specs.declared.command.Command.TheVariants as command;
ghost use Rattle.mk_reply.specs.Replies.{IsPayment as IsReadPayment};
ghost use Rattle.mk_reply.specs.declared.reply.Reply.TheVariants.{Settled};
ghost use Rattle.mk_verify.specs.Clear.{IsPaymentOpen};
ghost use Rattle.mk_verify.specs.inner.Judging.{JudgesReply, InOneState, PaysCash, PayEach};
ghost use Rattle.mk_verify.specs.inner.Judging.{IsPaymentLeftOpen};

use crate::plain::judge_words;
use crate::refused::judge_refused;
use mk_engine::TreeGraded;
use mk_evidence::{payment_evidence, refused_settlement};
use mk_judge::Judged;
use mk_judge_points::judge_cash;
use mk_market::Market;
use mk_reply::{Payment, Payments, Reply};
use mk_semiring::{MinProd, SumProd};
use mk_told::{tells_total, told_payments};

/// Judges a reply to `settle`: each user is paid in the order of joining, by the next change. Of
/// more users than it lists payments to, it tells how many they are, and what all are paid by rule.
pub fn judge_settlement<P: TreeGraded<SumProd>, A: TreeGraded<MinProd>>(
    market: &mut Market<P, A>,
    small: bool,
    reply: &Reply,
) -> Judged
    requires small { TellsSmall small market.old.market (market.old.standing).history }
    requires reply { IsReply reply.now }
    ensures same { IsOnlyAsked market.old market.new }
    ensures judged { JudgesReply market.old.market (market.old.standing).history command.Settle
        reply.now result }
{
    match refused_settlement(market) {
        Err(why) => judge_refused(&why, reply),
        Ok(()) => match listed(market, reply) {
            Some(payments) => judge_payments(market, small, payments.rows()),
            None => judge_words(tells_by_rule(market, reply)),
        },
    }
}

/// The payments that a reply lists behind the next change, one to each user in the order of joining.
fn listed<'a, P: TreeGraded<SumProd>, A: TreeGraded<MinProd>>(
    market: &Market<P, A>,
    reply: &'a Reply,
) -> Option<&'a Payments>
    ensures some { IfSome result (λ payments. reply.now
        ≡ Settled (revision (market.now.standing).history + 1) payments.now) }
    ensures in_order { IfSome result (λ payments. map (λ p. p.user) payments.now
        ≡ users (market.now.standing).history) }
    ensures none { IfNone result (IsListed (revision (market.now.standing).history + 1)
        (users (market.now.standing).history) reply.now → ⊥) }
{
    told_payments(&market.journal, &market.users, reply)
}

/// Whether a reply tells of the next change what all users are paid by rule.
fn tells_by_rule<P: TreeGraded<SumProd>, A: TreeGraded<MinProd>>(
    market: &mut Market<P, A>,
    reply: &Reply,
) -> bool
    requires { None ≡ first_refusal market.old.market (market.old.standing).history
        command.Settle }
    ensures same { market.new ≡ market.old }
    ensures tells { (result ≡ true) ↔ (reply.now
        ≡ settled_by_rule market.old.market (market.old.standing).history) }
{
    match reply {
        Reply::SettledAll { total, .. } => {
            tells_total(market.history(), *total, reply) && *total == market.total_by_rule()
        }
        _ => false,
    }
}

/// Judges the payments to the first users.
fn judge_payments<P: TreeGraded<SumProd>, A: TreeGraded<MinProd>>(
    market: &mut Market<P, A>,
    small: bool,
    payments: &[Payment],
) -> Judged
    requires small { TellsSmall small market.old.market (market.old.standing).history }
    requires outcome { HasOutcome market.old.market.network (market.old.standing).history }
    requires in_order { map (λ p. p.user) payments.now ≡ users (market.old.standing).history }
    requires fits { All IsReadPayment payments.now }
    requires few { length payments.now < 2 ^ 32 }
    ensures same { IsOnlyAsked market.old market.new }
    ensures judged { InOneState market.old.market (market.old.standing).history (λ state.
        Judges result (PayEach market.old.market (market.old.standing).history state payments.now)
        (IsPaymentOpen market.old.market (market.old.standing).history payments.now)) }
{
    let mut judged = Judged::Allowed;
    for user in 0..payments.len() {
        judged = judged.and(judge_payment(market, small, user as u32, &payments[user]));
    }
    judged
}

/// Judges the payment to one user: its low end is paid.
fn judge_payment<P: TreeGraded<SumProd>, A: TreeGraded<MinProd>>(
    market: &mut Market<P, A>,
    small: bool,
    user: u32,
    payment: &Payment,
) -> Judged
    requires small { TellsSmall small market.old.market (market.old.standing).history }
    requires outcome { HasOutcome market.old.market.network (market.old.standing).history }
    requires user { user < length (users (market.old.standing).history) }
    requires fits { IsReadPayment payment.now }
    ensures same { IsOnlyAsked market.old market.new }
    ensures judged { InOneState market.old.market (market.old.standing).history (λ state.
        Judges result
        (PaysCash market.old.market (market.old.standing).history state user payment.now)
        (IsPaymentLeftOpen market.old.market (market.old.standing).history state user
        payment.now)) }
{
    if payment.paid != payment.low {
        return Judged::Wrong;
    }
    let factor = payment_evidence(market, user);
    judge_cash(
        &factor,
        small,
        market.max_trades(),
        market.points_per_bit(),
        payment.low,
        payment.high,
    )
}
