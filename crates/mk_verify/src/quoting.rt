//! Judgements of the replies to `limits`, `edit`, `bounds` and `spread`.

ghost use Rattle.mk_command.specs.declared.command.Command.TheVariants.{Limits, Edit};
ghost use Rattle.mk_command.specs.declared.command.Command.TheVariants.{Bounds, Spread};
ghost use Rattle.mk_verify.specs.Below.{IsOnlyAsked, IsKnown};
ghost use Rattle.mk_verify.specs.inner.Judging.{JudgesQuoted};

use crate::refused::judge_refused;
use arrayvec::ArrayVec;
use mk_engine::TreeGraded;
use mk_evidence::{bounds_evidence, edit_evidence, limits_evidence, spread_evidence};
use mk_judge::Judged;
use mk_judge_quotes::{judge_edit, judge_spread, judge_told_bounds, judge_told_limits};
use mk_known::{Known, revision_of};
use mk_market::Market;
use mk_names::Name;
use mk_net::{PairText, QuestionText};
use mk_reply::Reply;
use mk_semiring::{MinProd, SumProd};

/// What an `edit` asks beside its user.
#[derive(Clone, Copy)]
pub(crate) struct AskedEdit<'a> {
    pub(crate) question: &'a QuestionText,
    pub(crate) to: u32,
    pub(crate) at: Option<u32>,
}

/// What a `spread` asks beside its user.
#[derive(Clone, Copy)]
pub(crate) struct AskedSpread<'a> {
    pub(crate) variable: &'a Name,
    pub(crate) condition: &'a ArrayVec<PairText, 8>,
    pub(crate) to: &'a ArrayVec<u32, 16>,
    pub(crate) at: Option<u32>,
}

/// Judges a reply to `limits`.
pub(crate) fn judge_limits_reply<P: TreeGraded<SumProd>, A: TreeGraded<MinProd>>(
    market: &mut Market<P, A>,
    known: &Known,
    name: &Name,
    question: &QuestionText,
    reply: &Reply,
) -> Judged
    requires known { IsKnown market.old.market (market.old.standing).history known.now }
    ensures same { IsOnlyAsked market.old market.new }
    ensures judged { JudgesQuoted market.old.market (market.old.standing).history known.now.quotes
        (Limits name.now question.now) reply.now result }
{
    let now = revision_of(market);
    match limits_evidence(market, name, question) {
        Ok(evidence) => judge_told_limits(&evidence.bounds, known.is_small(), now, reply),
        Err(why) => judge_refused(&why, reply),
    }
}

/// Judges a reply to `edit`, by the limits that were printed to the user last where they are of
/// this question and of the present revision.
pub(crate) fn judge_edit_reply<P: TreeGraded<SumProd>, A: TreeGraded<MinProd>>(
    market: &mut Market<P, A>,
    known: &Known,
    name: &Name,
    asked: AskedEdit,
    reply: &Reply,
) -> Judged
    requires known { IsKnown market.old.market (market.old.standing).history known.now }
    ensures same { IsOnlyAsked market.old market.new }
    ensures judged { JudgesQuoted market.old.market (market.old.standing).history known.now.quotes
        (Edit name.now asked.entry.question.now asked.entry.to asked.entry.at) reply.now result }
{
    let now = revision_of(market);
    match edit_evidence(market, name, asked.question, asked.to, asked.at) {
        Ok(evidence) => {
            let quoted = known.limits_for(evidence.user, &evidence.question, now);
            judge_edit(
                &evidence.bounds,
                known.is_small(),
                now,
                quoted,
                asked.to,
                reply,
            )
        }
        Err(why) => judge_refused(&why, reply),
    }
}

/// Judges a reply to `bounds`.
pub(crate) fn judge_bounds_reply<P: TreeGraded<SumProd>, A: TreeGraded<MinProd>>(
    market: &mut Market<P, A>,
    known: &Known,
    name: &Name,
    variable: &Name,
    condition: &ArrayVec<PairText, 8>,
    reply: &Reply,
) -> Judged
    requires known { IsKnown market.old.market (market.old.standing).history known.now }
    ensures same { IsOnlyAsked market.old market.new }
    ensures judged { JudgesQuoted market.old.market (market.old.standing).history known.now.quotes
        (Bounds name.now variable.now condition.now) reply.now result }
{
    let now = revision_of(market);
    match bounds_evidence(market, name, variable, condition) {
        Ok(evidence) => judge_told_bounds(&evidence.bounds, known.is_small(), now, reply),
        Err(why) => judge_refused(&why, reply),
    }
}

/// Judges a reply to `spread`, by the bounds that were printed to the user last where they are of
/// this variable and condition and of the present revision.
pub(crate) fn judge_spread_reply<P: TreeGraded<SumProd>, A: TreeGraded<MinProd>>(
    market: &mut Market<P, A>,
    known: &Known,
    name: &Name,
    asked: AskedSpread,
    reply: &Reply,
) -> Judged
    requires known { IsKnown market.old.market (market.old.standing).history known.now }
    ensures same { IsOnlyAsked market.old market.new }
    ensures judged { JudgesQuoted market.old.market (market.old.standing).history known.now.quotes
        (Spread name.now asked.entry.variable.now asked.entry.condition.now asked.entry.to.now
        asked.entry.at) reply.now result }
{
    let now = revision_of(market);
    match spread_evidence(
        market,
        name,
        asked.variable,
        asked.condition,
        asked.to,
        asked.at,
    ) {
        Ok(evidence) => {
            let quoted = known.bounds_for(evidence.user, &evidence.question, now);
            judge_spread(
                &evidence.bounds,
                known.is_small(),
                now,
                quoted,
                asked.to.as_slice(),
                reply,
            )
        }
        Err(why) => judge_refused(&why, reply),
    }
}
