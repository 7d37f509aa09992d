//! Keeping the quotes that are printed.

ghost use Rattle.std.specs.Prelude.{◌≡◌, ◌∷◌, ℕ, List, length, None, OnOk};
ghost use Rattle.mk_known.specs.Below.{Entry, users, revision, command_of, given_in, next_quotes};
ghost use Rattle.mk_known.specs.Below.{with_limits, with_bounds, question_named, spread_named};
ghost use Rattle.mk_known.specs.Below.{no_user, no_variable, unknown, twice, names_in, pairs_of};
ghost use Rattle.mk_exact.specs.Market.{Market as TheMarket};
ghost use Rattle.mk_command.specs.declared.command.Command.TheVariants.{User, Limits, Edit};
ghost use Rattle.mk_command.specs.declared.command.Command.TheVariants.{Bounds, Spread};
ghost use Rattle.mk_known.specs.Known.{IsKnown};
ghost use Rattle.mk_known.specs.inner.Noted.{IsNoted};

use crate::known::{Given, Known};
use arrayvec::ArrayVec;
use mk_command::CommandRef;
use mk_engine::Engine;
use mk_judge_quotes::{beyond_told, bounds_told, limits_told, outside_told};
use mk_market::Market;
use mk_names::Name;
use mk_net::{NoMemory, PairText, QuestionText};
use mk_record::{ask, ask_spread};
use mk_reply::{Intervals, Reply};
use mk_semiring::{MinProd, SumProd};

/// Keeps what an allowed reply quotes to a user.
#[tactic(auto, unfolding(mk_command::specs::Commands::command_of))]
pub(crate) fn note<P: Engine<SumProd>, A: Engine<MinProd>>(
    market: &Market<P, A>,
    known: &mut Known,
    command: &CommandRef,
    reply: &Reply,
) -> Result<(), NoMemory>
    requires { IsKnown market.now.market (market.now.standing).history known.old }
    ensures quotes { OnOk result (IsNoted market.now.market (market.now.standing).history
        known.old known.new (command_of command.now) reply.now) }
    ensures small { known.new.small ≡ known.old.small }
{
    match command {
        CommandRef::User { .. } => note_join(known, reply)?,
        CommandRef::Limits { user, question } => {
            if let Some(limits) = limits_told(reply) {
                keep_limits(market, known, user, question, limits);
            }
        }
        CommandRef::Edit { user, question, .. } => {
            if let Some(limits) = beyond_told(reply) {
                keep_limits(market, known, user, question, limits);
            }
        }
        CommandRef::Bounds {
            user,
            variable,
            condition,
        } => {
            if let Some(intervals) = bounds_told(reply) {
                keep_bounds(market, known, user, variable, condition, intervals);
            }
        }
        CommandRef::Spread {
            user,
            variable,
            condition,
            ..
        } => {
            if let Some(intervals) = outside_told(reply) {
                keep_bounds(market, known, user, variable, condition, intervals);
            }
        }
        _ => {}
    }
    Ok(())
}

/// A user who joined is quoted nothing yet.
fn note_join(known: &mut Known, reply: &Reply) -> Result<(), NoMemory>
    ensures quotes { OnOk result ((market : TheMarket) (H : List Entry) (name : List ℕ)
        → known.new.quotes ≡ next_quotes market H known.old.quotes (User name) reply.now) }
    ensures small { known.new.small ≡ known.old.small }
{
    match reply {
        Reply::Joined { .. } => known.join(),
        _ => Ok(()),
    }
}

/// Keeps the limits of a question that were printed to a user.
fn keep_limits<P: Engine<SumProd>, A: Engine<MinProd>>(
    market: &Market<P, A>,
    known: &mut Known,
    name: &Name,
    question: &QuestionText,
    limits: Option<(u32, u32)>,
)
    requires places { length known.old.quotes ≡ length (users (market.now.standing).history) }
    ensures kept { no_user (market.now.standing).history name.now ≡ None
        → unknown (market.now.market).network (pairs_of question.now) ≡ None
        → twice (names_in (pairs_of question.now)) ≡ None
        → known.new.quotes ≡ with_limits market.now.market (market.now.standing).history
        known.old.quotes name.now question.now limits }
    ensures unnamed { question_named (market.now.market).network question.now ≡ None
        → known.new.quotes ≡ known.old.quotes }
    ensures small { known.new.small ≡ known.old.small }
{
    let Some(user) = market.user_number(name) else {
        return;
    };
    if let Ok(question) = ask(market.network(), question) {
        let at = revision_of(market);
        known.keep(
            user,
            Given::Limits {
                question,
                limits,
                at,
            },
        );
    }
}

/// Keeps the bounds of a spread that were printed to a user.
fn keep_bounds<P: Engine<SumProd>, A: Engine<MinProd>>(
    market: &Market<P, A>,
    known: &mut Known,
    name: &Name,
    variable: &Name,
    condition: &ArrayVec<PairText, 8>,
    intervals: &Option<Intervals>,
)
    requires places { length known.old.quotes ≡ length (users (market.now.standing).history) }
    ensures kept { no_user (market.now.standing).history name.now ≡ None
        → no_variable (market.now.market).network variable.now ≡ None
        → unknown (market.now.market).network condition.now.items ≡ None
        → twice (variable.now ∷ names_in condition.now.items) ≡ None
        → known.new.quotes ≡ with_bounds market.now.market (market.now.standing).history
        known.old.quotes name.now variable.now condition.now.items
        (given_in intervals.now) }
    ensures unnamed { spread_named (market.now.market).network variable.now condition.now.items
        ≡ None → known.new.quotes ≡ known.old.quotes }
    ensures small { known.new.small ≡ known.old.small }
{
    let Some(user) = market.user_number(name) else {
        return;
    };
    if let Ok(question) = ask_spread(market.network(), variable, condition.as_slice()) {
        let at = revision_of(market);
        let intervals = copy_of(intervals);
        known.keep(
            user,
            Given::Bounds {
                question,
                intervals,
                at,
            },
        );
    }
}

/// The revision of a market.
pub fn revision_of<P: Engine<SumProd>, A: Engine<MinProd>>(market: &Market<P, A>) -> u64
    ensures { result ≡ revision (market.now.standing).history }
{
    market.history().revision()
}

/// A copy of intervals.
fn copy_of(intervals: &Option<Intervals>) -> Option<Intervals>
    ensures { given_in result ≡ given_in intervals.now }
{
    match intervals {
        Some(intervals) => Some(each_of(intervals)),
        None => None,
    }
}

/// A copy of each interval.
fn each_of(intervals: &Intervals) -> Intervals
    ensures { result.items ≡ intervals.now.items }
{
    let mut copy = ArrayVec::new();
    for interval in intervals.as_slice() {
        copy.push(*interval);
    }
    copy
}
