//! Bounds of both sides of a question, by which an auditor judges its limits and its edits.

ghost use Rattle.std.specs.Prelude.{◌≡◌, IfOk, MatchResult};
ghost use Rattle.mk_evidence.specs.Below.{first_of, Meaning, refusals_by_record, names_of};
ghost use Rattle.mk_evidence.specs.Below.{refusal_in, IsOnlyAsked, IsDecidedBy, market_of};
ghost use Rattle.mk_command.specs.declared.command.Command.TheVariants as command;
ghost use Rattle.mk_exact.specs.History.{users as users_of};
ghost use Rattle.mk_evidence.specs.inner.Finding.{AreAsked, CanFindBoth, AreBothFound};
ghost use Rattle.mk_evidence.specs.inner.Finding.{IsRequestFor, question_command, opened};
ghost use Rattle.mk_evidence.specs.Grades.{evidence_grade};
ghost use Rattle.mk_evidence.specs.Evidence.{IsAskedFor, IsEditEvidence};

use mk_answers::{Sides, bounds_of};
use mk_asking::{Decided, learn, refuse_decided};
use mk_engine::{Engine, TreeGraded};
use mk_file::MarketFile;
use mk_market::Market;
use mk_names::Name;
use mk_net::{Question, QuestionText};
use mk_quote::Bounds;
use mk_record::{EditWish, Journal, Request, Users, refuse_edit, refuse_limits};
use mk_reply::Refusal;
use mk_semiring::{MinProd, SumProd};

/// What an auditor judges the limits and the edits of a question by: the number of its user, the
/// question in numbers, and bounds of both of its sides.
#[derive(Clone, Copy, Debug)]
pub struct EditEvidence {
    pub user: u32,
    pub question: Question,
    pub bounds: Bounds,
}

/// The bounds of a question for a user, by which `limits` is answered. The market stays as it
/// stood, and the user's assets learn what is known.
pub fn limits_evidence<P: TreeGraded<SumProd>, A: TreeGraded<MinProd>>(
    market: &mut Market<P, A>,
    name: &Name,
    question: &QuestionText,
) -> Result<EditEvidence, Refusal>
    ensures same { IsOnlyAsked market.old market.new }
    ensures evidence { IsAskedFor market.old.market (market.old.standing).history
        (command.Limits name.now question.now) result
        (IsEditEvidence market.old.market (market.old.standing).history name.now question.now) }
{
    question_evidence(market, name, question, None)
}

/// The same bounds, by which an edit to so many millionths is answered, whose user has seen a
/// revision. They are found anew also where the user's last quote is of this question. The
/// market stays as it stood, and the user's assets learn what is known.
pub fn edit_evidence<P: TreeGraded<SumProd>, A: TreeGraded<MinProd>>(
    market: &mut Market<P, A>,
    name: &Name,
    question: &QuestionText,
    to: u32,
    at: Option<u32>,
) -> Result<EditEvidence, Refusal>
    ensures same { IsOnlyAsked market.old market.new }
    ensures evidence { IsAskedFor market.old.market (market.old.standing).history
        (command.Edit name.now question.now to at) result
        (IsEditEvidence market.old.market (market.old.standing).history name.now question.now) }
{
    question_evidence(market, name, question, Some((to, at)))
}

/// The same bounds, for limits or for an edit that is wished: its millionths, and the revision that
/// its user has seen.
fn question_evidence<P: TreeGraded<SumProd>, A: TreeGraded<MinProd>>(
    market: &mut Market<P, A>,
    name: &Name,
    question: &QuestionText,
    wish: Option<(u32, Option<u32>)>,
) -> Result<EditEvidence, Refusal>
    ensures same { IsOnlyAsked market.old market.new }
    ensures evidence { IsAskedFor market.old.market (market.old.standing).history
        (question_command name.now question.now wish) result
        (IsEditEvidence market.old.market (market.old.standing).history name.now question.now) }
{
    let request = refuse_question(
        &market.file,
        &market.journal,
        &market.users,
        name,
        question,
        wish,
    )?;
    match edit_bounds(
        &market.file,
        &mut market.prices,
        &mut market.users,
        &market.journal,
        &request,
    ) {
        Ok(bounds) => Ok(EditEvidence {
            user: request.user,
            question: request.question,
            bounds,
        }),
        Err(why) => Err(refuse_decided(&mut market.prices, question, &request, why)),
    }
}

/// What the record refuses limits or a wished edit for, and else the request in numbers.
fn refuse_question<A: Engine<MinProd>>(
    file: &MarketFile,
    journal: &Journal,
    users: &Users<A>,
    name: &Name,
    question: &QuestionText,
    wish: Option<(u32, Option<u32>)>,
) -> Result<Request, Refusal>
    requires named { names_of users.now ≡ users_of journal.now.history }
    requires max_trades { journal.now.max_trades ≡ file.now.max_trades }
    ensures refusal { refusal_in result ≡ first_of (refusals_by_record
        (market_of file.now) journal.now.history (question_command name.now question.now wish)) }
    ensures request { IfOk result
        (IsRequestFor file.now journal.now.history name.now question.now) }
{
    match wish {
        Some((to, at)) => {
            let wish = EditWish { question, to, at };
            refuse_edit(file, journal, users, name, &wish)
        }
        None => refuse_limits(file, journal, users, name, question),
    }
}

/// The bounds of both sides of a request's question, or what decides the question. The engine
/// stands for what it stood for, and the user's assets learn what is known.
fn edit_bounds<P: TreeGraded<SumProd>, A: TreeGraded<MinProd>>(
    file: &MarketFile,
    prices: &mut P,
    users: &mut Users<A>,
    journal: &Journal,
    request: &Request,
) -> Result<Bounds, Decided>
    requires { CanFindBoth P.stands_for A.stands_for file.now journal.now.history prices.old
        users.old request.now }
    ensures prices { (m : Meaning) → P.stands_for prices.old m → P.stands_for prices.new m }
    ensures users { AreAsked A.stands_for file.now journal.now.history users.old users.new }
    ensures bounds { MatchResult result
        (AreBothFound (evidence_grade (market_of file.now) journal.now.history)
        file.now.net journal.now.history request.now.user request.now.question)
        (IsDecidedBy file.now.net journal.now.history request.now.question) }
{
    let Request {
        user,
        question: asked,
        home,
    } = *request;
    learn(users, file, journal, user);
    let sides = bounds_of(prices, users.assets(user), &file.net, home, &asked);
    opened(sides)
}

/// The bounds of both sides where both can come, or what decides the question.
fn opened(sides: Sides) -> Result<Bounds, Decided>
    ensures { result ≡ opened sides }
{
    match sides {
        Sides::Open(bounds) => Ok(bounds),
        Sides::Impossible => Err(Decided::Impossible),
        Sides::Never => Err(Decided::Never),
        Sides::Sure => Err(Decided::Sure),
    }
}
