//! Bounds of each value of a variable, by which an auditor judges its bounds and its spreads.

ghost use Rattle.std.specs.Prelude.{◌≡◌, ℕ, List, length, slice_index, ⊤, MatchResult};
ghost use Rattle.mk_evidence.specs.Below.{Variable, sizes, Meaning, spread_in, GivenTree};
ghost use Rattle.mk_evidence.specs.Below.{CanBeSpreadHere, IsOnlyAsked, IsSpreadQuoteOf};
ghost use Rattle.mk_evidence.specs.Below.{CanRefuseSpread, market_of};
ghost use Rattle.mk_command.specs.declared.command.Command.TheVariants as command;
ghost use Rattle.mk_evidence.specs.inner.Finding.{CanFindEach, AreEachFound, ArePlacedBounds};
ghost use Rattle.mk_evidence.specs.inner.Finding.{AreAsked, IsDecidedAnew, IsStoppedAnew};
ghost use Rattle.mk_evidence.specs.inner.Finding.{IsTold, opened_each};
ghost use Rattle.mk_evidence.specs.Grades.{evidence_grade};
ghost use Rattle.mk_evidence.specs.Evidence.{IsAskedFor, IsSpreadEvidence};

use arrayvec::ArrayVec;
use mk_answers::{SpreadSides, spread_bounds_of};
use mk_asking::{SpreadDecided, Stopped, learn, refuse_stopped};
use mk_engine::TreeGraded;
use mk_file::MarketFile;
use mk_market::Market;
use mk_names::Name;
use mk_net::{Network, PairText};
use mk_quote::{SpreadBounds, SpreadQuestion, SpreadQuote};
use mk_record::{Journal, SpreadRequest, SpreadWish, Users, refuse_bounds, refuse_spread};
use mk_reply::Refusal;
use mk_semiring::{MinProd, SumProd};

/// What an auditor judges the bounds and the spreads of a variable by: the number of their user,
/// the question in numbers, and bounds of each value.
#[derive(Debug, Drop)]
pub struct SpreadEvidence {
    pub user: u32,
    pub question: SpreadQuestion,
    pub bounds: SpreadBounds,
}

/// The bounds of each value that a request asks about, or what decides the question. The engine
/// stands for what it stood for, and the user's assets learn what is known.
fn spread_bounds<P: TreeGraded<SumProd>, A: TreeGraded<MinProd>>(
    file: &MarketFile,
    prices: &mut P,
    users: &mut Users<A>,
    journal: &Journal,
    request: &SpreadRequest,
) -> Result<SpreadBounds, Stopped>
    requires { CanFindEach P.stands_for A.stands_for file.now journal.now.history prices.old
        users.old request.now }
    ensures prices { (m : Meaning) → P.stands_for prices.old m → P.stands_for prices.new m }
    ensures users { AreAsked A.stands_for file.now journal.now.history users.old users.new }
    ensures bounds { MatchResult result
        (AreEachFound (evidence_grade (market_of file.now) journal.now.history)
        file.now.net journal.now.history request.now.user (spread_in request.now.question))
        (IsDecidedAnew file.now.net journal.now.history (spread_in request.now.question)) }
{
    let SpreadRequest {
        user,
        question: asked,
        home,
    } = *request;
    learn(users, file, journal, user);
    let sides = spread_bounds_of(prices, users.assets(user), &file.net, home, &asked);
    opened_each(sides)
}

/// The bounds of each value where two can come, or what decides the question.
fn opened_each(sides: SpreadSides) -> Result<SpreadBounds, Stopped>
    ensures { result ≡ opened_each sides }
{
    match sides {
        SpreadSides::Open(bounds) => Ok(bounds),
        SpreadSides::Impossible => Err(Stopped::Decided(SpreadDecided::Impossible)),
        SpreadSides::Sure(value) => Err(Stopped::Decided(SpreadDecided::Sure(value))),
    }
}

/// The same bounds, or what stops shares before any intervals are asked for: what decides the
/// question, a share of what cannot come, or none of what can.
fn placed_bounds<P: TreeGraded<SumProd>, A: TreeGraded<MinProd>>(
    file: &MarketFile,
    prices: &mut P,
    users: &mut Users<A>,
    journal: &Journal,
    request: &SpreadRequest,
    shares: &[u32],
) -> Result<SpreadBounds, Stopped>
    requires found { CanFindEach P.stands_for A.stands_for file.now journal.now.history prices.old
        users.old request.now }
    requires one_each { length shares.now ≡ slice_index (sizes file.now.net)
        request.now.question.variable }
    ensures prices { (m : Meaning) → P.stands_for prices.old m → P.stands_for prices.new m }
    ensures users { AreAsked A.stands_for file.now journal.now.history users.old users.new }
    ensures placed { MatchResult result
        (λ bounds. ArePlacedBounds (evidence_grade (market_of file.now) journal.now.history)
        file.now.net file.now.tree journal.now.history request.now.user
        (spread_in request.now.question) shares.now bounds)
        (λ why. IsStoppedAnew file.now.net file.now.tree journal.now.history request.now.user
        (spread_in request.now.question) shares.now why) }
{
    let bounds = match spread_bounds(file, prices, users, journal, request) {
        Ok(bounds) => bounds,
        Err(why) => return Err(why),
    };
    let quote = quote_of(journal, request, &bounds);
    if let Some(value) = quote.impossible_share(shares) {
        return Err(Stopped::ImpossibleShare(value));
    }
    if quote.misses_share(shares) {
        return Err(Stopped::MissingShare);
    }
    Ok(bounds)
}

/// A quote that is made of the bounds of a request.
fn quote_of(journal: &Journal, request: &SpreadRequest, bounds: &SpreadBounds) -> SpreadQuote
    ensures { (network : List Variable) (tree : GivenTree) (most : ℕ)
        → CanBeSpreadHere network tree journal.now.history (spread_in request.now.question)
        → AreEachFound most network journal.now.history request.now.user
        (spread_in request.now.question) bounds.now
        → IsSpreadQuoteOf network tree journal.now.history request.now.user
        (spread_in request.now.question) result }
{
    SpreadQuote::make(request.user, request.question, journal.revision(), bounds)
}

/// The bounds of each value of a variable for a user, by which `bounds` is answered. The market
/// stays as it stood, and the user's assets learn what is known.
pub fn bounds_evidence<P: TreeGraded<SumProd>, A: TreeGraded<MinProd>>(
    market: &mut Market<P, A>,
    name: &Name,
    variable: &Name,
    condition: &ArrayVec<PairText, 8>,
) -> Result<SpreadEvidence, Refusal>
    ensures same { IsOnlyAsked market.old market.new }
    ensures evidence { IsAskedFor market.old.market (market.old.standing).history
        (command.Bounds name.now variable.now condition.now) result
        (IsSpreadEvidence market.old.market (market.old.standing).history name.now variable.now
        condition.now) }
{
    let words = condition.as_slice();
    let request = refuse_bounds(
        &market.file,
        &market.journal,
        &market.users,
        name,
        variable,
        words,
    )?;
    let found = spread_bounds(
        &market.file,
        &mut market.prices,
        &mut market.users,
        &market.journal,
        &request,
    );
    told(
        &mut market.prices,
        &market.file.net,
        variable,
        words,
        &request,
        found,
    )
}

/// The same bounds, by which a spread to so many millionths each is answered, whose user has
/// seen a revision. They are found anew also where the user's last quote is of this spread. The
/// market stays as it stood, and the user's assets learn what is known.
pub fn spread_evidence<'a, P: TreeGraded<SumProd>, A: TreeGraded<MinProd>>(
    market: &mut Market<P, A>,
    name: &Name,
    variable: &'a Name,
    condition: &'a ArrayVec<PairText, 8>,
    to: &'a ArrayVec<u32, 16>,
    at: Option<u32>,
) -> Result<SpreadEvidence, Refusal>
    ensures same { IsOnlyAsked market.old market.new }
    ensures evidence { IsAskedFor market.old.market (market.old.standing).history
        (command.Spread name.now variable.now condition.now to.now at) result
        (IsSpreadEvidence market.old.market (market.old.standing).history name.now variable.now
        condition.now) }
{
    let words = condition.as_slice();
    let shares = to.as_slice();
    let wish = SpreadWish {
        variable,
        condition: words,
        to: shares,
        at,
    };
    let request = refuse_spread(&market.file, &market.journal, &market.users, name, &wish)?;
    let found = placed_bounds(
        &market.file,
        &mut market.prices,
        &mut market.users,
        &market.journal,
        &request,
        shares,
    );
    told(
        &mut market.prices,
        &market.file.net,
        variable,
        words,
        &request,
        found,
    )
}

/// Evidence of the bounds that were found for a request, or the refusal of what stopped them, in
/// the words of the request. The engine stands for what it stood for.
fn told<P: TreeGraded<SumProd>>(
    prices: &mut P,
    net: &Network,
    variable: &Name,
    words: &[PairText],
    request: &SpreadRequest,
    found: Result<SpreadBounds, Stopped>,
) -> Result<SpreadEvidence, Refusal>
    requires { MatchResult found (λ _. ⊤) (CanRefuseSpread P.stands_for prices.old net.now
        variable.now words.now request.now) }
    ensures prices { (m : Meaning) → P.stands_for prices.old m → P.stands_for prices.new m }
    ensures told { IsTold P.stands_for prices.old net.now variable.now words.now request.now found
        result }
{
    match found {
        Ok(bounds) => Ok(SpreadEvidence {
            user: request.user,
            question: request.question,
            bounds,
        }),
        Err(why) => Err(refuse_stopped(prices, net, variable, words, request, why)),
    }
}
