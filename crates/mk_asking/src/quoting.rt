//! The quotes by which edits are judged.

ghost use Rattle.std.specs.Prelude.{◌≡◌, ◌<◌, ℕ, List, length, Some, Ok, slice_get};
ghost use Rattle.std.specs.Prelude.{IfSome, IfNone, MatchResult};
ghost use Rattle.mk_asking.specs.Below.{pairs_asked, revision, home, Meaning, IsFor, CanBeAnswered};
ghost use Rattle.mk_asking.specs.Below.{AreSidesFor, Entry, GivenTree, Variable};
ghost use Rattle.mk_asking.specs.Below.{names_of, quotes_of};
ghost use Rattle.mk_quote.specs.declared.quote.Quote.{Quote as Held};
ghost use Rattle.mk_asking.specs.Apart.{OwnApart};
ghost use Rattle.mk_asking.specs.Keeping.{AreHeld, AreKeptQuotes};
ghost use Rattle.mk_asking.specs.Quoting.{AreInUse, IsQuoteOf};
ghost use Rattle.mk_asking.specs.Stopped.{IsDecidedBy};

use crate::learning::learn;
use crate::possible::Decided;
use mk_answers::{Sides, bounds_of};
use mk_engine::Engine;
use mk_file::MarketFile;
use mk_net::Question;
use mk_quote::Quote;
use mk_record::{Journal, LastQuote, Request, Users};
use mk_semiring::{MinProd, SumProd};

/// A quote of a question for a user at the present revision, made anew, or what decides the question. The engine stands for what
/// it stood for, and the user's assets learn what is known.
pub fn fresh_quote<P: Engine<SumProd>, A: Engine<MinProd>>(
    file: &MarketFile,
    prices: &mut P,
    users: &mut Users<A>,
    journal: &Journal,
    request: &Request,
) -> Result<Quote, Decided>
    requires in_use { AreInUse P.stands_for A.stands_for file.now.net file.now.tree journal.now.history prices.old users.old }
    requires user { request.now.user < length users.old }
    requires answered { CanBeAnswered file.now.net file.now.tree journal.now.history
        request.now.question }
    requires home { home file.now.tree (pairs_asked request.now.question) ≡ Some request.now.home }
    ensures prices { (m : Meaning) → P.stands_for prices.old m → P.stands_for prices.new m }
    ensures held { AreHeld A.stands_for file.now.net file.now.tree journal.now.history users.new }
    ensures names { names_of users.new ≡ names_of users.old }
    ensures apart { OwnApart request.now.user users.old users.new }
    ensures quotes { quotes_of users.new ≡ quotes_of users.old }
    ensures quote { MatchResult result (λ quote. IsQuoteOf file.now.net file.now.tree
        journal.now.history request.now.user request.now.question quote)
        (λ why. IsDecidedBy file.now.net journal.now.history request.now.question why) }
{
    let Request {
        user,
        question,
        home,
    } = *request;
    learn(users, file, journal, user);
    let sides = bounds_of(prices, users.assets(user), &file.net, home, &question);
    quote_by(sides, user, question, journal.revision())
}

/// The quote that has the bounds of both sides of a question, or what decides the question.
fn quote_by(sides: Sides, user: u32, question: Question, present: u64) -> Result<Quote, Decided>
    ensures { (network : List Variable) (tree : GivenTree) (H : List Entry) → present ≡ revision H
        → CanBeAnswered network tree H question → AreSidesFor network H user question sides
        → MatchResult result (λ quote. IsQuoteOf network tree H user question quote)
        (λ why. IsDecidedBy network H question why) }
{
    match sides {
        Sides::Open(bounds) => Ok(Quote::make(user, question, present, &bounds)),
        Sides::Impossible => Err(Decided::Impossible),
        Sides::Never => Err(Decided::Never),
        Sides::Sure => Err(Decided::Sure),
    }
}

/// A user's last quote, where it was made for a question at a revision.
fn last_quote<A: Engine<MinProd>>(
    users: &Users<A>,
    user: u32,
    asked: &Question,
    revision: u64,
) -> Option<Quote>
    requires { user < length users.now }
    ensures some { IfSome result (λ quote. slice_get (quotes_of users.now) user ≡ Some (Some (LastQuote.Limits quote))) }
    ensures its { IfSome result (λ quote. IsFor quote asked.now revision) }
    ensures none { IfNone result ((quote : Held) → slice_get (quotes_of users.now) user ≡ Some (Some (LastQuote.Limits quote)) → ¬ IsFor quote asked.now revision) }
{
    match users.quote(user) {
        Some(LastQuote::Limits { quote }) if quote.is_for(asked, revision) => Some(*quote),
        _ => None,
    }
}

/// A quote of a question for a user at the present revision: the user's last one where it is, or one made anew, or what decides the
/// question. The engine stands for what it stood for, and a user for whom a quote is made anew learns what is known.
pub fn present_quote<P: Engine<SumProd>, A: Engine<MinProd>>(
    file: &MarketFile,
    prices: &mut P,
    users: &mut Users<A>,
    journal: &Journal,
    request: &Request,
) -> Result<Quote, Decided>
    requires in_use { AreInUse P.stands_for A.stands_for file.now.net file.now.tree journal.now.history prices.old users.old }
    requires quotes { AreKeptQuotes file.now.net file.now.tree journal.now.history (quotes_of users.old) }
    requires user { request.now.user < length users.old }
    requires answered { CanBeAnswered file.now.net file.now.tree journal.now.history
        request.now.question }
    requires home { home file.now.tree (pairs_asked request.now.question) ≡ Some request.now.home }
    ensures prices { (m : Meaning) → P.stands_for prices.old m → P.stands_for prices.new m }
    ensures held { AreHeld A.stands_for file.now.net file.now.tree journal.now.history users.new }
    ensures names { names_of users.new ≡ names_of users.old }
    ensures apart { OwnApart request.now.user users.old users.new }
    ensures quotes { quotes_of users.new ≡ quotes_of users.old }
    ensures quote { MatchResult result (λ quote. IsQuoteOf file.now.net file.now.tree
        journal.now.history request.now.user request.now.question quote)
        (λ why. IsDecidedBy file.now.net journal.now.history request.now.question why) }
    ensures last { (quote : Held)
        → slice_get (quotes_of users.old) request.now.user ≡ Some (Some (LastQuote.Limits quote))
        → IsFor quote request.now.question (revision journal.now.history) → result ≡ Ok quote }
{
    match last_quote(users, request.user, &request.question, journal.revision()) {
        Some(quote) => Ok(quote),
        None => fresh_quote(file, prices, users, journal, request),
    }
}
