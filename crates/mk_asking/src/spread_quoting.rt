//! The quotes by which spreads are judged.

ghost use Rattle.std.specs.Prelude.{◌≡◌, ◌<◌, ◌≤◌, ℕ, List, length, Some, slice_get};
ghost use Rattle.std.specs.Prelude.{slice_index, IfSome, IfNone, MatchResult};
ghost use Rattle.mk_asking.specs.Below.{max_values, pairs_asked, sizes, asked_of, home, Meaning};
ghost use Rattle.mk_asking.specs.Below.{spread_in, sides_of, IsSpreadFor, CanBeSpreadHere};
ghost use Rattle.mk_asking.specs.Below.{AreSpreadSidesFor, Entry, GivenTree, Variable};
ghost use Rattle.mk_asking.specs.Below.{names_of, quotes_of, revision};
ghost use Rattle.mk_quote.specs.declared.spread_quote.SpreadQuote.{SpreadQuote as Held};
ghost use Rattle.mk_asking.specs.Apart.{OwnApart};
ghost use Rattle.mk_asking.specs.Keeping.{AreHeld, AreKeptQuotes};
ghost use Rattle.mk_asking.specs.Quoting.{AreInUse, IsSpreadQuoteOf, IsInside, IsStopped, IsTaken, IsTurnedDown};
ghost use Rattle.mk_asking.specs.Stopped.{IsSpreadDecidedBy};

use crate::learning::learn;
use crate::possible::{SpreadDecided, Stopped};
use arrayvec::ArrayVec;
use mk_answers::{SpreadSides, spread_bounds_of};
use mk_engine::Engine;
use mk_file::MarketFile;
use mk_quote::{SpreadQuestion, SpreadQuote};
use mk_record::{Journal, LastQuote, SpreadRequest, Users};
use mk_semiring::{MinProd, SumProd};

/// A quote of a spread for a user at the present revision, made anew, or what decides the spread. The engine stands for what it
/// stood for, and the user's assets learn what is known.
pub fn fresh_spread_quote<P: Engine<SumProd>, A: Engine<MinProd>>(
    file: &MarketFile,
    prices: &mut P,
    users: &mut Users<A>,
    journal: &Journal,
    request: &SpreadRequest,
) -> Result<SpreadQuote, SpreadDecided>
    requires in_use { AreInUse P.stands_for A.stands_for file.now.net file.now.tree journal.now.history prices.old users.old }
    requires user { request.now.user < length users.old }
    requires answered { CanBeSpreadHere file.now.net file.now.tree journal.now.history
        (spread_in request.now.question) }
    requires home { home file.now.tree (pairs_asked (asked_of (spread_in request.now.question) 0)) ≡
        Some request.now.home }
    ensures prices { (m : Meaning) → P.stands_for prices.old m → P.stands_for prices.new m }
    ensures held { AreHeld A.stands_for file.now.net file.now.tree journal.now.history users.new }
    ensures names { names_of users.new ≡ names_of users.old }
    ensures apart { OwnApart request.now.user users.old users.new }
    ensures quotes { quotes_of users.new ≡ quotes_of users.old }
    ensures quote { MatchResult result (λ quote. IsSpreadQuoteOf file.now.net file.now.tree
        journal.now.history request.now.user (spread_in request.now.question) quote)
        (λ why. IsSpreadDecidedBy file.now.net journal.now.history (spread_in request.now.question) why) }
{
    let SpreadRequest {
        user,
        question,
        home,
    } = *request;
    learn(users, file, journal, user);
    let sides = spread_bounds_of(prices, users.assets(user), &file.net, home, &question);
    spread_quote_by(sides, user, question, journal.revision())
}

/// The quote that has the bounds of each value for a user, or what decides the spread.
fn spread_quote_by(
    sides: SpreadSides,
    user: u32,
    question: SpreadQuestion,
    present: u64,
) -> Result<SpreadQuote, SpreadDecided>
    ensures { (network : List Variable) (tree : GivenTree) (H : List Entry) → present ≡ revision H
        → CanBeSpreadHere network tree H (spread_in question)
        → AreSpreadSidesFor network H user (spread_in question) sides
        → MatchResult result
        (λ quote. IsSpreadQuoteOf network tree H user (spread_in question) quote)
        (λ why. IsSpreadDecidedBy network H (spread_in question) why) }
{
    match sides {
        SpreadSides::Open(bounds) => Ok(SpreadQuote::make(user, question, present, &bounds)),
        SpreadSides::Impossible => Err(SpreadDecided::Impossible),
        SpreadSides::Sure(value) => Err(SpreadDecided::Sure(value)),
    }
}

/// A user's last quote, where it was made for a spread at a revision.
fn last_spread_quote<'a, A: Engine<MinProd>>(
    users: &'a Users<A>,
    user: u32,
    asked: &SpreadQuestion,
    revision: u64,
) -> Option<&'a SpreadQuote>
    requires { user < length users.now }
    ensures some { IfSome result (λ quote. slice_get (quotes_of users.now) user ≡ Some (Some (LastQuote.Bounds quote.now))) }
    ensures its { IfSome result (λ quote. IsSpreadFor quote.now (spread_in asked.now) revision) }
    ensures none { IfNone result ((quote : Held) → slice_get (quotes_of users.now) user ≡ Some (Some (LastQuote.Bounds quote)) → ¬ IsSpreadFor quote (spread_in asked.now) revision) }
{
    match users.quote(user) {
        Some(LastQuote::Bounds { quote }) if quote.is_for(asked, revision) => Some(quote),
        _ => None,
    }
}

/// The units for some shares where they are inside of a quote, and else what stops them: a share of what cannot come, none of what
/// can, or the intervals that they are outside of.
fn judged_by(quote: &SpreadQuote, shares: &[u32]) -> Result<ArrayVec<u64, 16>, Stopped>
    requires one_each { length shares.now ≡ length (sides_of quote.now) }
    requires few { length shares.now ≤ max_values }
    ensures { MatchResult result (λ units. IsInside quote.now shares.now units.items) (λ why. IsStopped quote.now shares.now why) }
{
    if let Some(units) = quote.judge(shares) {
        return Ok(units);
    }
    if let Some(value) = quote.impossible_share(shares) {
        return Err(Stopped::ImpossibleShare(value));
    }
    if quote.misses_share(shares) {
        return Err(Stopped::MissingShare);
    }
    Err(Stopped::Outside(quote.intervals()))
}

/// Judges the shares of a spread by the user's last quote, where that is of this spread and of the present revision, and
/// else by one made anew, which shares outside of its intervals leave as the last. The engine stands for what it stood for, and a
/// user for whom a quote is made anew learns what is known.
pub fn judge_spread<P: Engine<SumProd>, A: Engine<MinProd>>(
    file: &MarketFile,
    prices: &mut P,
    users: &mut Users<A>,
    journal: &Journal,
    request: &SpreadRequest,
    shares: &[u32],
) -> Result<ArrayVec<u64, 16>, Stopped>
    requires in_use { AreInUse P.stands_for A.stands_for file.now.net file.now.tree journal.now.history prices.old users.old }
    requires quotes { AreKeptQuotes file.now.net file.now.tree journal.now.history (quotes_of users.old) }
    requires user { request.now.user < length users.old }
    requires answered { CanBeSpreadHere file.now.net file.now.tree journal.now.history
        (spread_in request.now.question) }
    requires home { home file.now.tree (pairs_asked (asked_of (spread_in request.now.question) 0)) ≡
        Some request.now.home }
    requires one_each { length shares.now ≡ slice_index (sizes file.now.net)
        request.now.question.variable }
    ensures prices { (m : Meaning) → P.stands_for prices.old m → P.stands_for prices.new m }
    ensures held { AreHeld A.stands_for file.now.net file.now.tree journal.now.history users.new }
    ensures names { names_of users.new ≡ names_of users.old }
    ensures apart { OwnApart request.now.user users.old users.new }
    ensures judged { MatchResult result
        (λ units. IsTaken file.now.net file.now.tree journal.now.history request.now.user (spread_in request.now.question) (quotes_of users.old) (quotes_of users.new) shares.now units.items)
        (λ why. IsTurnedDown file.now.net file.now.tree journal.now.history request.now.user (spread_in request.now.question) (quotes_of users.old) (quotes_of users.new) shares.now why) }
{
    if let Some(quote) = last_spread_quote(
        users,
        request.user,
        &request.question,
        journal.revision(),
    ) {
        return judged_by(quote, shares);
    }
    let quote = match fresh_spread_quote(file, prices, users, journal, request) {
        Ok(quote) => quote,
        Err(why) => return Err(Stopped::Decided(why)),
    };
    match judged_by(&quote, shares) {
        Ok(units) => Ok(units),
        Err(why) => {
            if why.is_outside() {
                users.set_quote(request.user, LastQuote::Bounds { quote });
            }
            Err(why)
        }
    }
}
