//! What `bounds` and `spread` are refused for, first to last.

ghost use Rattle.std.specs.Prelude.{◌≡◌, ◌≤◌, ◌<◌, ◌-◌, ◌^◌, ℕ, List, [], ◌∷◌, length, sum, Some, None, IfOk};
ghost use Rattle.mk_record.specs.Below.{ArrayVec, max_condition, max_values, million, IsEvent};
ghost use Rattle.mk_record.specs.Below.{pairs_asked, first_of, variable_named, Variable, asked_of};
ghost use Rattle.mk_record.specs.Below.{home, market_of, spread_in};
ghost use Rattle.mk_net.specs.declared.words.PairText.{PairText};
ghost use Rattle.mk_exact.specs.History as history;
ghost use Rattle.mk_command.specs.declared.command.Command.TheVariants as command;
ghost use Rattle.mk_rules.specs.Refusals as rules;
ghost use Rattle.mk_record.specs.Members.{names_of};
ghost use Rattle.mk_record.specs.Refused.{refusal_in, IsUser, IsSpreadQuestionFor};

use crate::asking::ask_spread;
use crate::journal::Journal;
use crate::refusals::{
    agrees, find_user, home_in, not_resolved, not_settled, not_stale, refuse_if, room_for_trade,
};
use crate::requests::{SpreadRequest, SpreadWish};
use crate::users::Users;
use mk_engine::Engine;
use mk_file::MarketFile;
use mk_names::Name;
use mk_names::limits::{MAX_SHARE, MILLION};
use mk_net::{Event, Network, Pair, PairText};
use mk_quote::SpreadQuestion;
use mk_reply::Refusal;
use mk_semiring::MinProd;

/// What `bounds` and `position` are refused for by the record: a settlement, an unknown user, a
/// variable that is unknown, a pair of the condition that is, a variable that occurs twice, one
/// that is asked about and resolved, a condition that a resolution contradicts, and a question that
/// no clique holds.
pub fn refuse_bounds<A: Engine<MinProd>>(
    file: &MarketFile,
    journal: &Journal,
    users: &Users<A>,
    name: &Name,
    variable: &Name,
    condition: &[PairText],
) -> Result<SpreadRequest, Refusal>
    requires few { length condition.now ≤ max_condition }
    requires named { names_of users.now ≡ history.users journal.now.history }
    ensures refusal { (pairs : ArrayVec PairText) → pairs.items ≡ condition.now
        → refusal_in result ≡ first_of (rules.refusals_by_record (market_of file.now) journal.now.history (command.Bounds name.now variable.now pairs)) }
    ensures user { IfOk result (λ found. IsUser journal.now.history name.now found.user) }
    ensures question { IfOk result (λ found. IsSpreadQuestionFor (market_of file.now) file.now.tree
        journal.now.history variable.now condition.now (spread_in found.question)) }
    ensures home { IfOk result (λ found. home file.now.tree
        (pairs_asked (asked_of (spread_in found.question) 0)) ≡ Some found.home) }
{
    not_settled(journal)?;
    let user = find_user(users, name)?;
    let asked = ask_spread(&file.net, variable, condition)?;
    let home = can_be_spread(file, journal, variable, condition, &asked)?;
    Ok(SpreadRequest {
        user,
        question: asked,
        home,
    })
}

/// What `prices` is refused for by the record: as `bounds`, but for the user. Else the question has
/// a home.
pub fn refuse_prices(
    file: &MarketFile,
    journal: &Journal,
    variable: &Name,
    condition: &[PairText],
) -> Result<(SpreadQuestion, u32), Refusal>
    requires few { length condition.now ≤ max_condition }
    ensures refusal { (pairs : ArrayVec PairText) → pairs.items ≡ condition.now
        → refusal_in result ≡ first_of (rules.refusals_by_record (market_of file.now)
        journal.now.history (command.Prices variable.now pairs)) }
    ensures question { IfOk result (λ found. IsSpreadQuestionFor (market_of file.now) file.now.tree
        journal.now.history variable.now condition.now (spread_in found.0)) }
    ensures home { IfOk result (λ found. home file.now.tree
        (pairs_asked (asked_of (spread_in found.0) 0)) ≡ Some found.1) }
{
    not_settled(journal)?;
    let asked = ask_spread(&file.net, variable, condition)?;
    let home = can_be_spread(file, journal, variable, condition, &asked)?;
    Ok((asked, home))
}

/// What `spread` is refused for by the record: as `bounds`, behind a variable that occurs twice for a
/// revision that is not the present one, and at last for shares that are no distribution of the variable, and for as many
/// trades as the market takes.
pub fn refuse_spread<A: Engine<MinProd>>(
    file: &MarketFile,
    journal: &Journal,
    users: &Users<A>,
    name: &Name,
    wish: &SpreadWish,
) -> Result<SpreadRequest, Refusal>
    requires few_pairs { length wish.now.condition.now ≤ max_condition }
    requires few_shares { length wish.now.to.now ≤ max_values }
    requires named { names_of users.now ≡ history.users journal.now.history }
    requires max_trades { journal.now.max_trades ≡ file.now.max_trades }
    ensures refusal { (pairs : ArrayVec PairText) (shares : ArrayVec ℕ)
        → pairs.items ≡ wish.now.condition.now → shares.items ≡ wish.now.to.now
        → refusal_in result ≡ first_of (rules.refusals_by_record (market_of file.now)
        journal.now.history (command.Spread name.now wish.now.variable.now pairs shares
        wish.now.at)) }
    ensures user { IfOk result (λ found. IsUser journal.now.history name.now found.user) }
    ensures question { IfOk result (λ found. IsSpreadQuestionFor (market_of file.now) file.now.tree
        journal.now.history wish.now.variable.now wish.now.condition.now (spread_in found.question)) }
    ensures home { IfOk result (λ found. home file.now.tree
        (pairs_asked (asked_of (spread_in found.question) 0)) ≡ Some found.home) }
    ensures room { IfOk result (λ _. length (history.trades journal.now.history) < journal.now.max_trades) }
{
    not_settled(journal)?;
    let user = find_user(users, name)?;
    let asked = ask_spread(&file.net, wish.variable, wish.condition)?;
    not_stale(journal, wish.at)?;
    let home = can_be_spread(file, journal, wish.variable, wish.condition, &asked)?;
    is_distribution(file, asked.variable, wish.to)?;
    room_for_trade(journal)?;
    Ok(SpreadRequest {
        user,
        question: asked,
        home,
    })
}

/// The home of a spread. It is refused by its variable, its condition and its cliques, in this
/// order.
fn can_be_spread(
    file: &MarketFile,
    journal: &Journal,
    variable: &Name,
    condition: &[PairText],
    asked: &SpreadQuestion,
) -> Result<u32, Refusal>
    requires named { rules.spread_named file.now.net variable.now condition.now ≡ Some (spread_in asked.now) }
    requires known { rules.unknown file.now.net condition.now ≡ None }
    ensures refusal { refusal_in result ≡ first_of (rules.resolved file.now.net journal.now.history variable.now
        ∷ rules.impossible file.now.net journal.now.history condition.now
        ∷ rules.wide_spread (market_of file.now) journal.now.history variable.now condition.now ∷ []) }
    ensures question { IfOk result (λ _. IsSpreadQuestionFor (market_of file.now) file.now.tree journal.now.history variable.now condition.now (spread_in asked.now)) }
    ensures home { IfOk result (λ found. home file.now.tree
        (pairs_asked (asked_of (spread_in asked.now) 0)) ≡ Some found) }
{
    not_resolved(journal, variable, asked.variable)?;
    agrees(journal, &asked.condition, condition)?;
    home_in(&file.tree, &event_of(asked))
}

/// The condition's pairs, and the variable with its first value. A clique that holds them holds each value.
fn event_of(asked: &SpreadQuestion) -> Event
    ensures pairs { result ≡ pairs_asked (asked_of (spread_in asked.now) 0) }
    ensures event { IsEvent (pairs_asked (asked_of (spread_in asked.now) 0)) }
{
    let first = Pair {
        variable: asked.variable,
        value: 0,
    };
    asked.condition.with(first).unwrap_or(asked.condition)
}

/// There is to be one share for each value, each of 1 to 999,999, or of nothing where the market has shares of nothing, and a
/// million of all.
fn is_distribution(file: &MarketFile, variable: u32, to: &[u32]) -> Result<(), Refusal>
    requires variable { variable < length file.now.net }
    requires few { length to.now ≤ max_values }
    ensures { (name : List ℕ) (named : Variable) → variable_named file.now.net name ≡ Some (variable, named)
        → refusal_in result ≡ first_of (rules.numbers file.now.net name to.now
        ∷ rules.ranges (rules.least_share (market_of file.now)) (million - 1) to.now ∷ rules.sums to.now ∷ []) }
{
    one_for_each(&file.net, variable, to)?;
    let least = if file.zeros { 0 } else { 1 };
    all_in_range(to, least, MAX_SHARE)?;
    is_million(to)
}

/// As many numbers are to be given as the variable has values.
fn one_for_each(net: &Network, variable: u32, to: &[u32]) -> Result<(), Refusal>
    requires variable { variable < length net.now }
    requires few { length to.now ≤ max_values }
    ensures { (name : List ℕ) (named : Variable) → variable_named net.now name ≡ Some (variable, named)
        → refusal_in result ≡ rules.numbers net.now name to.now }
{
    let given = to.len() as u32;
    refuse_if(given != net.values(variable), Refusal::Numbers { given })
}

/// Each number is to be from a least to a most.
pub fn all_in_range(numbers: &[u32], least: u32, most: u32) -> Result<(), Refusal>
    ensures { refusal_in result ≡ rules.ranges least most numbers.now }
{
    for number in numbers {
        refuse_if(
            *number < least || *number > most,
            Refusal::Range { number: *number },
        )?;
    }
    Ok(())
}

/// The numbers are to make a million.
pub fn is_million(to: &[u32]) -> Result<(), Refusal>
    requires { sum to.now < 2 ^ 32 }
    ensures { refusal_in result ≡ rules.sums to.now }
{
    let sum = to.iter().sum();
    refuse_if(sum != MILLION, Refusal::Sum { sum })
}
