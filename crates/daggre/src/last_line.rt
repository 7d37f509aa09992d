//! The line behind the replies of a run, which answers what is asked of the last history.

ghost use Rattle.std.specs.Prelude.{◌≡◌, ◌+◌, ◌++◌, ◌<◌, ◌≤◌, None, IfOk, length, codes};
ghost use Rattle.std.specs.Prelude.{slice_index};
ghost use Rattle.daggre.specs.Below.{array_string_len, sizes, IsState, ArePairsOf, known_pairs};
ghost use Rattle.daggre.specs.Below.{IsMarket, items_text, pair_text, signed_decimal};
ghost use Rattle.daggre.specs.LastLine.{Answers, IsLastLine, SaysBest, SaysChance, best_line};
ghost use Rattle.daggre.specs.LastLine.{SaysOfUser, chance_line, expect_line, first_unknown};
ghost use Rattle.daggre.specs.LastLine.{pairs_in, state_pairs};
ghost use Rattle.daggre.specs.inner.Printing.{HasState, pair_words};

use crate::ask::Ask;
use arrayvec::ArrayVec;
use itoa::Buffer;
use mk_best::{Best, Chance, best, chance};
use mk_expect::expect;
use mk_names::Name;
use mk_net::{Network, NoMemory, Pair, PairText};
use mk_reply::{Refusal, Reply};
use mk_session::{LineBuffer, TreeMarket, print_reply_line};
use mk_text::{put_pair, put_price, put_two_prices};
use std::alloc::Global;

/// Puts the last line of a run, behind which something is asked of its market, into `line`, in
/// place of what it held. It fails where memory is wanting.
pub fn print_last(
    alloc: Global,
    market: &TreeMarket,
    ask: &Ask,
    line: &mut LineBuffer,
) -> Result<(), NoMemory>
    requires { IsMarket market.now.market }
    ensures { IfOk result (λ _. IsLastLine market.now.market (market.now.standing).history ask.now
        line.new.bytes) }
{
    match unknown_in(market.network(), ask) {
        Some(pair) => {
            let why = Refusal::Unknown { pair };
            print_reply_line(&Reply::Refused { why }, line);
            Ok(())
        }
        None => print_answer(alloc, market, ask, line),
    }
}

/// The first pair of what is asked that a network does not know.
fn unknown_in(net: &Network, ask: &Ask) -> Option<PairText>
    ensures { result ≡ first_unknown net.now (pairs_in ask.now) }
{
    match ask {
        Ask::Chance { want, given } => match first_unknown(net, want.pairs()) {
            Some(pair) => Some(pair),
            None => first_unknown(net, given.pairs()),
        },
        Ask::Best { given } => first_unknown(net, given.pairs()),
        Ask::Expect { .. } => None,
    }
}

/// The first pair that a network does not know.
fn first_unknown(net: &Network, pairs: &[PairText]) -> Option<PairText>
    ensures { result ≡ first_unknown net.now pairs.now }
{
    for pair in pairs {
        if net.find(pair).is_none() {
            return Some(*pair);
        }
    }
    None
}

/// The pairs that some words name, each of which is known.
fn known(net: &Network, words: &[PairText]) -> ArrayVec<Pair, 64>
    requires few { length words.now ≤ 64 }
    requires known { first_unknown net.now words.now ≡ None }
    ensures same { result.items ≡ known_pairs net.now words.now }
    ensures fit { ArePairsOf net.now result.items }
{
    let mut pairs = ArrayVec::new();
    for word in words {
        let Some(pair) = net.find(word) else {
            unreachable!()
        };
        pairs.push(pair);
    }
    pairs
}

/// Puts the line that answers what is asked in known pairs into `line`, in place of what it held.
fn print_answer(
    alloc: Global,
    market: &TreeMarket,
    ask: &Ask,
    line: &mut LineBuffer,
) -> Result<(), NoMemory>
    requires market { IsMarket market.now.market }
    requires known { first_unknown (market.now.market).network (pairs_in ask.now) ≡ None }
    ensures { IfOk result (λ _. Answers market.now.market (market.now.standing).history ask.now
        line.new.bytes) }
{
    match ask {
        Ask::Chance { want, given } => {
            let want = known(market.network(), want.pairs());
            let given = known(market.network(), given.pairs());
            print_chance(alloc, market, want.as_slice(), given.as_slice(), line)
        }
        Ask::Best { given } => {
            let given = known(market.network(), given.pairs());
            print_best(alloc, market, given.as_slice(), line)
        }
        Ask::Expect { user } => print_expectation(alloc, market, user, line),
    }
}

/// Puts the line of a chance into `line`, in place of what it held.
fn print_chance(
    alloc: Global,
    market: &TreeMarket,
    want: &[Pair],
    given: &[Pair],
    line: &mut LineBuffer,
) -> Result<(), NoMemory>
    requires market { IsMarket market.now.market }
    requires want { ArePairsOf (market.now.market).network want.now }
    requires given { ArePairsOf (market.now.market).network given.now }
    ensures { IfOk result (λ _. SaysChance (market.now.market).network
        (market.now.standing).history want.now given.now line.new.bytes) }
{
    let net = market.network();
    let found = chance(alloc, net, market.tree(), market.history(), want, given)?;
    print_chance_line(&found, line);
    Ok(())
}

/// Puts the line of a best state into `line`, in place of what it held.
fn print_best(
    alloc: Global,
    market: &TreeMarket,
    given: &[Pair],
    line: &mut LineBuffer,
) -> Result<(), NoMemory>
    requires market { IsMarket market.now.market }
    requires given { ArePairsOf (market.now.market).network given.now }
    ensures { IfOk result (λ _. SaysBest (market.now.market).network
        (market.now.standing).history given.now line.new.bytes) }
{
    let net = market.network();
    let found = best(alloc, net, market.tree(), market.history(), given)?;
    print_best_line(net, &found, line);
    Ok(())
}

/// Puts the line of what a user may expect to have into `line`, in place of what it held, or that
/// nobody of this name has joined.
fn print_expectation(
    alloc: Global,
    market: &TreeMarket,
    user: &Name,
    line: &mut LineBuffer,
) -> Result<(), NoMemory>
    requires market { IsMarket market.now.market }
    ensures { IfOk result (λ _. SaysOfUser market.now.market (market.now.standing).history user.now
        line.new.bytes) }
{
    let Some(number) = market.user_number(user) else {
        let why = Refusal::User { user: *user };
        print_reply_line(&Reply::Refused { why }, line);
        return Ok(());
    };
    let net = market.network();
    let points = market.points_per_bit();
    let history = market.history();
    let (low, high) = expect(alloc, net, market.tree(), history, points, number)?;
    print_expect_line(low, high, line);
    Ok(())
}

fn print_chance_line(found: &Chance, line: &mut LineBuffer)
    ensures { line.new.bytes ≡ chance_line found.now }
{
    line.clear();
    match found {
        Chance::Price { low, high } => {
            line.push_str("chance ");
            put_two_prices(line, *low, *high);
            line.push_str("\n");
        }
        Chance::Impossible => line.push_str("refused given\n"),
    }
}

fn print_best_line(net: &Network, found: &Best, line: &mut LineBuffer)
    requires { HasState net.now found.now }
    ensures { line.new.bytes ≡ best_line net.now found.now }
{
    line.clear();
    match found {
        Best::Found {
            low,
            high,
            most,
            value: _,
            state,
        } => {
            line.push_str("best ");
            put_two_prices(line, *low, *high);
            line.push_str(" at most ");
            put_price(line, *most);
            put_state(line, net, state.values());
            line.push_str("\n");
        }
        Best::Impossible => line.push_str("refused given\n"),
    }
}

fn print_expect_line(low: i64, high: i64, line: &mut LineBuffer)
    ensures { line.new.bytes ≡ expect_line low high }
{
    line.clear();
    line.push_str("expect ");
    put_signed(line, low);
    line.push_str("..");
    put_signed(line, high);
    line.push_str("\n");
}

/// Writes a number of points, with a `-` where it is below 0, in at most 20 bytes.
fn put_signed(line: &mut LineBuffer, number: i64)
    requires { array_string_len line.old ≤ 200 }
    ensures text { line.new.bytes ≡ line.old.bytes ++ signed_decimal number }
    ensures growth { array_string_len line.new ≤ array_string_len line.old + 20 }
{
    line.push_str(Buffer::new().format(number));
}

/// Writes a state's pairs, each behind a space, in at most 66 bytes for each variable.
fn put_state(line: &mut LineBuffer, net: &Network, values: &[u32])
    requires state { IsState (sizes net.now) values.now }
    requires room { array_string_len line.old ≤ 200 }
    ensures text { line.new.bytes ≡ line.old.bytes
        ++ items_text (codes " ") pair_text (state_pairs net.now values.now) }
    ensures room { array_string_len line.new ≤ 32000 }
{
    // A network has at most 256 variables.
    let _ = net.variables();
    for (place, value) in values.iter().enumerate() {
        line.push_str(" ");
        put_pair(line, &pair_of(net, place as u32, *value));
    }
}

/// The pair of a variable and a value in words.
fn pair_of(net: &Network, variable: u32, value: u32) -> PairText
    requires variable { variable < length net.now }
    requires value { value < slice_index (sizes net.now) variable }
    ensures { result ≡ pair_words net.now variable value }
{
    PairText {
        variable: net.name(variable),
        value: net.value_name(variable, value),
    }
}
