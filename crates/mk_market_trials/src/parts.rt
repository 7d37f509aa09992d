//! A journal that is filled, and users who join and are found.

ghost use Rattle.std.specs.Prelude.{◌≡◌, []};
ghost use Rattle.mk_tree.specs.Checked.{IsTreeOf};

use crate::coin::{Coin, make_coin};
use mk_assets::Assets;
use mk_enclose::{Enclosure, Factor};
use mk_engine::Engine;
use mk_fixtures::{HEADS, TAILS};
use mk_history::{Entry, Limits, Payout};
use mk_joint::JointEngine;
use mk_names::Name;
use mk_net::{Event, Pair, Question, Ratio};
use mk_quote::{Bounds, Quote};
use mk_record::{Journal, LastQuote, Users};
use mk_semiring::MinProd;
use std::alloc::Global;
use std::process::Abort;
use std::test::Fail;

fn name(rt: &impl Abort, bytes: &[u8]) -> Name {
    Name::read(bytes).expect(rt, "a name")
}

fn tails(rt: &impl Abort) -> Question
    ensures { result ≡ record { target = TAILS; condition = [] } }
{
    Question::make(TAILS, Event::empty()).expect(rt, "a question")
}

/// Trades as long as the market takes trades, three times at most.
fn fill(rt: &impl Abort, journal: &mut Journal) {
    for _ in 0..3 {
        if journal.trades() < journal.max_trades() {
            journal.trade(0, Ratio::of_question(&tails(rt), 2, 7, 5));
        }
    }
}

/// The kind of an entry.
fn kind(entry: &Entry<'_>) -> u8 {
    match entry {
        Entry::Join { .. } => b'j',
        Entry::Deposit { .. } => b'd',
        Entry::Withdraw { .. } => b'w',
        Entry::Trade { .. } => b't',
        Entry::Resolve { .. } => b'r',
        Entry::Settle { .. } => b's',
        Entry::Add { .. } => b'a',
    }
}

/// Stops unless the entries of a journal are of these kinds, in this order.
fn expect_kinds(rt: &impl Abort, journal: &Journal, kinds: &[u8]) {
    let length = journal.length();
    assert!(rt; length as usize == kinds.len());
    for number in 0..length {
        assert!(rt; kind(&journal.entry(number)) == kinds[number as usize]);
    }
}

fn settle(rt: &impl Abort, journal: &mut Journal, payments: Vec<Payout>) {
    assert!(rt; !journal.is_settled());
    journal.settle(payments);
    assert!(rt; journal.is_settled());
}

/// Stops unless one user joined, with two transfers and two trades.
fn expect_filled(rt: &impl Abort, journal: &Journal) {
    assert!(rt; journal.trades() == 2);
    assert!(rt; journal.joined() == 1 && journal.transfers() == 2);
}

/// Resolves a variable, and stops unless one pair alone contradicts that.
fn resolve(rt: &impl Abort, journal: &mut Journal) {
    assert!(rt; journal.known().is_empty());
    journal.resolve(TAILS);
    assert!(rt; journal.known() == [TAILS].as_slice());
    assert!(rt; journal.is_resolved(0) && !journal.is_resolved(1));
    assert!(rt; journal.contradicts(HEADS));
    assert!(rt; !journal.contradicts(TAILS));
    assert!(rt;
        !journal.contradicts(Pair {
            variable: 1,
            value: 0
        })
    );
}

/// Each kind of entry comes into a journal.
fn fill_and_settle(rt: &impl Abort, journal: &mut Journal, payments: Vec<Payout>)
    requires { journal.old ≡ record { history = []; max_trades = 2; max_users = 1; max_transfers = 2 } }
{
    journal.join(name(rt, b"ann"));
    journal.deposit(0, 9);
    journal.withdraw(0, 4);
    fill(rt, journal);
    expect_filled(rt, journal);
    resolve(rt, journal);
    settle(rt, journal, payments);
    assert!(rt; journal.revision() == 7);
    expect_kinds(rt, journal, b"jdwttrs".as_slice());
}

#[test]
fn journal_is_filled(rt: HostRuntime) -> Result<(), Fail> {
    let limits = Limits {
        trades: 2,
        users: 1,
        transfers: 2,
    };
    let mut journal = Journal::start(rt.alloc(), limits)?;
    let payments = vec![in rt.alloc(); Payout { low: 5, high: 6 }]?;
    fill_and_settle(&rt, &mut journal, payments);
    Ok(())
}

/// What a user owns who has not traded.
fn nothing_owned(alloc: Global, coin: &Coin) -> Result<Assets<JointEngine<MinProd>>, Fail>
    requires { IsTreeOf coin.now.net coin.now.tree }
{
    let plan = JointEngine::<MinProd>::plan(alloc, &coin.net, &coin.tree)?;
    Ok(Assets::<JointEngine<MinProd>>::start(alloc, &plan, &coin.net)?)
}

fn join<A: Engine<MinProd>>(
    rt: &impl Abort,
    users: &mut Users<A>,
    name: Name,
    assets: Assets<A>,
) -> Result<(), Fail> {
    assert!(rt; users.find(&name).is_none());
    assert!(rt; users.count() < 256);
    Ok(users.join(name, assets)?)
}

/// The least that a user owns who neither traded nor paid in.
fn one() -> Factor {
    Factor {
        gain: Enclosure::exact(1),
        trades: 0,
        net: 0,
    }
}

/// A quote of even odds.
fn quote(rt: &impl Abort, user: u32) -> LastQuote {
    let bounds = Bounds {
        hit: Enclosure::exact(1),
        miss: Enclosure::exact(1),
        whole: Enclosure::exact(2),
        hit_factor: one(),
        miss_factor: one(),
    };
    LastQuote::Limits {
        quote: Quote::make(user, tails(rt), 3, &bounds),
    }
}

/// Users of these names join, who own nothing.
fn join_each(
    rt: &impl Abort,
    alloc: Global,
    coin: &Coin,
    users: &mut Users<JointEngine<MinProd>>,
    names: &str,
) -> Result<(), Fail>
    requires { IsTreeOf coin.now.net coin.now.tree }
{
    for text in names.split(" ") {
        let assets = nothing_owned(alloc, coin)?;
        join(rt, users, name(rt, text.as_bytes()), assets)?;
    }
    Ok(())
}

/// Stops unless this user is found under a name.
fn expect_found<A: Engine<MinProd>>(
    rt: &impl Abort,
    users: &Users<A>,
    text: &str,
    user: Option<u32>,
) {
    assert_eq!(rt; users.find(&name(rt, text.as_bytes())), user, "{text}");
}

/// Stops unless these are the users who joined.
fn expect_names<A: Engine<MinProd>>(rt: &impl Abort, users: &Users<A>) {
    expect_found(rt, users, "ann", Some(0));
    expect_found(rt, users, "cy", Some(2));
    expect_found(rt, users, "bo", None);
    assert!(rt; users.count() == 3);
    assert!(rt; users.name(1) == name(rt, b"bob"));
}

/// Sets the quote of one of three users, and stops unless it is this user's alone.
fn check_quotes<A: Engine<MinProd>>(rt: &impl Abort, users: &mut Users<A>) {
    assert!(rt; users.count() == 3);
    users.set_quote(1, quote(rt, 1));
    assert!(rt; users.quote(0).is_none() && users.quote(1).is_some());
    assert!(rt; users.assets(2).trades() == 0);
}

/// Three users join, and are found.
fn check_users(
    rt: &impl Abort,
    alloc: Global,
    coin: &Coin,
    users: &mut Users<JointEngine<MinProd>>,
) -> Result<(), Fail>
    requires { IsTreeOf coin.now.net coin.now.tree }
{
    join_each(rt, alloc, coin, users, "ann bob cy")?;
    expect_names(rt, users);
    check_quotes(rt, users);
    Ok(())
}

#[test]
fn users_are_found(rt: HostRuntime) -> Result<(), Fail> {
    let coin = make_coin(&rt, rt.alloc())?;
    let mut users = Users::<JointEngine<MinProd>>::none(rt.alloc());
    check_users(&rt, rt.alloc(), &coin, &mut users)
}
