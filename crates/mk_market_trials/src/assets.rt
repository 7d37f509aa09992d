//! A user of a coin's market: gains and net bits by numbers worked out by hand.

ghost use Rattle.std.specs.Prelude.{◌≡◌, ◌≤◌, [], ◌∷◌, IfOk, Some};
ghost use Rattle.mk_net.specs.Trades.{trade_ratio};
ghost use Rattle.mk_engine.specs.Meaning.{ArePairsOf};
ghost use Rattle.mk_tree.specs.Checked.{IsTreeOf};
ghost use Rattle.mk_tree.specs.Given.{home};
ghost use Rattle.mk_tree.specs.Held.{IsHeldAt};
ghost use Rattle.mk_assets.specs.Holdings.{Owns, opening_holding, with_trade, with_deposit, with_withdrawal};

use crate::coin::{Coin, make_coin};
use mk_assets::Assets;
use mk_enclose::Factor;
use mk_engine::Engine;
use mk_fixtures::{HEADS, TAILS};
use mk_joint::JointEngine;
use mk_net::{Event, Pair, Question, Ratio};
use mk_semiring::MinProd;
use std::alloc::Global;
use std::process::Abort;
use std::test::Fail;

/// What a trade of these units gains where the coin shows heads, and where it shows tails.
const HIT: u64 = 1_319_413_953_331;

const MISS: u64 = 879_609_302_220;

/// What is known from the start, how many bits are withdrawn after one was deposited, which side is asked for, and the least gain
/// there with the net bits.
#[derive(Clone, Copy)]
struct Row {
    known: Option<Pair>,
    withdrawn: u32,
    asked: Option<Pair>,
    least: Option<(u64, i64)>,
}

const ROWS: [Row; 6] = [
    Row {
        known: None,
        withdrawn: 0,
        asked: Some(HEADS),
        least: Some((HIT, 1)),
    },
    Row {
        known: None,
        withdrawn: 0,
        asked: Some(TAILS),
        least: Some((MISS, 1)),
    },
    Row {
        known: None,
        withdrawn: 3,
        asked: None,
        least: Some((MISS, -2)),
    },
    Row {
        known: Some(HEADS),
        withdrawn: 1,
        asked: None,
        least: Some((HIT, 0)),
    },
    Row {
        known: Some(TAILS),
        withdrawn: 0,
        asked: Some(TAILS),
        least: Some((MISS, 1)),
    },
    Row {
        known: Some(HEADS),
        withdrawn: 0,
        asked: Some(TAILS),
        least: None,
    },
];

/// Whether the coin shows heads.
fn heads(rt: &impl Abort) -> Question
    ensures { result ≡ record { target = HEADS; condition = [] } }
{
    Question::make(HEADS, Event::empty()).expect(rt, "a question")
}

fn trade(rt: &impl Abort) -> Ratio
    ensures { trade_ratio result ≡ record { variable = 0; condition = []; factors = HIT ∷ MISS ∷ [] } }
{
    Ratio::of_question(&heads(rt), 2, HIT, MISS)
}

/// The assets after one trade, a deposit of one bit and a withdrawal, with what is known learnt.
fn traded(
    rt: &impl Abort,
    alloc: Global,
    coin: &Coin,
    known: &[Pair],
    withdrawn: u32,
) -> Result<Assets<JointEngine<MinProd>>, Fail>
    requires tree { IsTreeOf coin.now.net coin.now.tree }
    requires known { ArePairsOf coin.now.net known.now }
    requires withdrawn { withdrawn ≤ 1000 }
    ensures { IfOk result (λ assets. Owns ⟦<JointEngine<MinProd> as Engine<MinProd>>⟧.stands_for assets
        (with_withdrawal withdrawn (with_deposit 1 (with_trade (record { variable = 0; condition = []; factors = HIT ∷ MISS ∷ [] }) (opening_holding coin.now.net coin.now.tree known.now))))) }
{
    assert!(rt; coin.net.variables() == 1);
    let plan = JointEngine::<MinProd>::plan(alloc, &coin.net, &coin.tree)?;
    let mut assets = Assets::<JointEngine<MinProd>>::start(alloc, &plan, &coin.net)?;
    let ratio = trade(rt);
    assets.trade(home_of(rt, coin, &ratio.event()), &ratio);
    assets.deposit(1);
    assets.withdraw(withdrawn);
    assets.learn(&coin.tree, known);
    Ok(assets)
}

/// The event of one pair or of none.
fn only(rt: &impl Abort, coin: &Coin, pair: Option<Pair>) -> Event
    ensures { ArePairsOf coin.now.net result }
{
    let Some(pair) = pair else {
        return Event::empty();
    };
    assert!(rt; pair.variable == 0);
    assert!(rt; pair.value < 2);
    Event::empty().with(pair).expect(rt, "a pair")
}

/// The first clique of the coin's tree that holds an event; there is one.
fn home_of(rt: &impl Abort, coin: &Coin, event: &Event) -> u32
    ensures home { home coin.now.tree event.now ≡ Some result }
    ensures held { IsHeldAt coin.now.tree result event.now }
{
    coin.tree.home(event).expect(rt, "a home")
}

/// The least factor of a row.
fn least(rt: &impl Abort, alloc: Global, coin: &Coin, row: Row) -> Result<Option<Factor>, Fail>
    requires { IsTreeOf coin.now.net coin.now.tree }
{
    assert!(rt; row.withdrawn <= 1000);
    let known = only(rt, coin, row.known);
    let asked = only(rt, coin, row.asked);
    let mut assets = traded(rt, alloc, coin, known.pairs(), row.withdrawn)?;
    Ok(assets.least(home_of(rt, coin, &asked), &asked))
}

/// Stops unless the least factor where the coin does not show heads is this before it is known to show heads, and none after.
fn check_tails(
    rt: &impl Abort,
    coin: &Coin,
    assets: &mut Assets<JointEngine<MinProd>>,
    least: (u64, i64),
)
    requires tree { IsTreeOf coin.now.net coin.now.tree }
    requires owns { Owns ⟦<JointEngine<MinProd> as Engine<MinProd>>⟧.stands_for assets.old
        (with_withdrawal 0 (with_deposit 1 (with_trade (record { variable = 0; condition = []; factors = HIT ∷ MISS ∷ [] }) (opening_holding coin.now.net coin.now.tree [])))) }
{
    let asked = heads(rt);
    let home = home_of(rt, coin, &asked.event());
    let before = assets.least_of_others(home, &asked, 2);
    assets.learn(&coin.tree, &[HEADS]);
    let after = assets.least_of_others(home, &asked, 2);
    assert!(rt; assets.trades() == 1);
    check(rt, before, Some(least));
    check(rt, after, None);
}

/// The least factors where the coin does not show heads.
fn expect_at_tails(rt: &impl Abort, alloc: Global, coin: &Coin) -> Result<(), Fail>
    requires { IsTreeOf coin.now.net coin.now.tree }
{
    let mut assets = traded(rt, alloc, coin, &[], 0)?;
    check_tails(rt, coin, &mut assets, (MISS, 1));
    Ok(())
}

/// Stops unless the factor has this gain, exactly, of one trade, and these net bits.
fn check(rt: &impl Abort, found: Option<Factor>, least: Option<(u64, i64)>) {
    let Some(factor) = found else {
        assert!(rt; least.is_none());
        return;
    };
    let gain = factor.gain;
    assert!(rt; Some((gain.lo().mantissa(), factor.net)) == least);
    assert!(rt; gain.lo().exponent() == 0);
    assert!(rt; gain.lo() == gain.hi());
    assert!(rt; factor.trades == 1);
}

fn expect_rows(rt: &impl Abort, alloc: Global, coin: &Coin) -> Result<(), Fail>
    requires { IsTreeOf coin.now.net coin.now.tree }
{
    for row in ROWS {
        check(rt, least(rt, alloc, coin, row)?, row.least);
    }
    expect_at_tails(rt, alloc, coin)
}

#[test]
fn least_factors(rt: HostRuntime) -> Result<(), Fail> {
    let coin = make_coin(&rt, rt.alloc())?;
    expect_rows(&rt, rt.alloc(), &coin)
}
