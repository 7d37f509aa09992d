//! One coin after a trade that takes heads to 600,000 parts in a million: each call once, by numbers worked out by hand.

use mk_file::read_market;
use mk_fixtures::{COIN, HEADS, TAILS};
use mk_net::{Event, Network, Pair, Question, Ratio};
use mk_walk::{WalkTrade, all_states, least_gain, state_gain, total};
use std::alloc::Global;
use std::process::Abort;
use std::test::Fail;

fn expect_total(
    rt: &impl Abort,
    alloc: Global,
    network: &Network,
    trades: &[WalkTrade],
    event: &[Pair],
    number: u128,
) -> Result<(), Fail> {
    let found = total(alloc, network, trades, &[], event)?;
    assert!(rt; found == number);
    Ok(())
}

/// The states that are walked: those of an event, once pairs are known.
#[derive(Clone, Copy)]
struct Within<'a> {
    known: &'a [Pair],
    event: &'a [Pair],
}

fn expect_least(
    rt: &impl Abort,
    alloc: Global,
    network: &Network,
    trades: &[WalkTrade],
    within: Within,
    number: Option<u128>,
) -> Result<(), Fail> {
    let Within { known, event } = within;
    let found = least_gain(alloc, network, trades, 0, known, event)?;
    assert!(rt; found == number);
    Ok(())
}

/// Each call that adds up or compares, with these trades.
fn check_calls(
    rt: &impl Abort,
    alloc: Global,
    network: &Network,
    trades: &[WalkTrade],
) -> Result<(), Fail> {
    assert!(rt; state_gain(trades, 0, &[1]) == 879_609_302_220);
    assert!(rt; state_gain(trades, 1, &[1]) == 1);
    let least = Some(879_609_302_220);
    expect_total(rt, alloc, network, trades, &[], 1_099_511_627_775_500_000)?;
    expect_total(
        rt,
        alloc,
        network,
        trades,
        &[HEADS],
        659_706_976_665_500_000,
    )?;
    let all = Within {
        known: &[],
        event: &[],
    };
    let none = Within {
        known: &[HEADS],
        event: &[TAILS],
    };
    expect_least(rt, alloc, network, trades, all, least)?;
    expect_least(rt, alloc, network, trades, none, None)
}

fn check_states(rt: &impl Abort, alloc: Global, network: &Network) -> Result<(), Fail> {
    let states = all_states(alloc, network)?;
    assert!(rt; states.len() == 2);
    Ok(())
}

fn check_network(rt: &impl Abort, alloc: Global, network: &Network) -> Result<(), Fail> {
    check_states(rt, alloc, network)?;
    let heads = Question::make(HEADS, Event::empty()).expect(rt, "a question");
    let trade = WalkTrade {
        user: 0,
        ratio: Ratio::of_question(&heads, 2, 1_319_413_953_331, 879_609_302_220),
    };
    check_calls(rt, alloc, network, &[trade])
}

#[test]
fn one_trade(rt: HostRuntime) -> Result<(), Fail> {
    let file = read_market(rt.alloc(), COIN.as_bytes())?;
    check_network(&rt, rt.alloc(), &file.net)
}
