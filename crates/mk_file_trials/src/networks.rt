//! The network of a market file: its names and rows, and what is found in it.

use crate::files::CUP;
use mk_file::{MarketFile, read_market};
use mk_fixtures::WEATHER;
use mk_names::Name;
use mk_net::{Network, Pair, PairText};
use std::process::Abort;
use std::test::Fail;

fn name(rt: &impl Abort, text: &str) -> Name {
    Name::read(text.as_bytes()).expect(rt, "a name")
}

fn expect_names(rt: &impl Abort, network: &Network) {
    assert!(rt; network.variables() == 2);
    assert!(rt; network.name(1) == name(rt, "rain"));
    assert!(rt; network.values(0) == 2);
    assert!(rt; network.value_name(0, 1) == name(rt, "dry"));
}

fn expect_rows(rt: &impl Abort, network: &Network) {
    assert!(rt; network.variables() == 2);
    assert!(rt; network.values(0) == 2);
    assert!(rt; network.values(1) == 2);
    assert!(rt; network.parents(1) == [0].as_slice());
    assert!(rt; network.entry(1, 0, 1) == 300_000);
    assert!(rt; network.entry(1, 1, 0) == 100_000);
}

fn expect_variables(rt: &impl Abort, network: &Network) {
    assert!(rt; network.find_variable(&name(rt, "rain")) == Some(1));
    assert!(rt; network.find_variable(&name(rt, "yes")).is_none());
}

/// The numbers of a pair of names.
fn find(rt: &impl Abort, network: &Network, variable: &str, value: &str) -> Option<Pair> {
    network.find(&PairText {
        variable: name(rt, variable),
        value: name(rt, value),
    })
}

fn expect_pairs(rt: &impl Abort, network: &Network) {
    let (variable, value) = (0, 1);
    let dry = Pair { variable, value };
    assert!(rt; find(rt, network, "season", "dry") == Some(dry));
    let (variable, value) = (1, 0);
    let rainy = Pair { variable, value };
    assert!(rt; find(rt, network, "rain", "yes") == Some(rainy));
    assert!(rt; find(rt, network, "rain", "dry").is_none());
    assert!(rt; find(rt, network, "lawn", "yes").is_none());
}

fn expect_weather(rt: &impl Abort, network: &Network) {
    expect_names(rt, network);
    expect_rows(rt, network);
    expect_variables(rt, network);
    expect_pairs(rt, network);
}

/// Stops unless a file says so of shares of nothing, and these are the variables that have one.
fn expect_zeros(rt: &impl Abort, file: &MarketFile, zeros: bool, variables: &[u32]) {
    assert!(rt; file.zeros == zeros);
    assert!(rt; file.net.with_zeros() == variables);
}

#[test]
fn knows_where_shares_are_nothing(rt: HostRuntime) -> Result<(), Fail> {
    let cup = read_market(rt.alloc(), CUP.as_bytes())?;
    expect_zeros(&rt, &cup, true, &[2]);
    let weather = read_market(rt.alloc(), WEATHER.as_bytes())?;
    expect_zeros(&rt, &weather, false, &[]);
    Ok(())
}

#[test]
fn reads_and_finds(rt: HostRuntime) -> Result<(), Fail> {
    let file = read_market(rt.alloc(), WEATHER.as_bytes())?;
    expect_weather(&rt, &file.net);
    Ok(())
}
