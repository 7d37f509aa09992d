//! Markets from their files: runs of commands with their replies, and what a market keeps of them.

ghost use Rattle.std.specs.Prelude.{List};
ghost use Rattle.mk_net.specs.Network.{Variable};
ghost use Rattle.mk_tree.specs.Given.{GivenTree};

use arrayvec::ArrayString;
use mk_command::{Words, read_command};
use mk_engine::Engine;
use mk_file::read_market;
use mk_fixtures::{COIN, GATE};
use mk_market::Market;
use mk_reply::{Reply, print_reply};
use mk_semiring::{MinProd, SumProd};
use mk_tree_engine::TreeEngine;
use std::alloc::Global;
use std::process::Abort;
use std::test::Fail;

/// Commands to the market of a coin, each with its reply.
const COIN_RUN: &str = "user alice -> user alice at 1
worst alice -> worst 0..0
deposit alice 1 -> deposit alice 1 at 2
worst alice -> worst 100..100
user alice -> refused exists alice
worst bob -> refused user bob
deposit alice 1001 -> refused range 1001
user bob -> user bob at 3
price coin=heads -> price 0.5000000000..0.5000000000
price coin=edge -> refused name coin=edge";

/// What cannot come is priced, refused and left out of spreads; the bound is asked before and behind.
const GATE_RUN: &str = "bound -> bound 200..200
price gate=gone -> price 0.0000000000..0.0000000000
user alice -> user alice at 1
limits alice gate=gone -> refused impossible gate=gone
edit alice gate=gone to 5 -> refused impossible gate=gone
edit alice gate=gone to 0 -> refused range 0
edit alice gate=open to 1000000 -> refused range 1000000
bounds alice gate -> bounds 250000..999999 750000..999999 0..0 at 1
deposit alice 1 -> deposit alice 1 at 2
bounds alice gate -> bounds 125000..999999 375000..999999 0..0 at 2
limits alice gate=open -> limits 125000..625000 at 2
spread alice gate to 500000 500000 -> refused numbers 2
spread alice gate to 0 0 0 -> refused sum 0
spread alice gate to 500000 400000 100000 -> refused impossible gate=gone
spread alice gate to 0 400000 600000 -> refused impossible gate=gone
spread alice gate to 0 1000000 0 -> refused range 1000000
spread alice gate to 500000 500001 0 -> refused sum 1000001
spread alice gate to 100000 900000 0 -> refused outside 125000..999999 375000..999999 0..0
spread alice gate to 500000 500000 0 at 3 -> refused stale 3 2
spread alice gate to 500000 500000 0 -> spread 2199023255552 733007751850 1099511627776 at 3
bounds alice gate -> bounds 125001..999999 375001..999999 0..0 at 3
worst alice -> worst 41..41
withdraw alice 1 -> refused short 0
bound -> bound 200..200
resolve gate=gone -> refused impossible gate=gone
resolve gate=open -> resolve gate=open at 4
bound -> bound 200..200
settle -> settle at 5, alice 200..200 paid 200
bound -> refused settled";

/// A burglary and an earthquake, before an alarm is thought of.
const CAUSES: &str = "points_per_bit = 100
max_trades = 1000
cliques = [['burglary', 'earthquake']]
links = []
variable = [
{name = 'burglary', values = ['yes', 'no'], parents = [], rows = [[1000, 999000]]},
{name = 'earthquake', values = ['yes', 'no'], parents = [], rows = [[2000, 998000]]},
]
";

/// The alarm and two neighbours are added; prices are those of the network with all five.
const CAUSES_RUN: &str = "user alice -> user alice at 1
deposit alice 1 -> deposit alice 1 at 2
worst alice -> worst 100..100
add burglary=a,b : 1 999999 in burglary to 1 -> refused taken burglary
add alarm=yes,no | burglary : 1 999999 in alarm to 1 -> refused cover burglary
add alarm=yes,no | burglary,earthquake : 950000 50000, 940000 60000, 290000 710000, 1000 999000 in burglary,earthquake,alarm to 1 -> add alarm at 3
add john=yes,no | alarm : 900000 100000, 50000 950000 in alarm,john to 1 -> refused running alarm
add john=yes,no | alarm : 900000 100000, 50000 950000 in alarm,john to 2 -> add john at 4
add mary=yes,no | alarm : 700000 300000, 10000 990000 in alarm,mary to 2 -> add mary at 5
worst alice -> worst 100..100
price alarm=yes | mary=yes -> price 0.1500901177..0.1500901178
resolve john=yes -> resolve john=yes at 6
resolve mary=yes -> resolve mary=yes at 7
price burglary=yes -> price 0.2841718353..0.2841718354
settle -> refused open burglary";

/// Stops unless this is what is printed of the reply to a line.
fn expect_printed(rt: &impl Abort, reply: &Reply, line: &str, expected: &str) {
    let mut text = ArrayString::new();
    print_reply(reply, &mut text);
    assert_eq!(rt; text.as_str(), expected, "to {line}");
}

/// Applies the command of a line, and stops unless this is its reply.
fn expect_reply<P: Engine<SumProd>, A: Engine<MinProd>>(
    rt: &impl Abort,
    alloc: Global,
    market: &mut Market<P, A>,
    line: &str,
    expected: &str,
)
    requires prices { (network : List Variable) (tree : GivenTree) → P.suits network tree }
    requires assets { (network : List Variable) (tree : GivenTree) → A.suits network tree }
{
    let mut words = Words::default();
    match read_command(line.as_bytes(), &mut words) {
        Ok(command) => {
            let reply = market.apply(alloc, &command);
            expect_printed(rt, &reply, line, expected);
        }
        Err(_) => assert!(rt; false, "{line} is no command"),
    }
}

/// Applies each command of a run, and stops unless its reply is the one behind the arrow.
fn expect_replies<P: Engine<SumProd>, A: Engine<MinProd>>(
    rt: &impl Abort,
    alloc: Global,
    market: &mut Market<P, A>,
    run: &str,
) -> Result<(), Fail>
    requires prices { (network : List Variable) (tree : GivenTree) → P.suits network tree }
    requires assets { (network : List Variable) (tree : GivenTree) → A.suits network tree }
{
    for line in run.split("\n") {
        let (command, reply) = line.split_once(" -> ").ok_or("no arrow")?;
        expect_reply(rt, alloc, market, command, reply);
    }
    Ok(())
}

/// How many variables, points of one bit, and entries of its history a market has.
fn numbers_of<P: Engine<SumProd>, A: Engine<MinProd>>(market: &Market<P, A>) -> (u32, u32, u32) {
    (
        market.variables(),
        market.points_per_bit(),
        market.history().length(),
    )
}

/// Expects each reply of a run, and these numbers of the market behind it.
fn expect_market<P: Engine<SumProd>, A: Engine<MinProd>>(
    rt: &impl Abort,
    alloc: Global,
    market: &mut Market<P, A>,
    run: &str,
    numbers: (u32, u32, u32),
) -> Result<(), Fail>
    requires prices { (network : List Variable) (tree : GivenTree) → P.suits network tree }
    requires assets { (network : List Variable) (tree : GivenTree) → A.suits network tree }
{
    expect_replies(rt, alloc, market, run)?;
    assert!(rt; numbers_of(market) == numbers);
    Ok(())
}

/// Opens a market of a file, expects each reply of a run, and then these numbers of it.
fn expect_run<P: Engine<SumProd>, A: Engine<MinProd>>(
    rt: &impl Abort,
    alloc: Global,
    file: &str,
    run: &str,
    numbers: (u32, u32, u32),
) -> Result<(), Fail>
    requires prices { (network : List Variable) (tree : GivenTree) → P.suits network tree }
    requires assets { (network : List Variable) (tree : GivenTree) → A.suits network tree }
{
    let file = read_market(alloc, file.as_bytes())?;
    let mut market = Market::<P, A>::start(alloc, file)?;
    expect_market(rt, alloc, &mut market, run, numbers)
}

/// Expects a run over tree engines, which suit every network.
fn expect_tree_run(
    rt: &impl Abort,
    alloc: Global,
    file: &str,
    run: &str,
    numbers: (u32, u32, u32),
) -> Result<(), Fail> {
    expect_run::<TreeEngine<SumProd>, TreeEngine<MinProd>>(rt, alloc, file, run, numbers)
}

#[test]
fn coin_market(rt: HostRuntime) -> Result<(), Fail> {
    expect_tree_run(&rt, rt.alloc(), COIN, COIN_RUN, (1, 100, 3))
}

#[test]
fn gate_market(rt: HostRuntime) -> Result<(), Fail> {
    expect_tree_run(&rt, rt.alloc(), GATE, GATE_RUN, (1, 100, 5))
}

#[test]
fn growing_market(rt: HostRuntime) -> Result<(), Fail> {
    expect_tree_run(&rt, rt.alloc(), CAUSES, CAUSES_RUN, (5, 100, 7))
}
