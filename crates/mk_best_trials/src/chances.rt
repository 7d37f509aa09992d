//! Chances by numbers worked out by hand, and by published ones.

ghost use Rattle.std.specs.Prelude.{◌≡◌, List, [], IfOk};
ghost use Rattle.mk_net.specs.Network.{IsNetwork};
ghost use Rattle.mk_states.specs.OfNetwork.{IsPairOf};
ghost use Rattle.mk_tree.specs.Checked.{IsTreeOf};
ghost use Rattle.mk_engine.specs.Meaning.{ArePairsOf};

use mk_best::{Chance, chance};
use mk_file::{MarketFile, read_market};
use mk_fixtures::CHAIN;
use mk_history::Limits;
use mk_net::{Network, NoMemory, Pair};
use mk_record::Journal;
use std::alloc::Global;
use std::process::Abort;
use std::test::Fail;

/// Pearl's alarm, which a burglary or an earthquake sets off, and by which John and Mary call.
pub(crate) const ALARM: &str = "points_per_bit = 1
max_trades = 1
cliques = [['burglary', 'earthquake', 'alarm'], ['alarm', 'john'], ['alarm', 'mary']]
links = [1, 1]
variable = [
{name = 'burglary', values = ['yes', 'no'], parents = [], rows = [[1000, 999000]]},
{name = 'earthquake', values = ['yes', 'no'], parents = [], rows = [[2000, 998000]]},
{name = 'alarm', values = ['yes', 'no'], parents = ['burglary', 'earthquake'], rows = [
[950000, 50000], [940000, 60000], [290000, 710000], [1000, 999000]]},
{name = 'john', values = ['yes', 'no'], parents = ['alarm'], rows = [
[900000, 100000], [50000, 950000]]},
{name = 'mary', values = ['yes', 'no'], parents = ['alarm'], rows = [
[700000, 300000], [10000, 990000]]},
]
";

/// A variable at a value.
pub(crate) fn at(variable: u32, value: u32) -> Pair {
    Pair { variable, value }
}

/// Stops unless the pair is the network's own.
fn expect_pair(rt: &impl Abort, net: &Network, pair: Pair)
    ensures { IsPairOf net.now pair }
{
    assert!(rt; pair.variable < net.variables());
    assert!(rt; pair.value < net.values(pair.variable));
}

/// Stops unless the pairs are the network's own.
pub(crate) fn expect_own(rt: &impl Abort, net: &Network, pairs: &[Pair])
    ensures pairs { ArePairsOf net.now pairs.now }
    ensures network { IsNetwork net.now }
{
    let _ = net.variables();
    for pair in pairs {
        expect_pair(rt, net, *pair);
    }
}

/// The journal of a market before any entry.
pub(crate) fn no_entries(alloc: Global) -> Result<Journal, NoMemory>
    ensures { IfOk result (λ journal. journal.history ≡ []) }
{
    let limits = Limits {
        trades: 1,
        users: 1,
        transfers: 1,
    };
    Journal::start(alloc, limits)
}

/// Stops unless the chance before any entry has these bounds, or is impossible.
fn expect(
    rt: &impl Abort,
    alloc: Global,
    file: &MarketFile,
    want: &[Pair],
    given: &[Pair],
    bounds: Option<(u64, u64)>,
) -> Result<(), Fail>
    requires { IsTreeOf file.now.net file.now.tree }
{
    expect_own(rt, &file.net, want);
    expect_own(rt, &file.net, given);
    let journal = no_entries(alloc)?;
    let found = match chance(alloc, &file.net, &file.tree, &journal, want, given)? {
        Chance::Price { low, high } => Some((low, high)),
        Chance::Impossible => None,
    };
    assert_eq!(rt; found, bounds);
    Ok(())
}

fn check_chain(rt: &impl Abort, alloc: Global, file: &MarketFile) -> Result<(), Fail>
    requires { IsTreeOf file.now.net file.now.tree }
{
    let (up, down) = (at(0, 0), at(0, 1));
    expect(
        rt,
        alloc,
        file,
        &[at(2, 0)],
        &[up],
        Some((5200000000, 5200000000)),
    )?;
    expect(
        rt,
        alloc,
        file,
        &[up],
        &[up, at(2, 0)],
        Some((10000000000, 10000000000)),
    )?;
    expect(rt, alloc, file, &[up, down], &[], Some((0, 0)))?;
    expect(rt, alloc, file, &[up], &[up, down], None)
}

fn check_alarm(rt: &impl Abort, alloc: Global, file: &MarketFile) -> Result<(), Fail>
    requires { IsTreeOf file.now.net file.now.tree }
{
    let calls = [at(3, 0), at(4, 0)];
    expect(
        rt,
        alloc,
        file,
        &[at(0, 0)],
        &calls,
        Some((2841718353, 2841718354)),
    )?;
    let alone = [at(3, 0), at(4, 0), at(2, 0), at(0, 1), at(1, 1)];
    expect(rt, alloc, file, &alone, &[], Some((6281112, 6281113)))?;
    expect(
        rt,
        alloc,
        file,
        &[at(1, 0)],
        &[at(2, 0)],
        Some((2310087019, 2310087020)),
    )
}

#[test]
fn on_the_chain(rt: HostRuntime) -> Result<(), Fail> {
    let file = read_market(rt.alloc(), CHAIN.as_bytes())?;
    check_chain(&rt, rt.alloc(), &file)
}

#[test]
fn on_the_alarm(rt: HostRuntime) -> Result<(), Fail> {
    let file = read_market(rt.alloc(), ALARM.as_bytes())?;
    check_alarm(&rt, rt.alloc(), &file)
}
