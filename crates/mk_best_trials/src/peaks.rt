//! Best states by numbers worked out by hand, and by an exact reference.

ghost use Rattle.mk_tree.specs.Checked.{IsTreeOf};

use crate::chances::{ALARM, at, expect_own, no_entries};
use mk_best::{Best, best};
use mk_file::{MarketFile, read_market};
use mk_fixtures::{COIN, WEATHER};
use mk_net::Pair;
use std::alloc::Global;
use std::process::Abort;
use std::test::Fail;

/// Stops unless the best state before any entry has these values, its share these bounds, and none
/// a share above the last; or is impossible.
fn expect(
    rt: &impl Abort,
    alloc: Global,
    file: &MarketFile,
    given: &[Pair],
    values: &[u32],
    shares: Option<(u64, u64, u64)>,
) -> Result<(), Fail>
    requires { IsTreeOf file.now.net file.now.tree }
{
    expect_own(rt, &file.net, given);
    let journal = no_entries(alloc)?;
    match best(alloc, &file.net, &file.tree, &journal, given)? {
        Best::Found {
            low,
            high,
            most,
            state,
            ..
        } => {
            assert_eq!(rt; Some((low, high, most)), shares);
            assert_eq!(rt; state.values(), values);
        }
        Best::Impossible => assert!(rt; shares.is_none()),
    }
    Ok(())
}

#[test]
fn of_a_coin(rt: HostRuntime) -> Result<(), Fail> {
    let file = read_market(rt.alloc(), COIN.as_bytes())?;
    let half = Some((5000000000, 5000000000, 5000000000));
    expect(&rt, rt.alloc(), &file, &[], &[0], half)?;
    expect(&rt, rt.alloc(), &file, &[at(0, 0), at(0, 1)], &[], None)
}

// Its variables stand in one clique here.
#[test]
fn of_the_weather(rt: HostRuntime) -> Result<(), Fail> {
    let text = WEATHER.replace(rt.alloc(), "], ['season']]\nlinks = [1]", "]]\nlinks = []")?;
    let file = read_market(rt.alloc(), text.as_bytes())?;
    let dry = Some((5400000000, 5400000000, 5400000000));
    expect(&rt, rt.alloc(), &file, &[], &[1, 1], dry)?;
    let wet = Some((8235294117, 8235294118, 8235294118));
    expect(&rt, rt.alloc(), &file, &[at(1, 0)], &[0, 0], wet)
}

#[test]
fn of_the_alarm(rt: HostRuntime) -> Result<(), Fail> {
    let file = read_market(rt.alloc(), ALARM.as_bytes())?;
    let calls = [at(3, 0), at(4, 0)];
    let neither = Some((3013824614, 3013824615, 3013824615));
    expect(&rt, rt.alloc(), &file, &calls, &[1, 1, 0, 0, 0], neither)?;
    let with_burglary = [at(0, 0), at(3, 0), at(4, 0)];
    let burglary = Some((9979282307, 9979282308, 9979282308));
    expect(
        &rt,
        rt.alloc(),
        &file,
        &with_burglary,
        &[0, 1, 0, 0, 0],
        burglary,
    )
}
