//! Beliefs on a season and its rain, by numbers worked out by hand.

ghost use Rattle.std.specs.List.{AllByRecursion};
ghost use Rattle.mk_tree.specs.Checked.{IsTreeOf};
ghost use Rattle.mk_states.specs.OfNetwork.{IsPairOf};
ghost use Rattle.mk_engine_trials.specs.Used.{IsInUse};

use crate::both::expect_few_states;
use crate::engines::{About, Change, Exact, ask, event, expect, start, tell, tell_rows};
use mk_engine::Engine;
use mk_file::{MarketFile, read_market};
use mk_fixtures::{A, B, NOT_A, WEATHER};
use mk_joint::JointEngine;
use mk_net::Event;
use mk_semiring::{Held, MinProd, Semiring, SumProd};
use mk_tree_engine::TreeEngine;
use std::alloc::Global;
use std::process::Abort;
use std::test::Fail;

/// What is known of beliefs: in rain and in all states with the rows, and in a wet season, in all states after a trade on rain there;
/// and in a dry season after another trade.
struct Known {
    rain: u64,
    all: u64,
    wet_rain: u64,
    wet: u64,
    traded: u64,
    dry: Exact,
}

/// A number without a power of two.
fn whole(n: u64) -> Exact {
    Exact(n, 0)
}

/// Stops unless the ends of the belief in an event differ.
fn expect_rounded<R: Semiring<Value = Held>, E: Engine<R>>(
    rt: &impl Abort,
    engine: &mut E,
    file: &MarketFile,
    event: &Event,
    before: u32,
)
    requires used { IsInUse E.stands_for engine.old file.now before }
    requires own { AllByRecursion (IsPairOf file.now.net) event.now }
    ensures { IsInUse E.stands_for engine.new file.now before }
{
    match ask::<R, E>(rt, engine, file, event, before) {
        Held::Absent => assert!(rt; false),
        Held::Present(enclosure) => {
            let (low, high) = (enclosure.lo(), enclosure.hi());
            assert!(rt; low.mantissa() != high.mantissa() || low.exponent() != high.exponent());
        }
    }
}

/// With the rows; once the season is known to be wet; and after a trade then.
fn check_wet<R: Semiring<Value = Held>, E: Engine<R>>(
    rt: &impl Abort,
    engine: &mut E,
    file: &MarketFile,
    known: &Known,
)
    requires { IsInUse E.stands_for engine.old file.now 0 }
{
    let (rain, all) = (event(rt, &file.net, &About(B, None)), Event::empty());
    tell_rows::<R, E>(rt, engine, file, 2);
    expect::<R, E>(rt, engine, file, &rain, 2, whole(known.rain));
    expect::<R, E>(rt, engine, file, &all, 2, whole(known.all));
    tell::<R, E>(rt, engine, file, &Change::Known(A), 2);
    expect::<R, E>(rt, engine, file, &rain, 3, whole(known.wet_rain));
    expect::<R, E>(rt, engine, file, &all, 3, whole(known.wet));
    tell::<R, E>(
        rt,
        engine,
        file,
        &Change::Traded(About(B, Some(A)), 2, 3),
        3,
    );
    expect::<R, E>(rt, engine, file, &all, 4, whole(known.traded));
}

/// 60,000,000,000 and 600,000,000,000 times 2^40.
const DRY_RAIN: Exact = Exact(16106127360000000000, 12);

const DRY: Exact = Exact(10066329600000000000, 16);

/// A trade on rain in a wet season, by a ratio of no round numbers.
const TRADE: Change = Change::Traded(About(B, Some(A)), 1256584717458, 733007751850);

/// After a trade, beliefs are exact where nothing was traded.
fn check_dry<R: Semiring<Value = Held>, E: Engine<R>>(
    rt: &impl Abort,
    engine: &mut E,
    file: &MarketFile,
    dry: Exact,
)
    requires { IsInUse E.stands_for engine.old file.now 0 }
{
    tell_rows::<R, E>(rt, engine, file, 2);
    tell::<R, E>(rt, engine, file, &TRADE, 2);
    let dry_rain = event(rt, &file.net, &About(B, Some(NOT_A)));
    expect::<R, E>(rt, engine, file, &dry_rain, 3, DRY_RAIN);
    let dry_season = event(rt, &file.net, &About(NOT_A, None));
    expect::<R, E>(rt, engine, file, &dry_season, 3, dry);
    let wet_rain = event(rt, &file.net, &About(B, Some(A)));
    expect_rounded::<R, E>(rt, engine, file, &wet_rain, 3);
    tell::<R, E>(rt, engine, file, &Change::Known(NOT_A), 3);
    let rain = event(rt, &file.net, &About(B, None));
    expect::<R, E>(rt, engine, file, &rain, 4, DRY_RAIN);
}

/// Both with engines that were told nothing.
fn check_engine<R: Semiring<Value = Held>, E: Engine<R>>(
    rt: &impl Abort,
    alloc: Global,
    file: &MarketFile,
    known: &Known,
) -> Result<(), Fail>
    requires tree { IsTreeOf file.now.net file.now.tree }
    requires suits { E.suits file.now.net file.now.tree }
{
    check_wet::<R, E>(rt, &mut start::<R, E>(alloc, file)?, file, known);
    check_dry::<R, E>(rt, &mut start::<R, E>(alloc, file)?, file, known.dry);
    Ok(())
}

const SUMS: Known = Known {
    rain: 340_000_000_000,
    all: 1_000_000_000_000,
    wet_rain: 280_000_000_000,
    wet: 400_000_000_000,
    traded: 920_000_000_000,
    dry: DRY,
};

const MINIMA: Known = Known {
    rain: 60_000_000_000,
    all: 60_000_000_000,
    wet_rain: 280_000_000_000,
    wet: 120_000_000_000,
    traded: 360_000_000_000,
    dry: DRY_RAIN,
};

fn check_engines(rt: &impl Abort, alloc: Global, file: &MarketFile) -> Result<(), Fail>
    requires { IsTreeOf file.now.net file.now.tree }
{
    expect_few_states(alloc, &file.net)?;
    check_engine::<SumProd, JointEngine<SumProd>>(rt, alloc, file, &SUMS)?;
    check_engine::<MinProd, JointEngine<MinProd>>(rt, alloc, file, &MINIMA)?;
    check_engine::<SumProd, TreeEngine<SumProd>>(rt, alloc, file, &SUMS)
}

#[test]
fn beliefs_in_weather(rt: HostRuntime) -> Result<(), Fail> {
    let file = read_market(rt.alloc(), WEATHER.as_bytes())?;
    check_engines(&rt, rt.alloc(), &file)
}
