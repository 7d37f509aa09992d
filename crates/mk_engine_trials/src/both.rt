//! Both engines side by side: the same factors and known pairs, and after each of them beliefs beside those of a plain walk over
//! all states.

ghost use Rattle.std.specs.Prelude.{◌+◌, ◌<◌, ◌≤◌, IfOk};
ghost use Rattle.std.specs.List.{AllByRecursion};
ghost use Rattle.mk_net.specs.Bounds.{max_clique_cells};
ghost use Rattle.mk_states.specs.OfNetwork.{IsPairOf};
ghost use Rattle.mk_tree.specs.Checked.{IsTreeOf};
ghost use Rattle.mk_joint.specs.inner.Joints.{joint_states};
ghost use Rattle.mk_engine_trials.specs.Used.{IsInUse};

use crate::engines::{About, Change, ask_in, event, home_of, ratio, start, tell, tell_rows};
use mk_engine::Engine;
use mk_file::{MarketFile, read_market};
use mk_fixtures::{A, B, C, CHAIN, D, NOT_A, NOT_B, NOT_C, WEATHER, all_variables, holds_event};
use mk_joint::JointEngine;
use mk_net::{Event, Network, NoMemory, Pair};
use mk_semiring::{Held, MinProd, Semiring, SumProd};
use mk_tree::Tree;
use mk_tree_engine::TreeEngine;
use mk_user_engine::UserEngine;
use mk_walk::{WalkTrade, least_gain, total};
use std::alloc::{AllocError, Global};
use std::process::Abort;
use std::test::Fail;

/// What was told, as the walk reads it.
#[derive(Drop)]
struct Past {
    trades: Vec<WalkTrade>,
    known: Vec<Pair>,
}

/// The belief in an event; none is absent.
type Belief = Result<Option<u128>, NoMemory>;

/// A plain walk that finds what beliefs over a semiring are.
trait Walked {
    /// The rows of all variables count, or none of them.
    fn walked(alloc: Global, net: &Network, past: &Past, event: &[Pair]) -> Belief;
}

/// Sums count the rows.
impl Walked for SumProd {
    fn walked(alloc: Global, net: &Network, past: &Past, event: &[Pair]) -> Belief {
        let found = total(alloc, net, &past.trades, &past.known, event)?;
        Ok(if found == 0 { None } else { Some(found) })
    }
}

/// Minima are of trades alone.
impl Walked for MinProd {
    fn walked(alloc: Global, net: &Network, past: &Past, event: &[Pair]) -> Belief {
        least_gain(alloc, net, &past.trades, 0, &past.known, event)
    }
}

impl Past {
    fn new(alloc: Global) -> Past {
        Past {
            trades: Vec::new(alloc),
            known: Vec::new(alloc),
        }
    }

    fn add(&mut self, rt: &impl Abort, net: &Network, change: &Change) -> Result<(), Fail> {
        match *change {
            Change::Rows(_) | Change::Support(_) => {}
            Change::Traded(about, hit, miss) => {
                let ratio = ratio(rt, net, &about, hit, miss);
                self.trades.push(WalkTrade { user: 0, ratio })?;
            }
            Change::Known(pair) => self.known.push(pair)?,
        }
        Ok(())
    }
}

/// Stops unless the mantissa times a power of two is at most the number.
fn expect_at_most(rt: &impl Abort, mantissa: u64, exponent: u64, n: u128) {
    assert!(rt; exponent < 128);
    assert!(rt; mantissa as u128 <= n >> exponent as u32);
}

/// Stops unless it is at least the number.
fn expect_at_least(rt: &impl Abort, mantissa: u64, exponent: u64, n: u128) {
    assert!(rt; exponent < 128);
    let floor = n >> exponent as u32;
    let is_whole = floor << exponent as u32 == n;
    assert!(rt; floor < mantissa as u128 || (floor == mantissa as u128 && is_whole));
}

/// Stops unless the value encloses what was walked.
fn check(rt: &impl Abort, held: &Held, walked: Option<u128>) {
    match held {
        Held::Absent => assert!(rt; walked.is_none()),
        Held::Present(enclosure) => {
            let n = walked.expect(rt, "a state that is possible");
            assert!(rt; n < u128::MAX);
            let (low, high) = (enclosure.lo(), enclosure.hi());
            expect_at_most(rt, low.mantissa(), low.exponent(), n);
            expect_at_least(rt, high.mantissa(), high.exponent(), n);
        }
    }
}

/// Stops unless an engine's belief in an event is as walked, after so many changes, in each clique
/// that holds the event.
fn check_each<R: Semiring<Value = Held>, E: Engine<R>>(
    rt: &impl Abort,
    engine: &mut E,
    file: &MarketFile,
    event: &Event,
    before: u32,
    walked: Option<u128>,
)
    requires used { IsInUse E.stands_for engine.old file.now before }
    requires own { AllByRecursion (IsPairOf file.now.net) event.now }
    ensures { IsInUse E.stands_for engine.new file.now before }
{
    let tree = &file.tree;
    for at in home_of(rt, tree, event)..tree.cliques() + 1 {
        if holds_event(tree, at, event) {
            check(rt, &ask_in::<R, E>(engine, file, at, event, before), walked);
        }
    }
}

/// A comparison of an engine with the walk over a file's network: of how many variables the engine
/// is told the rows, the changes that both are told in turn then, and what both are asked of.
#[derive(Clone, Copy)]
struct Comparison<'a> {
    file: &'a MarketFile,
    rows: u32,
    changes: &'a [Change],
    asked: &'a [About],
}

/// Stops unless an engine's beliefs are as walked, after so many changes.
fn check_all<R: Semiring<Value = Held> + Walked, E: Engine<R>>(
    rt: &impl Abort,
    alloc: Global,
    engine: &mut E,
    comparison: &Comparison,
    past: &Past,
    before: u32,
) -> Result<(), Fail>
    requires { IsInUse E.stands_for engine.old comparison.now.file.now before }
    ensures { IsInUse E.stands_for engine.new comparison.now.file.now before }
{
    let file = comparison.file;
    for about in comparison.asked {
        let event = event(rt, &file.net, about);
        let walked = R::walked(alloc, &file.net, past, event.pairs())?;
        check_each::<R, E>(rt, engine, file, &event, before, walked);
    }
    Ok(())
}

/// Tells an engine each change, and compares its beliefs before each, and behind the last. Where it
/// was told no rows, there are none to compare before the supports are told.
fn tell_all<R: Semiring<Value = Held> + Walked, E: Engine<R>>(
    rt: &impl Abort,
    alloc: Global,
    engine: &mut E,
    comparison: &Comparison,
    past: &mut Past,
) -> Result<(), Fail>
    requires { IsInUse E.stands_for engine.old comparison.now.file.now comparison.now.rows }
{
    let file = comparison.file;
    let mut before = comparison.rows;
    for change in comparison.changes {
        assert!(rt; before < 100);
        if comparison.rows > 0 || !matches!(change, Change::Support(_)) {
            check_all::<R, E>(rt, alloc, engine, comparison, past, before)?;
        }
        tell::<R, E>(rt, engine, file, change, before);
        before += 1;
        past.add(rt, &file.net, change)?;
    }
    check_all::<R, E>(rt, alloc, engine, comparison, past, before)
}

/// The same with an engine that was told nothing, and is told the rows.
fn follow<R: Semiring<Value = Held> + Walked, E: Engine<R>>(
    rt: &impl Abort,
    alloc: Global,
    comparison: &Comparison,
) -> Result<(), Fail>
    requires tree { IsTreeOf comparison.now.file.now.net comparison.now.file.now.tree }
    requires suits { E.suits comparison.now.file.now.net comparison.now.file.now.tree }
{
    assert!(rt; comparison.rows <= 100);
    let mut engine = start::<R, E>(alloc, comparison.file)?;
    tell_rows::<R, E>(rt, &mut engine, comparison.file, comparison.rows);
    let mut past = Past::new(alloc);
    tell_all::<R, E>(rt, alloc, &mut engine, comparison, &mut past)
}

/// Stops unless a clique of all variables is legal.
pub(crate) fn expect_few_states(alloc: Global, net: &Network) -> Result<(), Fail>
    ensures { IfOk result (λ done. joint_states net.now ≤ max_clique_cells) }
{
    let all = all_variables(net);
    let _tree = Tree::from_cliques(alloc, net, &[all], &[])?;
    Ok(())
}

/// A pair, and others that are asked under it.
struct Under(Pair, &'static [Pair]);

/// A network with a tree of it, the pairs that an engine over it is asked alone, the changes that
/// it is told, supports first, and what it is asked under a condition.
struct Sample {
    file: &'static str,
    alone: &'static [Pair],
    changes: &'static [Change],
    under: &'static [Under],
}

/// Over joint and tree engines, sums with the rows of all variables before the changes, and minima
/// of the changes alone, once the supports are told; these over a user's engine too.
fn follow_both(
    rt: &impl Abort,
    alloc: Global,
    file: &MarketFile,
    sample: &Sample,
    asked: &[About],
) -> Result<(), Fail>
    requires tree { IsTreeOf file.now.net file.now.tree }
    requires few { joint_states file.now.net ≤ max_clique_cells }
{
    let (changes, variables) = (sample.changes, file.net.variables());
    let sums = Comparison {
        file,
        rows: variables,
        changes,
        asked,
    };
    follow::<SumProd, JointEngine<SumProd>>(rt, alloc, &sums)?;
    follow::<SumProd, TreeEngine<SumProd>>(rt, alloc, &sums)?;
    let minima = Comparison { rows: 0, ..sums };
    follow::<MinProd, JointEngine<MinProd>>(rt, alloc, &minima)?;
    follow::<MinProd, TreeEngine<MinProd>>(rt, alloc, &minima)?;
    follow::<MinProd, UserEngine>(rt, alloc, &minima)
}

fn follow_file(
    rt: &impl Abort,
    alloc: Global,
    file: &MarketFile,
    sample: &Sample,
) -> Result<(), Fail>
    requires { IsTreeOf file.now.net file.now.tree }
{
    expect_few_states(alloc, &file.net)?;
    let asked = asked_of(alloc, sample)?;
    follow_both(rt, alloc, file, sample, &asked)
}

/// Each pair that is asked, with the one that it is asked under.
fn asked_of(alloc: Global, sample: &Sample) -> Result<Vec<About>, AllocError> {
    let mut asked = Vec::new(alloc);
    push_each(&mut asked, sample.alone, None)?;
    for under in sample.under {
        push_each(&mut asked, under.1, Some(under.0))?;
    }
    Ok(asked)
}

fn push_each(
    asked: &mut Vec<About>,
    pairs: &[Pair],
    condition: Option<Pair>,
) -> Result<(), AllocError> {
    for pair in pairs {
        asked.push(About(*pair, condition))?;
    }
    Ok(())
}

fn follow_sample(rt: &impl Abort, alloc: Global, sample: &Sample) -> Result<(), Fail> {
    let file = read_market(alloc, sample.file.as_bytes())?;
    follow_file(rt, alloc, &file, sample)
}

/// A trade on rain in a wet season from 70 to 80 in a hundred, and then a dry season.
const IN_WEATHER: Sample = Sample {
    file: WEATHER,
    alone: &[A, B, NOT_A, NOT_B],
    changes: &[
        Change::Traded(About(B, Some(A)), 1256584717458, 733007751850),
        Change::Known(NOT_A),
    ],
    under: &[Under(A, &[B]), Under(NOT_A, &[B])],
};

/// Trades and known pairs at each end of the chain.
const ALONG_CHAIN: Sample = Sample {
    file: CHAIN,
    alone: &[A, B, C],
    changes: &[
        Change::Traded(About(C, Some(B)), 733007751850, 1256584717458),
        Change::Traded(About(A, None), 2, 3),
        Change::Traded(About(C, None), 7, 5),
        Change::Known(C),
        Change::Known(NOT_A),
    ],
    under: &[Under(B, &[A, C]), Under(NOT_A, &[B]), Under(NOT_B, &[C])],
};

/// A star: the clique {a, b} amid {a, c}, {b, d} and {b}, where b has three values.
const STAR: &str = "points_per_bit = 1
max_trades = 1
cliques = [['a', 'b'], ['a', 'c'], ['b', 'd'], ['b']]
links = [1, 1, 1]
variable = [
{name = 'a', values = ['up', 'down'], parents = [], rows = [[250000, 750000]]},
{name = 'b', values = ['low', 'mid', 'high'], parents = ['a'], rows = [
[200000, 300000, 500000], [600000, 100000, 300000]]},
{name = 'c', values = ['up', 'down'], parents = ['a'], rows = [[900000, 100000], [350000, 650000]]},
{name = 'd', values = ['up', 'down'], parents = ['b'], rows = [
[500000, 500000], [125000, 875000], [800000, 200000]]},
]
";

/// Trades and known pairs in the middle of the star and at its ends.
const IN_STAR: Sample = Sample {
    file: STAR,
    alone: &[A, B, C, D],
    changes: &[
        Change::Traded(About(C, Some(A)), 1256584717458, 733007751850),
        Change::Traded(About(D, None), 3, 2),
        Change::Known(D),
        Change::Traded(About(B, None), 2, 5),
        Change::Known(NOT_B),
    ],
    under: &[
        Under(A, &[B, C]),
        Under(NOT_A, &[C]),
        Under(B, &[D]),
        Under(NOT_B, &[D]),
    ],
};

/// Nine values of two questions, so that a trade on both names more than 64 assignments.
const NINES: &str = "points_per_bit = 1
max_trades = 1
cliques = [['a', 'b'], ['b', 'c']]
links = [1]
variable = [
{name = 'a', values = ['p', 'q', 'r', 's', 't', 'u', 'v', 'w', 'x'], parents = [], rows = [
[200000, 100000, 100000, 100000, 100000, 100000, 100000, 100000, 100000]]},
{name = 'b', values = ['p', 'q', 'r', 's', 't', 'u', 'v', 'w', 'x'], parents = [], rows = [
[100000, 100000, 200000, 100000, 100000, 100000, 100000, 100000, 100000]]},
{name = 'c', values = ['p', 'q'], parents = [], rows = [[700000, 300000]]},
]
";

/// A user's engine keeps two trades in groups apart, and goes over to its tree at the third, which would join 81 assignments.
const IN_NINES: Sample = Sample {
    file: NINES,
    alone: &[A, B, C, NOT_C],
    changes: &[
        Change::Traded(About(C, None), 2, 7),
        Change::Traded(About(B, None), 3, 5),
        Change::Known(NOT_C),
        Change::Traded(About(A, Some(B)), 733007751850, 1256584717458),
        Change::Known(NOT_A),
    ],
    under: &[
        Under(B, &[A, C]),
        Under(NOT_A, &[B]),
        Under(NOT_B, &[NOT_C]),
    ],
};

/// A chain in which b is up where a is, and c has three values, of which one cannot come beside each value of b.
const GATES: &str = "points_per_bit = 1
max_trades = 1
zeros = true
cliques = [['a', 'b'], ['b', 'c'], ['c']]
links = [1, 2]
variable = [
{name = 'a', values = ['up', 'down'], parents = [], rows = [[500000, 500000]]},
{name = 'b', values = ['up', 'down'], parents = ['a'], rows = [[1000000, 0], [300000, 700000]]},
{name = 'c', values = ['low', 'mid', 'high'], parents = ['b'], rows = [
[0, 400000, 600000], [500000, 500000, 0]]},
]
";

/// Trades where some states cannot come, before and after a known pair beside which another cannot.
const AT_GATES: Sample = Sample {
    file: GATES,
    alone: &[A, B, C, NOT_B],
    changes: &[
        Change::Support(1),
        Change::Support(2),
        Change::Traded(About(A, Some(B)), 1256584717458, 733007751850),
        Change::Traded(About(C, None), 3, 2),
        Change::Known(NOT_B),
        Change::Traded(About(C, None), 2, 5),
    ],
    under: &[
        Under(A, &[NOT_B]),
        Under(B, &[C]),
        Under(NOT_B, &[C]),
        Under(NOT_A, &[B]),
    ],
};

#[test]
fn engines_are_as_walked(rt: HostRuntime) -> Result<(), Fail> {
    for sample in &[IN_WEATHER, ALONG_CHAIN, IN_STAR, IN_NINES, AT_GATES] {
        follow_sample(&rt, rt.alloc(), sample)?;
    }
    Ok(())
}

/// Stops unless the walk finds each of these numbers, after so many changes.
fn expect_numbers<R: Walked>(
    rt: &impl Abort,
    alloc: Global,
    net: &Network,
    past: &mut Past,
    changes: &[Change],
    expected: &[(About, u128)],
) -> Result<(), Fail> {
    for change in changes {
        past.add(rt, net, change)?;
    }
    for (about, number) in expected {
        let event = event(rt, net, about);
        let walked = R::walked(alloc, net, past, event.pairs())?;
        assert!(rt; walked == Some(*number));
    }
    Ok(())
}

/// The same from no changes on.
fn expect_on<R: Walked>(
    rt: &impl Abort,
    alloc: Global,
    net: &Network,
    changes: &[Change],
    expected: &[(About, u128)],
) -> Result<(), Fail> {
    let mut past = Past::new(alloc);
    expect_numbers::<R>(rt, alloc, net, &mut past, changes, expected)
}

/// The same on a sample's network, once so many of its changes were made.
fn expect_walked<R: Walked>(
    rt: &impl Abort,
    alloc: Global,
    sample: &Sample,
    made: usize,
    expected: &[(About, u128)],
) -> Result<(), Fail> {
    assert!(rt; made <= sample.changes.len());
    let file = read_market(alloc, sample.file.as_bytes())?;
    expect_on::<R>(rt, alloc, &file.net, &sample.changes[..made], expected)
}

// Of rain and a wet season 400,000 times 700,000 times 1,256,584,717,458; and of rain and a dry one 600,000 times 100,000 times 2^40.
const WET_RAIN: u128 = 351_843_720_888_240_000_000_000;

const DRY_RAIN: u128 = 65_970_697_666_560_000_000_000;

const IN_WET: &[(About, u128)] = &[
    (About(B, Some(A)), WET_RAIN),
    (About(B, Some(NOT_A)), DRY_RAIN),
    (About(B, None), WET_RAIN + DRY_RAIN),
];

// Of 10^18: b is up in 0.5 * 0.6 + 0.5 * 0.3, c in 0.45 * 0.8 + 0.55 * 0.1, and a and b in 0.5 * 0.6.
const OF_CHAIN: &[(About, u128)] = &[
    (About(B, None), 450_000_000_000_000_000),
    (About(C, None), 415_000_000_000_000_000),
    (About(A, Some(B)), 300_000_000_000_000_000),
];

#[test]
fn sums_of_the_walk(rt: HostRuntime) -> Result<(), Fail> {
    let known = &[(About(B, None), DRY_RAIN)];
    expect_walked::<SumProd>(&rt, rt.alloc(), &IN_WEATHER, 1, IN_WET)?;
    expect_walked::<SumProd>(&rt, rt.alloc(), &IN_WEATHER, 2, known)?;
    expect_walked::<SumProd>(&rt, rt.alloc(), &ALONG_CHAIN, 0, OF_CHAIN)
}

// The units of the trade where the season is wet, and 2^40 elsewhere.
const LEAST_IN_WET: &[(About, u128)] = &[
    (About(B, Some(A)), 1_256_584_717_458),
    (About(B, None), 1_099_511_627_776),
    (About(NOT_B, None), 733_007_751_850),
];

// Where c is up and b is down, the first trade's 2^40 is left, with 3 and 7 of the others; where both are up, its 733,007,751,850.
const LEAST_OF_CHAIN: &[(About, u128)] = &[
    (About(NOT_B, None), 23_089_744_183_296),
    (About(B, None), 15_393_162_788_850),
];

#[test]
fn minima_of_the_walk(rt: HostRuntime) -> Result<(), Fail> {
    let known = &[(About(NOT_B, None), 1_099_511_627_776)];
    expect_walked::<MinProd>(&rt, rt.alloc(), &IN_WEATHER, 1, LEAST_IN_WET)?;
    expect_walked::<MinProd>(&rt, rt.alloc(), &IN_WEATHER, 2, known)?;
    expect_walked::<MinProd>(&rt, rt.alloc(), &ALONG_CHAIN, 5, LEAST_OF_CHAIN)
}
