//! How many messages a price makes behind an edit, along a chain of twenty variables, by numbers
//! worked out by hand.

ghost use Rattle.std.specs.Prelude.{◌+◌, ◌<◌, ◌≤◌};
ghost use Rattle.std.specs.List.{AllByRecursion};
ghost use Rattle.mk_tree.specs.Checked.{IsTreeOf};
ghost use Rattle.mk_tree.specs.Held.{IsHeldAt};
ghost use Rattle.mk_states.specs.OfNetwork.{IsPairOf};
ghost use Rattle.mk_engine_trials.specs.Used.{IsInUse};

use crate::engines::{About, Change, ask_in, event, home_of, start, tell, tell_rows};
use mk_engine::Engine;
use mk_file::{MarketFile, read_market};
use mk_fixtures::holds_event;
use mk_net::{Event, Pair};
use mk_semiring::{Semiring, SumProd};
use mk_tree::Tree;
use mk_tree_engine::TreeEngine;
use std::alloc::Global;
use std::process::Abort;
use std::test::Fail;

/// Twenty days, each the parent of the next, in nineteen cliques of two days each.
const DAYS: &str = "points_per_bit = 1
max_trades = 1
cliques = [
    ['a', 'b'], ['b', 'c'], ['c', 'd'], ['d', 'e'], ['e', 'f'], ['f', 'g'], ['g', 'h'],
    ['h', 'i'], ['i', 'j'], ['j', 'k'], ['k', 'l'], ['l', 'm'], ['m', 'n'], ['n', 'o'],
    ['o', 'p'], ['p', 'q'], ['q', 'r'], ['r', 's'], ['s', 't'],
]
links = [1, 2, 3, 4, 5, 6, 7, 8, 9, 10, 11, 12, 13, 14, 15, 16, 17, 18]
variable = [
{name = 'a', values = ['wet', 'dry'], parents = [], rows = [[400000, 600000]]},
{name = 'b', values = ['wet', 'dry'], parents = ['a'], rows = [[700000, 300000], [200000, 800000]]},
{name = 'c', values = ['wet', 'dry'], parents = ['b'], rows = [[700000, 300000], [200000, 800000]]},
{name = 'd', values = ['wet', 'dry'], parents = ['c'], rows = [[700000, 300000], [200000, 800000]]},
{name = 'e', values = ['wet', 'dry'], parents = ['d'], rows = [[700000, 300000], [200000, 800000]]},
{name = 'f', values = ['wet', 'dry'], parents = ['e'], rows = [[700000, 300000], [200000, 800000]]},
{name = 'g', values = ['wet', 'dry'], parents = ['f'], rows = [[700000, 300000], [200000, 800000]]},
{name = 'h', values = ['wet', 'dry'], parents = ['g'], rows = [[700000, 300000], [200000, 800000]]},
{name = 'i', values = ['wet', 'dry'], parents = ['h'], rows = [[700000, 300000], [200000, 800000]]},
{name = 'j', values = ['wet', 'dry'], parents = ['i'], rows = [[700000, 300000], [200000, 800000]]},
{name = 'k', values = ['wet', 'dry'], parents = ['j'], rows = [[700000, 300000], [200000, 800000]]},
{name = 'l', values = ['wet', 'dry'], parents = ['k'], rows = [[700000, 300000], [200000, 800000]]},
{name = 'm', values = ['wet', 'dry'], parents = ['l'], rows = [[700000, 300000], [200000, 800000]]},
{name = 'n', values = ['wet', 'dry'], parents = ['m'], rows = [[700000, 300000], [200000, 800000]]},
{name = 'o', values = ['wet', 'dry'], parents = ['n'], rows = [[700000, 300000], [200000, 800000]]},
{name = 'p', values = ['wet', 'dry'], parents = ['o'], rows = [[700000, 300000], [200000, 800000]]},
{name = 'q', values = ['wet', 'dry'], parents = ['p'], rows = [[700000, 300000], [200000, 800000]]},
{name = 'r', values = ['wet', 'dry'], parents = ['q'], rows = [[700000, 300000], [200000, 800000]]},
{name = 's', values = ['wet', 'dry'], parents = ['r'], rows = [[700000, 300000], [200000, 800000]]},
{name = 't', values = ['wet', 'dry'], parents = ['s'], rows = [[700000, 300000], [200000, 800000]]},
]
";

const LAST: u32 = 19;

/// An edit in a clique, a price in another, and three numbers of messages. The first is what the
/// price's part makes in its own clique. What it is a part of makes none there. It makes the second
/// where a condition is asked in its home, and the third where all states are asked in the first.
#[derive(Clone, Copy)]
struct Behind(u32, u32, u64, u64, u64);

/// Two cliques, the earlier one first, how many separators lie between them, and how many between
/// the first clique and the earlier one. The way from an edit to the first clique leaves the way to
/// the price in the earlier of the two.
struct Cliques(u32, u32, u64, u64);

const CLIQUES: &[Cliques] = &[
    Cliques(1, 19, 18, 0),
    Cliques(2, 19, 17, 1),
    Cliques(10, 19, 9, 9),
    Cliques(18, 19, 1, 17),
    Cliques(19, 19, 0, 18),
    Cliques(7, 12, 5, 6),
    Cliques(10, 10, 0, 9),
    Cliques(1, 1, 0, 0),
];

/// A condition is on the first day of its clique; beyond the first clique its home is the clique
/// before, and the way there from an edit that is not earlier is one message longer.
fn price_behind(edited: u32, at: u32, between: u64, in_first: u64) -> Behind {
    let in_home = if 1 < at && at <= edited { 1 } else { 0 };
    Behind(edited, at, between, in_home, in_first)
}

/// A belief that is asked: an event, the clique, and how many messages it is to make.
#[derive(Clone, Copy)]
struct Asked {
    event: Event,
    at: u32,
    makes: u64,
}

/// The first of two values of a day.
fn wet(day: u32) -> Pair {
    Pair {
        variable: day,
        value: 0,
    }
}

/// Stops unless a clique holds an event.
fn expect_held(rt: &impl Abort, tree: &Tree, at: u32, event: &Event)
    ensures { IsHeldAt tree.now at event.now }
{
    assert!(rt; 1 <= at && at <= tree.cliques());
    assert!(rt; holds_event(tree, at, event));
}

/// Stops unless a belief makes as many messages as it is to make, all of which were stale.
fn expect_made(
    rt: &impl Abort,
    engine: &mut TreeEngine<SumProd>,
    file: &MarketFile,
    asked: Asked,
    before: u32,
)
    requires used { IsInUse ⟦<TreeEngine<SumProd> as Engine<SumProd>>⟧.stands_for
        engine.old file.now before }
    requires own { AllByRecursion (IsPairOf file.now.net) asked.event }
    ensures { IsInUse ⟦<TreeEngine<SumProd> as Engine<SumProd>>⟧.stands_for
        engine.new file.now before }
{
    let Asked { event, at, makes } = asked;
    expect_held(rt, &file.tree, at, &event);
    assert!(rt; engine.stale_towards(at) == makes);
    let begun = engine.computed();
    let _ = ask_in(engine, file, at, &event, before);
    assert!(rt; engine.computed().checked_sub(begun) == Some(makes));
}

/// Makes all messages: those towards each end of the chain.
fn make_all<R: Semiring, E: Engine<R>>(
    rt: &impl Abort,
    engine: &mut E,
    file: &MarketFile,
    before: u32,
)
    requires { IsInUse E.stands_for engine.old file.now before }
    ensures { IsInUse E.stands_for engine.new file.now before }
{
    let all = Event::empty();
    expect_held(rt, &file.tree, 1, &all);
    expect_held(rt, &file.tree, LAST, &all);
    let _ = ask_in::<R, E>(engine, file, 1, &all, before);
    let _ = ask_in::<R, E>(engine, file, LAST, &all, before);
}

/// Edits the second day of a clique under its first, once all messages were made.
fn edit<R: Semiring, E: Engine<R>>(
    rt: &impl Abort,
    engine: &mut E,
    file: &MarketFile,
    clique: u32,
    before: u32,
)
    requires used { IsInUse E.stands_for engine.old file.now before }
    requires few { before < 100 }
    ensures { IsInUse E.stands_for engine.new file.now (before + 1) }
{
    assert!(rt; 1 <= clique);
    make_all::<R, E>(rt, engine, file, before);
    let about = About(wet(clique), Some(wet(clique - 1)));
    tell::<R, E>(rt, engine, file, &Change::Traded(about, 2, 3), before);
}

/// A price behind an edit: its part, what it is a part of, and another clique where that is asked
/// as well, with how many messages it then makes.
#[derive(Clone, Copy)]
struct Price {
    edited: u32,
    part: Asked,
    whole: Event,
    elsewhere: u32,
    makes: u64,
}

/// Stops unless a price makes its messages, behind two edits: with the whole asked in the part's
/// clique, where it makes none, and elsewhere.
fn expect_price(
    rt: &impl Abort,
    engine: &mut TreeEngine<SumProd>,
    file: &MarketFile,
    price: &Price,
    before: u32,
)
    requires used { IsInUse ⟦<TreeEngine<SumProd> as Engine<SumProd>>⟧.stands_for
        engine.old file.now before }
    requires few { before < 99 }
    requires part { AllByRecursion (IsPairOf file.now.net) price.now.part.event }
    requires whole { AllByRecursion (IsPairOf file.now.net) price.now.whole }
    ensures { IsInUse ⟦<TreeEngine<SumProd> as Engine<SumProd>>⟧.stands_for
        engine.new file.now (before + 2) }
{
    let (event, beside) = (price.whole, price.part.at);
    let whole = Asked {
        event,
        at: beside,
        makes: 0,
    };
    edit(rt, engine, file, price.edited, before);
    expect_made(rt, engine, file, price.part, before + 1);
    expect_made(rt, engine, file, whole, before + 1);
    let whole = Asked {
        event,
        at: price.elsewhere,
        makes: price.makes,
    };
    edit(rt, engine, file, price.edited, before + 1);
    expect_made(rt, engine, file, price.part, before + 2);
    expect_made(rt, engine, file, whole, before + 2);
}

/// The price of a day under the day before, whose condition has a home of its own.
fn under_day(rt: &impl Abort, file: &MarketFile, row: &Behind) -> Price
    ensures part { AllByRecursion (IsPairOf file.now.net) result.part.event }
    ensures whole { AllByRecursion (IsPairOf file.now.net) result.whole }
{
    let Behind(edited, at, makes, in_home, _) = *row;
    assert!(rt; 1 <= at);
    let whole = event(rt, &file.net, &About(wet(at - 1), None));
    let event = event(rt, &file.net, &About(wet(at), Some(wet(at - 1))));
    Price {
        edited,
        part: Asked { event, at, makes },
        whole,
        elsewhere: home_of(rt, &file.tree, &whole),
        makes: in_home,
    }
}

/// The price of a day under no condition.
fn under_none(rt: &impl Abort, file: &MarketFile, row: &Behind) -> Price
    ensures part { AllByRecursion (IsPairOf file.now.net) result.part.event }
    ensures whole { AllByRecursion (IsPairOf file.now.net) result.whole }
{
    let Behind(edited, at, makes, _, in_first) = *row;
    Price {
        edited,
        part: Asked {
            event: event(rt, &file.net, &About(wet(at), None)),
            at,
            makes,
        },
        whole: Event::empty(),
        elsewhere: 1,
        makes: in_first,
    }
}

/// The prices behind an edit, in an engine of their own.
fn check_prices(rt: &impl Abort, alloc: Global, file: &MarketFile, row: &Behind) -> Result<(), Fail>
    requires { IsTreeOf file.now.net file.now.tree }
{
    let mut engine = start::<SumProd, TreeEngine<SumProd>>(alloc, file)?;
    tell_rows(rt, &mut engine, file, 20);
    expect_price(rt, &mut engine, file, &under_day(rt, file, row), 20);
    expect_price(rt, &mut engine, file, &under_none(rt, file, row), 22);
    Ok(())
}

/// Edits and prices in two cliques each, both ways.
fn check_cliques(rt: &impl Abort, alloc: Global, file: &MarketFile) -> Result<(), Fail>
    requires { IsTreeOf file.now.net file.now.tree }
{
    for Cliques(earlier, later, between, before) in CLIQUES {
        let forth = price_behind(*earlier, *later, *between, *before);
        check_prices(rt, alloc, file, &forth)?;
        let back = price_behind(*later, *earlier, *between, *before);
        check_prices(rt, alloc, file, &back)?;
    }
    Ok(())
}

#[test]
fn prices_behind_edits(rt: HostRuntime) -> Result<(), Fail> {
    let file = read_market(rt.alloc(), DAYS.as_bytes())?;
    check_cliques(&rt, rt.alloc(), &file)
}
