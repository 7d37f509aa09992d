//! What engines are told and asked, each after so many changes, and how many messages that makes.

ghost use Rattle.std.specs.Prelude.{◌≡◌, ◌+◌, ◌<◌, ◌≤◌, [], ◌∷◌, Some, IfOk};
ghost use Rattle.std.specs.List.{AllByRecursion};
ghost use Rattle.mk_net.specs.Trades.{trade_ratio};
ghost use Rattle.mk_states.specs.OfNetwork.{IsPairOf, IsQuestionOf, IsRatioOf};
ghost use Rattle.mk_tree.specs.Given.{home};
ghost use Rattle.mk_tree.specs.Checked.{IsTreeOf};
ghost use Rattle.mk_tree.specs.Held.{IsHeldAt};
ghost use Rattle.mk_engine_trials.specs.Used.{IsInUse};

use mk_engine::Engine;
use mk_file::{MarketFile, read_market};
use mk_fixtures::{A, B, C, CHAIN};
use mk_net::{Event, Network, NoMemory, Pair, Question, Ratio};
use mk_semiring::{Held, Semiring, SumProd};
use mk_tree::Tree;
use mk_tree_engine::TreeEngine;
use std::alloc::Global;
use std::process::Abort;
use std::test::Fail;

/// A pair, and another that it is asked or traded under, where there is one.
#[derive(Clone, Copy)]
pub(crate) struct About(pub(crate) Pair, pub(crate) Option<Pair>);

/// What an engine is told: the rows of a variable, where its values have no share of nothing, a trade by two numbers of units, or a
/// known pair.
#[derive(Clone, Copy)]
pub(crate) enum Change {
    Rows(u32),
    Support(u32),
    Traded(About, u64, u64),
    Known(Pair),
}

/// Stops unless the pair is one of the network's.
fn check_pair(rt: &impl Abort, net: &Network, pair: Pair)
    ensures { IsPairOf net.now pair }
{
    assert!(rt; pair.variable < net.variables());
    assert!(rt; pair.value < net.values(pair.variable));
}

/// The event of no pair, or of one.
fn condition(rt: &impl Abort, net: &Network, given: Option<Pair>) -> Event
    ensures { AllByRecursion (IsPairOf net.now) result }
{
    let Some(pair) = given else {
        return Event::empty();
    };
    check_pair(rt, net, pair);
    Event::empty().with(pair).expect(rt, "a pair")
}

pub(crate) fn event(rt: &impl Abort, net: &Network, about: &About) -> Event
    ensures { AllByRecursion (IsPairOf net.now) result }
{
    check_pair(rt, net, about.0);
    let condition = condition(rt, net, about.1);
    condition.with(about.0).expect(rt, "two pairs")
}

fn question(rt: &impl Abort, net: &Network, about: &About) -> Question
    ensures { IsQuestionOf net.now result }
{
    let condition = condition(rt, net, about.1);
    check_pair(rt, net, about.0);
    Question::make(about.0, condition).expect(rt, "a question")
}

/// The ratio of a trade.
pub(crate) fn ratio(rt: &impl Abort, net: &Network, about: &About, hit: u64, miss: u64) -> Ratio
    ensures { IsRatioOf net.now (trade_ratio result) }
{
    let asked = question(rt, net, about);
    let target = asked.target();
    let values = net.values(target.variable);
    assert!(rt; 2 <= values);
    assert!(rt; values <= 16);
    assert!(rt; 1 <= hit);
    assert!(rt; hit < 1 << 62);
    assert!(rt; 1 <= miss);
    assert!(rt; miss < 1 << 62);
    Ratio::of_question(&asked, values, hit, miss)
}

/// The first clique that holds an event; there is one.
pub(crate) fn home_of(rt: &impl Abort, tree: &Tree, event: &Event) -> u32
    ensures home { home tree.now event.now ≡ Some result }
    ensures held { IsHeldAt tree.now result event.now }
{
    tree.home(event).expect(rt, "a home")
}

/// The event of one pair.
fn only(rt: &impl Abort, pair: Pair) -> Event
    ensures { result ≡ pair ∷ [] }
{
    Event::empty().with(pair).expect(rt, "a pair")
}

/// Tells an engine, after so many changes.
pub(crate) fn tell<R: Semiring, E: Engine<R>>(
    rt: &impl Abort,
    engine: &mut E,
    file: &MarketFile,
    change: &Change,
    before: u32,
)
    requires used { IsInUse E.stands_for engine.old file.now before }
    requires few { before < 100 }
    ensures { IsInUse E.stands_for engine.new file.now (before + 1) }
{
    let (net, tree) = (&file.net, &file.tree);
    match *change {
        Change::Rows(variable) => {
            assert!(rt; variable < net.variables());
            engine.weigh(net, variable);
        }
        Change::Support(variable) => {
            assert!(rt; variable < net.variables());
            engine.support(net, variable);
        }
        Change::Traded(about, hit, miss) => {
            let ratio = ratio(rt, net, &about, hit, miss);
            engine.multiply(home_of(rt, tree, &ratio.event()), &ratio);
        }
        Change::Known(pair) => {
            check_pair(rt, net, pair);
            engine.know(home_of(rt, tree, &only(rt, pair)), pair);
        }
    }
}

/// Tells an engine the rows of the first variables, so many.
pub(crate) fn tell_rows<R: Semiring, E: Engine<R>>(
    rt: &impl Abort,
    engine: &mut E,
    file: &MarketFile,
    count: u32,
)
    requires used { IsInUse E.stands_for engine.old file.now 0 }
    requires few { count ≤ 100 }
    ensures { IsInUse E.stands_for engine.new file.now count }
{
    for variable in 0..count {
        tell::<R, E>(rt, engine, file, &Change::Rows(variable), variable);
    }
}

/// The belief in an event, asked in a clique that holds it, after so many changes.
pub(crate) fn ask_in<R: Semiring, E: Engine<R>>(
    engine: &mut E,
    file: &MarketFile,
    at: u32,
    event: &Event,
    before: u32,
) -> R::Value
    requires used { IsInUse E.stands_for engine.old file.now before }
    requires own { AllByRecursion (IsPairOf file.now.net) event.now }
    requires held { IsHeldAt file.now.tree at event.now }
    ensures { IsInUse E.stands_for engine.new file.now before }
{
    engine.belief(at, event)
}

/// The belief in an event, asked in its home, after so many changes.
pub(crate) fn ask<R: Semiring, E: Engine<R>>(
    rt: &impl Abort,
    engine: &mut E,
    file: &MarketFile,
    event: &Event,
    before: u32,
) -> R::Value
    requires used { IsInUse E.stands_for engine.old file.now before }
    requires own { AllByRecursion (IsPairOf file.now.net) event.now }
    ensures { IsInUse E.stands_for engine.new file.now before }
{
    let home = home_of(rt, &file.tree, event);
    ask_in::<R, E>(engine, file, home, event, before)
}

/// An engine that was told nothing.
pub(crate) fn start<R: Semiring, E: Engine<R>>(
    alloc: Global,
    file: &MarketFile,
) -> Result<E, NoMemory>
    requires tree { IsTreeOf file.now.net file.now.tree }
    requires suits { E.suits file.now.net file.now.tree }
    ensures { IfOk result (λ engine. IsInUse E.stands_for engine file.now 0) }
{
    let plan = E::plan(alloc, &file.net, &file.tree)?;
    let engine = E::start(alloc, &plan)?;
    Ok(engine)
}

/// A mantissa times a power of two.
#[derive(Clone, Copy)]
pub(crate) struct Exact(pub(crate) u64, pub(crate) u64);

/// Stops unless the value is a mantissa times a power of two, exactly.
fn check_exact(rt: &impl Abort, held: &Held, mantissa: u64, exponent: u64) {
    match held {
        Held::Absent => assert!(rt; mantissa == 0),
        Held::Present(enclosure) => {
            let (low, high) = (enclosure.lo(), enclosure.hi());
            assert!(rt; low.mantissa() == mantissa && low.exponent() == exponent);
            assert!(rt; high.mantissa() == mantissa && high.exponent() == exponent);
        }
    }
}

/// Stops unless this is exactly the belief in an event, after so many changes.
pub(crate) fn expect<R: Semiring<Value = Held>, E: Engine<R>>(
    rt: &impl Abort,
    engine: &mut E,
    file: &MarketFile,
    event: &Event,
    before: u32,
    number: Exact,
)
    requires used { IsInUse E.stands_for engine.old file.now before }
    requires own { AllByRecursion (IsPairOf file.now.net) event.now }
    ensures { IsInUse E.stands_for engine.new file.now before }
{
    let believed = ask::<R, E>(rt, engine, file, event, before);
    check_exact(rt, &believed, number.0, number.1);
}

/// A belief, and how many messages were made until an engine gave it.
#[derive(Clone, Copy)]
struct Made(u64, u64);

/// Stops unless this is the belief in a pair, after so many changes, and so many messages were made.
fn expect_made(
    rt: &impl Abort,
    engine: &mut TreeEngine<SumProd>,
    file: &MarketFile,
    pair: Pair,
    before: u32,
    made: Made,
)
    requires { IsInUse ⟦<TreeEngine<SumProd> as Engine<SumProd>>⟧.stands_for engine.old file.now
        before }
    ensures { IsInUse ⟦<TreeEngine<SumProd> as Engine<SumProd>>⟧.stands_for engine.new file.now
        before }
{
    let event = event(rt, &file.net, &About(pair, None));
    expect(rt, engine, file, &event, before, Exact(made.0, 0));
    assert!(rt; engine.computed() == made.1);
}

/// Over the chain: an engine that was told nothing, and how many messages it makes.
fn check_messages(rt: &impl Abort, engine: &mut TreeEngine<SumProd>, file: &MarketFile)
    requires { IsInUse ⟦<TreeEngine<SumProd> as Engine<SumProd>>⟧.stands_for engine.old file.now 0 }
{
    tell_rows(rt, engine, file, 3);
    expect_made(rt, engine, file, C, 3, Made(415_000_000_000_000_000, 2));
    expect_made(rt, engine, file, C, 3, Made(415_000_000_000_000_000, 2));
    tell(rt, engine, file, &Change::Traded(About(A, None), 2, 3), 3);
    expect_made(rt, engine, file, C, 4, Made(985_000_000_000_000_000, 3));
    expect_made(rt, engine, file, B, 4, Made(1_050_000_000_000_000_000, 4));
}

/// Over the chain, only stale messages are made.
fn check_stale(rt: &impl Abort, alloc: Global, file: &MarketFile) -> Result<(), Fail>
    requires { IsTreeOf file.now.net file.now.tree }
{
    let mut engine = start::<SumProd, TreeEngine<SumProd>>(alloc, file)?;
    check_messages(rt, &mut engine, file);
    Ok(())
}

#[test]
fn stale_messages(rt: HostRuntime) -> Result<(), Fail> {
    let file = read_market(rt.alloc(), CHAIN.as_bytes())?;
    check_stale(&rt, rt.alloc(), &file)
}
