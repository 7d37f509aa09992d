//! Messages and beliefs on a chain of three variables, by numbers worked out by hand.

ghost use Rattle.std.specs.Prelude.{◌≡◌, ℕ, ◌+◌, ◌<◌, [], ◌∷◌, List, length, IfOk};
ghost use Rattle.mk_net.specs.Network.{Variable};
ghost use Rattle.mk_net.specs.Trades.{trade_ratio};
ghost use Rattle.mk_tree.specs.Given.{clique_at};
ghost use Rattle.mk_tree.specs.Checked.{IsTreeOf};
ghost use Rattle.mk_tree.specs.Tests.{holds_family};
ghost use Rattle.mk_plan.specs.Shapes.{IsShapeFor, IsClique};
ghost use Rattle.mk_tree_trials.specs.Placed.{has_all, HasSome, IsCollected, IsReady, KeepsReady};

use mk_file::MarketFile;
use mk_fixtures::{B, C, holds_event};
use mk_net::{Event, Network, NoMemory, Pair, Question, Ratio};
use mk_plan::Shape;
use mk_propagate::Flow;
use mk_semiring::{Held, MinProd, Semiring, SumProd};
use mk_sets::VarSet;
use mk_tree::Tree;
use std::alloc::Global;
use std::process::Abort;
use std::rc::Rc;
use std::test::Fail;

/// Whether a set has each of some variables.
fn has_all(set: &VarSet, variables: &[u32]) -> bool
    ensures { result ≡ has_all set.now variables.now }
{
    variables.iter().all(|variable| set.has(*variable))
}

/// Whether a clique holds a variable and its parents.
fn holds_family(net: &Network, tree: &Tree, clique: u32, variable: u32) -> bool
    requires clique { IsClique tree.now clique }
    requires variable { variable < length net.now }
    ensures { result ≡ holds_family net.now variable (clique_at tree.now clique) }
{
    let set = tree.clique(clique);
    set.has(variable) && has_all(&set, net.parents(variable))
}

/// Stops unless the shape has the clique.
fn expect_clique(rt: &impl Abort, shape: &Shape, clique: u32)
    ensures { IsClique shape.now.tree clique }
{
    assert!(rt; clique >= 1);
    assert!(rt; clique <= shape.cliques());
}

/// Places the rows of a variable, after so many factors.
fn place<R: Semiring>(
    rt: &impl Abort,
    flow: &mut Flow<R>,
    clique: u32,
    net: &Network,
    variable: u32,
    before: u32,
)
    requires some { HasSome R.plus_of flow.old net.now before }
    requires few { before < 10 }
    ensures some { HasSome R.plus_of flow.new net.now (before + 1) }
    ensures ready { IsReady R.plus_of flow.old net.now before clique → IsReady R.plus_of flow.new net.now (before + 1) clique }
{
    expect_clique(rt, flow.shape(), clique);
    assert!(rt; variable < net.variables());
    assert!(rt; holds_family(net, flow.shape().tree(), clique, variable));
    flow.times_rows(clique, net, variable);
}

/// Stops unless the value is this number, exactly.
fn check(rt: &impl Abort, held: &Held, n: u64) {
    let Held::Present(found) = held else {
        assert!(rt; n == 0);
        return;
    };
    assert!(rt; (found.lo().mantissa(), found.lo().exponent()) == (n, 0));
    assert!(rt; (found.hi().mantissa(), found.hi().exponent()) == (n, 0));
}

/// An event, and the number of the belief in it.
type Belief<'a> = (&'a Event, u64);

/// Stops unless a belief is this, read in a clique with the messages into it as they are.
fn again<R: Semiring<Value = Held>>(
    rt: &impl Abort,
    flow: &mut Flow<R>,
    clique: u32,
    belief: Belief,
)
    requires { (network : List Variable) × (count : ℕ) × IsReady R.plus_of flow.old network count clique }
    ensures { KeepsReady R.plus_of flow.old flow.new }
{
    expect_clique(rt, flow.shape(), clique);
    let (event, number) = belief;
    assert!(rt; holds_event(flow.shape().tree(), clique, event));
    check(rt, &flow.read(clique, event), number);
}

/// Makes the messages towards a clique.
fn towards<R: Semiring>(rt: &impl Abort, flow: &mut Flow<R>, clique: u32)
    requires { (network : List Variable) × (count : ℕ) × HasSome R.plus_of flow.old network count }
    ensures { (network : List Variable) (count : ℕ) → HasSome R.plus_of flow.old network count → IsCollected R.plus_of flow.new network count clique }
{
    expect_clique(rt, flow.shape(), clique);
    flow.collect(clique);
}

/// Makes the messages away from a clique.
fn away<R: Semiring>(rt: &impl Abort, flow: &mut Flow<R>, clique: u32)
    requires { (network : List Variable) × (count : ℕ) × IsCollected R.plus_of flow.old network count clique }
    ensures { (network : List Variable) (count : ℕ) → IsCollected R.plus_of flow.old network count clique → IsReady R.plus_of flow.new network count clique }
{
    expect_clique(rt, flow.shape(), clique);
    flow.distribute(clique);
}

/// Stops unless a belief is this, read in a clique after the messages towards it, and after those
/// away from it.
fn around<R: Semiring<Value = Held>>(
    rt: &impl Abort,
    flow: &mut Flow<R>,
    clique: u32,
    belief: Belief,
)
    requires { (network : List Variable) × (count : ℕ) × HasSome R.plus_of flow.old network count }
    ensures { (network : List Variable) (count : ℕ) → HasSome R.plus_of flow.old network count → IsReady R.plus_of flow.new network count clique }
{
    towards(rt, flow, clique);
    again(rt, flow, clique, belief);
    away(rt, flow, clique);
    again(rt, flow, clique, belief);
}

/// A trade on b.
fn trade(rt: &impl Abort) -> Ratio
    ensures { trade_ratio result ≡ record { variable = 1; condition = []; factors = 2 ∷ 3 ∷ [] } }
{
    let question = Question::make(B, Event::empty()).expect(rt, "a question");
    Ratio::of_question(&question, 2, 2, 3)
}

/// Places the trade in the second clique, after three factors.
fn multiply<R: Semiring>(rt: &impl Abort, flow: &mut Flow<R>, net: &Network)
    requires { HasSome R.plus_of flow.old net.now 3 }
    ensures some { HasSome R.plus_of flow.new net.now 4 }
    ensures ready { IsReady R.plus_of flow.old net.now 3 2 → IsReady R.plus_of flow.new net.now 4 2 }
{
    assert!(rt; net.variables() == 3);
    assert!(rt; net.values(1) == 2);
    expect_clique(rt, flow.shape(), 2);
    assert!(rt; flow.shape().tree().clique(2).has(1));
    flow.times_ratio(2, &trade(rt));
}

/// Places a known pair, after four factors.
fn know<R: Semiring>(rt: &impl Abort, flow: &mut Flow<R>, clique: u32, net: &Network, pair: Pair)
    requires { HasSome R.plus_of flow.old net.now 4 }
    ensures some { HasSome R.plus_of flow.new net.now 4 }
    ensures ready { IsReady R.plus_of flow.old net.now 4 clique → IsReady R.plus_of flow.new net.now 4 clique }
{
    expect_clique(rt, flow.shape(), clique);
    assert!(rt; pair.variable < net.variables());
    assert!(rt; pair.value < net.values(pair.variable));
    assert!(rt; flow.shape().tree().clique(clique).has(pair.variable));
    flow.restrict(clique, pair);
}

/// Beliefs on the chain: that b is up, read in the first clique, with the rows of a, with those of b placed there, and with those of c
/// placed in the second clique; and in all states, read in the second clique, at first, with the trade placed there, with c known in
/// the third clique, and with b known in the second.
struct Beliefs {
    first: [u64; 3],
    second: [u64; 4],
}

/// Stops unless these are the beliefs that b is up. Each is read after the messages away once more; where the rows of b are placed,
/// no message changes it.
fn in_first<R: Semiring<Value = Held>>(
    rt: &impl Abort,
    flow: &mut Flow<R>,
    net: &Network,
    alone: u64,
    with_b: u64,
    with_c: u64,
)
    requires { HasSome R.plus_of flow.old net.now 0 }
{
    let up = Event::empty().with(B).expect(rt, "a pair");
    place(rt, flow, 1, net, 0, 0);
    around(rt, flow, 1, (&up, alone));
    again(rt, flow, 1, (&up, alone));
    place(rt, flow, 1, net, 1, 1);
    again(rt, flow, 1, (&up, with_b));
    place(rt, flow, 2, net, 2, 2);
    around(rt, flow, 1, (&up, with_c));
    assert!(rt; flow.computed() == 8);
}

/// Stops unless these are the beliefs in all states.
fn in_second<R: Semiring<Value = Held>>(
    rt: &impl Abort,
    flow: &mut Flow<R>,
    net: &Network,
    numbers: [u64; 4],
)
    requires { HasSome R.plus_of flow.old net.now 0 }
{
    let [placed, traded, with_c, with_b] = numbers;
    let all = Event::empty();
    place(rt, flow, 1, net, 0, 0);
    place(rt, flow, 1, net, 1, 1);
    place(rt, flow, 2, net, 2, 2);
    around(rt, flow, 2, (&all, placed));
    multiply(rt, flow, net);
    again(rt, flow, 2, (&all, traded));
    know(rt, flow, 3, net, C);
    around(rt, flow, 2, (&all, with_c));
    know(rt, flow, 2, net, B);
    again(rt, flow, 2, (&all, with_b));
    assert!(rt; flow.computed() == 8);
}

/// A flow in which nothing is placed.
fn start<R: Semiring>(alloc: Global, net: &Network, shape: &Rc<Shape>) -> Result<Flow<R>, NoMemory>
    requires { IsShapeFor shape.now.value net.now }
    ensures { IfOk result (λ flow. HasSome R.plus_of flow net.now 0) }
{
    let _ = net.variables();
    Flow::start(alloc, shape)
}

/// Both, on the shape of the chain's tree.
fn on_shape<R: Semiring<Value = Held>>(
    rt: &impl Abort,
    alloc: Global,
    net: &Network,
    shape: &Rc<Shape>,
    beliefs: &Beliefs,
) -> Result<(), Fail>
    requires { IsShapeFor shape.now.value net.now }
{
    let [alone, with_b, with_c] = beliefs.first;
    in_first::<R>(
        rt,
        &mut start(alloc, net, shape)?,
        net,
        alone,
        with_b,
        with_c,
    );
    in_second::<R>(rt, &mut start(alloc, net, shape)?, net, beliefs.second);
    Ok(())
}

/// The shape of a file's tree.
fn shape(alloc: Global, file: &MarketFile) -> Result<Rc<Shape>, NoMemory>
    requires { IsTreeOf file.now.net file.now.tree }
    ensures { IfOk result (λ shape. IsShapeFor shape.value file.now.net) }
{
    let shape = Shape::of(alloc, &file.net, &file.tree)?;
    Ok(Rc::new(alloc, shape)?)
}

/// A quadrillion.
const UNIT: u64 = 1_000_000_000_000_000;

// Over the values of a, in parts per million, and of c: 2 * 500,000 * 2. With b's rows 500,000 * (600,000 + 300,000) * 2, and
// with c's, which have 1,000,000 in place of the last 2.
// b is up at 0.45 and down at 0.55. The trade gives 2 * 0.45 + 3 * 0.55; with c up 0.9 * 0.8 + 1.65 * 0.1, of which b up is 0.72.
const SUMS: Beliefs = Beliefs {
    first: [2_000_000, 900_000_000_000, 450 * UNIT],
    second: [1_000 * UNIT, 2_550 * UNIT, 885 * UNIT, 720 * UNIT],
};

// The least over a and c: 500,000 * 1. With b's rows 500,000 * 300,000, and with c's that times 200,000.
// The least is 0.5 * 0.4 * 0.1, where b is down and c up, and 3 times that after the trade, as it is with c up; where b is up too
// it is 0.5 * 0.3 * 0.8 * 2.
const MINIMA: Beliefs = Beliefs {
    first: [500_000, 150_000_000_000, 30 * UNIT],
    second: [20 * UNIT, 60 * UNIT, 60 * UNIT, 240 * UNIT],
};

/// Sums and minima on the chain.
pub(crate) fn check_flows(rt: &impl Abort, alloc: Global, file: &MarketFile) -> Result<(), Fail>
    requires { IsTreeOf file.now.net file.now.tree }
{
    let shape = shape(alloc, file)?;
    on_shape::<SumProd>(rt, alloc, &file.net, &shape, &SUMS)?;
    on_shape::<MinProd>(rt, alloc, &file.net, &shape, &MINIMA)
}
