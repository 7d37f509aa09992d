//! Messages towards a clique.

ghost use Rattle.std.specs.Prelude.{◌≡◌, ◌≢◌, ℕ, ◌+◌, ◌<◌, ◌≤◌, ◌&&◌, ◌==◌, not, length, true, Some};
ghost use Rattle.mk_tree_engine.specs.Below.{ForSome, IsClique, next_on_way, CanSend};
ghost use Rattle.mk_tree_engine.specs.Engines.{MarkedFlow};
ghost use Rattle.mk_tree_engine.specs.inner.Marks.{marked, marked_stale, AreMarksOf, AreCurrentTowards, stale_marks};
ghost use Rattle.mk_tree_engine.specs.inner.Passes.{goes_up, goes_down, passed_up, passed_down, AreCollected, CanCollect, CanCollectDown, IsMade};

use crate::marks::Marks;
use mk_plan::Shape;
use mk_propagate::Flow;
use mk_semiring::Semiring;

/// Makes the stale messages that lead towards a clique. Where none towards some other clique is stale, only those on the way from
/// there can be.
pub(crate) fn collect<R: Semiring>(flow: &mut Flow<R>, marks: &mut Marks, clique: u32)
    requires could { CanCollect R.plus_of (marked flow.old marks.old.up.items marks.old.down.items) clique }
    requires current { ForSome marks.old.collected (AreCurrentTowards flow.old.shape.tree marks.old.up.items marks.old.down.items) }
    ensures made { AreCollected R.plus_of clique (λ k. not (k == clique))
        (marked flow.old marks.old.up.items marks.old.down.items) (marked flow.new marks.new.up.items marks.new.down.items) }
    ensures collected { marks.new.collected ≡ Some clique }
{
    match marks.collected {
        Some(last) => collect_from(flow, marks, last, clique),
        None => collect_all(flow, marks, clique),
    }
    marks.collected = Some(clique);
}

/// Makes the stale messages on the way from a clique to another, where no message towards the one is stale: each other message
/// towards the other leads towards the one as well.
fn collect_from<R: Semiring>(flow: &mut Flow<R>, marks: &mut Marks, from: u32, clique: u32)
    requires could { CanCollect R.plus_of (marked flow.old marks.old.up.items marks.old.down.items) clique }
    requires current { AreCurrentTowards flow.old.shape.tree marks.old.up.items marks.old.down.items from }
    ensures { AreCollected R.plus_of clique (λ k. not (k == clique))
        (marked flow.old marks.old.up.items marks.old.down.items) (marked flow.new marks.new.up.items marks.new.down.items) }
{
    let mut k = from;
    while k != clique {
        make_towards(flow, marks, k, clique);
        k = flow.shape().next(k, clique);
    }
}

/// Makes the stale messages towards a clique wherever they are: those that lead to links, and then those from links.
fn collect_all<R: Semiring>(flow: &mut Flow<R>, marks: &mut Marks, clique: u32)
    requires { CanCollect R.plus_of (marked flow.old marks.old.up.items marks.old.down.items) clique }
    ensures { AreCollected R.plus_of clique (λ k. not (k == clique))
        (marked flow.old marks.old.up.items marks.old.down.items) (marked flow.new marks.new.up.items marks.new.down.items) }
{
    collect_up(flow, marks, clique);
    collect_down(flow, marks, clique);
}

/// Makes the stale messages on ways to a clique that lead to links, from the last clique on: each is made after those that it
/// is made of, which come from later cliques.
fn collect_up<R: Semiring>(flow: &mut Flow<R>, marks: &mut Marks, clique: u32)
    requires { CanCollect R.plus_of (marked flow.old marks.old.up.items marks.old.down.items) clique }
    ensures { AreCollected R.plus_of clique (passed_up flow.old.shape.tree clique 0)
        (marked flow.old marks.old.up.items marks.old.down.items) (marked flow.new marks.new.up.items marks.new.down.items) }
{
    let cliques = flow.shape().cliques();
    for passed in 0..cliques {
        let k = cliques - passed;
        if goes_up(flow.shape(), clique, k) {
            make_towards(flow, marks, k, clique);
        }
    }
}

/// Makes those that lead from links, from the first clique on: what they are made of was made upward, or comes from earlier
/// cliques.
fn collect_down<R: Semiring>(flow: &mut Flow<R>, marks: &mut Marks, clique: u32)
    requires { CanCollectDown R.plus_of (marked flow.old marks.old.up.items marks.old.down.items) clique }
    ensures { (old : MarkedFlow) → CanCollect R.plus_of old clique
        → AreCollected R.plus_of clique (passed_up flow.old.shape.tree clique 0) old (marked flow.old marks.old.up.items marks.old.down.items)
        → AreCollected R.plus_of clique (passed_down flow.old.shape.tree clique (length flow.old.shape.tree.cliques)) old (marked flow.new marks.new.up.items marks.new.down.items) }
{
    let cliques = flow.shape().cliques();
    for passed in 0..cliques {
        let k = passed + 1;
        if goes_down(flow.shape(), clique, k) {
            make_towards(flow, marks, k, clique);
        }
    }
}

/// Makes a clique's message towards another clique, where it is stale.
fn make_towards<R: Semiring>(flow: &mut Flow<R>, marks: &mut Marks, k: u32, clique: u32)
    requires marks { AreMarksOf flow.old.shape.tree marks.old.up.items marks.old.down.items }
    requires k { IsClique flow.old.shape.tree k }
    requires clique { IsClique flow.old.shape.tree clique }
    requires apart { k ≢ clique }
    requires send { CanSend R.plus_of flow.old k (next_on_way flow.old.shape.tree k clique) }
    ensures { IsMade R.plus_of k (next_on_way flow.old.shape.tree k clique)
        (marked flow.old marks.old.up.items marks.old.down.items) (marked flow.new marks.new.up.items marks.new.down.items) }
{
    let next = flow.shape().next(k, clique);
    if marks.is_stale(k, next) {
        flow.message(k, next);
        marks.clear(k, next);
    }
}

/// Whether the way from a clique to another begins upward, to its link.
fn goes_up(shape: &Shape, clique: u32, k: u32) -> bool
    requires clique { IsClique shape.now.tree clique }
    requires k { IsClique shape.now.tree k }
    ensures { result ≡ goes_up shape.now.tree clique k }
{
    k != clique && shape.next(k, clique) < k
}

/// Whether it begins downward.
fn goes_down(shape: &Shape, clique: u32, k: u32) -> bool
    requires clique { IsClique shape.now.tree clique }
    requires k { IsClique shape.now.tree k }
    ensures { result ≡ goes_down shape.now.tree clique k }
{
    k != clique && k < shape.next(k, clique)
}

/// How many of the messages that lead towards a clique are stale.
pub(crate) fn count_stale(shape: &Shape, marks: &Marks, clique: u32) -> u64
    requires clique { IsClique shape.now.tree clique }
    requires marks { AreMarksOf shape.now.tree marks.now.up.items marks.now.down.items }
    ensures { result ≡ stale_marks shape.now.tree marks.now.up.items marks.now.down.items clique (length shape.now.tree.cliques) }
{
    let mut count = 0;
    for passed in 0..shape.cliques() {
        if is_stale_towards(shape, marks, passed + 1, clique) {
            count += 1;
        }
    }
    count
}

/// Whether a clique's message towards another clique is stale.
fn is_stale_towards(shape: &Shape, marks: &Marks, k: u32, clique: u32) -> bool
    requires k { IsClique shape.now.tree k }
    requires clique { IsClique shape.now.tree clique }
    requires marks { AreMarksOf shape.now.tree marks.now.up.items marks.now.down.items }
    ensures { result ≡ (not (k == clique) && marked_stale marks.now.up.items marks.now.down.items k (next_on_way shape.now.tree k clique)) }
{
    k != clique && marks.is_stale(k, shape.next(k, clique))
}
