//! What is placed in a clique, summed over its core.

ghost use Rattle.std.specs.Prelude.{◌≡◌, ◌+◌, List, true};
ghost use Rattle.mk_propagate.specs.Below.{Variable, trade_ratio, HasRoom, RatioOf, IsShapeFor};
ghost use Rattle.mk_propagate.specs.Placings.{Placing, IsPlacedFactor};
ghost use Rattle.mk_propagate.specs.Flows.{HasSums};
ghost use Rattle.mk_propagate.specs.inner.Boards.{CanSumCore, table_of, core_of, with_core};
ghost use Rattle.mk_propagate.specs.inner.Gathered.{IsFollowed, IsPlacedIn};

use crate::board::Board;
use mk_net::Ratio;
use mk_plan::Shape;
use mk_scope::CellList;
use mk_semiring::Semiring;

/// Sums a clique's table over its core, unless that is done.
pub(crate) fn sum_core<R: Semiring>(
    board: &mut Board<R>,
    summed: &mut bool,
    shape: &Shape,
    clique: u32,
)
    requires can { CanSumCore shape.now board.old clique }
    requires shift { summed.old ≡ true
        → (core_of board.old clique).shift ≡ (table_of board.old clique).shift }
    ensures only { board.new ≡ with_core board.old clique (core_of board.new clique) }
    ensures scope { (core_of board.new clique).scope ≡ (core_of board.old clique).scope }
    ensures shift { (core_of board.new clique).shift ≡ (table_of board.old clique).shift }
    ensures summed { summed.new ≡ true }
    ensures sums { (p : Placing) → IsPlacedIn shape.now p clique (table_of board.old clique)
        → (summed.old ≡ true → HasSums R.plus_of shape.now p clique (core_of board.old clique))
        → HasSums R.plus_of shape.now p clique (core_of board.new clique) }
{
    if !*summed {
        board.sum_core(clique, shape.core_places(clique));
        *summed = true;
    }
}

/// Brings the sums over a core up to date with a ratio by which the clique's table was multiplied, where they were made. A ratio of
/// the core's own variables goes out of each sum, so that it multiplies them. Any other changes the sums that its condition allows;
/// where it has none, it changes all, and they wait until they are needed.
pub(crate) fn follow<R: Semiring>(
    board: &mut Board<R>,
    summed: &mut bool,
    shape: &Shape,
    clique: u32,
    ratio: &Ratio,
    chosen: &mut CellList,
)
    requires can { CanSumCore shape.now board.old clique }
    requires core_room { summed.old ≡ true → HasRoom (core_of board.old clique) 1 }
    requires shift { summed.old ≡ true
        → (table_of board.old clique).shift ≡ (core_of board.old clique).shift + 40 }
    requires fits { (network : List Variable) × IsShapeFor shape.now network
        × IsPlacedFactor network shape.now.tree
        (record { clique = clique; factor = RatioOf (trade_ratio ratio.now) }) }
    ensures only { board.new ≡ with_core board.old clique (core_of board.new clique) }
    ensures scope { (core_of board.new clique).scope ≡ (core_of board.old clique).scope }
    ensures shift { summed.new ≡ true
        → (core_of board.new clique).shift ≡ (table_of board.old clique).shift }
    ensures were { summed.new ≡ true → summed.old ≡ true }
    ensures followed { summed.new ≡ true
        → IsFollowed R.plus_of shape.now clique (trade_ratio ratio.now) (table_of board.old clique)
        (core_of board.old clique) (core_of board.new clique) }
{
    if !*summed {
        return;
    }
    if shape.core_holds(clique, &ratio.event()) {
        board.core_times_ratio(clique, ratio, chosen);
    } else if ratio.condition.pairs().is_empty() {
        *summed = false;
    } else {
        board.sum_again(clique, shape.core_places(clique), &ratio.condition, chosen);
    }
}
