//! What is placed in a flow.

ghost use Rattle.std.specs.Prelude.{◌≡◌, ◌+◌, List, length, true, IfOk};
ghost use Rattle.mk_propagate.specs.Below.{trade_ratio, Variable, sum_of, cells_in, RowsOf};
ghost use Rattle.mk_propagate.specs.Below.{SupportOf, RatioOf, IsShapeFor, clique_scope};
ghost use Rattle.mk_propagate.specs.Placings.{Placing, nothing_placed, with_factor_in, with_pair_in, IsPlacedFactor, IsPlacedPair};
ghost use Rattle.mk_propagate.specs.Flows.{HasPlaced, CanPlace, Places, KeepsMessages};

use crate::board::Board;
use crate::gathered::Gathered;
use crate::sums::follow;
use mk_net::{Network, NoMemory, Pair, Ratio};
use mk_plan::Shape;
use mk_scope::CellList;
use mk_semiring::Semiring;
use std::alloc::Global;
use std::marker::Model;
use std::rc::Rc;

/// A table for each clique of a tree, with the product of what is placed there, and a message each way between linked cliques.
///
/// A flow counts its factors, since each costs its table a step, and what is read has a grade made of that count.
#[derive(Drop)]
pub struct Flow<R: Semiring> {
    pub(crate) shape: Rc<Shape>,
    pub(crate) board: Board<R>,
    // Whether the table of each clique is summed over its core, and whose messages the product there has.
    pub(crate) summed: Vec<bool>,
    pub(crate) gathered: Vec<Gathered>,
    // Where the cells of an event are listed.
    pub(crate) chosen: CellList,
    // Of all cliques.
    pub(crate) cells: u32,
    pub(crate) factors: u32,
    pub(crate) computed: u64,
}

impl<R: Semiring> Model for Flow<R> {
    ghost use Rattle.mk_propagate.specs.Flows.{FlowOf};
    ghost use Rattle.mk_propagate.specs.inner.Kept.{IsFlow};

    ghost Value = { FlowOf };

    ghost view = { λ f. record {
      shape = f.shape.value;
      tables = f.board.tables;
      cores = f.board.cores;
      summed = f.summed.items;
      upward = f.board.upward;
      downward = f.board.downward;
      factors = f.factors;
      computed = f.computed;
    } };

    ghost invariant = { λ f. IsFlow R.plus_of (record {
      shape = f.shape.value;
      tables = f.board.tables;
      cores = f.board.cores;
      summed = f.summed.items;
      upward = f.board.upward;
      downward = f.board.downward;
      factors = f.factors;
      computed = f.computed;
    }) f.board.products f.gathered.items f.cells };
}

impl<R: Semiring> Flow<R> {
    /// Nothing is placed.
    pub fn start(alloc: Global, shape: &Rc<Shape>) -> Result<Flow<R>, NoMemory>
        ensures shape { IfOk result (λ flow. flow.shape ≡ shape.now.value) }
        ensures computed { IfOk result (λ flow. flow.computed ≡ 0) }
        ensures placed { IfOk result (λ flow. (network : List Variable) → IsShapeFor shape.now.value network → HasPlaced R.plus_of flow (nothing_placed network)) }
    {
        let of: &Shape = shape;
        let _ = of.cliques();
        let board = Board::ones(alloc, of)?;
        Ok(Flow {
            shape: shape.clone()?,
            board,
            summed: vec![in alloc; false; of.cliques() as usize]?,
            gathered: vec![in alloc; Gathered::Nothing; of.cliques() as usize]?,
            chosen: CellList::new(alloc)?,
            cells: count_cells(of),
            factors: 0,
            computed: 0,
        })
    }

    /// The shape.
    pub fn shape(&self) -> &Shape
        ensures { result.now ≡ self.now.shape }
    {
        &self.shape
    }

    /// How many messages were made since the start; the count stands at the last number of 64 digits.
    pub fn computed(&self) -> u64
        ensures { result ≡ self.now.computed }
    {
        self.computed
    }

    /// Places the rows of a variable in a clique that holds it and its parents.
    pub fn times_rows(&mut self, clique: u32, net: &Network, variable: u32)
        requires { (p : Placing) × CanPlace R.plus_of self.old p × (p.network ≡ net.now)
            × IsPlacedFactor net.now self.old.shape.tree (record { clique = clique; factor = RowsOf variable }) }
        ensures places { (p : Placing) → HasPlaced R.plus_of self.old p → p.network ≡ net.now
            → Places R.plus_of self.old self.new clique p (with_factor_in clique (RowsOf variable) p) }
        ensures kept { KeepsMessages self.old self.new }
    {
        self.board.times_rows(clique, net, variable);
        self.summed[clique as usize - 1] = false;
        self.factors += 1;
    }

    /// Places the support of a variable's rows in a clique that holds it and its parents.
    pub fn times_support(&mut self, clique: u32, net: &Network, variable: u32)
        requires { (p : Placing) × CanPlace R.plus_of self.old p × (p.network ≡ net.now)
            × IsPlacedFactor net.now self.old.shape.tree (record { clique = clique; factor = SupportOf variable }) }
        ensures places { (p : Placing) → HasPlaced R.plus_of self.old p → p.network ≡ net.now
            → Places R.plus_of self.old self.new clique p (with_factor_in clique (SupportOf variable) p) }
        ensures kept { KeepsMessages self.old self.new }
    {
        self.board.times_support(clique, net, variable);
        self.summed[clique as usize - 1] = false;
        self.factors += 1;
    }

    /// Places the ratio of a trade in a clique that holds its variables.
    pub fn times_ratio(&mut self, clique: u32, ratio: &Ratio)
        requires { (p : Placing) × CanPlace R.plus_of self.old p
            × IsPlacedFactor p.network self.old.shape.tree (record { clique = clique; factor = RatioOf (trade_ratio ratio.now) }) }
        ensures places { (p : Placing) → HasPlaced R.plus_of self.old p
            → Places R.plus_of self.old self.new clique p (with_factor_in clique (RatioOf (trade_ratio ratio.now)) p) }
        ensures kept { KeepsMessages self.old self.new }
    {
        let place = clique as usize - 1;
        self.board.times_ratio(clique, ratio, &mut self.chosen);
        follow(
            &mut self.board,
            &mut self.summed[place],
            &self.shape,
            clique,
            ratio,
            &mut self.chosen,
        );
        self.factors += 1;
    }

    /// Places a known pair in a clique that holds its variable.
    pub fn restrict(&mut self, clique: u32, pair: Pair)
        requires { (p : Placing) × HasPlaced R.plus_of self.old p × IsPlacedPair p.network self.old.shape.tree (record { clique = clique; pair = pair }) }
        ensures places { (p : Placing) → HasPlaced R.plus_of self.old p → Places R.plus_of self.old self.new clique p (with_pair_in clique pair p) }
        ensures kept { KeepsMessages self.old self.new }
    {
        self.board.restrict(clique, pair);
        self.summed[clique as usize - 1] = false;
    }
}

/// How many cells all cliques have.
fn count_cells(shape: &Shape) -> u32
    ensures { result ≡ sum_of (λ k. true) (length shape.now.tree.cliques) (λ k. cells_in (clique_scope shape.now k)) }
{
    let mut cells = 0;
    for passed in 0..shape.cliques() {
        cells += shape.clique(passed + 1).cells() as u32;
    }
    cells
}
