//! Messages.

ghost use Rattle.std.specs.Prelude.{◌≡◌, ℕ, ◌+◌, ◌<◌, length, true, false, None, Some};
ghost use Rattle.mk_propagate.specs.Below.{HasRoom, IsClique, are_linked, core_scope};
ghost use Rattle.mk_propagate.specs.Below.{separator_between, neighbours};
ghost use Rattle.mk_propagate.specs.declared.gathered.Gathered.TheVariants.{Everything};
ghost use Rattle.mk_propagate.specs.Placings.{Placing};
ghost use Rattle.mk_propagate.specs.Flows.{HasPlaced, AreRightBut, IsRight, CanSend, KeepsTables};
ghost use Rattle.mk_propagate.specs.Flows.{message_at, counted_on};
ghost use Rattle.mk_propagate.specs.inner.Boards.{IsOver, HasBoth, places_of};
ghost use Rattle.mk_propagate.specs.inner.Boards.{core_of, product_of, message_of, with_product};
ghost use Rattle.mk_propagate.specs.inner.Boards.{with_message};
ghost use Rattle.mk_propagate.specs.inner.Gathered.{is_taken, IsRightIn, CanTake, HasInto};
ghost use Rattle.mk_propagate.specs.inner.Gathered.{HasMarked, HasOutgoing, IsMessageAlone};
ghost use Rattle.mk_propagate.specs.inner.Gathered.{IsTimesMessage};

use crate::board::Board;
use crate::flow::Flow;
use crate::gathered::Gathered;
use crate::sums::sum_core;
use mk_plan::Shape;
use mk_scope::Places;
use mk_semiring::Semiring;

impl<R: Semiring> Flow<R> {
    /// Makes the message from a clique to one that is linked to it: the plus, over what the separator does not hold, of what is placed
    /// in the clique times the messages from its other neighbours. The plus over what no neighbour holds is made first, and kept: the
    /// rest is over the core, which has fewer cells. The product of the other messages is kept too, without what is placed.
    pub fn message(&mut self, from: u32, to: u32)
        requires { CanSend R.plus_of self.old from to }
        ensures right { (p : Placing) → HasPlaced R.plus_of self.old p → AreRightBut R.plus_of self.old p from to → IsRight R.plus_of self.new p from to }
        ensures others { (a b : ℕ) → are_linked self.old.shape.tree a b ≡ true → ((a ≡ from) × (b ≡ to) → ⊥) → message_at self.new a b ≡ message_at self.old a b }
        ensures kept { KeepsTables R.plus_of self.old self.new }
        ensures counted { self.new.computed ≡ counted_on self.old.computed 1 }
    {
        let place = from as usize - 1;
        sum_core(&mut self.board, &mut self.summed[place], &self.shape, from);
        gather_others(
            &mut self.board,
            &mut self.gathered[place],
            &self.shape,
            from,
            to,
        );
        let mark = &mut self.gathered[to as usize - 1];
        *mark = mark.without(from);
        self.computed = self.computed.saturating_add(1);
        send(&mut self.board, &self.shape, from, to);
    }
}

/// Makes a message of the sums over its sender's core and the product of the other messages there.
fn send<R: Semiring>(board: &mut Board<R>, shape: &Shape, from: u32, to: u32)
    requires linked { are_linked shape.now.tree from to ≡ true }
    requires over { IsOver shape.now board.old }
    requires scope { (message_of board.old from to).scope ≡ separator_between shape.now from to }
    requires has { (p : Placing) × HasOutgoing R.plus_of shape.now from to
        (core_of board.old from) (product_of board.old from) p }
    ensures only { board.new ≡ with_message board.old from to (message_of board.new from to) }
    ensures scope { (message_of board.new from to).scope ≡ (message_of board.old from to).scope }
    ensures right { (p : Placing) → HasOutgoing R.plus_of shape.now from to
        (core_of board.old from) (product_of board.old from) p
        → IsRightIn R.plus_of shape.now p from to (message_of board.new from to) }
{
    let places = shape.places(from, to);
    if shape.neighbours(from).len() < 2 {
        board.send_core(from, to, places);
    } else {
        board.send_product(from, to, places, shape.own_places(from));
    }
}

/// Multiplies 1 by the messages of all neighbours of a clique but a receiver, unless the product has them. Where there are none, it
/// leaves the product as it is.
fn gather_others<R: Semiring>(
    board: &mut Board<R>,
    gathered: &mut Gathered,
    shape: &Shape,
    clique: u32,
    receiver: u32,
)
    requires clique { IsClique shape.now.tree clique }
    requires linked { are_linked shape.now.tree receiver clique ≡ true }
    requires over { IsOver shape.now board.old }
    requires scope { (product_of board.old clique).scope ≡ core_scope shape.now clique }
    requires right { (p : Placing) × CanTake R.plus_of shape.now
        board.old.upward board.old.downward clique (Some receiver) p }
    requires marked { HasMarked R.plus_of shape.now
        board.old.upward board.old.downward clique gathered.old (product_of board.old clique) }
    ensures only { board.new ≡ with_product board.old clique (product_of board.new clique) }
    ensures scope { (product_of board.new clique).scope ≡ (product_of board.old clique).scope }
    ensures marked { HasMarked R.plus_of shape.now
        board.old.upward board.old.downward clique gathered.new (product_of board.new clique) }
    ensures others { 1 < length (neighbours shape.now.tree clique) → HasInto R.plus_of shape.now
        board.old.upward board.old.downward clique (Some receiver) (product_of board.new clique) }
{
    if shape.neighbours(clique).len() < 2 {
        return;
    }
    if gathered.leaves_out(receiver) {
        return;
    }
    gather(board, shape, clique, Some(receiver));
    *gathered = Gathered::AllBut(receiver);
}

/// Multiplies 1 by the messages of all neighbours of a clique, unless the product has them.
pub(crate) fn refresh<R: Semiring>(
    board: &mut Board<R>,
    gathered: &mut Gathered,
    shape: &Shape,
    clique: u32,
)
    requires clique { IsClique shape.now.tree clique }
    requires over { IsOver shape.now board.old }
    requires scope { (product_of board.old clique).scope ≡ core_scope shape.now clique }
    requires right { (p : Placing) × CanTake R.plus_of shape.now
        board.old.upward board.old.downward clique None p }
    requires marked { HasMarked R.plus_of shape.now
        board.old.upward board.old.downward clique gathered.old (product_of board.old clique) }
    ensures only { board.new ≡ with_product board.old clique (product_of board.new clique) }
    ensures scope { (product_of board.new clique).scope ≡ (product_of board.old clique).scope }
    ensures into { HasInto R.plus_of shape.now
        board.old.upward board.old.downward clique None (product_of board.new clique) }
    ensures marked { gathered.new ≡ Everything }
{
    match *gathered {
        Gathered::Everything => return,
        Gathered::AllBut(missing) => put_back(board, shape, clique, missing),
        Gathered::Nothing => gather(board, shape, clique, None),
    }
    *gathered = Gathered::Everything;
}

/// Multiplies a product of the messages of all neighbours of a clique but one by that one's.
fn put_back<R: Semiring>(board: &mut Board<R>, shape: &Shape, clique: u32, missing: u32)
    requires clique { IsClique shape.now.tree clique }
    requires linked { are_linked shape.now.tree missing clique ≡ true }
    requires over { IsOver shape.now board.old }
    requires right { (p : Placing) × CanTake R.plus_of shape.now
        board.old.upward board.old.downward clique None p }
    requires has { HasInto R.plus_of shape.now
        board.old.upward board.old.downward clique (Some missing) (product_of board.old clique) }
    ensures only { board.new ≡ with_product board.old clique (product_of board.new clique) }
    ensures scope { (product_of board.new clique).scope ≡ (product_of board.old clique).scope }
    ensures into { HasInto R.plus_of shape.now
        board.old.upward board.old.downward clique None (product_of board.new clique) }
{
    board.times_message(clique, shape.places(clique, missing), missing);
}

/// Makes the product of the messages of a clique's neighbours, but for a receiver's, over its core.
fn gather<R: Semiring>(board: &mut Board<R>, shape: &Shape, clique: u32, receiver: Option<u32>)
    requires clique { IsClique shape.now.tree clique }
    requires over { IsOver shape.now board.old }
    requires scope { (product_of board.old clique).scope ≡ core_scope shape.now clique }
    requires right { (p : Placing) × CanTake R.plus_of shape.now
        board.old.upward board.old.downward clique receiver p }
    ensures only { board.new ≡ with_product board.old clique (product_of board.new clique) }
    ensures scope { (product_of board.new clique).scope ≡ (product_of board.old clique).scope }
    ensures into { HasInto R.plus_of shape.now
        board.old.upward board.old.downward clique receiver (product_of board.new clique) }
{
    let mut first = true;
    for neighbour in shape.neighbours(clique) {
        if is_taken(receiver, *neighbour) {
            let places = shape.places(clique, *neighbour);
            take(board, places, clique, *neighbour, first);
            first = false;
        }
    }
    if first {
        board.clear_product(clique);
    }
}

/// Multiplies a product by a message. The first message is put in place of what was there: 1 times a cell is that cell.
fn take<R: Semiring>(
    board: &mut Board<R>,
    places: &Places,
    clique: u32,
    neighbour: u32,
    first: bool,
)
    requires both { HasBoth board.old neighbour clique }
    requires places { places.now
        ≡ places_of (product_of board.old clique) (message_of board.old neighbour clique) }
    requires room { first ≡ false → HasRoom (product_of board.old clique) 1 }
    requires message_room { HasRoom (message_of board.old neighbour clique) 1 }
    ensures only { board.new ≡ with_product board.old clique (product_of board.new clique) }
    ensures first { first ≡ true → IsMessageAlone (message_of board.old neighbour clique)
        (product_of board.old clique) (product_of board.new clique) }
    ensures more { first ≡ false → IsTimesMessage (message_of board.old neighbour clique)
        (product_of board.old clique) (product_of board.new clique) }
{
    if first {
        board.put_message(clique, places, neighbour);
    } else {
        board.times_message(clique, places, neighbour);
    }
}

/// Whether a neighbour's message is taken: it is not the receiver.
fn is_taken(receiver: Option<u32>, neighbour: u32) -> bool
    ensures { result ≡ is_taken receiver neighbour }
{
    match receiver {
        Some(receiver) => neighbour != receiver,
        None => true,
    }
}
