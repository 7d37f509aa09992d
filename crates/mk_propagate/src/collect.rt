//! The order in which messages are made.

ghost use Rattle.std.specs.Prelude.{◌≡◌, length};
ghost use Rattle.mk_propagate.specs.Placings.{Placing};
ghost use Rattle.mk_propagate.specs.Flows.{HasPlaced, CanCollect, CanDistribute, AreRightTowards, AreAllRight, KeepsTables, separators_of, counted_on};
ghost use Rattle.mk_propagate.specs.inner.Passes.{count_of, leads_in, CanPass, IsBefore, IsAfter};

use crate::flow::Flow;
use crate::pass::Pass;
use mk_semiring::Semiring;

impl<R: Semiring> Flow<R> {
    /// Makes each message that leads towards a clique.
    pub fn collect(&mut self, root: u32)
        requires { CanCollect R.plus_of self.old root }
        ensures right { (p : Placing) → HasPlaced R.plus_of self.old p → AreRightTowards R.plus_of self.new p root }
        ensures kept { KeepsTables R.plus_of self.old self.new }
        ensures counted { self.new.computed ≡ counted_on self.old.computed (separators_of self.old.shape.tree) }
    {
        self.pass(Pass::CollectUp, root);
        self.pass(Pass::CollectDown, root);
    }

    /// Makes each message that leads away from a clique; those towards it are right.
    pub fn distribute(&mut self, root: u32)
        requires { CanDistribute R.plus_of self.old root }
        ensures right { (p : Placing) → HasPlaced R.plus_of self.old p → AreRightTowards R.plus_of self.old p root → AreAllRight R.plus_of self.new p }
        ensures kept { KeepsTables R.plus_of self.old self.new }
        ensures counted { self.new.computed ≡ counted_on self.old.computed (separators_of self.old.shape.tree) }
    {
        self.pass(Pass::DistributeUp, root);
        self.pass(Pass::DistributeDown, root);
    }

    /// Makes the messages of one pass; those of the passes before it are right.
    fn pass(&mut self, pass: Pass, root: u32)
        requires { CanPass R.plus_of pass self.old root }
        ensures right { (p : Placing) → HasPlaced R.plus_of self.old p → IsBefore R.plus_of pass self.old p root → IsAfter R.plus_of pass self.new p root }
        ensures kept { KeepsTables R.plus_of self.old self.new }
        ensures counted { self.new.computed ≡ counted_on self.old.computed (count_of (leads_in pass self.old.shape.tree root) (length self.old.shape.tree.cliques)) }
    {
        let _ = self.computed();
        let count = self.shape().cliques();
        for passed in 0..count {
            let k = pass.clique(count, passed);
            if pass.leads(self.shape(), k, root) {
                let next = self.shape().next(k, root);
                let (from, to) = pass.ends(k, next);
                self.message(from, to);
            }
        }
    }
}
