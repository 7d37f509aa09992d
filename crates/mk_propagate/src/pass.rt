//! The passes over the cliques in which messages are made.

ghost use Rattle.std.specs.Prelude.{◌≡◌, ◌≢◌, ◌<◌, true};
ghost use Rattle.mk_plan.specs.Shapes.{IsClique, next_on_way};
ghost use Rattle.mk_propagate.specs.inner.Passes.{clique_in, ends_in, leads_in};

use mk_plan::Shape;

/// Towards a root messages are collected, first those of cliques to their links, upward, and then those of links to their cliques.
/// Away from it they are distributed, upward first too.
#[derive(Clone, Copy)]
pub(crate) enum Pass {
    CollectUp,
    CollectDown,
    DistributeUp,
    DistributeDown,
}

impl Pass {
    /// The clique that it comes to after some: upward from the last on, and downward from the first.
    pub(crate) fn clique(self, count: u32, passed: u32) -> u32
        requires { passed < count }
        ensures { result ≡ clique_in self count passed }
    {
        match self {
            Pass::CollectUp | Pass::DistributeUp => count - passed,
            Pass::CollectDown | Pass::DistributeDown => passed + 1,
        }
    }

    /// Whether it makes a message between a clique and the next one on the way to the root.
    pub(crate) fn leads(self, shape: &Shape, k: u32, root: u32) -> bool
        requires clique { IsClique shape.now.tree k }
        requires root { IsClique shape.now.tree root }
        ensures leads { result ≡ leads_in self shape.now.tree root k }
        ensures apart { result ≡ true → k ≢ root }
    {
        if k == root {
            return false;
        }
        let next = shape.next(k, root);
        match self {
            Pass::CollectUp | Pass::DistributeDown => next < k,
            Pass::CollectDown | Pass::DistributeUp => next > k,
        }
    }

    /// From which of the two cliques to which.
    pub(crate) fn ends(self, k: u32, next: u32) -> (u32, u32)
        ensures { result ≡ ends_in self k next }
    {
        match self {
            Pass::CollectUp | Pass::CollectDown => (k, next),
            Pass::DistributeUp | Pass::DistributeDown => (next, k),
        }
    }
}
