//! Marks of the messages that are stale.

ghost use Rattle.std.specs.Prelude.{◌≡◌, ◌≢◌, ℕ, ◌+◌, ◌-◌, ◌<◌, ◌≤◌, length, None, IfOk};
ghost use Rattle.mk_plan.specs.Shapes.{IsClique};
ghost use Rattle.mk_tree_engine.specs.inner.Marks.{marked_stale, AreMarks, AreAllStale, AreMarkedUp, AreMarkedDown, AreMarkedFrom, cleared_up, cleared_down, kept_in};

use mk_net::NoMemory;
use mk_plan::Shape;
use std::alloc::Global;

/// Whether each message is stale: those of the cliques from 2 on to their links, and those of the links to them. Beside them a
/// clique is kept towards which no message is stale, where one is known.
#[derive(Drop)]
pub(crate) struct Marks {
    pub(crate) up: Vec<bool>,
    pub(crate) down: Vec<bool>,
    pub(crate) collected: Option<u32>,
}

impl Marks {
    /// All messages are stale.
    pub(crate) fn all_stale(alloc: Global, cliques: u32) -> Result<Marks, NoMemory>
        requires { 1 ≤ cliques }
        ensures stale { IfOk result (λ marks. AreAllStale cliques marks.up.items marks.down.items) }
        ensures collected { IfOk result (λ marks. marks.collected ≡ None) }
    {
        let count = cliques as usize - 1;
        Ok(Marks {
            up: vec![in alloc; true; count]?,
            down: vec![in alloc; true; count]?,
            collected: None,
        })
    }

    /// Whether the message from a clique to one that is linked to it is stale.
    pub(crate) fn is_stale(&self, from: u32, to: u32) -> bool
        requires from { 1 ≤ from }
        requires from_last { from ≤ length self.now.up.items + 1 }
        requires to { 1 ≤ to }
        requires to_last { to ≤ length self.now.down.items + 1 }
        requires apart { from ≢ to }
        ensures { result ≡ marked_stale self.now.up.items self.now.down.items from to }
    {
        if to < from {
            self.up[from as usize - 2]
        } else {
            self.down[to as usize - 2]
        }
    }

    /// The message is current.
    pub(crate) fn clear(&mut self, from: u32, to: u32)
        requires from { 1 ≤ from }
        requires from_last { from ≤ length self.old.up.items + 1 }
        requires to { 1 ≤ to }
        requires to_last { to ≤ length self.old.down.items + 1 }
        requires apart { from ≢ to }
        ensures up { self.new.up.items ≡ cleared_up self.old.up.items from to }
        ensures down { self.new.down.items ≡ cleared_down self.old.down.items from to }
    {
        if to < from {
            self.up[from as usize - 2] = false;
        } else {
            self.down[to as usize - 2] = false;
        }
    }

    /// The messages that lead away from a clique are stale, and no other clique is kept.
    pub(crate) fn mark_away(&mut self, shape: &Shape, clique: u32)
        requires clique { IsClique shape.now.tree clique }
        requires marks { AreMarks (length shape.now.tree.cliques) self.old.up.items self.old.down.items }
        ensures up { AreMarkedUp shape.now.tree clique (length shape.now.tree.cliques - 1) self.old.up.items self.new.up.items }
        ensures down { AreMarkedDown shape.now.tree clique (length shape.now.tree.cliques - 1) self.old.down.items self.new.down.items }
        ensures collected { self.new.collected ≡ kept_in self.old.collected clique }
    {
        mark_each(&mut self.up, &mut self.down, shape, clique);
        if self.collected != Some(clique) {
            self.collected = None;
        }
    }
}

/// Of the two messages between each clique, from 2 on, and its link, marks the one that leads away from a clique: the link's, where
/// the way to that clique begins upward, as it does from each later clique, and the clique's own elsewhere.
fn mark_each(up: &mut [bool], down: &mut [bool], shape: &Shape, clique: u32)
    requires clique { IsClique shape.now.tree clique }
    requires marks { AreMarks (length shape.now.tree.cliques) up.old down.old }
    ensures up { AreMarkedUp shape.now.tree clique (length shape.now.tree.cliques - 1) up.old up.new }
    ensures down { AreMarkedDown shape.now.tree clique (length shape.now.tree.cliques - 1) down.old down.new }
{
    let _ = shape.cliques();
    mark_earlier(up, down, shape, clique);
    if clique > 1 {
        up[clique as usize - 2] = true;
    }
    mark_from(down, clique as usize - 1);
}

/// Does so for the cliques before that one.
fn mark_earlier(up: &mut [bool], down: &mut [bool], shape: &Shape, clique: u32)
    requires clique { IsClique shape.now.tree clique }
    requires marks { AreMarks (length shape.now.tree.cliques) up.old down.old }
    ensures up { AreMarkedUp shape.now.tree clique (clique - 2) up.old up.new }
    ensures down { AreMarkedDown shape.now.tree clique (clique - 2) down.old down.new }
{
    let _ = shape.cliques();
    let ways = shape.ways_to(clique);
    for k in 2..clique {
        let place = k as usize - 2;
        if (ways[place + 1] as u32) < k {
            down[place] = true;
        } else {
            up[place] = true;
        }
    }
}

/// Sets the marks of the places from one on.
fn mark_from(marks: &mut [bool], first: usize)
    requires { first ≤ length marks.old }
    ensures { AreMarkedFrom first (length marks.old) marks.old marks.new }
{
    for place in first..marks.len() {
        marks[place] = true;
    }
}
