//! A checked tree.

ghost use Rattle.std.specs.Prelude.{◌≡◌, ◌≢◌, ℕ, ◌<◌, ◌≤◌, [], ◌∷◌, length, None, Some, IfOk};
ghost use Rattle.std.specs.Prelude.{IfErr, IfSome, sum_by};
ghost use Rattle.mk_tree.specs.Given.{AreLinked, AreOfNetwork, clique_at, link_of, home};
ghost use Rattle.mk_tree.specs.Tests.{cells_of, tree_fault};
ghost use Rattle.mk_tree.specs.Checked.{IsTreeOf};
ghost use Rattle.mk_tree.specs.Grown.{with_clique, IsBehind};
ghost use Rattle.mk_net.specs.Bounds.{max_cells};

use crate::check::{find_fault, total_cells};
use crate::fault::TreeFault;
use crate::starts::{find_starts, first_holder};
use mk_net::{Event, Network, NoMemory, Pair};
use mk_sets::VarSet;
use std::alloc::Global;
use std::marker::Model;

/// The first clique of every tree, in which beliefs in no pair at all are asked.
pub const ROOT: u32 = 1;

/// A tree of cliques, each of which after the first is linked to an earlier one. Cliques are numbered from 1; clique 1
/// is the root.
#[derive(Drop)]
pub struct Tree {
    cliques: Vec<VarSet>,
    links: Vec<u32>,
    // For each variable the place, counted from 0, of the first clique that holds it.
    starts: Vec<u32>,
}

impl Model for Tree {
    ghost use Rattle.mk_tree.specs.Given.{GivenTree, AreLinked};
    ghost use Rattle.mk_tree.specs.inner.Starts.{AreStarts};

    ghost Value = { GivenTree };

    ghost view = { λ t. record { cliques = t.cliques.items; links = t.links.items } };

    ghost invariant = { λ t. AreLinked (record { cliques = t.cliques.items; links = t.links.items })
        × AreStarts t.cliques.items t.starts.items };
}

impl Tree {
    /// The tree of these cliques and links, or its first fault: a variable that no clique holds together with its
    /// parents, then a variable whose cliques are not connected, then a clique with too many cells.
    pub fn from_cliques(
        alloc: Global,
        net: &Network,
        cliques: &[VarSet],
        links: &[u32],
    ) -> Result<Tree, TreeFault>
        requires linked { AreLinked (record { cliques = cliques.now; links = links.now }) }
        requires of_network { AreOfNetwork net.now cliques.now }
        ensures same { IfOk result (λ tree. tree ≡ record { cliques = cliques.now; links = links.now }) }
        ensures tree { IfOk result (λ tree. IsTreeOf net.now tree) }
        ensures faultless { IfOk result (λ tree. tree_fault net.now tree ≡ None) }
        ensures fault { IfErr result (λ fault. fault ≢ TreeFault.Memory → tree_fault net.now (record { cliques = cliques.now; links = links.now }) ≡ Some fault) }
    {
        if let Some(fault) = find_fault(net, cliques, links) {
            return Err(fault);
        }
        Ok(Tree {
            cliques: cliques.to_vec(alloc)?,
            links: links.to_vec(alloc)?,
            starts: find_starts(alloc, cliques)?,
        })
    }

    /// How many cliques there are.
    pub fn cliques(&self) -> u32
        ensures count { result ≡ length self.now.cliques }
        ensures linked { AreLinked self.now }
    {
        self.cliques.len() as u32
    }

    /// A clique.
    pub fn clique(&self, k: u32) -> VarSet
        requires first { 1 ≤ k }
        requires last { k ≤ length self.now.cliques }
        ensures { result ≡ clique_at self.now k }
    {
        self.cliques[k as usize - 1]
    }

    /// The clique to which a clique is linked. None exactly at the root.
    pub fn link(&self, k: u32) -> Option<u32>
        requires first { 1 ≤ k }
        requires last { k ≤ length self.now.cliques }
        ensures root { k ≡ 1 → result ≡ None }
        ensures link { 1 < k → result ≡ Some (link_of self.now k) }
    {
        if k == 1 {
            None
        } else {
            Some(self.links[k as usize - 2])
        }
    }

    /// An equal tree.
    pub fn copy(&self, alloc: Global) -> Result<Tree, NoMemory>
        ensures { IfOk result (λ tree. tree ≡ self.now) }
    {
        let mut cliques = Vec::new(alloc);
        let mut links = Vec::new(alloc);
        let mut starts = Vec::new(alloc);
        cliques.extend_from_slice(&self.cliques)?;
        links.extend_from_slice(&self.links)?;
        starts.extend_from_slice(&self.starts)?;
        Ok(Tree {
            cliques,
            links,
            starts,
        })
    }

    /// How many cells all cliques have together, in a network of which this is a tree.
    pub fn cells(&self, net: &Network) -> u32
        requires tree { IsTreeOf net.now self.now }
        ensures cells { result ≡ sum_by (cells_of net.now) self.now.cliques }
        ensures few { result ≤ max_cells }
    {
        total_cells(net, &self.cliques)
    }

    /// The tree with one clique more, put last and linked to clique `link`. The network is the
    /// tree's with one more
    /// variable. The clique holds that variable and its parents, and clique `link` holds the
    /// clique's other variables.
    /// It fails where memory is wanting.
    pub fn with_clique(
        &self,
        alloc: Global,
        net: &Network,
        clique: &VarSet,
        link: u32,
    ) -> Result<Tree, NoMemory>
        requires behind { IsBehind net.now self.now clique.now link }
        ensures longer { IfOk result (λ tree. tree ≡ with_clique self.now clique.now link) }
        ensures tree { IfOk result (λ tree. IsTreeOf net.now tree) }
        ensures faultless { IfOk result (λ tree. tree_fault net.now tree ≡ None) }
    {
        let Tree {
            mut cliques,
            mut links,
            starts: _,
        } = self.copy(alloc)?;
        cliques.push(*clique)?;
        links.push(link)?;
        let starts = find_starts(alloc, &cliques)?;
        Ok(Tree {
            cliques,
            links,
            starts,
        })
    }

    /// The first clique that holds each variable of the event. None exactly where no clique does.
    pub fn home(&self, event: &Event) -> Option<u32>
        ensures home { result ≡ home self.now event.now }
        ensures within { IfSome result (λ k. k ≤ length self.now.cliques) }
    {
        let place = first_holder(&self.cliques, &self.starts, event.pairs())?;
        Some(place as u32 + 1)
    }

    /// The first clique that holds the variable of a pair. None exactly where no clique does.
    pub fn pair_home(&self, pair: Pair) -> Option<u32>
        ensures { result ≡ home self.now (pair ∷ []) }
    {
        let pairs = [pair];
        let place = first_holder(&self.cliques, &self.starts, &pairs)?;
        Some(place as u32 + 1)
    }
}
