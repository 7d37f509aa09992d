//! The shape of a flow.

ghost use Rattle.std.specs.Prelude.{◌≡◌, ◌≢◌, ℕ, ◌+◌, ◌-◌, ◌<◌, ◌≤◌, ◌&&◌, ◌==◌, ◌++◌, nat_lt, nat_le, [], length, map, filter, true, if◌then◌else◌, IfOk, IfSome};
ghost use Rattle.mk_plan.specs.Below.{range_with_len, list_all, list_any, holds, home, holds_event};
ghost use Rattle.mk_plan.specs.Below.{clique_at, linked_to, AreLinked, link_of, IsTreeOf, LiesIn};
ghost use Rattle.mk_plan.specs.Below.{is_member};
ghost use Rattle.mk_net.specs.declared.words.Pair.{Pair};
ghost use Rattle.mk_plan.specs.Shapes.{IsShapeFor, IsClique, AreNextTo, clique_scope, core_scope, separator_scope, separator_between, are_linked, in_core, neighbours, next_on_way};
ghost use Rattle.mk_plan.specs.Shapes.{all_scopes, scopes_of, HasEach};
ghost use Rattle.mk_plan.specs.inner.Shaped.{scopes_of_cliques, scopes_of_cores, scopes_of_separators, lists_of_neighbours, AreWays, AreStarts, StartsAt, CanPlaceSeparators, CanPlaceCores, whole_of, places_of, core_places_of, shape_of};

use mk_net::{Event, Network, NoMemory, Pair};
use mk_scope::{CellList, Places, Scope};
use mk_sets::VarSet;
use mk_table::Scopes;
use mk_tree::Tree;
use std::alloc::Global;
use std::marker::Model;
use std::rc::Rc;

/// A copy of a tree, with the scopes of its cliques, of their cores and of its separators, where each separator's cells lie in the cores of
/// its clique and of the link, and each core's in its clique and in itself, the neighbours of each clique, the next cliques on the ways to each, and the first
/// clique that holds each variable. It is made once; all flows over the tree share it.
///
/// The core of a clique has the variables that a neighbour holds too: messages are made over it, which has often far fewer cells.
#[derive(Drop)]
pub struct Shape {
    tree: Tree,
    cliques: Vec<Rc<Scope>>,
    cores: Vec<Rc<Scope>>,
    separators: Vec<Rc<Scope>>,
    // Of all tables of a flow.
    scopes: Rc<Scopes>,
    in_cliques: Vec<Places>,
    in_links: Vec<Places>,
    in_whole: Vec<Places>,
    in_itself: Vec<Places>,
    neighbours: Vec<Vec<u32>>,
    ways: Vec<Vec<u16>>,
    starts: Vec<u32>,
}

impl Model for Shape {
    ghost use Rattle.std.specs.Prelude.{map};
    ghost use Rattle.mk_plan.specs.Shapes.{ShapeOf};
    ghost use Rattle.mk_plan.specs.inner.Shaped.{IsShaped};

    ghost Value = { ShapeOf };

    ghost view = { λ s. record {
      tree = s.tree;
      cliques = map (λ scope. scope.value) s.cliques.items;
      cores = map (λ scope. scope.value) s.cores.items;
      separators = map (λ scope. scope.value) s.separators.items;
    } };

    ghost invariant = { λ s. IsShaped (record {
      tree = s.tree;
      cliques = map (λ scope. scope.value) s.cliques.items;
      cores = map (λ scope. scope.value) s.cores.items;
      separators = map (λ scope. scope.value) s.separators.items;
    }) s.scopes.value s.in_cliques.items s.in_links.items s.in_whole.items s.in_itself.items (map (λ list. list.items) s.neighbours.items) (map (λ next. next.items) s.ways.items) s.starts.items };
}

impl Shape {
    /// The shape of a network's tree.
    pub fn of(alloc: Global, net: &Network, tree: &Tree) -> Result<Shape, NoMemory>
        requires { IsTreeOf net.now tree.now }
        ensures tree { IfOk result (λ shape. shape.tree ≡ tree.now) }
        ensures shape { IfOk result (λ shape. IsShapeFor shape net.now) }
    {
        let _ = (net.variables(), tree.cliques());
        let neighbours = neighbour_lists(alloc, tree)?;
        let cliques = clique_scopes(alloc, net, tree)?;
        let cores = core_scopes(alloc, net, tree, &neighbours)?;
        let separators = separator_scopes(alloc, net, tree)?;
        let in_cliques = separator_places(alloc, tree, &cores, &separators, false)?;
        let in_links = separator_places(alloc, tree, &cores, &separators, true)?;
        let in_whole = core_places(alloc, tree, &cliques, &cores)?;
        let in_itself = core_places(alloc, tree, &cores, &cores)?;
        let scopes = all_scopes(alloc, &cliques, &cores, &separators)?;
        Ok(Shape {
            tree: tree.copy(alloc)?,
            cliques,
            cores,
            separators,
            scopes: Rc::new(alloc, Scopes::of(scopes))?,
            in_cliques,
            in_links,
            in_whole,
            in_itself,
            neighbours,
            ways: ways(alloc, tree)?,
            starts: starts(alloc, net, tree)?,
        })
    }

    /// The copy of the tree.
    pub fn tree(&self) -> &Tree
        ensures { result.now ≡ self.now.tree }
    {
        &self.tree
    }

    /// How many cliques there are.
    #[inline]
    pub fn cliques(&self) -> u32
        ensures count { result ≡ length self.now.tree.cliques }
        ensures linked { AreLinked self.now.tree }
    {
        self.tree.cliques()
    }

    /// The first clique that holds each variable of an event. None exactly where no clique does.
    pub fn home(&self, event: &Event) -> Option<u32>
        ensures home { result ≡ home self.now.tree event.now }
        ensures within { IfSome result (λ k. k ≤ length self.now.tree.cliques) }
    {
        home_from(&self.tree, self.start(event.pairs()), event.pairs())
    }

    /// A clique before which none holds each variable of some pairs: the first that holds the first variable, where it is one of the network's.
    fn start(&self, pairs: &[Pair]) -> u32
        ensures { StartsAt self.now.tree (holds_event pairs.now) result }
    {
        if pairs.is_empty() {
            return 1;
        }
        let variable = pairs[0].variable as usize;
        if variable < self.starts.len() {
            self.starts[variable]
        } else {
            1
        }
    }

    /// The scope of a clique.
    #[inline]
    pub fn clique(&self, k: u32) -> &Rc<Scope>
        requires { IsClique self.now.tree k }
        ensures { result.now.value ≡ clique_scope self.now k }
    {
        &self.cliques[k as usize - 1]
    }

    /// The scope of the core of a clique: of its variables that a neighbour holds too.
    #[inline]
    pub fn core(&self, k: u32) -> &Rc<Scope>
        requires { IsClique self.now.tree k }
        ensures { result.now.value ≡ core_scope self.now k }
    {
        &self.cores[k as usize - 1]
    }

    /// The scope of the separator between a clique, from 2 on, and its link.
    #[inline]
    pub fn separator(&self, k: u32) -> &Rc<Scope>
        requires clique { IsClique self.now.tree k }
        requires linked { 1 < k }
        ensures { result.now.value ≡ separator_scope self.now k }
    {
        &self.separators[k as usize - 2]
    }

    /// The scopes of a flow's tables: of the cliques, their cores, the products there, and the messages up and down.
    #[inline]
    pub fn scopes(&self) -> &Rc<Scopes>
        ensures scopes { result.now.value ≡ scopes_of self.now }
        ensures each { HasEach self.now }
    {
        &self.scopes
    }

    /// Where the cells of the separator between two cliques that are linked lie in the core of the first.
    #[inline]
    pub fn places(&self, clique: u32, neighbour: u32) -> &Places
        requires { are_linked self.now.tree clique neighbour ≡ true }
        ensures { result.now ≡ record { whole = core_scope self.now clique; part = separator_between self.now clique neighbour } }
    {
        if neighbour < clique {
            &self.in_cliques[clique as usize - 2]
        } else {
            &self.in_links[neighbour as usize - 2]
        }
    }

    /// Where the cells of the core of a clique lie in it.
    #[inline]
    pub fn core_places(&self, k: u32) -> &Places
        requires { IsClique self.now.tree k }
        ensures { result.now ≡ record { whole = clique_scope self.now k; part = core_scope self.now k } }
    {
        &self.in_whole[k as usize - 1]
    }

    /// Where the cells of the core of a clique lie in this same core: each is its own.
    #[inline]
    pub fn own_places(&self, k: u32) -> &Places
        requires { IsClique self.now.tree k }
        ensures { result.now ≡ record { whole = core_scope self.now k; part = core_scope self.now k } }
    {
        &self.in_itself[k as usize - 1]
    }

    /// Whether the core of a clique has each variable of an event.
    #[inline]
    pub fn core_holds(&self, k: u32, event: &Event) -> bool
        requires { IsClique self.now.tree k }
        ensures { result ≡ list_all (λ (p : Pair). in_core self.now.tree k p.variable) event.now }
    {
        event
            .pairs()
            .iter()
            .all(|pair| self.in_core(k, pair.variable))
    }

    /// Whether a clique and one of its neighbours hold a variable.
    fn in_core(&self, k: u32, variable: u32) -> bool
        requires { IsClique self.now.tree k }
        ensures { result ≡ in_core self.now.tree k variable }
    {
        self.tree.clique(k).has(variable) && is_around(&self.tree, k, self.neighbours(k), variable)
    }

    /// The cliques that are linked to a clique, in rising order.
    #[inline]
    pub fn neighbours(&self, k: u32) -> &[u32]
        requires { IsClique self.now.tree k }
        ensures { result.now ≡ neighbours self.now.tree k }
    {
        &self.neighbours[k as usize - 1]
    }

    /// The first cliques on the ways from each clique to one; the place of that one says nothing.
    #[inline]
    pub fn ways_to(&self, to: u32) -> &[u16]
        requires { IsClique self.now.tree to }
        ensures { AreNextTo self.now.tree to (length self.now.tree.cliques) result.now }
    {
        &self.ways[to as usize - 1]
    }

    /// The first clique on the way from one clique to another.
    #[inline]
    pub fn next(&self, from: u32, to: u32) -> u32
        requires from { IsClique self.now.tree from }
        requires to { IsClique self.now.tree to }
        requires apart { from ≢ to }
        ensures next { result ≡ next_on_way self.now.tree from to }
        ensures clique { IsClique self.now.tree result }
    {
        self.ways[to as usize - 1][from as usize - 1] as u32
    }
}

/// The first clique, from one on, that holds each variable of some pairs. None exactly where no clique does.
fn home_from(tree: &Tree, start: u32, pairs: &[Pair]) -> Option<u32>
    requires { StartsAt tree.now (holds_event pairs.now) start }
    ensures home { result ≡ home tree.now pairs.now }
    ensures within { IfSome result (λ k. k ≤ length tree.now.cliques) }
{
    for passed in start - 1..tree.cliques() {
        if holds_event(&tree.clique(passed + 1), pairs) {
            return Some(passed + 1);
        }
    }
    None
}

fn holds_event(clique: &VarSet, pairs: &[Pair]) -> bool
    ensures { result ≡ holds_event pairs.now clique.now }
{
    pairs.iter().all(|pair| clique.has(pair.variable))
}

/// For each variable of a network a clique before which none holds it.
fn starts(alloc: Global, net: &Network, tree: &Tree) -> Result<Vec<u32>, NoMemory>
    ensures { IfOk result (λ starts. AreStarts tree.now starts.items) }
{
    let mut starts = Vec::new(alloc);
    for variable in 0..net.variables() {
        starts.push(first_holder(tree, variable))?;
    }
    Ok(starts)
}

/// The first clique that holds a variable, or the first of all.
fn first_holder(tree: &Tree, variable: u32) -> u32
    ensures { StartsAt tree.now (λ set. is_member set variable) result }
{
    for passed in 0..tree.cliques() {
        if tree.clique(passed + 1).has(variable) {
            return passed + 1;
        }
    }
    1
}

/// The scope of each clique, in order.
fn clique_scopes(alloc: Global, net: &Network, tree: &Tree) -> Result<Vec<Rc<Scope>>, NoMemory>
    requires { IsTreeOf net.now tree.now }
    ensures { IfOk result (λ scopes. map (λ scope. scope.value) scopes.items ≡ scopes_of_cliques net.now tree.now (length tree.now.cliques)) }
{
    let mut scopes = Vec::new(alloc);
    for passed in 0..tree.cliques() {
        let clique = tree.clique(passed + 1);
        let scope = Scope::of(alloc, net, &clique)?;
        scopes.push(Rc::new(alloc, scope)?)?;
    }
    Ok(scopes)
}

/// The scope of the core of each clique, in order.
fn core_scopes(
    alloc: Global,
    net: &Network,
    tree: &Tree,
    neighbours: &[Vec<u32>],
) -> Result<Vec<Rc<Scope>>, NoMemory>
    requires tree { IsTreeOf net.now tree.now }
    requires lists { map (λ list. list.items) neighbours.now ≡ lists_of_neighbours tree.now (length tree.now.cliques) }
    ensures { IfOk result (λ scopes. map (λ scope. scope.value) scopes.items ≡ scopes_of_cores net.now tree.now (length tree.now.cliques)) }
{
    let _ = net.variables();
    let mut scopes = Vec::new(alloc);
    for passed in 0..tree.cliques() {
        let core = core_of(tree, passed + 1, &neighbours[passed as usize]);
        let scope = Scope::of(alloc, net, &core)?;
        scopes.push(Rc::new(alloc, scope)?)?;
    }
    Ok(scopes)
}

/// The variables of a clique that one of its neighbours holds too.
fn core_of(tree: &Tree, k: u32, linked: &[u32]) -> VarSet
    requires clique { IsClique tree.now k }
    requires linked { linked.now ≡ neighbours tree.now k }
    ensures { (x : ℕ) → is_member result x ≡ in_core tree.now k x }
{
    let _ = tree.cliques();
    let mut around = VarSet::empty();
    for neighbour in linked {
        around = around.union(&tree.clique(*neighbour));
    }
    tree.clique(k).common(&around)
}

/// Whether one of a clique's neighbours holds a variable.
fn is_around(tree: &Tree, k: u32, linked: &[u32], variable: u32) -> bool
    requires clique { IsClique tree.now k }
    requires linked { linked.now ≡ neighbours tree.now k }
    ensures { result ≡ list_any (λ i. holds tree.now i variable) (neighbours tree.now k) }
{
    let _ = tree.cliques();
    let mut found = false;
    for neighbour in linked {
        found = found || tree.clique(*neighbour).has(variable);
    }
    found
}

/// The scope of what each clique, from 2 on, shares with its link.
fn separator_scopes(alloc: Global, net: &Network, tree: &Tree) -> Result<Vec<Rc<Scope>>, NoMemory>
    requires { IsTreeOf net.now tree.now }
    ensures { IfOk result (λ scopes. map (λ scope. scope.value) scopes.items ≡ scopes_of_separators net.now tree.now (length tree.now.cliques - 1)) }
{
    let _ = net.variables();
    let mut scopes = Vec::new(alloc);
    for passed in 0..tree.cliques() - 1 {
        let link = link(tree, passed + 2);
        let shared = tree.clique(passed + 2).common(&tree.clique(link));
        let scope = Scope::of(alloc, net, &shared)?;
        scopes.push(Rc::new(alloc, scope)?)?;
    }
    Ok(scopes)
}

/// Those of the cliques and of their cores, of the cores again, and of the separators twice.
fn all_scopes(
    alloc: Global,
    cliques: &[Rc<Scope>],
    cores: &[Rc<Scope>],
    separators: &[Rc<Scope>],
) -> Result<Vec<Rc<Scope>>, NoMemory>
    ensures { IfOk result (λ scopes. map (λ scope. scope.value) scopes.items
        ≡ all_scopes (map (λ scope. scope.value) cliques.now) (map (λ scope. scope.value) cores.now)
        (map (λ scope. scope.value) separators.now)) }
{
    let mut scopes = Vec::new(alloc);
    append(&mut scopes, cliques)?;
    append(&mut scopes, cores)?;
    append(&mut scopes, cores)?;
    append(&mut scopes, separators)?;
    append(&mut scopes, separators)?;
    Ok(scopes)
}

fn append(scopes: &mut Vec<Rc<Scope>>, more: &[Rc<Scope>]) -> Result<(), NoMemory>
    ensures { IfOk result (λ _. map (λ scope. scope.value) scopes.new.items
        ≡ map (λ scope. scope.value) scopes.old.items ++ map (λ scope. scope.value) more.now) }
{
    for scope in more {
        scopes.push(scope.clone()?)?;
    }
    Ok(())
}

/// Where the cells of each separator lie in the core of its clique, or of the clique's link.
fn separator_places(
    alloc: Global,
    tree: &Tree,
    cores: &[Rc<Scope>],
    separators: &[Rc<Scope>],
    in_link: bool,
) -> Result<Vec<Places>, NoMemory>
    requires { CanPlaceSeparators (shape_of tree.now [] (map (λ scope. scope.value) cores.now) (map (λ scope. scope.value) separators.now)) in_link }
    ensures { IfOk result (λ places. places.items
        ≡ places_of (shape_of tree.now [] (map (λ scope. scope.value) cores.now) (map (λ scope. scope.value) separators.now)) in_link (length tree.now.cliques - 1)) }
{
    let mut places = Vec::new(alloc);
    let mut bases = CellList::new(alloc)?;
    let mut offsets = CellList::new(alloc)?;
    for passed in 0..tree.cliques() - 1 {
        let whole = whole_of(tree, passed + 2, in_link);
        places.push(Places::of(
            alloc,
            &cores[whole as usize - 1],
            &separators[passed as usize],
            &mut bases,
            &mut offsets,
        )?)?;
    }
    Ok(places)
}

/// Where the cells of the core of each clique lie in it.
fn core_places(
    alloc: Global,
    tree: &Tree,
    cliques: &[Rc<Scope>],
    cores: &[Rc<Scope>],
) -> Result<Vec<Places>, NoMemory>
    requires { CanPlaceCores (shape_of tree.now (map (λ scope. scope.value) cliques.now) (map (λ scope. scope.value) cores.now) []) }
    ensures { IfOk result (λ places. places.items
        ≡ core_places_of (shape_of tree.now (map (λ scope. scope.value) cliques.now) (map (λ scope. scope.value) cores.now) []) (length tree.now.cliques)) }
{
    let mut places = Vec::new(alloc);
    let mut bases = CellList::new(alloc)?;
    let mut offsets = CellList::new(alloc)?;
    for passed in 0..tree.cliques() {
        places.push(Places::of(
            alloc,
            &cliques[passed as usize],
            &cores[passed as usize],
            &mut bases,
            &mut offsets,
        )?)?;
    }
    Ok(places)
}

/// A clique, from 2 on, or its link.
fn whole_of(tree: &Tree, k: u32, in_link: bool) -> u32
    requires clique { IsClique tree.now k }
    requires linked { 1 < k }
    ensures whole { result ≡ whole_of tree.now in_link k }
    ensures clique { IsClique tree.now result }
{
    if in_link { link(tree, k) } else { k }
}

/// The link of a clique, from 2 on.
fn link(tree: &Tree, k: u32) -> u32
    requires clique { IsClique tree.now k }
    requires linked { 1 < k }
    ensures link { result ≡ link_of tree.now k }
    ensures clique { IsClique tree.now result }
    ensures earlier { result < k }
{
    let _ = tree.cliques();
    match tree.link(k) {
        Some(link) => link,
        None => unreachable!(),
    }
}

/// Whether two cliques are linked.
fn are_linked(tree: &Tree, a: u32, b: u32) -> bool
    requires a { IsClique tree.now a }
    requires b { IsClique tree.now b }
    ensures { result ≡ are_linked tree.now a b }
{
    is_link(tree, a, b) || is_link(tree, b, a)
}

/// Whether a clique has a link, and this is it.
fn is_link(tree: &Tree, k: u32, other: u32) -> bool
    requires { IsClique tree.now k }
    ensures { result ≡ (nat_lt 1 k && nat_le k (length tree.now.cliques) && (link_of tree.now k == other)) }
{
    if k == 1 {
        false
    } else {
        link(tree, k) == other
    }
}

/// The neighbours of each clique.
fn neighbour_lists(alloc: Global, tree: &Tree) -> Result<Vec<Vec<u32>>, NoMemory>
    ensures { IfOk result (λ lists. map (λ list. list.items) lists.items ≡ lists_of_neighbours tree.now (length tree.now.cliques)) }
{
    let mut lists = Vec::new(alloc);
    for passed in 0..tree.cliques() {
        lists.push(neighbours_of(alloc, tree, passed + 1)?)?;
    }
    Ok(lists)
}

/// The cliques that are linked to a clique.
fn neighbours_of(alloc: Global, tree: &Tree, k: u32) -> Result<Vec<u32>, NoMemory>
    requires { IsClique tree.now k }
    ensures { IfOk result (λ list. list.items ≡ neighbours tree.now k) }
{
    let mut list = Vec::new(alloc);
    for passed in 0..tree.cliques() {
        if are_linked(tree, passed + 1, k) {
            list.push(passed + 1)?;
        }
    }
    Ok(list)
}

/// The next cliques on the ways to each clique.
fn ways(alloc: Global, tree: &Tree) -> Result<Vec<Vec<u16>>, NoMemory>
    ensures { IfOk result (λ ways. AreWays tree.now (length tree.now.cliques) (map (λ next. next.items) ways.items)) }
{
    let mut ways = Vec::new(alloc);
    for passed in 0..tree.cliques() {
        let next = next_to(alloc, tree, &ways, passed + 1)?;
        ways.push(next)?;
    }
    Ok(ways)
}

/// The next cliques on the ways to a clique, from those on the ways to the cliques before it. From a later clique the way goes up.
fn next_to(alloc: Global, tree: &Tree, ways: &[Vec<u16>], to: u32) -> Result<Vec<u16>, NoMemory>
    requires clique { IsClique tree.now to }
    requires ways { AreWays tree.now (to - 1) (map (λ next. next.items) ways.now) }
    ensures { IfOk result (λ next. AreNextTo tree.now to (length tree.now.cliques) next.items) }
{
    let mut next = next_from_earlier(alloc, tree, ways, to)?;
    for passed in to..tree.cliques() {
        next.push(link(tree, passed + 1) as u16)?;
    }
    Ok(next)
}

/// Those from the cliques up to it. From an earlier clique the way goes as to the link, but from the link itself.
fn next_from_earlier(
    alloc: Global,
    tree: &Tree,
    ways: &[Vec<u16>],
    to: u32,
) -> Result<Vec<u16>, NoMemory>
    requires clique { IsClique tree.now to }
    requires ways { AreWays tree.now (to - 1) (map (λ next. next.items) ways.now) }
    ensures { IfOk result (λ next. AreNextTo tree.now to to next.items) }
{
    let mut next = Vec::with_capacity(alloc, tree.cliques() as usize)?;
    if to == 1 {
        next.push(1)?;
    } else {
        let above = link(tree, to) as usize;
        next.extend_from_slice(&ways[above - 1][..to as usize])?;
        next[above - 1] = to as u16;
    }
    Ok(next)
}
