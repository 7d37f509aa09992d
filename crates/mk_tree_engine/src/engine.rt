//! The engine.

ghost use Rattle.std.specs.Prelude.{◌≡◌, ℕ, ◌<◌, ◌≤◌, List, [], ◌∷◌, length, Some, IfOk, ⊤};
ghost use Rattle.mk_tree_engine.specs.Below.{ratio_pairs, number_limit, trade_ratio, Variable};
ghost use Rattle.mk_tree_engine.specs.Below.{GivenTree, home, IsTreeOf, IsHeldAt, Meaning, opening};
ghost use Rattle.mk_tree_engine.specs.Below.{RowsOf, SupportOf, RatioOf, with_factor, with_known};
ghost use Rattle.mk_tree_engine.specs.Below.{tree_grade, CanWeigh, CanMultiply, CanKnow};
ghost use Rattle.mk_tree_engine.specs.Below.{CanBelieve, IsBelief, whole_sum, IsApart};
ghost use Rattle.mk_tree_engine.specs.Below.{without_ratios, IsClique, counted_on, reading_grade};
ghost use Rattle.std.proofs.Common.{sym, subst, le_refl};
ghost use Rattle.mk_tree_engine.specs.Engines.{HasTree, IsPlanFor, MarksAway, ClearsTowards};
ghost use Rattle.mk_tree_engine.specs.Engines.{IsStarted, KeepsCount, factor_home};
ghost use Rattle.mk_tree_engine.specs.Engines.{placing_of, stale_number};

use crate::homes::family_home;
use crate::marks::Marks;
use crate::passes::{collect, count_stale};
use mk_engine::{Engine, TreeGraded};
use mk_net::{Event, Network, NoMemory, Pair, Ratio};
use mk_plan::Shape;
use mk_propagate::Flow;
use mk_semiring::Semiring;
use mk_tree::Tree;
use std::alloc::Global;
use std::marker::Model;
use std::rc::Rc;

/// An engine over a tree of cliques: each factor and each known pair is placed in the first clique
/// that holds its variables, and a belief is read in the clique that it is asked in, once the stale
/// messages that lead towards that clique were made. It suits every network with a tree of it.
#[derive(Drop)]
pub struct TreeEngine<R: Semiring> {
    flow: Flow<R>,
    marks: Marks,
}

impl<R: Semiring> Model for TreeEngine<R> {
    ghost use Rattle.mk_tree_engine.specs.Engines.{MarkedFlow};
    ghost use Rattle.mk_tree_engine.specs.inner.Marks.{IsMarked};

    ghost Value = { MarkedFlow };

    ghost view = { λ e. record { flow = e.flow; stale_up = e.marks.up.items; stale_down = e.marks.down.items } };

    ghost invariant = { λ e. IsMarked e.flow.shape.tree e.marks.up.items e.marks.down.items e.marks.collected };
}

impl<R: Semiring> TreeEngine<R> {
    /// How many messages were made since the start; the count stands at the last number of 64 digits.
    pub fn computed(&self) -> u64
        ensures { result ≡ self.now.flow.computed }
    {
        self.flow.computed()
    }

    /// How many of the messages that lead towards a clique are stale.
    pub fn stale_towards(&self, clique: u32) -> u64
        requires { IsClique self.now.flow.shape.tree clique }
        ensures { result ≡ stale_number self.now clique }
    {
        count_stale(self.flow.shape(), &self.marks, clique)
    }
}

impl<R: Semiring> Engine<R> for TreeEngine<R> {
    type Plan = Rc<Shape>;

    ghost suits = { λ network tree. ⊤ };

    ghost plan_for = { λ plan network tree. IsPlanFor plan.value network tree };

    ghost stands_for = { λ engine m. HasTree R.plus_of engine m };

    ghost answers_at = { λ engine at event. IsHeldAt engine.flow.shape.tree at event };

    ghost places_at = { λ engine at event. home engine.flow.shape.tree event ≡ Some at };

    ghost grade_of = { tree_grade };

    fn plan(alloc: Global, net: &Network, tree: &Tree) -> Result<Rc<Shape>, NoMemory>
        requires { IsTreeOf net.now tree.now }
        ensures { IfOk result (λ plan. IsPlanFor plan.value net.now tree.now) }
    {
        let shape = Shape::of(alloc, net, tree)?;
        Ok(Rc::new(alloc, shape)?)
    }

    fn start(alloc: Global, plan: &Rc<Shape>) -> Result<TreeEngine<R>, NoMemory>
        ensures stands { IfOk result (λ engine. (network : List Variable) (tree : GivenTree) →
            ⟦<TreeEngine<R> as Engine<R>>⟧.plan_for plan.now network tree →
            ⟦<TreeEngine<R> as Engine<R>>⟧.stands_for engine (opening network tree)) }
        ensures started { IfOk result (IsStarted plan.now.value) }
    {
        let flow = Flow::start(alloc, plan)?;
        let marks = Marks::all_stale(alloc, flow.shape().cliques())?;
        Ok(TreeEngine { flow, marks })
    }

    fn weigh(&mut self, net: &Network, variable: u32)
        requires { CanWeigh ⟦<TreeEngine<R> as Engine<R>>⟧.stands_for self.old net.now variable }
        ensures stands { (m : Meaning) → ⟦<TreeEngine<R> as Engine<R>>⟧.stands_for self.old m → m.network ≡ net.now
            → ⟦<TreeEngine<R> as Engine<R>>⟧.stands_for self.new (with_factor (RowsOf variable) m) }
        ensures marks { MarksAway self.old self.new (factor_home net.now self.old.flow.shape.tree (RowsOf variable)) }
        ensures kept { KeepsCount self.old self.new }
    {
        let clique = family_home(self.flow.shape().tree(), net, variable);
        self.flow.times_rows(clique, net, variable);
        self.marks.mark_away(self.flow.shape(), clique);
    }

    fn support(&mut self, net: &Network, variable: u32)
        requires { CanWeigh ⟦<TreeEngine<R> as Engine<R>>⟧.stands_for self.old net.now variable }
        ensures stands { (m : Meaning) → ⟦<TreeEngine<R> as Engine<R>>⟧.stands_for self.old m → m.network ≡ net.now
            → ⟦<TreeEngine<R> as Engine<R>>⟧.stands_for self.new (with_factor (SupportOf variable) m) }
        ensures marks { MarksAway self.old self.new (factor_home net.now self.old.flow.shape.tree (SupportOf variable)) }
        ensures kept { KeepsCount self.old self.new }
    {
        let clique = family_home(self.flow.shape().tree(), net, variable);
        self.flow.times_support(clique, net, variable);
        self.marks.mark_away(self.flow.shape(), clique);
    }

    fn multiply(&mut self, clique: u32, ratio: &Ratio)
        requires home { home self.old.flow.shape.tree (ratio_pairs (trade_ratio ratio.now)) ≡ Some
            clique }
        requires range { CanMultiply ⟦<TreeEngine<R> as Engine<R>>⟧.stands_for self.old (trade_ratio ratio.now) }
        ensures stands { (m : Meaning) → ⟦<TreeEngine<R> as Engine<R>>⟧.stands_for self.old m
            → ⟦<TreeEngine<R> as Engine<R>>⟧.stands_for self.new (with_factor (RatioOf (trade_ratio ratio.now)) m) }
        ensures marks { MarksAway self.old self.new clique }
        ensures kept { KeepsCount self.old self.new }
    {
        self.flow.times_ratio(clique, ratio);
        self.marks.mark_away(self.flow.shape(), clique);
    }

    fn know(&mut self, clique: u32, pair: Pair)
        requires home { home self.old.flow.shape.tree (pair ∷ []) ≡ Some clique }
        requires range { CanKnow ⟦<TreeEngine<R> as Engine<R>>⟧.stands_for self.old pair }
        ensures stands { (m : Meaning) → ⟦<TreeEngine<R> as Engine<R>>⟧.stands_for self.old m
            → ⟦<TreeEngine<R> as Engine<R>>⟧.stands_for self.new (with_known pair m) }
        ensures marks { MarksAway self.old self.new clique }
        ensures kept { KeepsCount self.old self.new }
    {
        self.flow.restrict(clique, pair);
        self.marks.mark_away(self.flow.shape(), clique);
    }

    fn belief(&mut self, at: u32, event: &Event) -> R::Value
        requires held { IsHeldAt self.old.flow.shape.tree at event.now }
        requires range { CanBelieve ⟦<TreeEngine<R> as Engine<R>>⟧.stands_for self.old event.now }
        ensures kept { (m : Meaning) → ⟦<TreeEngine<R> as Engine<R>>⟧.stands_for self.old m → ⟦<TreeEngine<R> as Engine<R>>⟧.stands_for self.new m }
        ensures apart { (m : Meaning) → ⟦<TreeEngine<R> as Engine<R>>⟧.stands_for self.old m → IsApart m event.now
            → whole_sum (without_ratios m) < number_limit → R.is_exact result }
        ensures belief { (m : Meaning) → ⟦<TreeEngine<R> as Engine<R>>⟧.stands_for self.old m
            → IsBelief R.encloses R.has_grade R.is_exact R.plus_of m event.now result }
        ensures graded { (m : Meaning) → ⟦<TreeEngine<R> as Engine<R>>⟧.stands_for self.old m →
            R.has_grade result (tree_grade m) }
        ensures shape { self.new.flow.shape ≡ self.old.flow.shape }
        ensures counted { self.new.flow.computed ≡ counted_on self.old.flow.computed
            (stale_number self.old at) }
        ensures marks { ClearsTowards self.old self.new at }
        ensures sharp { (m : Meaning) → ⟦<TreeEngine<R> as Engine<R>>⟧.stands_for self.old m
            → R.has_grade result (reading_grade m.tree (placing_of m) at) }
    {
        let _ = self.flow.computed();
        collect(&mut self.flow, &mut self.marks, at);
        self.flow.read(at, event)
    }

    ghost held_is_answered = { λ engine m at event stands held. subst (λ (t : GivenTree). IsHeldAt t at event) (sym stands.tree_is) held };

    ghost home_is_place = { λ engine m at event stands is. subst (λ (t : GivenTree). home t event ≡ Some at) (sym stands.tree_is) is };
}

impl<R: Semiring> TreeGraded<R> for TreeEngine<R> {
    ghost within_tree = { λ m. le_refl (tree_grade m) };
}
