//! The engine.

ghost use Rattle.std.specs.Prelude.{◌≡◌, ℕ, ◌+◌, ◌<◌, ◌≤◌, length, true, IfOk, ⊤};
ghost use Rattle.mk_joint.specs.Below.{max_clique_cells, number_limit, is_member, IsNetwork};
ghost use Rattle.mk_joint.specs.Below.{Meaning, whole_sum, IsApart, without_ratios, CanBelieve};
ghost use Rattle.mk_joint.specs.Below.{IsBelief};
ghost use Rattle.mk_joint.specs.inner.Joints.{HasJoint, IsPlanFor, joint_states};

use mk_engine::Engine;
use mk_names::limits::MAX_CLIQUE_CELLS;
use mk_net::{Event, Network, NoMemory, Pair, Ratio};
use mk_scope::{CellList, Scope};
use mk_semiring::Semiring;
use mk_sets::VarSet;
use mk_table::{Scopes, Tables};
use mk_tree::Tree;
use std::alloc::Global;
use std::rc::Rc;

/// The number of the one table.
const WHOLE: usize = 0;

/// An engine with one cell for each joint state of a network. It suits networks of no more joint states than a
/// clique may have cells, 4,096, and can answer each event.
///
/// It counts its factors, since each costs its table a step, and a belief's grade is made of that count. It keeps the list
/// in which the cells of an event are numbered, so that no belief has to clear one.
#[derive(Drop)]
pub struct JointEngine<R: Semiring> {
    tables: Tables<R>,
    factors: u32,
    chosen: CellList,
}

impl<R: Semiring> Engine<R> for JointEngine<R> {
    type Plan = Rc<Scopes>;

    ghost suits = { λ network tree. joint_states network ≤ max_clique_cells };

    ghost plan_for = { λ plan network tree. IsPlanFor plan.value network };

    ghost stands_for = { λ engine m. HasJoint engine.tables engine.factors m };

    ghost answers_at = { λ engine at event. ⊤ };

    ghost places_at = { λ engine at event. ⊤ };

    ghost grade_of = { λ m. length m.factors + max_clique_cells };

    fn plan(alloc: Global, net: &Network, _tree: &Tree) -> Result<Rc<Scopes>, NoMemory>
        requires { joint_states net.now ≤ max_clique_cells }
        ensures { IfOk result (λ plan. IsPlanFor plan.value net.now) }
    {
        let all = all_variables(net);
        let scope = Scope::of(alloc, net, &all)?;
        let scopes = vec![in alloc; Rc::new(alloc, scope)?]?;
        Ok(Rc::new(alloc, Scopes::of(scopes))?)
    }

    fn start(alloc: Global, plan: &Rc<Scopes>) -> Result<JointEngine<R>, NoMemory> {
        let tables = Tables::ones(alloc, plan)?;
        Ok(JointEngine {
            tables,
            factors: 0,
            chosen: CellList::new(alloc)?,
        })
    }

    fn weigh(&mut self, net: &Network, variable: u32) {
        self.tables.times_rows(WHOLE, net, variable);
        self.factors += 1;
    }

    fn support(&mut self, net: &Network, variable: u32) {
        self.tables.times_support(WHOLE, net, variable);
        self.factors += 1;
    }

    fn multiply(&mut self, _home: u32, ratio: &Ratio) {
        self.tables.times_ratio(WHOLE, ratio, &mut self.chosen);
        self.factors += 1;
    }

    fn know(&mut self, _home: u32, pair: Pair) {
        self.tables.restrict(WHOLE, pair);
    }

    fn belief(&mut self, _at: u32, event: &Event) -> R::Value
        requires { CanBelieve ⟦<JointEngine<R> as Engine<R>>⟧.stands_for self.old event.now }
        ensures kept { (m : Meaning) → ⟦<JointEngine<R> as Engine<R>>⟧.stands_for self.old m → ⟦<JointEngine<R> as Engine<R>>⟧.stands_for self.new m }
        ensures apart { (m : Meaning) → ⟦<JointEngine<R> as Engine<R>>⟧.stands_for self.old m → IsApart m event.now
            → whole_sum (without_ratios m) < number_limit → R.is_exact result }
        ensures belief { (m : Meaning) → ⟦<JointEngine<R> as Engine<R>>⟧.stands_for self.old m
            → IsBelief R.encloses R.has_grade R.is_exact R.plus_of m event.now result }
        ensures grade { (m : Meaning) → ⟦<JointEngine<R> as Engine<R>>⟧.stands_for self.old m → R.has_grade result (length m.factors + max_clique_cells) }
    {
        let total = self.tables.total(WHOLE, event, &mut self.chosen);
        let untouched = self.tables.is_untouched(WHOLE, event);
        R::of_cell(
            total,
            self.tables.shift(WHOLE),
            untouched,
            self.factors + MAX_CLIQUE_CELLS,
        )
    }

    ghost held_is_answered = { λ engine m at event stands held. tt };

    ghost home_is_place = { λ engine m at event stands home. tt };
}

/// The set of all variables of a network.
fn all_variables(net: &Network) -> VarSet
    ensures all { (x : ℕ) → x < length net.now → is_member result x ≡ true }
    ensures no_other { (x : ℕ) → is_member result x ≡ true → x < length net.now }
    ensures network { IsNetwork net.now }
{
    let mut all = VarSet::empty();
    for variable in 0..net.variables() {
        all = all.with(variable);
    }
    all
}
