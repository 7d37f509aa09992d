//! The engine.

ghost use Rattle.std.specs.Prelude.{◌≡◌, ℕ, ◌+◌, ◌<◌, ◌≤◌, List, [], ◌∷◌, length, Some, IfOk, true};
ghost use Rattle.std.specs.Prelude.{false, ⊤};
ghost use Rattle.std.proofs.Common.{sym, subst, le_refl};
ghost use Rattle.mk_user_engine.specs.Below.{ratio_pairs, trade_ratio, Variable, least, GivenTree};
ghost use Rattle.mk_user_engine.specs.Below.{home, IsHeldAt, Meaning, RatioOf, with_factor};
ghost use Rattle.mk_user_engine.specs.Below.{with_known, tree_grade, CanKnow, CanMultiply, HasTree};
ghost use Rattle.mk_user_engine.specs.Below.{IsPlanFor};
ghost use Rattle.mk_user_engine.specs.NarrowForm.{IsNarrow};
ghost use Rattle.mk_user_engine.specs.Users.{StandsFor, Begun};

use crate::narrow::Narrow;
use mk_engine::{Engine, TreeGraded};
use mk_net::{Event, Network, NoMemory, Pair, Ratio};
use mk_plan::Shape;
use mk_semiring::{Held, MinProd};
use mk_tree::Tree;
use mk_tree_engine::TreeEngine;
use std::alloc::Global;
use std::rc::Rc;

/// An engine of least factors for one user, who mostly touches few questions. While the user's
/// trades are few, and no group of variables that they tie together is large, it keeps a list of
/// them, and reckons a belief from that. When a limit is passed it gives all that it has to an
/// engine over a tree, which then answers. Rows and supports go there at once.
#[derive(Drop)]
pub struct UserEngine {
    pub(crate) shape: Rc<Shape>,
    pub(crate) narrow: Narrow,
    pub(crate) tree: TreeEngine<MinProd>,
    pub(crate) is_over: bool,
}

impl UserEngine {
    /// Takes a ratio in the narrow form, if it can stay in that.
    fn multiply_narrow(&mut self, at: u32, ratio: &Ratio) -> bool
        requires home { home self.old.tree.flow.shape.tree (ratio_pairs (trade_ratio ratio.now)) ≡
            Some at }
        requires range { CanMultiply StandsFor self.old (trade_ratio ratio.now) }
        ensures taken { (m : Meaning) → StandsFor self.old m → result ≡ true
            → StandsFor self.new (with_factor (RatioOf (trade_ratio ratio.now)) m) }
        ensures left { (m : Meaning) → StandsFor self.old m → result ≡ false
            → StandsFor self.new m }
    {
        if self.is_over {
            return false;
        }
        self.narrow.multiply(self.shape.clique(at), at, ratio)
    }

    /// Takes a known pair in the narrow form, if it can stay in that.
    fn know_narrow(&mut self, at: u32, pair: Pair) -> bool
        requires home { home self.old.tree.flow.shape.tree (pair ∷ []) ≡ Some at }
        requires range { CanKnow StandsFor self.old pair }
        ensures taken { (m : Meaning) → StandsFor self.old m → result ≡ true
            → StandsFor self.new (with_known pair m) }
        ensures left { (m : Meaning) → StandsFor self.old m → result ≡ false
            → StandsFor self.new m }
    {
        if self.is_over {
            return false;
        }
        self.narrow.know(at, pair)
    }

    /// Gives all to the engine over the tree, if this has not been done.
    fn go_over(&mut self)
        requires { (m : Meaning) × StandsFor self.old m }
        ensures stands { (m : Meaning) → StandsFor self.old m → HasTree least self.new.tree m }
        ensures over { self.new.is_over ≡ true }
    {
        if !self.is_over {
            pass_on(&self.narrow, &mut self.tree);
            self.is_over = true;
        }
    }
}

/// Gives what is known and the ratios to an engine that has neither.
fn pass_on(narrow: &Narrow, tree: &mut TreeEngine<MinProd>)
    requires { (m : Meaning) × IsNarrow narrow.now m × Begun tree.old m }
    ensures { (m : Meaning) → IsNarrow narrow.now m → Begun tree.old m → HasTree least tree.new m }
{
    pass_known(narrow, tree);
    pass_ratios(narrow, tree);
}

fn pass_known(narrow: &Narrow, tree: &mut TreeEngine<MinProd>)
    requires { (m : Meaning) × IsNarrow narrow.now m × Begun tree.old m }
    ensures { (m : Meaning) → IsNarrow narrow.now m → Begun tree.old m
        → HasTree least tree.new (record {
          network = m.network;
          tree = m.tree;
          factors = [];
          known = m.known;
        }) }
{
    for k in 0..narrow.known.len() {
        tree.know(narrow.homes[k], narrow.known[k]);
    }
}

fn pass_ratios(narrow: &Narrow, tree: &mut TreeEngine<MinProd>)
    requires { (m : Meaning) × IsNarrow narrow.now m
        × HasTree least tree.old (record {
          network = m.network;
          tree = m.tree;
          factors = [];
          known = m.known;
        }) }
    ensures { (m : Meaning) → IsNarrow narrow.now m
        → HasTree least tree.old (record {
          network = m.network;
          tree = m.tree;
          factors = [];
          known = m.known;
        })
        → HasTree least tree.new m }
{
    for placed in &narrow.trades {
        tree.multiply(placed.home, &placed.ratio);
    }
}

impl Engine<MinProd> for UserEngine {
    type Plan = Rc<Shape>;

    ghost suits = { λ network tree. ⊤ };

    ghost plan_for = { λ plan network tree. IsPlanFor plan.value network tree };

    ghost stands_for = { StandsFor };

    ghost answers_at = { λ engine at event. IsHeldAt engine.tree.flow.shape.tree at event };

    ghost places_at = { λ engine at event. home engine.tree.flow.shape.tree event ≡ Some at };

    ghost grade_of = { tree_grade };

    fn plan(alloc: Global, net: &Network, tree: &Tree) -> Result<Rc<Shape>, NoMemory> {
        TreeEngine::<MinProd>::plan(alloc, net, tree)
    }

    fn start(alloc: Global, plan: &Rc<Shape>) -> Result<UserEngine, NoMemory> {
        let tree = TreeEngine::<MinProd>::start(alloc, plan)?;
        let narrow = Narrow::none(alloc)?;
        Ok(UserEngine {
            shape: plan.clone()?,
            narrow,
            tree,
            is_over: false,
        })
    }

    fn weigh(&mut self, net: &Network, variable: u32) {
        self.go_over();
        self.tree.weigh(net, variable);
    }

    fn support(&mut self, net: &Network, variable: u32) {
        self.go_over();
        self.tree.support(net, variable);
    }

    fn multiply(&mut self, home: u32, ratio: &Ratio) {
        if self.multiply_narrow(home, ratio) {
            return;
        }
        self.go_over();
        self.tree.multiply(home, ratio);
    }

    fn know(&mut self, home: u32, pair: Pair) {
        if self.know_narrow(home, pair) {
            return;
        }
        self.go_over();
        self.tree.know(home, pair);
    }

    fn belief(&mut self, at: u32, event: &Event) -> Held {
        if self.is_over {
            self.tree.belief(at, event)
        } else {
            self.narrow.belief(event)
        }
    }

    ghost held_is_answered = { λ engine m at event stands held. subst (λ (t : GivenTree). IsHeldAt
        t at event) (sym stands.tree_is) held };

    ghost home_is_place = { λ engine m at event stands is. subst (λ (t : GivenTree). home t event ≡
        Some at) (sym stands.tree_is) is };
}

impl TreeGraded<MinProd> for UserEngine {
    ghost within_tree = { λ m. le_refl (tree_grade m) };
}
