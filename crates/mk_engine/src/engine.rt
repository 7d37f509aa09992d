//! The trait.

ghost use Rattle.std.specs.Prelude.{◌≡◌, ◌<◌, ℕ, List, [], ◌∷◌, Some, IfOk};
ghost use Rattle.mk_net.specs.declared.words.Pair.{Pair};
ghost use Rattle.mk_engine.specs.Below.{Variable, ratio_pairs, number_limit, trade_ratio};
ghost use Rattle.mk_engine.specs.Below.{GivenTree, home, IsTreeOf, IsHeldAt};
ghost use Rattle.mk_engine.specs.Meaning.{Meaning, RowsOf, SupportOf, RatioOf, opening, with_factor, with_known, whole_sum};
ghost use Rattle.mk_engine.specs.Apart.{IsApart, without_ratios};
ghost use Rattle.mk_engine.specs.Beliefs.{CanWeigh, CanMultiply, CanKnow, CanBelieve, IsBelief};

use mk_net::{Event, Network, NoMemory, Pair, Ratio};
use mk_semiring::Semiring;
use mk_tree::Tree;
use std::alloc::Global;

/// An engine of beliefs: it multiplies factors over the states of a network, and adds up or
/// compares their products.
///
/// An engine stands for meanings: a network, a tree of it, a list of factors and a list of known
/// pairs. Each clause holds for every meaning that the engine stands for before the call.
///
/// Calls name a clique of the tree, which counts from 1: the home of what is placed, which is the
/// first clique that holds it, and any clique that holds what is asked. So whoever asks many
/// questions of one event looks for its clique once.
pub trait Engine<R: Semiring>: Sized + Drop {
    /// What is made once for a network and a tree.
    type Plan: Drop;

    // The networks and trees that the engine suits.
    ghost suits: { List Variable → GivenTree → Type 0 };

    // The networks and trees that a plan stands for.
    ghost plan_for: { Self.Plan → List Variable → GivenTree → Type 0 };

    // The meanings that an engine stands for.
    ghost stands_for: { Self → Meaning → Type 0 };

    // The cliques in which an engine can answer an event.
    ghost answers_at: { Self → ℕ → List Pair → Type 0 };

    // The clique in which an engine places what speaks of the variables of an event.
    ghost places_at: { Self → ℕ → List Pair → Type 0 };

    // The grade of each belief in a meaning that an engine stands for.
    ghost grade_of: { Meaning → ℕ };

    /// The plan for a network and a tree of it.
    fn plan(alloc: Global, net: &Network, tree: &Tree) -> Result<Self::Plan, NoMemory>
        requires tree { IsTreeOf net.now tree.now }
        requires suits { suits net.now tree.now }
        ensures { IfOk result (λ plan. plan_for plan net.now tree.now) };

    /// An engine without factors that knows nothing.
    fn start(alloc: Global, plan: &Self::Plan) -> Result<Self, NoMemory>
        ensures { IfOk result (λ engine. (network : List Variable) (tree : GivenTree) → plan_for plan.now network tree → stands_for engine (opening network tree)) };

    /// Adds the rows of a variable as a factor.
    fn weigh(&mut self, net: &Network, variable: u32)
        requires { CanWeigh stands_for self.old net.now variable }
        ensures { (m : Meaning) → stands_for self.old m → m.network ≡ net.now → stands_for self.new (with_factor (RowsOf variable) m) };

    /// Adds the support of a variable as a factor: it is one where the variable's share is not nothing, and absent elsewhere.
    fn support(&mut self, net: &Network, variable: u32)
        requires { CanWeigh stands_for self.old net.now variable }
        ensures { (m : Meaning) → stands_for self.old m → m.network ≡ net.now → stands_for self.new (with_factor (SupportOf variable) m) };

    /// Adds the ratio of a trade, whose home this is, as a factor.
    fn multiply(&mut self, home: u32, ratio: &Ratio)
        requires home { places_at self.old home (ratio_pairs (trade_ratio ratio.now)) }
        requires range { CanMultiply stands_for self.old (trade_ratio ratio.now) }
        ensures { (m : Meaning) → stands_for self.old m → stands_for self.new (with_factor (RatioOf (trade_ratio ratio.now)) m) };

    /// Adds a known pair, whose home this is.
    fn know(&mut self, home: u32, pair: Pair)
        requires home { places_at self.old home (pair ∷ []) }
        requires range { CanKnow stands_for self.old pair }
        ensures { (m : Meaning) → stands_for self.old m → stands_for self.new (with_known pair m) };

    /// The plus, over all states where the known pairs and the event hold, of the product of all
    /// factors, asked in a clique that holds the event. It leaves what the engine stands for as it
    /// was. Where one pair stands in the condition of every ratio and the event gives its variable
    /// another value, the ratios take nothing from what is exact without them.
    fn belief(&mut self, at: u32, event: &Event) -> R::Value
        requires held { answers_at self.old at event.now }
        requires range { CanBelieve stands_for self.old event.now }
        ensures kept { (m : Meaning) → stands_for self.old m → stands_for self.new m }
        ensures belief { (m : Meaning) → stands_for self.old m → IsBelief R.encloses R.has_grade R.is_exact R.plus_of m event.now result }
        ensures apart { (m : Meaning) → stands_for self.old m → IsApart m event.now → whole_sum (without_ratios m) < number_limit → R.is_exact result }
        ensures graded { (m : Meaning) → stands_for self.old m → R.has_grade result (grade_of m) };

    // An event can be answered in each clique that holds it.
    ghost held_is_answered: { (engine : Self) (m : Meaning) (at : ℕ) (event : List Pair) → stands_for engine m → IsHeldAt m.tree at event → answers_at engine at event };

    // What speaks of its variables is placed in its home.
    ghost home_is_place: { (engine : Self) (m : Meaning) (at : ℕ) (event : List Pair) → stands_for engine m → home m.tree event ≡ Some at → places_at engine at event };
}
