//! One user's assets.

ghost use Rattle.std.specs.Prelude.{◌≡◌, ℕ, ◌+◌, ◌-◌, ◌≤◌, List, [], ◌∷◌, length, slice_index, true};
ghost use Rattle.std.specs.Prelude.{is_some, Some, IfOk, IfSome};
ghost use Rattle.mk_assets.specs.Below.{sizes, ratio_pairs, max_values, trade_ratio, HasGrade};
ghost use Rattle.mk_assets.specs.Below.{HasHeldGrade, GivenTree, home, exact_belief, max_grade};
ghost use Rattle.mk_assets.specs.Below.{exact_others};
ghost use Rattle.mk_assets.specs.Holdings.{Holding, Holds, Owns, IsPlanned, CanTrade};
ghost use Rattle.mk_assets.specs.Holdings.{CanDeposit, CanWithdraw, CanLearn, CanFindLeast};
ghost use Rattle.mk_assets.specs.Holdings.{CanFindLeastOfOthers, IsTakenAt, IsLeastFactor};
ghost use Rattle.mk_assets.specs.Holdings.{max_bits, trades_in, opening_holding, with_trade};
ghost use Rattle.mk_assets.specs.Holdings.{with_deposit, with_withdrawal};
ghost use Rattle.mk_assets.specs.inner.Found.{IsFound};

use mk_enclose::Factor;
use mk_engine::{Engine, belief_of_others};
use mk_net::{Event, Network, NoMemory, Pair, Question, Ratio};
use mk_semiring::{Held, MinProd, Semiring};
use mk_tree::Tree;
use std::alloc::Global;

/// One user's engine with the number of trades, the bits that were paid in less those taken out,
/// and how many of the pairs that are known the engine has learnt.
///
/// Assets stand for holdings. Each clause holds for every holding that they stand for before the
/// call. A pair that comes to be known changes a holding and not the assets: they are still those of
/// the holding, and stand for it once they have learnt the pair.
#[derive(Drop)]
pub struct Assets<E: Engine<MinProd>> {
    engine: E,
    trades: u32,
    net: i64,
    learnt: usize,
}

impl<E: Engine<MinProd>> Assets<E> {
    /// The assets of a user who has not traded, over the network that the plan was made for. They
    /// are told in which states each variable that has a share of nothing cannot come, and have
    /// learnt none of the pairs that are known.
    pub fn start(alloc: Global, plan: &E::Plan, net: &Network) -> Result<Assets<E>, NoMemory>
        requires { IsPlanned E.plan_for plan.now net.now }
        ensures { IfOk result (λ assets. (tree : GivenTree) (known : List Pair) → E.plan_for plan.now net.now tree → Holds E.stands_for assets (opening_holding net.now tree known)) }
    {
        Ok(Assets {
            engine: Self::supported(alloc, plan, net)?,
            trades: 0,
            net: 0,
            learnt: 0,
        })
    }

    /// An engine with the support of each variable of a network that has a share of nothing.
    fn supported(alloc: Global, plan: &E::Plan, net: &Network) -> Result<E, NoMemory>
        requires { IsPlanned E.plan_for plan.now net.now }
        ensures { IfOk result (λ engine. (tree : GivenTree) → E.plan_for plan.now net.now tree → E.stands_for engine (opening_holding net.now tree []).meaning) }
    {
        let mut engine = E::start(alloc, plan)?;
        for variable in net.with_zeros() {
            engine.support(net, *variable);
        }
        Ok(engine)
    }

    /// Adds a trade, whose home this is.
    pub fn trade(&mut self, home: u32, ratio: &Ratio)
        requires home { IsTakenAt E.places_at self.old home (ratio_pairs (trade_ratio ratio.now)) }
        requires range { CanTrade E.stands_for self.old (trade_ratio ratio.now) }
        ensures held { (h : Holding) → Holds E.stands_for self.old h → Holds E.stands_for self.new (with_trade (trade_ratio ratio.now) h) }
        ensures owned { (h : Holding) → Owns E.stands_for self.old h → Owns E.stands_for self.new (with_trade (trade_ratio ratio.now) h) }
    {
        self.engine.multiply(home, ratio);
        self.trades += 1;
    }

    /// How many trades there were.
    pub fn trades(&self) -> u32
        ensures { (h : Holding) → Holds E.stands_for self.now h → result ≡ trades_in h }
    {
        self.trades
    }

    /// Adds bits that were paid in.
    pub fn deposit(&mut self, bits: u32)
        requires { CanDeposit E.stands_for self.old bits }
        ensures held { (h : Holding) → Holds E.stands_for self.old h → h.deposited + bits ≤ max_bits → Holds E.stands_for self.new (with_deposit bits h) }
        ensures owned { (h : Holding) → Owns E.stands_for self.old h → h.deposited + bits ≤ max_bits → Owns E.stands_for self.new (with_deposit bits h) }
    {
        self.net += bits as i64;
    }

    /// Adds bits that were taken out.
    pub fn withdraw(&mut self, bits: u32)
        requires { CanWithdraw E.stands_for self.old bits }
        ensures held { (h : Holding) → Holds E.stands_for self.old h → h.withdrawn + bits ≤ max_bits → Holds E.stands_for self.new (with_withdrawal bits h) }
        ensures owned { (h : Holding) → Owns E.stands_for self.old h → h.withdrawn + bits ≤ max_bits → Owns E.stands_for self.new (with_withdrawal bits h) }
    {
        self.net -= bits as i64;
    }

    /// Learns the pairs that are known and that it has not learnt yet, over this tree of the
    /// network. They are all that is known, in the order in which they came to be so.
    pub fn learn(&mut self, tree: &Tree, known: &[Pair])
        requires { CanLearn E.stands_for self.old tree.now known.now }
        ensures { (h : Holding) → Holds E.stands_for self.old h → h.meaning.tree ≡ tree.now → h.meaning.known ≡ known.now → Owns E.stands_for self.new h }
    {
        for pair in &known[self.learnt..] {
            self.engine.know(home_of(tree, *pair), *pair);
        }
        self.learnt = known.len();
    }

    /// The least factor over the states where the known pairs and an event hold, asked in a clique
    /// that holds the event. None where there is no such state.
    pub fn least(&mut self, at: u32, event: &Event) -> Option<Factor>
        requires held { IsTakenAt E.answers_at self.old at event.now }
        requires range { CanFindLeast E.stands_for self.old event.now }
        ensures kept { (h : Holding) → Owns E.stands_for self.old h → Owns E.stands_for self.new h }
        ensures least { (h : Holding) → Owns E.stands_for self.old h
            → IsLeastFactor h (exact_belief ⟦<MinProd as Semiring>⟧.plus_of h.meaning event.now) (length h.meaning.factors + max_grade) result }
        ensures graded { (h : Holding) → Owns E.stands_for self.old h
            → IfSome result (λ f. HasGrade f.gain (E.grade_of h.meaning)) }
    {
        let found = self.engine.belief(at, event);
        self.factor(&found)
    }

    /// The least factor over the states where the known pairs and the condition of a question hold
    /// and its target does not, asked in a clique that holds the question: its variable has one of
    /// its other values, of which there are `values` with the target's.
    pub fn least_of_others(&mut self, at: u32, asked: &Question, values: u32) -> Option<Factor>
        requires { CanFindLeastOfOthers E.stands_for self.old at asked.now values }
        ensures kept { (h : Holding) → Owns E.stands_for self.old h → Owns E.stands_for self.new h }
        ensures least { (h : Holding) → Owns E.stands_for self.old h → values ≡ slice_index (sizes h.meaning.network) asked.now.target.variable
            → IsLeastFactor h (exact_others ⟦<MinProd as Semiring>⟧.plus_of h.meaning asked.now values) (length h.meaning.factors + max_grade + max_values) result }
        ensures graded { (h : Holding) → Owns E.stands_for self.old h
            → values ≡ slice_index (sizes h.meaning.network) asked.now.target.variable
            → IfSome result (λ f. HasGrade f.gain (E.grade_of h.meaning + (max_values - 1))) }
    {
        let found = belief_of_others::<MinProd, E>(&mut self.engine, at, asked, values);
        self.factor(&found)
    }

    /// The factor of the least gain that was found.
    fn factor(&self, found: &Held) -> Option<Factor>
        ensures least { (h : Holding) (least_gain most : ℕ) → Owns E.stands_for self.now h
            → IsFound h least_gain most found.now → IsLeastFactor h least_gain most result }
        ensures graded { (most : ℕ) → HasHeldGrade found.now most
            → IfSome result (λ f. HasGrade f.gain most) }
    {
        match found {
            Held::Absent => None,
            Held::Present(gain) => Some(Factor {
                gain: *gain,
                trades: self.trades,
                net: self.net,
            }),
        }
    }
}

/// The home of a pair.
fn home_of(tree: &Tree, pair: Pair) -> u32
    requires { is_some (home tree.now (pair ∷ [])) ≡ true }
    ensures { home tree.now (pair ∷ []) ≡ Some result }
{
    match tree.pair_home(pair) {
        Some(home) => home,
        None => unreachable!(),
    }
}
