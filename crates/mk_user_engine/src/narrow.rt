//! The narrow form: lists of ratios and of known pairs.

ghost use Rattle.std.specs.Prelude.{◌≡◌, ◌≢◌, ℕ, ◌+◌, ◌*◌, ◌<◌, ◌≤◌, ◌&&◌, ◌==◌, not, true, false};
ghost use Rattle.std.specs.Prelude.{List, [], ◌∷◌, ◌++◌, All, length, slice_index_or, IfOk, Some};
ghost use Rattle.mk_user_engine.specs.Below.{list_any, number_limit, IsEvent, Variable, IsNetwork};
ghost use Rattle.mk_user_engine.specs.Below.{trade_ratio, IsPairOf, least, HeldEncloses};
ghost use Rattle.mk_user_engine.specs.Below.{HasHeldGrade, IsHeldExact, contradicts};
ghost use Rattle.mk_user_engine.specs.Below.{contradicts_pair, GivenTree, home, IsTreeOf, Meaning};
ghost use Rattle.mk_user_engine.specs.Below.{RatioOf, opening, with_factor, with_known, whole_sum};
ghost use Rattle.mk_user_engine.specs.Below.{tree_grade, ArePairsOf, IsBelief, IsApart};
ghost use Rattle.mk_user_engine.specs.Below.{without_ratios};
ghost use Rattle.mk_net.specs.declared.words.Pair.{Pair};
ghost use Rattle.mk_user_engine.specs.Names.{CanDivide, agrees, max_cells};
ghost use Rattle.mk_user_engine.specs.Narrow.{IsListed, HasLeast, max_trades};
ghost use Rattle.mk_user_engine.specs.NarrowForm.{IsNarrow, CanHold, CanTake, IsHeldIn};

use crate::event_belief::belief_of;
use crate::group_product::places_of;
use crate::groups::{Groups, MAX_GROUPS};
use crate::kept::{KeptLeast, keep_all, least_of};
use arrayvec::ArrayVec;
use mk_names::limits::MAX_VARIABLES;
use mk_net::{Event, NoMemory, Pair, Ratio};
use mk_scope::Scope;
use mk_semiring::{Held, MinProd, Semiring};
use std::alloc::Global;

/// The most trades of the narrow form.
pub(crate) const MAX_TRADES: usize = 128;

/// The most cells times trades of a group that takes one trade more.
const MAX_WORK: usize = 128;

/// The most known pairs.
const MAX_KNOWN: usize = MAX_VARIABLES as usize;

/// A ratio with its home.
#[derive(Drop)]
pub(crate) struct PlacedRatio {
    pub(crate) home: u32,
    pub(crate) ratio: Ratio,
}

/// The ratios and the known pairs in their order, and groups of the variables that the ratios name.
/// The least product of each group is kept from the first belief on, until something comes.
#[derive(Drop)]
pub(crate) struct Narrow {
    pub(crate) groups: Groups,
    pub(crate) kept: Vec<KeptLeast>,
    pub(crate) is_kept: bool,
    pub(crate) trades: Vec<PlacedRatio>,
    pub(crate) known: Vec<Pair>,
    pub(crate) homes: Vec<u32>,
}

impl Narrow {
    /// No trade and no pair, with room for as many as there may be.
    pub(crate) fn none(alloc: Global) -> Result<Narrow, NoMemory>
        ensures { (network : List Variable) (tree : GivenTree) → IsNetwork network
            → IsTreeOf network tree
            → IfOk result (λ narrow. IsNarrow narrow (opening network tree)) }
    {
        // The shorter lists first: then the places where lists begin lie in fewer pages of memory.
        Ok(Narrow {
            homes: Vec::with_capacity(alloc, MAX_KNOWN)?,
            known: Vec::with_capacity(alloc, MAX_KNOWN)?,
            kept: Vec::with_capacity(alloc, MAX_GROUPS)?,
            groups: Groups::none(alloc)?,
            trades: Vec::with_capacity(alloc, MAX_TRADES)?,
            is_kept: false,
        })
    }

    /// Takes a known pair. Refused where there is no room, or an earlier one contradicts it.
    pub(crate) fn know(&mut self, at: u32, pair: Pair) -> bool
        requires { (m : Meaning) × IsNarrow self.old m }
        ensures taken { (m : Meaning) → IsNarrow self.old m → IsPairOf m.network pair
            → home m.tree (pair ∷ []) ≡ Some at → result ≡ true
            → IsNarrow self.new (with_known pair m) }
        ensures left { result ≡ false → self.new ≡ self.old }
    {
        if self.known.len() >= MAX_KNOWN {
            return false;
        }
        if contradicts_pair(&self.known, pair) {
            return false;
        }
        self.is_kept = false;
        self.known.push_reserved(pair);
        self.homes.push_reserved(at);
        true
    }

    /// Takes a ratio, of whose condition a scope has each variable. Refused where a limit would be
    /// passed, or where its group would be much work at each trade.
    pub(crate) fn multiply(&mut self, scope: &Scope, at: u32, ratio: &Ratio) -> bool
        requires { (m : Meaning) × CanTake self.old scope.now at (trade_ratio ratio.now) m }
        ensures taken { (m : Meaning) → CanTake self.old scope.now at (trade_ratio ratio.now) m
            → result ≡ true → IsNarrow self.new (with_factor (RatioOf (trade_ratio ratio.now)) m) }
        ensures left { (m : Meaning) → CanTake self.old scope.now at (trade_ratio ratio.now) m
            → result ≡ false → IsNarrow self.new m }
    {
        if self.trades.len() >= MAX_TRADES {
            return false;
        }
        if let Some(place) = self.groups.holding(ratio) {
            if !self.is_light(place) {
                return false;
            }
            self.take(place, at, ratio);
            return true;
        }
        self.is_kept = false;
        if !self.groups.gather_ratio(scope, ratio) {
            return false;
        }
        self.trades.push_reserved(PlacedRatio {
            home: at,
            ratio: copy_of(ratio),
        });
        true
    }

    /// Whether a group is reckoned in little work with one trade more.
    fn is_light(&self, place: usize) -> bool
        requires place { place < length self.now.groups.list.items }
        requires few { length self.now.trades.items < max_trades }
    {
        let group = &self.groups.list[place];
        let own = places_of(&group.names, &self.trades).len();
        (group.cells as usize).saturating_mul(own + 1) <= MAX_WORK
    }

    /// Takes a ratio whose variables one group names: of the others nothing changes.
    fn take(&mut self, place: usize, at: u32, ratio: &Ratio)
        requires range { (m : Meaning) × CanHold self.old at (trade_ratio ratio.now) m }
        requires few { length self.old.trades.items < max_trades }
        requires place { IsHeldIn self.old.groups.list.items place (trade_ratio ratio.now) }
        ensures { (m : Meaning) → CanHold self.old at (trade_ratio ratio.now) m
            → IsNarrow self.new (with_factor (RatioOf (trade_ratio ratio.now)) m) }
    {
        self.trades.push_reserved(PlacedRatio {
            home: at,
            ratio: copy_of(ratio),
        });
        if self.is_kept {
            let group = &self.groups.list[place];
            self.kept[place] = least_of(group, &self.trades, &self.known, &[]);
        }
    }

    /// The least product of all ratios, over the assignments that agree with what is known and with
    /// an event.
    pub(crate) fn belief(&mut self, event: &Event) -> Held
        requires { (m : Meaning) × IsNarrow self.old m × ArePairsOf m.network event.now }
        ensures stands { (m : Meaning) → IsNarrow self.old m → IsNarrow self.new m }
        ensures belief { (m : Meaning) → IsNarrow self.old m → ArePairsOf m.network event.now
            → IsBelief HeldEncloses HasHeldGrade IsHeldExact least m event.now result }
        ensures apart { (m : Meaning) → IsNarrow self.old m → ArePairsOf m.network event.now
            → IsApart m event.now
            → whole_sum (without_ratios m) < number_limit → IsHeldExact result }
        ensures graded { (m : Meaning) → IsNarrow self.old m → HasHeldGrade result (tree_grade m) }
    {
        if contradicts(&self.known, event.pairs()) {
            return MinProd::absent();
        }
        self.keep();
        belief_of(&self.groups, &self.trades, &self.known, &self.kept, event)
    }

    /// Keeps the least product of each group, where that is not kept.
    fn keep(&mut self)
        requires { (m : Meaning) × IsNarrow self.old m }
        ensures stands { (m : Meaning) → IsNarrow self.old m → IsNarrow self.new m }
        ensures kept { self.new.is_kept ≡ true }
        ensures known { self.new.known ≡ self.old.known }
    {
        if !self.is_kept {
            keep_all(&self.groups, &self.trades, &self.known, &mut self.kept);
            self.is_kept = true;
        }
    }
}

/// The same ratio once more.
fn copy_of(ratio: &Ratio) -> Ratio
    ensures { trade_ratio result ≡ trade_ratio ratio.now }
{
    let mut factors = ArrayVec::new();
    for place in 0..ratio.factors.len() {
        factors.push(ratio.factors[place]);
    }
    Ratio {
        variable: ratio.variable,
        condition: ratio.condition,
        factors,
    }
}

/// Whether one of the pairs gives a pair's variable another value.
fn contradicts_pair(pairs: &[Pair], pair: Pair) -> bool
    ensures { result ≡ contradicts_pair pairs.now pair }
{
    pairs.iter().any(|other| other.variable == pair.variable && other.value != pair.value)
}

/// Whether a pair gives a variable another value than one of some others does.
fn contradicts(pairs: &[Pair], others: &[Pair]) -> bool
    ensures { result ≡ contradicts pairs.now others.now }
{
    others.iter().any(|other| contradicts_pair(pairs, *other))
}
