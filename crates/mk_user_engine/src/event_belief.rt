//! What is believed of an event, from what is kept of each group.

ghost use Rattle.std.specs.Prelude.{◌≡◌, ℕ, ◌<◌, ◌≤◌, ◌⊎◌, ◌||◌, true, false, List, []};
ghost use Rattle.std.specs.Prelude.{◌∷◌, ◌++◌, All, length};
ghost use Rattle.mk_user_engine.specs.Below.{list_any, number_limit, Stands, least, HeldEncloses};
ghost use Rattle.mk_user_engine.specs.Below.{HasHeldGrade, IsHeldExact, contradicts, Meaning};
ghost use Rattle.mk_user_engine.specs.Below.{whole_sum, tree_grade, ArePairsOf, IsBelief, IsApart};
ghost use Rattle.mk_user_engine.specs.Below.{without_ratios};
ghost use Rattle.mk_net.specs.declared.words.Pair.{Pair};
ghost use Rattle.mk_user_engine.specs.declared.group.Group.{Group};
ghost use Rattle.mk_user_engine.specs.declared.narrow.PlacedRatio.{PlacedRatio};
ghost use Rattle.mk_user_engine.specs.Names.{is_named};
ghost use Rattle.mk_user_engine.specs.Grouped.{IsGroup, max_groups};
ghost use Rattle.mk_user_engine.specs.GroupedNarrow.{AreGrouped};
ghost use Rattle.mk_user_engine.specs.GroupProducts.{AreListedBy};
ghost use Rattle.mk_user_engine.specs.Kept.{HasGroupLeast, AreKept};
ghost use Rattle.mk_user_engine.specs.GroupBelief.{CanMultiplyOne, HasLeastOver, trades_of};

use crate::group::Group;
use crate::groups::Groups;
use crate::kept::{KeptLeast, least_of};
use crate::names::{Named, is_named};
use crate::narrow::PlacedRatio;
use crate::product::UNIT_PLACES;
use mk_cell::Cell;
use mk_net::{Event, Pair};
use mk_semiring::{Held, MinProd, Semiring};

/// The least product of all trades, over the assignments that agree with what is known and with an
/// event, which no known pair contradicts, from what is kept of each group.
pub(crate) fn belief_of(
    groups: &Groups,
    trades: &[PlacedRatio],
    known: &[Pair],
    kept: &[KeptLeast],
    event: &Event,
) -> Held
    requires range { (homes : List ℕ) × (m : Meaning)
        × AreGrouped groups.now trades.now known.now homes m × ArePairsOf m.network event.now }
    requires fits { contradicts known.now event.now ≡ false }
    requires kept { AreKept groups.now.list.items trades.now known.now kept.now }
    ensures belief { (homes : List ℕ) (m : Meaning)
        → AreGrouped groups.now trades.now known.now homes m → ArePairsOf m.network event.now
        → IsBelief HeldEncloses HasHeldGrade IsHeldExact least m event.now result }
    ensures apart { (homes : List ℕ) (m : Meaning)
        → AreGrouped groups.now trades.now known.now homes m → ArePairsOf m.network event.now
        → IsApart m event.now
        → whole_sum (without_ratios m) < number_limit → IsHeldExact result }
    ensures graded { (homes : List ℕ) (m : Meaning)
        → AreGrouped groups.now trades.now known.now homes m
        → HasHeldGrade result (tree_grade m) }
{
    let found = least_over(&groups.list, trades, known, kept, event.pairs());
    let count = trades.len() as u32;
    MinProd::of_cell(found.least, UNIT_PLACES * count, !found.met, count + 1)
}

/// The product of what the groups have for an event, from what is kept of each.
fn least_over(
    groups: &[Group],
    trades: &[PlacedRatio],
    known: &[Pair],
    kept: &[KeptLeast],
    event: &[Pair],
) -> KeptLeast
    requires groups { (sizes : List ℕ) × All (IsGroup sizes) groups.now }
    requires listed { All (λ (g : Group). AreListedBy g.names.items trades.now) groups.now }
    requires few_trades { length trades.now ≤ max_groups }
    requires once { trades_of trades.now groups.now ≤ max_groups }
    requires kept { AreKept groups.now trades.now known.now kept.now }
    ensures { HasLeastOver trades.now (known.now ++ event.now) groups.now result }
{
    let one = Cell::of_whole(1, 0);
    let mut product = KeptLeast {
        least: one,
        met: false,
    };
    for place in 0..groups.len() {
        let least = least_for(&groups[place], kept[place], trades, known, event);
        product = times(product, least, one);
    }
    product
}

/// What a group has for an event: reckoned where the event names one of its variables, and what is
/// kept of it where not.
fn least_for(
    group: &Group,
    kept: KeptLeast,
    trades: &[PlacedRatio],
    known: &[Pair],
    event: &[Pair],
) -> KeptLeast
    requires group { (sizes : List ℕ) × IsGroup sizes group.now }
    requires listed { AreListedBy group.now.names.items trades.now }
    requires few_trades { length trades.now ≤ max_groups }
    requires kept { HasGroupLeast trades.now known.now group.now kept }
    ensures { HasGroupLeast trades.now (known.now ++ event.now) group.now result }
{
    if names_one(&group.names, event) {
        return least_of(group, trades, known, event);
    }
    kept
}

/// Whether one of some pairs has a named variable.
fn names_one(names: &[Named], pairs: &[Pair]) -> bool
    ensures { result ≡ list_any (λ (p : Pair). is_named names.now p.variable) pairs.now }
{
    pairs.iter().any(|pair| is_named(names, pair.variable))
}

/// The product of what some groups have by what one more has. One that is 1, and meets no
/// condition, takes no step.
fn times(product: KeptLeast, other: KeptLeast, one: Cell) -> KeptLeast
    requires one { Stands 0 one 1 0 }
    requires range { CanMultiplyOne product other }
    ensures { (trades : List PlacedRatio) (pairs : List Pair) (groups : List Group) (group : Group)
        → HasLeastOver trades pairs groups product → HasGroupLeast trades pairs group other
        → HasLeastOver trades pairs (groups ++ group ∷ []) result }
{
    if is_one(other, one) {
        return product;
    }
    KeptLeast {
        least: product.least.times(other.least),
        met: product.met || other.met,
    }
}

/// Whether what a group has is 1, and meets no condition.
fn is_one(kept: KeptLeast, one: Cell) -> bool
    requires { Stands 0 one 1 0 }
    ensures unmet { result ≡ true → kept.met ≡ false }
    ensures one { result ≡ true → Stands 0 kept.least 1 0 }
    ensures other { result ≡ false → (kept.met ≡ true) ⊎ (Stands 0 kept.least 1 0 → ⊥) }
{
    if kept.met {
        return false;
    }
    if kept.least.digits != one.digits {
        return false;
    }
    kept.least.exponent == one.exponent
}
