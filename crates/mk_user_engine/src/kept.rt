//! What is kept of a group: the least product of its trades.

ghost use Rattle.std.specs.Prelude.{◌≡◌, ℕ, ◌*◌, ◌<◌, ◌≤◌, ◌&&◌, true, false, List, ◌++◌, All};
ghost use Rattle.std.specs.Prelude.{[], length, slice_index_or, vec_capacity};
ghost use Rattle.mk_engine.specs.Meaning.{Meaning};
ghost use Rattle.mk_user_engine.specs.declared.group.Group.{Group};
ghost use Rattle.mk_user_engine.specs.Names.{CanDivide, agrees, max_cells};
ghost use Rattle.mk_user_engine.specs.Grouped.{IsGroup, max_groups};
ghost use Rattle.mk_user_engine.specs.GroupedNarrow.{AreGrouped};
ghost use Rattle.mk_user_engine.specs.GroupProducts.{AreListedBy};
ghost use Rattle.mk_user_engine.specs.Kept.{HasGroupLeast, AreKept};

use crate::group::Group;
use crate::group_product::least_product;
use crate::groups::Groups;
use crate::names::{MAX_CELLS, Named};
use crate::narrow::PlacedRatio;
use crate::product::keep_pairs;
use mk_cell::Cell;
use mk_net::Pair;

/// The least product of a group's trades over its cells that agree with what is known, and whether
/// one of these cells meets the condition of a trade.
#[derive(Clone, Copy)]
pub(crate) struct KeptLeast {
    pub(crate) least: Cell,
    pub(crate) met: bool,
}

/// Keeps anew what each group has.
pub(crate) fn keep_all(
    groups: &Groups,
    trades: &[PlacedRatio],
    known: &[Pair],
    kept: &mut Vec<KeptLeast>,
)
    requires range { (homes : List ℕ) × (m : Meaning)
        × AreGrouped groups.now trades.now known.now homes m }
    requires room { max_groups ≤ vec_capacity kept.old }
    ensures kept { AreKept groups.now.list.items trades.now known.now kept.new.items }
    ensures capacity { vec_capacity kept.new ≡ vec_capacity kept.old }
{
    kept.clear();
    keep_each(&groups.list, trades, known, kept);
}

/// Keeps what each group has, where nothing is kept.
fn keep_each(groups: &[Group], trades: &[PlacedRatio], known: &[Pair], kept: &mut Vec<KeptLeast>)
    requires groups { (sizes : List ℕ) × All (IsGroup sizes) groups.now }
    requires listed { All (λ (g : Group). AreListedBy g.names.items trades.now) groups.now }
    requires few_trades { length trades.now ≤ max_groups }
    requires room { length groups.now ≤ vec_capacity kept.old }
    requires none { kept.old.items ≡ [] }
    ensures kept { AreKept groups.now trades.now known.now kept.new.items }
    ensures capacity { vec_capacity kept.new ≡ vec_capacity kept.old }
{
    for place in 0..groups.len() {
        kept.push_reserved(least_of(&groups[place], trades, known, &[]));
    }
}

/// The least product of a group's trades over its cells that agree with what is known and with an
/// event. Trades of other groups are left out.
pub(crate) fn least_of(
    group: &Group,
    trades: &[PlacedRatio],
    known: &[Pair],
    event: &[Pair],
) -> KeptLeast
    requires group { (sizes : List ℕ) × IsGroup sizes group.now }
    requires listed { AreListedBy group.now.names.items trades.now }
    requires few_trades { length trades.now ≤ max_groups }
    ensures { HasGroupLeast trades.now (known.now ++ event.now) group.now result }
{
    let mut asked = [false; MAX_CELLS as usize];
    least_asked(
        &mut asked[..group.cells as usize],
        group,
        trades,
        known,
        event,
    )
}

/// The same, with room to say which cells are asked for.
fn least_asked(
    asked: &mut [bool],
    group: &Group,
    trades: &[PlacedRatio],
    known: &[Pair],
    event: &[Pair],
) -> KeptLeast
    requires long { length asked.old ≡ group.now.cells }
    requires group { (sizes : List ℕ) × IsGroup sizes group.now }
    requires listed { AreListedBy group.now.names.items trades.now }
    requires few_trades { length trades.now ≤ max_groups }
    ensures { HasGroupLeast trades.now (known.now ++ event.now) group.now result }
{
    choose(asked, &group.names, known, event);
    let (least, met) = least_product(asked, &group.names, trades);
    KeptLeast { least, met }
}

/// Asks for the cells that agree with what is known and with an event.
fn choose(asked: &mut [bool], names: &[Named], known: &[Pair], event: &[Pair])
    requires names { All CanDivide names.now }
    requires few { length asked.old ≤ max_cells }
    ensures long { length asked.new ≡ length asked.old }
    ensures kept { (c : ℕ) → c < length asked.old
        → slice_index_or asked.new c false
        ≡ (agrees names.now known.now c && agrees names.now event.now c) }
{
    ask_all(asked);
    keep_pairs(asked, names, known);
    keep_pairs(asked, names, event);
}

/// Asks for each cell.
fn ask_all(asked: &mut [bool])
    ensures long { length asked.new ≡ length asked.old }
    ensures all { (c : ℕ) → c < length asked.old → slice_index_or asked.new c false ≡ true }
{
    for cell in 0..asked.len() {
        asked[cell] = true;
    }
}
