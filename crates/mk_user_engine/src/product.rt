//! The product of a list of ratios in each assignment of the named variables.

ghost use Rattle.std.specs.Prelude.{◌≡◌, ℕ, ◌+◌, ◌*◌, ◌<◌, ◌≤◌, ◌&&◌, ◌==◌, true, false, List, All};
ghost use Rattle.std.specs.Prelude.{length, slice_index, slice_index_or, IfSome, IfNone};
ghost use Rattle.std.specs.Prelude.{MatchOption};
ghost use Rattle.mk_user_engine.specs.Below.{list_any, IsUnits, trade_ratio, units_of, holds_there};
ghost use Rattle.mk_user_engine.specs.Below.{StandsAt, IsOwnAt};
ghost use Rattle.mk_user_engine.specs.Names.{value_in, agrees, is_named, CanDivide, max_cells};
ghost use Rattle.mk_user_engine.specs.Narrow.{IsListed, product_of, is_met, HasProduct};
ghost use Rattle.mk_user_engine.specs.Narrow.{HaveProducts, max_trades};

use crate::names::{Named, is_named, value_in};
use crate::narrow::PlacedRatio;
use mk_cell::Cell;
use mk_names::limits::RATIO_PLACES;
use mk_net::{Pair, Ratio};

/// The places of two in a unit.
pub(crate) const UNIT_PLACES: u32 = RATIO_PLACES;

/// Asks for those cells alone that give each named variable of some pairs its value.
pub(crate) fn keep_pairs(asked: &mut [bool], names: &[Named], pairs: &[Pair])
    requires names { All CanDivide names.now }
    requires few { length asked.old ≤ max_cells }
    ensures long { length asked.new ≡ length asked.old }
    ensures kept { (c : ℕ) → c < length asked.old
        → slice_index_or asked.new c false
        ≡ (slice_index_or asked.old c false && agrees names.now pairs.now c) }
{
    for pair in pairs {
        if is_named(names, pair.variable) {
            keep_pair(asked, names, *pair);
        }
    }
}

/// Asks for those cells alone that give a variable its pair's value.
fn keep_pair(asked: &mut [bool], names: &[Named], pair: Pair)
    requires names { All CanDivide names.now }
    requires few { length asked.old ≤ max_cells }
    ensures long { length asked.new ≡ length asked.old }
    ensures kept { (c : ℕ) → c < length asked.old
        → slice_index_or asked.new c false
        ≡ (slice_index_or asked.old c false && value_in names.now c pair.variable == pair.value) }
{
    for cell in 0..asked.len() {
        let has = value_in(names, cell as u32, pair.variable) == pair.value;
        asked[cell] = asked[cell] && has;
    }
}

/// The units of a ratio in a cell, where it meets the condition.
pub(crate) fn units_in(names: &[Named], ratio: &Ratio, cell: u32) -> Option<u64>
    requires names { All CanDivide names.now }
    requires value { value_in names.now cell ratio.now.variable < length ratio.now.factors.items }
    ensures met { IfSome result
        (λ units. holds_there ratio.now.condition (value_in names.now cell) ≡ true) }
    ensures units { IfSome result (λ units. units
        ≡ units_of (trade_ratio ratio.now) (value_in names.now cell ratio.now.variable)) }
    ensures left { IfNone result
        (holds_there ratio.now.condition (value_in names.now cell) ≡ false) }
{
    if !holds_in(names, ratio.condition.pairs(), cell) {
        return None;
    }
    let value = value_in(names, cell, ratio.variable);
    Some(ratio.factors[value as usize])
}

/// Whether a cell has the value of each pair.
fn holds_in(names: &[Named], pairs: &[Pair], cell: u32) -> bool
    requires { All CanDivide names.now }
    ensures { result ≡ holds_there pairs.now (value_in names.now cell) }
{
    for pair in pairs {
        if value_in(names, cell, pair.variable) != pair.value {
            return false;
        }
    }
    true
}
