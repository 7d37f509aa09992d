//! The product of those trades alone whose variable is named, in each assignment of the named
//! variables.

ghost use Rattle.std.specs.Prelude.{◌≡◌, ℕ, ◌<◌, ◌≤◌, true, false, All, length};
ghost use Rattle.mk_user_engine.specs.Names.{CanDivide, max_cells};
ghost use Rattle.mk_user_engine.specs.Narrow.{IsListed, HasProduct, HaveProducts, HasLeast};
ghost use Rattle.mk_user_engine.specs.Grouped.{max_groups};
ghost use Rattle.mk_user_engine.specs.GroupProducts.{named_by, AreListedBy, ArePlaces};

use crate::names::{MAX_CELLS, Named, is_named};
use crate::narrow::{MAX_TRADES, PlacedRatio};
use crate::product::{UNIT_PLACES, units_in};
use arrayvec::ArrayVec;
use mk_cell::{Cell, least};

/// The least product in the cells that are asked for, and whether one of these meets the condition
/// of a trade.
pub(crate) fn least_product(asked: &[bool], names: &[Named], trades: &[PlacedRatio]) -> (Cell, bool)
    requires names { All CanDivide names.now }
    requires trades { AreListedBy names.now trades.now }
    requires few_trades { length trades.now ≤ max_groups }
    requires few { length asked.now ≤ max_cells }
    ensures { HasLeast names.now (named_by names.now trades.now) asked.now (result.0).digits
        (result.0).exponent (result.1) }
{
    let mut digits = [0; MAX_CELLS as usize];
    let mut exponents = [0; MAX_CELLS as usize];
    let digits = &mut digits[..asked.len()];
    let exponents = &mut exponents[..asked.len()];
    let places = places_of(names, trades);
    let met = write_products(asked, digits, exponents, names, trades, &places);
    (least(digits, exponents), met)
}

/// Where the trades stand whose variable is named.
pub(crate) fn places_of(names: &[Named], trades: &[PlacedRatio]) -> ArrayVec<u32, MAX_TRADES>
    requires { length trades.now ≤ max_groups }
    ensures { ArePlaces (named_by names.now trades.now) trades.now result.items }
{
    let mut places = ArrayVec::new();
    for place in 0..trades.len() {
        if is_named(names, trades[place].ratio.variable) {
            places.push(place as u32);
        }
    }
    places
}

/// Writes the product of each cell that is asked for, and none elsewhere. Says whether one of them
/// meets the condition of a trade.
fn write_products(
    asked: &[bool],
    digits: &mut [u64],
    exponents: &mut [u32],
    names: &[Named],
    trades: &[PlacedRatio],
    places: &[u32],
) -> bool
    requires names { All CanDivide names.now }
    requires listed { All (IsListed names.now) (named_by names.now trades.now) }
    requires few_trades { length trades.now ≤ max_groups }
    requires places { ArePlaces (named_by names.now trades.now) trades.now places.now }
    requires few { length asked.now ≤ max_cells }
    requires digits { length digits.old ≡ length asked.now }
    requires exponents { length exponents.old ≡ length asked.now }
    ensures { HaveProducts names.now (named_by names.now trades.now) asked.now digits.new
        exponents.new result (length asked.now) }
{
    let mut met = false;
    for cell in 0..asked.len() {
        let mut product = Cell::ABSENT;
        if asked[cell] {
            let made = product_at(names, trades, places, cell as u32);
            product = made.0;
            met = met || made.1;
        }
        digits[cell] = product.digits;
        exponents[cell] = product.exponent;
    }
    met
}

/// The product in a cell, and whether it meets the condition of a trade.
fn product_at(names: &[Named], trades: &[PlacedRatio], places: &[u32], cell: u32) -> (Cell, bool)
    requires names { All CanDivide names.now }
    requires listed { All (IsListed names.now) (named_by names.now trades.now) }
    requires few_trades { length trades.now ≤ max_groups }
    requires places { ArePlaces (named_by names.now trades.now) trades.now places.now }
    ensures { HasProduct names.now (named_by names.now trades.now) cell (result.0).digits
        (result.0).exponent (result.1) }
{
    let mut product = Cell::of_whole(1, 0);
    let mut met = false;
    for k in 0..places.len() {
        let placed = &trades[places[k] as usize];
        if let Some(units) = units_in(names, &placed.ratio, cell) {
            product = product.times(Cell::of_whole(units, UNIT_PLACES));
            met = true;
        }
    }
    (product, met)
}
