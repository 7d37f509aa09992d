//! Judgements of the values of a distribution, place by place.
ghost use Rattle.std.specs.Prelude.{◌≡◌, ◌≤◌, false, IsTrue, map, List};
ghost use Rattle.std.specs.Prelude.{Option, IfSome, option_map};
ghost use Rattle.mk_judge.specs.Below.{AllZip, AllByRecursion, Side, IsRightFor, IsFairFor};
ghost use Rattle.mk_judge.specs.Below.{AreFairUnits, side_in, max_share};
ghost use Rattle.mk_judge.specs.Judged.{Judges};
ghost use Rattle.mk_judge.specs.Units.{HasTradeRange, AreUnitsNear};
ghost use Rattle.mk_judge.specs.Questions.{IsSideNear};
ghost use Rattle.mk_judge.specs.Distributions.{IsSideFor, AreEachSideBounds, HaveTradeRange};
ghost use Rattle.mk_judge.specs.Distributions.{IsOf, IsSomeIntervalNear, AreSomeUnitsNear};
ghost use Rattle.mk_judge.specs.inner.Absent.{SaysAbsent, SaysSomeAbsent};

use crate::Judged;
use crate::interval::{judge_interval, judge_no_share};
use crate::units::judge_units;
use mk_names::limits::RATIO_UNIT;
use mk_quote::{SideBounds, SpreadBounds, ValueBounds};

/// Whether the interval of each value is right. Other numbers of them than of values are not.
pub fn judge_each_interval(
    bounds: &SpreadBounds,
    parts: &[Option<ValueBounds>],
    small: bool,
    intervals: &[(u32, u32)],
) -> Judged
    requires range { HaveTradeRange (map (option_map (side_in bounds.now)) parts.now) }
    ensures { (sides : List (Option Side))
        → AreEachSideBounds (map (option_map (side_in bounds.now)) parts.now) small sides
        → Judges result (AllZip (IsRightFor (IsTrue small)) sides intervals.now) ((small ≡ false)
        × IsSomeIntervalNear (map (option_map (side_in bounds.now)) parts.now) sides
        intervals.now) }
{
    match parts {
        [] => Judged::where_true(intervals.is_empty()),
        [value, parts @ ..] => match intervals {
            [] => Judged::Wrong,
            [(low, high), intervals @ ..] => {
                let first = judge_interval_for(&side_of(bounds, value), small, *low, *high);
                first.and(judge_each_interval(bounds, parts, small, intervals))
            }
        },
    }
}

/// Whether the units of each value are fair and solvent for its share.
pub fn judge_each_units(
    bounds: &SpreadBounds,
    parts: &[Option<ValueBounds>],
    small: bool,
    xs: &[u32],
    units: &[u64],
) -> Judged
    requires range { HaveTradeRange (map (option_map (side_in bounds.now)) parts.now) }
    requires shares { AllByRecursion (λ X. X ≤ max_share) xs.now }
    ensures { (sides : List (Option Side))
        → AreEachSideBounds (map (option_map (side_in bounds.now)) parts.now) small sides
        → Judges result (AreFairUnits (IsTrue small) sides xs.now units.now) ((small ≡ false)
        × AreSomeUnitsNear small (map (option_map (side_in bounds.now)) parts.now) sides xs.now
        units.now) }
{
    match parts {
        [] => Judged::where_true(xs.is_empty() && units.is_empty()),
        [value, parts @ ..] => match xs {
            [] => Judged::Wrong,
            [x, xs @ ..] => match units {
                [] => Judged::Wrong,
                [number, units @ ..] => {
                    let first = judge_units_for(&side_of(bounds, value), small, *x, *number);
                    first.and(judge_each_units(bounds, parts, small, xs, units))
                }
            },
        },
    }
}

/// Whether no share of some value can well be traded.
pub fn judge_some_absent(
    bounds: &SpreadBounds,
    parts: &[Option<ValueBounds>],
    small: bool,
) -> Judged
    requires range { HaveTradeRange (map (option_map (side_in bounds.now)) parts.now) }
    ensures { (sides : List (Option Side))
        → AreEachSideBounds (map (option_map (side_in bounds.now)) parts.now) small sides
        → SaysSomeAbsent result small (map (option_map (side_in bounds.now)) parts.now) sides }
{
    match parts {
        [] => Judged::Wrong,
        [value, parts @ ..] => {
            let first = judge_absent(&side_of(bounds, value), small);
            first.or(judge_some_absent(bounds, parts, small))
        }
    }
}

/// The side of a value: none for one that cannot come.
fn side_of(bounds: &SpreadBounds, value: &Option<ValueBounds>) -> Option<SideBounds>
    ensures { result ≡ option_map (side_in bounds.now) value.now }
{
    match value {
        Some(value) => Some(SideBounds {
            part: value.part,
            whole: bounds.whole,
            factor: value.factor,
        }),
        None => None,
    }
}

/// The interval of one value: nothing alone for one that cannot come.
fn judge_interval_for(side: &Option<SideBounds>, small: bool, low: u32, high: u32) -> Judged
    requires range { IfSome side.now (λ bounds. HasTradeRange bounds.factor) }
    ensures { (of_value : Option Side) → IsSideFor small side.now of_value
        → Judges result (IsRightFor (IsTrue small) of_value (low, high)) ((small ≡ false)
        × IsOf (λ bounds of_bounds. IsSideNear bounds of_bounds low high) side.now of_value) }
{
    match side {
        Some(bounds) => judge_interval(bounds, small, low, high),
        None => Judged::where_true(low == 0 && high == 0),
    }
}

/// The units of one value for its share: one whole unit for one that cannot come.
fn judge_units_for(side: &Option<SideBounds>, small: bool, share: u32, units: u64) -> Judged
    requires range { IfSome side.now (λ bounds. HasTradeRange bounds.factor) }
    requires share { share ≤ max_share }
    ensures { (of_value : Option Side) → IsSideFor small side.now of_value
        → Judges result (IsFairFor (IsTrue small) of_value share units) ((small ≡ false)
        × IsOf (λ bounds of_bounds. AreUnitsNear bounds small of_bounds units share) side.now
        of_value) }
{
    match side {
        Some(bounds) => judge_units(bounds, small, share, units),
        None => Judged::where_true(share == 0 && units == RATIO_UNIT),
    }
}

/// Whether no share of one value can well be traded. One that cannot come is not asked for any.
fn judge_absent(side: &Option<SideBounds>, small: bool) -> Judged
    requires range { IfSome side.now (λ bounds. HasTradeRange bounds.factor) }
    ensures { (of_value : Option Side) → IsSideFor small side.now of_value
        → SaysAbsent result small side.now of_value }
{
    match side {
        Some(bounds) => judge_no_share(bounds, small),
        None => Judged::Wrong,
    }
}
