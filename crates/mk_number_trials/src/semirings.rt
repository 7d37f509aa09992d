//! Each semiring through its trait. What the tables of edges hold was worked out by Python's whole numbers; a
//! product in a sum or a least is cut to the first 64 of its 128 places before.
ghost use Rattle.std.specs.Prelude.{◌≤◌};

use crate::cells::{BIAS, HALF, MOST, Parts, check_cells, expect_parts, unrounded};
use crate::enclosures::{self, check_ends};
use mk_cell::Cell;
use mk_semiring::{Held, MinProd, Semiring, SumProd};
use std::process::Abort;

/// The ends of an interval, each a mantissa and an exponent.
type Ends = (enclosures::Parts, enclosures::Parts);

/// The digits and the exponents of three cells.
type Cells = ([u64; 3], [u32; 3]);

/// Cells and other cells, with what the semirings make of the cells and of the products.
struct Row {
    cells: Cells,
    others: Cells,
    sum: Parts,
    least: Parts,
    sum_of_products: Parts,
    least_of_products: Parts,
}

/// Two whole numbers, with the value that each semiring gives their cells.
struct Numbers {
    left: u64,
    right: u64,
    sum: Ends,
    least: Ends,
}

/// Rows of cells and other cells, with the sum and the least of the cells, and of the products.
macro_rules! rows {
    ($($digits:tt $exponents:tt * $other_digits:tt $other_exponents:tt
        = $sum:tt $least:tt, $sum_of_products:tt $least_of_products:tt;)*) => {
        [$(Row {
            cells: ($digits, $exponents),
            others: ($other_digits, $other_exponents),
            sum: $sum,
            least: $least,
            sum_of_products: $sum_of_products,
            least_of_products: $least_of_products,
        }),*]
    };
}

/// Rows of two numbers, with the values of both semirings.
macro_rules! numbers {
    ($($left:tt, $right:tt: $sum:tt $least:tt;)*) => {
        [$(Numbers {
            left: $left,
            right: $right,
            sum: $sum,
            least: $least,
        }),*]
    };
}

const ROWS: [Row; 7] = rows! {
    // Equal exponents, and a carry.
    [HALF, MOST, HALF] [BIAS, BIAS, BIAS] * [MOST, MOST, HALF] [BIAS, BIAS, BIAS]
        = (MOST, BIAS + 1) (HALF, BIAS), (16140901064495857662, BIAS + 65) (HALF, BIAS + 63);
    // So far apart that nothing of the lesser is left.
    [HALF, MOST, HALF] [BIAS + 64, BIAS, BIAS - 1] * [HALF, MOST, MOST] [BIAS, BIAS + 1, BIAS - 70]
        = (HALF, BIAS + 64) (HALF, BIAS - 1), (HALF + 2, BIAS + 127) (MOST - 1, BIAS - 8);
    // One digit of the lesser is left.
    [HALF, MOST, HALF] [BIAS + 63, BIAS, BIAS] * [HALF, HALF, MOST] [BIAS, BIAS - 63, BIAS + 1]
        = (HALF + 2, BIAS + 63) (HALF, BIAS), (HALF + 2, BIAS + 126) (MOST - 1, BIAS);
    // Each product has an absent factor.
    [0, MOST, 0] [0, BIAS, 0] * [MOST, 0, HALF] [BIAS + 9, 0, BIAS]
        = (MOST, BIAS) (MOST, BIAS), (0, 0) (0, 0);
    // One cell is absent.
    [0, MOST, MOST] [0, BIAS - 7, BIAS - 8] * [MOST, HALF, MOST] [BIAS + 9, BIAS, BIAS + 1]
       
        = (13835058055282163711, BIAS - 6) (MOST, BIAS - 8),
        (13835058055282163710, BIAS + 58) (MOST - 1, BIAS + 56);
    // 2^63 - 1 in whole ones.
    [HALF, MOST - 3, 0] [BIAS - 1, BIAS - 2, 0] * [HALF, HALF, MOST] [BIAS - 63, BIAS - 63, BIAS]
        = (MOST - 1, BIAS - 1) (MOST - 3, BIAS - 2), (MOST - 1, BIAS - 1) (MOST - 3, BIAS - 2);
    // 2^63 in whole ones.
    [HALF, HALF, HALF] [BIAS - 2, BIAS - 2, BIAS - 1]
        * [HALF, HALF, HALF] [BIAS - 63, BIAS - 63, BIAS - 63]
        = (HALF, BIAS) (HALF, BIAS - 2), (HALF, BIAS) (HALF, BIAS - 2);
};

const QUARTER: u64 = 1 << 62;

const NUMBERS: [Numbers; 6] = numbers! {
    0, 0: ((0, 0), (0, 0)) ((0, 0), (0, 0));
    0, 5: ((5, 0), (5, 0)) ((5, 0), (5, 0));
    QUARTER, (QUARTER - 1): ((HALF - 1, 0), (HALF - 1, 0)) ((QUARTER - 1, 0), (QUARTER - 1, 0));
    QUARTER, QUARTER: ((HALF, 0), (HALF + 7, 0)) ((QUARTER, 0), (QUARTER, 0));
    HALF, MOST: ((13835058055282163711, 1), (13835058055282163718, 1)) ((HALF, 0), (HALF + 7, 0));
    MOST, MOST: ((MOST, 1), (HALF + 3, 2)) ((MOST, 0), (HALF + 3, 1));
};

fn plus_of<R: Semiring>(a: u64, b: u64) -> R::Value
    requires a_positive { 1 ≤ a }
    requires b_positive { 1 ≤ b }
    ensures { R.encloses result (R.plus_of a b) }
{
    R::plus(&R::of_whole(a), &R::of_whole(b))
}

fn times_of<R: Semiring>(a: u64, b: u64) -> R::Value
    requires a_positive { 1 ≤ a }
    requires b_positive { 1 ≤ b }
{
    R::times(&R::of_whole(a), &R::of_whole(b))
}

fn plus_absent<R: Semiring>(a: u64) -> (R::Value, R::Value)
    requires { 1 ≤ a }
{
    let value = R::of_whole(a);
    (R::plus(&R::absent(), &value), R::plus(&value, &R::absent()))
}

fn times_absent<R: Semiring>(a: u64) -> R::Value
    requires { 1 ≤ a }
{
    R::times(&R::of_whole(a), &R::absent())
}

/// Stops unless a value has these ends, which are 0 for Absent.
fn expect_ends(rt: &impl Abort, held: &Held, ends: Ends) {
    match held {
        Held::Absent => assert!(rt; ends == ((0, 0), (0, 0))),
        Held::Present(enclosure) => check_ends(rt, enclosure, ends.0, ends.1),
    }
}

/// Stops unless a value is this number; 0 stands for Absent.
fn check(rt: &impl Abort, held: &Held, n: u64) {
    expect_ends(rt, held, ((n, 0), (n, 0)));
}

/// Stops unless three and five have this sum, and their product and what nothing adds are a
/// semiring's.
fn check_few<R: Semiring<Value = Held>>(rt: &impl Abort, sum: u64) {
    check(rt, &plus_of::<R>(3, 5), sum);
    check(rt, &times_of::<R>(3, 5), 15);
    let (left, right) = plus_absent::<R>(5);
    check(rt, &left, 5);
    check(rt, &right, 5);
    check(rt, &times_absent::<R>(5), 0);
    check(rt, &R::one(), 1);
}

#[test]
fn sums_and_products(rt: HostRuntime) {
    check_few::<SumProd>(&rt, 8);
}

#[test]
fn minima_and_products(rt: HostRuntime) {
    check_few::<MinProd>(&rt, 3);
}

fn check_row<R: Semiring>(rt: &impl Abort, row: &Row, plus: Parts, plus_of_products: Parts) {
    let Row { cells, others, .. } = row;
    check_cells(rt, &cells.0, &cells.1);
    check_cells(rt, &others.0, &others.1);
    expect_parts(rt, R::over(&cells.0, &cells.1), plus);
    let (places, sums) = unrounded(&cells.0, &cells.1, &others.0, &others.1);
    expect_parts(rt, R::over_products(&places, &sums), plus_of_products);
}

/// The value of the plus of two numbers, as cells under a shift.
fn value_over<R: Semiring>(a: u64, b: u64) -> R::Value {
    let left = Cell::of_whole(a, 40);
    let right = Cell::of_whole(b, 40);
    let digits = [left.digits, right.digits];
    let exponents = [left.exponent, right.exponent];
    R::of_cell(R::over(&digits, &exponents), 40, false, 1)
}

/// The value of `2^40` times a number, as an untouched cell of the number.
fn untouched_value<R: Semiring>(n: u64) -> R::Value {
    R::of_cell(Cell::of_whole(n, 0), 40, true, 1)
}

#[test]
fn cells(rt: HostRuntime) {
    for row in &ROWS {
        check_row::<SumProd>(&rt, row, row.sum, row.sum_of_products);
        check_row::<MinProd>(&rt, row, row.least, row.least_of_products);
    }
}

#[test]
fn values_of_cells(rt: HostRuntime) {
    for numbers in &NUMBERS {
        let sum = value_over::<SumProd>(numbers.left, numbers.right);
        expect_ends(&rt, &sum, numbers.sum);
        let least = value_over::<MinProd>(numbers.left, numbers.right);
        expect_ends(&rt, &least, numbers.least);
    }
}

#[test]
fn values_of_untouched_cells(rt: HostRuntime) {
    let greatest: Ends = ((18446744073709551614, 39), (18446744073709551614, 39));
    let sum = untouched_value::<SumProd>(9223372036854775807);
    expect_ends(&rt, &sum, greatest);
    let least = untouched_value::<MinProd>(9223372036854775807);
    expect_ends(&rt, &least, greatest);
}
