//! Answers at the edges. The values were computed by Python's whole numbers: a product is the greatest
//! number of 64 digits that is not above it, and a sum that of its parts, each cut to the places of the
//! greatest cell. A product in a sum or a least is cut to the first 64 of its 128 places before: where the
//! first of them is 0, so is the last of the 64 digits.
ghost use Rattle.std.specs.Prelude.{◌≡◌, ◌≤◌, length, slice_index};
ghost use Rattle.mk_cell.specs.Cell.{AreCells, IsCell};
ghost use Rattle.mk_cell.specs.Products.{AreUnrounded};

use crate::enclosures::{self, check_ends};
use mk_cell::{Cell, first_places, least, least_of_products, sum, sum_of_products, times_each};
use mk_enclose::Enclosure;
use std::process::Abort;

/// Digits and an exponent.
pub(crate) type Parts = (u64, u32);

/// The first and the last number of 64 digits.
pub(crate) const HALF: u64 = 1 << 63;

pub(crate) const MOST: u64 = u64::MAX;

/// The exponent of a cell whose digits are its number.
pub(crate) const BIAS: u32 = 5 << 28;

/// Two cells and their product.
struct Pair {
    left: Parts,
    right: Parts,
    product: Parts,
}

/// Cells, with their sum and the least of them.
struct Row {
    digits: [u64; 3],
    exponents: [u32; 3],
    sum: Parts,
    least: Parts,
}

/// Pairs of cells, with each product, their sum and the least of them.
struct Products {
    left_digits: [u64; 2],
    left_exponents: [u32; 2],
    right_digits: [u64; 2],
    right_exponents: [u32; 2],
    each_digits: [u64; 2],
    each_exponents: [u32; 2],
    sum: Parts,
    least: Parts,
}

/// Rows `left * right = product`.
macro_rules! pairs {
    ($($left:tt * $right:tt = $product:tt;)*) => {
        [$(Pair {
            left: $left,
            right: $right,
            product: $product,
        }),*]
    };
}

/// Rows of digits and exponents, with the sum and the least.
macro_rules! rows {
    ($($digits:tt $exponents:tt: $sum:tt $least:tt;)*) => {
        [$(Row {
            digits: $digits,
            exponents: $exponents,
            sum: $sum,
            least: $least,
        }),*]
    };
}

/// Rows of digits and exponents times others, with those of each product, the sum and the least.
macro_rules! products {
    ($($left_digits:tt $left_exponents:tt * $right_digits:tt $right_exponents:tt
        = $each_digits:tt $each_exponents:tt: $sum:tt $least:tt;)*) => {
        [$(Products {
            left_digits: $left_digits,
            left_exponents: $left_exponents,
            right_digits: $right_digits,
            right_exponents: $right_exponents,
            each_digits: $each_digits,
            each_exponents: $each_exponents,
            sum: $sum,
            least: $least,
        }),*]
    };
}

const PAIRS: [Pair; 8] = pairs! {
    (HALF, BIAS) * (HALF, BIAS) = (HALF, BIAS + 63);
    (MOST, BIAS) * (MOST, BIAS) = (MOST - 1, BIAS + 64);
    (HALF, BIAS) * (MOST, BIAS) = (MOST, BIAS + 63);
    (HALF + 1, BIAS) * (MOST, BIAS) = (HALF, BIAS + 64);
    (0, 0) * (MOST, BIAS + 5) = (0, 0);
    (13043817825332782212, BIAS) * (13043817825332782212, BIAS) = (MOST, BIAS + 63);
    (13043817825332782213, BIAS) * (13043817825332782213, BIAS) = (HALF, BIAS + 64);
    (MOST - 1, BIAS + 3) * (HALF + 1, BIAS - 7) = (MOST, BIAS + 59);
};

const ROWS: [Row; 12] = rows! {
    [MOST, MOST, MOST] [BIAS, BIAS, BIAS]: (13835058055282163711, BIAS + 2) (MOST, BIAS);
    [HALF, MOST, MOST] [BIAS + 64, BIAS, BIAS]: (HALF, BIAS + 64) (MOST, BIAS);
    [HALF, MOST, 0] [BIAS + 63, BIAS, 0]: (HALF + 1, BIAS + 63) (MOST, BIAS);
    [MOST, HALF, 0] [BIAS, BIAS - 63, 0]: (HALF, BIAS + 1) (HALF, BIAS - 63);
    [MOST, HALF, 0] [BIAS, BIAS - 64, 0]: (MOST, BIAS) (HALF, BIAS - 64);
    [0, 0, 0] [0, 0, 0]: (0, 0) (0, 0);
    [0, HALF, HALF] [0, BIAS - 70000, BIAS + 70000]: (HALF, BIAS + 70000) (HALF, BIAS - 70000);
    [MOST, HALF, HALF + 1] [BIAS, BIAS, BIAS]: (HALF, BIAS + 2) (HALF, BIAS);
    [HALF, MOST, 0] [BIAS, BIAS - 1, 0]: (MOST, BIAS) (MOST, BIAS - 1);
    [MOST, MOST, MOST] [BIAS + 1, BIAS, BIAS - 1]:
        (16140901064495857662, BIAS + 2) (MOST, BIAS - 1);
    [HALF, HALF, 0] [BIAS, BIAS, 0]: (HALF, BIAS + 1) (HALF, BIAS);
    [MOST - 1, HALF, HALF] [BIAS + 40, BIAS + 40, BIAS + 39]:
        (16140901064495857663, BIAS + 41) (HALF, BIAS + 39);
};

const PRODUCTS: [Products; 13] = products! {
    [HALF, HALF] [BIAS, BIAS] * [HALF, HALF] [BIAS, BIAS]
        = [HALF, HALF] [BIAS + 63, BIAS + 63]: (HALF, BIAS + 64) (HALF, BIAS + 63);
    [HALF, 0] [BIAS, 0] * [HALF, HALF] [BIAS, BIAS]
        = [HALF, 0] [BIAS + 63, 0]: (HALF, BIAS + 63) (HALF, BIAS + 63);
    [MOST, MOST] [BIAS, BIAS] * [MOST, MOST] [BIAS, BIAS]
        = [MOST - 1, MOST - 1] [BIAS + 64, BIAS + 64]: (MOST - 1, BIAS + 65) (MOST - 1, BIAS + 64);
    [MOST, HALF] [BIAS, BIAS] * [MOST, HALF] [BIAS, BIAS + 1]
        = [MOST - 1, HALF] [BIAS + 64, BIAS + 64]:
        (13835058055282163711, BIAS + 65) (HALF, BIAS + 64);
    [MOST, HALF] [BIAS, BIAS + 1] * [MOST, HALF] [BIAS, BIAS + 1]
        = [MOST - 1, HALF] [BIAS + 64, BIAS + 65]: (MOST - 1, BIAS + 65) (MOST - 1, BIAS + 64);
    [0, MOST] [0, BIAS + 9] * [HALF, MOST] [BIAS, BIAS + 70000]
        = [0, MOST - 1] [0, BIAS + 70073]: (MOST - 1, BIAS + 70073) (MOST - 1, BIAS + 70073);
    [0, HALF] [0, BIAS] * [MOST, 0] [BIAS, 0]
        = [0, 0] [0, 0]: (0, 0) (0, 0);
    [HALF, MOST] [BIAS - 50000, BIAS + 50000] * [HALF, MOST] [BIAS - 20000, BIAS + 20000]
        = [HALF, MOST - 1] [BIAS - 69937, BIAS + 70064]:
        (MOST - 1, BIAS + 70064) (HALF, BIAS - 69937);
    [MOST, MOST] [BIAS + 64, BIAS] * [HALF, MOST] [BIAS, BIAS]
        = [MOST, MOST - 1] [BIAS + 127, BIAS + 64]: (MOST - 1, BIAS + 127) (MOST - 1, BIAS + 64);
    [MOST, MOST] [BIAS + 63, BIAS] * [HALF, MOST] [BIAS, BIAS]
        = [MOST, MOST - 1] [BIAS + 126, BIAS + 64]: (HALF, BIAS + 127) (MOST - 1, BIAS + 64);
    [HALF + 1, HALF] [BIAS, BIAS] * [HALF + 1, HALF + 3] [BIAS, BIAS]
        = [HALF + 2, HALF + 3] [BIAS + 63, BIAS + 63]: (HALF + 2, BIAS + 64) (HALF + 2, BIAS + 63);
    // The least loses the last digit of its product.
    [HALF, MOST] [BIAS, BIAS] * [MOST, MOST] [BIAS, BIAS]
        = [MOST, MOST - 1] [BIAS + 63, BIAS + 64]:
        (13835058055282163710, BIAS + 65) (MOST - 1, BIAS + 63);
    // The greater product has full places one place higher.
    [MOST, MOST] [BIAS, BIAS + 1] * [MOST, MOST] [BIAS, BIAS]
        = [MOST - 1, MOST - 1] [BIAS + 64, BIAS + 65]:
        (13835058055282163710, BIAS + 66) (MOST - 1, BIAS + 64);
};

/// Stops unless a cell has these digits and this exponent.
pub(crate) fn expect_parts(rt: &impl Abort, cell: Cell, expected: Parts) {
    assert_eq!(rt; (cell.digits, cell.exponent), expected);
}

fn check_cell(rt: &impl Abort, digits: u64, exponent: u32)
    ensures { IsCell digits exponent }
{
    if digits == 0 {
        assert!(rt; exponent == 0);
    } else {
        assert!(rt; digits >= 1 << 63);
        assert!(rt; exponent >= 7 << 27);
    }
    assert!(rt; exponent <= 13 << 27);
}

pub(crate) fn check_cells(rt: &impl Abort, digits: &[u64], exponents: &[u32])
    ensures { AreCells digits.now exponents.now }
{
    assert!(rt; exponents.len() == digits.len());
    for c in 0..digits.len() {
        check_cell(rt, digits[c], exponents[c]);
    }
}

fn cell(rt: &impl Abort, parts: Parts) -> Cell
    ensures { IsCell result.digits result.exponent }
{
    let (digits, exponent) = parts;
    check_cell(rt, digits, exponent);
    Cell { digits, exponent }
}

/// The first places of the products of cells, and the sums of their exponents.
pub(crate) fn unrounded<const N: usize>(
    left_digits: &[u64; N],
    left_exponents: &[u32; N],
    right_digits: &[u64; N],
    right_exponents: &[u32; N],
) -> ([u64; N], [u32; N])
    requires small { N ≤ 64 }
    requires left { AreCells left_digits.now left_exponents.now }
    requires right { AreCells right_digits.now right_exponents.now }
    ensures { AreUnrounded (slice_index left_digits.now) (slice_index left_exponents.now) (slice_index right_digits.now) (slice_index right_exponents.now) result.0 result.1 }
{
    let mut places = [0u64; N];
    let mut exponents = [0u32; N];
    for c in 0..N {
        places[c] = first_places(left_digits[c], right_digits[c]);
        exponents[c] = left_exponents[c] + right_exponents[c];
    }
    (places, exponents)
}

fn check_products(rt: &impl Abort, row: &Products) {
    check_cells(rt, &row.left_digits, &row.left_exponents);
    check_cells(rt, &row.right_digits, &row.right_exponents);
    let (places, exponents) = unrounded(
        &row.left_digits,
        &row.left_exponents,
        &row.right_digits,
        &row.right_exponents,
    );
    let sum = sum_of_products(&places, &exponents);
    let least = least_of_products(&places, &exponents);
    expect_parts(rt, sum, row.sum);
    expect_parts(rt, least, row.least);
}

fn check_each(rt: &impl Abort, row: &Products) {
    check_cells(rt, &row.left_digits, &row.left_exponents);
    check_cells(rt, &row.right_digits, &row.right_exponents);
    let mut digits = row.left_digits;
    let mut exponents = row.left_exponents;
    times_each(
        &mut digits,
        &mut exponents,
        &row.right_digits,
        &row.right_exponents,
    );
    assert!(rt; digits == row.each_digits);
    assert!(rt; exponents == row.each_exponents);
}

/// The enclosure of the sum of two numbers.
fn enclosed_sum(a: u64, b: u64) -> Option<Enclosure> {
    let left = Cell::of_whole(a, 0);
    let right = Cell::of_whole(b, 0);
    let digits = [left.digits, right.digits];
    let exponents = [left.exponent, right.exponent];
    sum(&digits, &exponents).enclosure(0, 1)
}

/// The enclosure of the product of two numbers.
fn enclosed_product(a: u64, b: u64) -> Option<Enclosure> {
    let left = Cell::of_whole(a, 0);
    let right = Cell::of_whole(b, 0);
    left.times(right).enclosure(0, 1)
}

/// The enclosure of `2^40` times a number, by the number's cell.
fn enclosed_own(n: u64) -> Option<Enclosure> {
    Cell::of_whole(n, 0).own_enclosure(40, 1)
}

/// Stops unless a number has an enclosure with these ends, or none where they are 0.
fn expect_ends(
    rt: &impl Abort,
    given: Option<Enclosure>,
    lower: enclosures::Parts,
    upper: enclosures::Parts,
) {
    match given {
        Some(enclosure) => check_ends(rt, &enclosure, lower, upper),
        None => assert!(rt; lower == (0, 0) && upper == (0, 0)),
    }
}

#[test]
fn whole_numbers(rt: HostRuntime) {
    expect_parts(&rt, Cell::of_whole(0, 40), (0, 0));
    expect_parts(&rt, Cell::of_whole(1, 0), (9223372036854775808, 1342177217));
    expect_parts(
        &rt,
        Cell::of_whole(1, 40),
        (9223372036854775808, 1342177177),
    );
    expect_parts(
        &rt,
        Cell::of_whole(u64::MAX, 40),
        (18446744073709551615, 1342177240),
    );
    expect_parts(
        &rt,
        Cell::of_whole(1 << 63, 0),
        (9223372036854775808, 1342177280),
    );
    expect_parts(
        &rt,
        Cell::of_whole(3, 70000),
        (13835058055282163712, 1342107218),
    );
}

#[test]
fn products_of_two(rt: HostRuntime) {
    for pair in &PAIRS {
        let left = cell(&rt, pair.left);
        let right = cell(&rt, pair.right);
        expect_parts(&rt, left.times(right), pair.product);
        expect_parts(&rt, right.times(left), pair.product);
    }
}

#[test]
fn sums_and_minima(rt: HostRuntime) {
    for row in &ROWS {
        check_cells(&rt, &row.digits, &row.exponents);
        expect_parts(&rt, sum(&row.digits, &row.exponents), row.sum);
        expect_parts(&rt, least(&row.digits, &row.exponents), row.least);
    }
}

#[test]
fn sums_and_minima_of_products(rt: HostRuntime) {
    for row in &PRODUCTS {
        check_products(&rt, row);
        check_each(&rt, row);
    }
}

#[test]
fn enclosures_of_sums(rt: HostRuntime) {
    let half = 1 << 62;
    expect_ends(&rt, enclosed_sum(0, 0), (0, 0), (0, 0));
    expect_ends(&rt, enclosed_sum(0, 5), (5, 0), (5, 0));
    expect_ends(
        &rt,
        enclosed_sum(half, half - 1),
        (9223372036854775807, 0),
        (9223372036854775807, 0),
    );
    expect_ends(
        &rt,
        enclosed_sum(half, half),
        (9223372036854775808, 0),
        (9223372036854775815, 0),
    );
    expect_ends(
        &rt,
        enclosed_sum(18446744073709551608, 0),
        (18446744073709551608, 0),
        (18446744073709551615, 0),
    );
    expect_ends(
        &rt,
        enclosed_sum(18446744073709551609, 0),
        (18446744073709551609, 0),
        (9223372036854775808, 1),
    );
    expect_ends(
        &rt,
        enclosed_sum(u64::MAX, u64::MAX),
        (18446744073709551615, 1),
        (9223372036854775811, 2),
    );
}

#[test]
fn enclosures_of_own_numbers(rt: HostRuntime) {
    expect_ends(&rt, enclosed_own(0), (0, 0), (0, 0));
    expect_ends(&rt, enclosed_own(5), (5497558138880, 0), (5497558138880, 0));
    // Below 2^63 the number is exact, though 2^40 times it is not below 2^63.
    expect_ends(
        &rt,
        enclosed_own(9223372036854775807),
        (18446744073709551614, 39),
        (18446744073709551614, 39),
    );
    expect_ends(
        &rt,
        enclosed_own(9223372036854775808),
        (9223372036854775808, 40),
        (9223372036854775815, 40),
    );
}

#[test]
fn enclosures_of_products(rt: HostRuntime) {
    expect_ends(&rt, enclosed_product(0, u64::MAX), (0, 0), (0, 0));
    expect_ends(
        &rt,
        enclosed_product(3037000499, 3037000500),
        (9223372033963249500, 0),
        (9223372033963249500, 0),
    );
    expect_ends(
        &rt,
        enclosed_product(3037000500, 3037000500),
        (9223372037000250000, 0),
        (9223372037000250007, 0),
    );
    expect_ends(
        &rt,
        enclosed_product(1 << 32, 1 << 31),
        (9223372036854775808, 0),
        (9223372036854775815, 0),
    );
    expect_ends(
        &rt,
        enclosed_product(u64::MAX, u64::MAX),
        (18446744073709551614, 64),
        (9223372036854775811, 65),
    );
}
