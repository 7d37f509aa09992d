//! Tables of answers. The edge values were computed by Python's whole numbers.
ghost use Rattle.std.specs.Prelude.{◌<◌, ◌^◌};
ghost use Rattle.mk_scaled.specs.Range.{two_to};

use crate::cells::{HALF, MOST};
use mk_scaled::Scaled;
use std::process::Abort;

/// A mantissa and an exponent.
type Parts = (u64, u64);

/// A great exponent.
const FAR: u64 = 1 << 40;

/// Two numbers, with their sum and their product rounded down and up.
struct Pair {
    left: Parts,
    right: Parts,
    sum: (Parts, Parts),
    product: (Parts, Parts),
}

/// A quotient, with its floor and its ceiling.
struct Division {
    number: Parts,
    times: u64,
    by: Parts,
    over: u64,
    floor: Option<u64>,
    ceiling: Option<u64>,
}

/// Rows of two numbers, with their sum and their product, each rounded down and up.
macro_rules! pairs {
    ($($left:tt, $right:tt: $sum:tt $product:tt;)*) => {
        [$(Pair {
            left: $left,
            right: $right,
            sum: $sum,
            product: $product,
        }),*]
    };
}

/// Rows of numerator and denominator, with the floor and the ceiling of the quotient.
macro_rules! divisions {
    ($($number:tt * $times:literal, $by:tt * $over:literal: $floor:expr, $ceiling:expr;)*) => {
        [$(Division {
            number: $number,
            times: $times,
            by: $by,
            over: $over,
            floor: $floor,
            ceiling: $ceiling,
        }),*]
    };
}

const PAIRS: [Pair; 16] = pairs! {
    (MOST, 0), (2, 0): ((HALF, 1), (HALF + 1, 1)) ((MOST, 1), (MOST, 1));
    (MOST, 0), (1, 0): ((HALF, 1), (HALF, 1)) ((MOST, 0), (MOST, 0));
    (HALF, 0), (HALF, 0): ((HALF, 1), (HALF, 1)) ((HALF, 63), (HALF, 63));
    (HALF, 1), (MOST, 0): ((MOST, 1), (HALF, 2)) ((MOST, 64), (MOST, 64));
    (MOST, 63), (MOST, 0): ((HALF, 64), (HALF + 1, 64)) ((MOST - 1, 127), (MOST, 127));
    (MOST, 64), (MOST, 0): ((MOST, 64), (HALF, 65)) ((MOST - 1, 128), (MOST, 128));
    (HALF, 64), (1, 0): ((HALF, 64), (HALF + 1, 64)) ((HALF, 64), (HALF, 64));
    (MOST, 64), (1, 0): ((MOST, 64), (HALF, 65)) ((MOST, 64), (MOST, 64));
    (MOST, FAR), (1, 0): ((MOST, FAR), (HALF, FAR + 1)) ((MOST, FAR), (MOST, FAR));
    (HALF, FAR), (MOST, FAR):
        ((13835058055282163711, FAR + 1), (13835058055282163712, FAR + 1))
        ((MOST, 2 * FAR + 63), (MOST, 2 * FAR + 63));
    (MOST, FAR), (MOST, FAR + 63):
        ((HALF, FAR + 64), (HALF + 1, FAR + 64)) ((MOST - 1, 2 * FAR + 127), (MOST, 2 * FAR + 127));
    (MOST, FAR), (MOST, FAR + 64):
        ((MOST, FAR + 64), (HALF, FAR + 65)) ((MOST - 1, 2 * FAR + 128), (MOST, 2 * FAR + 128));
    (HALF + 1, 1), (HALF + 1, 1): ((HALF + 1, 2), (HALF + 1, 2)) ((HALF + 2, 65), (HALF + 3, 65));
    (3, 0), (MOST, FAR):
        ((MOST, FAR), (HALF, FAR + 1))
        ((13835058055282163711, FAR + 2), (13835058055282163712, FAR + 2));
    (MOST, 1), (MOST, 0):
        ((13835058055282163711, 2), (13835058055282163712, 2)) ((MOST - 1, 65), (MOST, 65));
    (1, 0), (1, 0): ((2, 0), (2, 0)) ((1, 0), (1, 0));
};

const DIVISIONS: [Division; 17] = divisions! {
    (3, 0) * 10, (7, 0) * 1: Some(4), Some(5);
    (HALF, 0) * 1, (1, 0) * 1: None, None;
    (9223372036854775807, 0) * 1, (1, 0) * 1: Some(9223372036854775807), Some(9223372036854775807);
    (MOST, 0) * 1, (2, 0) * 1: Some(9223372036854775807), None;
    (MOST, 0) * 1, (1, 0) * 2: Some(9223372036854775807), None;
    (MOST - 1, 0) * 1, (2, 0) * 1: Some(9223372036854775807), Some(9223372036854775807);
    (MOST, FAR) * 0, (1, 0) * 1: Some(0), Some(0);
    (1, FAR) * 1, (1, FAR - 62) * 1: Some(4611686018427387904), Some(4611686018427387904);
    (1, FAR) * 1, (1, FAR - 63) * 1: None, None;
    (MOST, 0) * 1152921504606846975, (MOST, FAR) * 1048576: Some(0), Some(1);
    (MOST, FAR) * 1152921504606846975, (MOST, FAR) * 1048576:
        Some(1099511627775), Some(1099511627776);
    (MOST, 5) * 1152921504606846975, (HALF, 64) * 1048576: Some(0), Some(1);
    (HALF, 1) * 3, (MOST, 0) * 7: Some(0), Some(1);
    (1, 0) * 1, (HALF, 65) * 1: Some(0), Some(1);
    (5, 0) * 7, (35, 0) * 1: Some(1), Some(1);
    (1, 63) * 1, (3, 0) * 1: Some(3074457345618258602), Some(3074457345618258603);
    (3, 64) * 1, (3, 1) * 1: None, None;
};

fn number(rt: &impl Abort, mantissa: u64, exponent: u64) -> Scaled
    ensures { result < two_to (2 ^ 42) }
{
    assert!(rt; mantissa >= 1);
    assert!(rt; exponent <= 1 << 41);
    Scaled::of_whole(mantissa).shift(exponent)
}

/// Stops unless a number has this mantissa and this exponent.
fn expect_parts(rt: &impl Abort, number: Scaled, expected: Parts) {
    assert_eq!(rt; (number.mantissa(), number.exponent()), expected);
}

fn check_pair(rt: &impl Abort, pair: &Pair) {
    let left = number(rt, pair.left.0, pair.left.1);
    let right = number(rt, pair.right.0, pair.right.1);
    expect_parts(rt, left.add_down(&right), pair.sum.0);
    expect_parts(rt, left.add_up(&right), pair.sum.1);
    expect_parts(rt, right.add_down(&left), pair.sum.0);
    expect_parts(rt, left.mul_down(&right), pair.product.0);
    expect_parts(rt, left.mul_up(&right), pair.product.1);
}

fn check_division(rt: &impl Abort, division: &Division) {
    let number = number(rt, division.number.0, division.number.1);
    let by = self::number(rt, division.by.0, division.by.1);
    assert!(rt; division.times < 1 << 60);
    assert!(rt; division.over >= 1);
    assert!(rt; division.over <= 1 << 20);
    let floor = number.div_floor(division.times, &by, division.over);
    assert!(rt; floor == division.floor);
    let ceiling = number.div_ceil(division.times, &by, division.over);
    assert!(rt; ceiling == division.ceiling);
}

fn check_power(rt: &impl Abort, base: u64, n: u32, power: Parts) {
    assert!(rt; base >= 1);
    assert!(rt; n >= 1);
    assert!(rt; n <= 1 << 20);
    let base = Scaled::of_whole(base);
    expect_parts(rt, base.pow_down(n), power);
    expect_parts(rt, base.pow_up(n), power);
}

#[test]
fn worked_answers(rt: HostRuntime) {
    let most = Scaled::of_whole(u64::MAX);
    let two = Scaled::of_whole(2);
    expect_parts(&rt, most.add_down(&two), (1 << 63, 1));
    expect_parts(&rt, most.add_up(&two), ((1 << 63) + 1, 1));
    let three = Scaled::of_whole(3);
    let seven = Scaled::of_whole(7);
    assert_eq!(rt; three.div_floor(10, &seven, 1), Some(4));
    assert!(rt; three.div_ceil(10, &seven, 1) == Some(5));
    let half = Scaled::of_whole(1 << 63);
    assert!(rt; half.div_floor(1, &Scaled::of_whole(1), 1).is_none());
}

#[test]
fn sums_and_products(rt: HostRuntime) {
    for pair in &PAIRS {
        check_pair(&rt, pair);
    }
}

#[test]
fn divisions(rt: HostRuntime) {
    for division in &DIVISIONS {
        check_division(&rt, division);
    }
}

#[test]
fn powers(rt: HostRuntime) {
    check_power(&rt, 3, 40, (12157665459056928801, 0));
    check_power(&rt, 2, 63, (1 << 63, 0));
    check_power(&rt, 10, 19, (10000000000000000000, 0));
    check_power(&rt, 7, 1, (7, 0));
    check_power(&rt, 2, 1000, (1 << 63, 937));
}

#[test]
fn logarithms_and_order(rt: HostRuntime) {
    let one = number(&rt, 1, 0);
    let most = number(&rt, u64::MAX, 0);
    let half = number(&rt, 1 << 63, 0);
    let far = number(&rt, u64::MAX, 1 << 40);
    assert!(rt; one.log2_floor() == 0);
    assert!(rt; half.log2_floor() == 63);
    assert!(rt; most.log2_floor() == 63);
    assert!(rt; far.log2_floor() == 1099511627839);
    assert!(rt; one < half);
    assert!(rt; half < most);
    assert!(rt; most < far);
    assert!(rt; half != most);
    assert!(rt; number(&rt, 1, 63) == half);
}
