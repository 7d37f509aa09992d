//! Answers that were worked out by hand, or by Python's whole numbers.
ghost use Rattle.std.specs.Prelude.{◌≤◌};

use mk_enclose::{Enclosure, Factor};
use std::process::Abort;

/// A mantissa and an exponent.
pub(crate) type Parts = (u64, u64);

/// Stops unless an interval has these ends.
pub(crate) fn check_ends(rt: &impl Abort, of: &Enclosure, lower: Parts, upper: Parts) {
    let lo = of.lo();
    let hi = of.hi();
    assert_eq!(rt; (lo.mantissa(), lo.exponent()), lower);
    assert_eq!(rt; (hi.mantissa(), hi.exponent()), upper);
}

fn bits(gain: u64, trades: u32, net: i64) -> u64
    requires { 1 ≤ gain }
{
    let factor = Factor {
        gain: Enclosure::exact(gain),
        trades,
        net,
    };
    factor.whole_bits()
}

#[test]
fn worked_answers(rt: HostRuntime) {
    let one = Enclosure::exact(1);
    let three = Enclosure::exact(3);
    assert_eq!(rt;
        Enclosure::parts(&one, &three, 10_000_000_000),
        (3333333333, 3333333334)
    );
    assert_eq!(rt;
        Enclosure::parts(&three, &three, 10_000_000_000),
        (10_000_000_000, 10_000_000_000)
    );
    assert_eq!(rt; bits(1319413953331, 1, 1), 1);
}

#[test]
fn ends(rt: HostRuntime) {
    let most = Enclosure::exact(u64::MAX);
    let two = Enclosure::exact(2);
    let sum = most.add(&two);
    let square = most.mul(&most);
    check_ends(&rt, &sum, (1 << 63, 1), ((1 << 63) + 1, 1));
    check_ends(&rt, &square, (u64::MAX - 1, 64), (u64::MAX, 64));
    check_ends(&rt, &square.min(&sum), (1 << 63, 1), ((1 << 63) + 1, 1));
    check_ends(&rt, &square.max(&sum), (u64::MAX - 1, 64), (u64::MAX, 64));
    check_ends(&rt, &two.add(&two), (4, 0), (4, 0));
    check_ends(&rt, &two.mul(&two), (4, 0), (4, 0));
}

#[test]
fn whole_bits(rt: HostRuntime) {
    assert!(rt; bits(1, 0, 0) == 0);
    assert!(rt; bits(1, 0, 5) == 5);
    assert!(rt; bits(3 << 40, 1, -1) == 0);
    assert!(rt; bits(3 << 41, 1, -1) == 1);
    assert!(rt; bits(1 << 63, 1, 10) == 33);
    assert!(rt; bits(1, 4294967295, 0) == 0);
    assert!(rt; bits(u64::MAX, 0, i64::MAX) == 9223372036854775870);
    assert!(rt; bits(u64::MAX, 0, i64::MIN) == 0);
}
