//! Whole distributions: the die of three values, and sixteen values at the edges, by an exact reference over whole numbers.

use crate::quotes::pair;
use arrayvec::ArrayVec;
use mk_enclose::{Enclosure, Factor};
use mk_net::{Event, Pair};
use mk_quote::{SpreadBounds, SpreadQuestion, SpreadQuote, ValueBounds};
use std::process::Abort;

/// A value without an error, or one that cannot come, whose weight is 0; the shares that it may be given, one of them, and the units
/// for that.
struct Value {
    part: u64,
    gain: u64,
    interval: (u32, u32),
    share: u32,
    units: u64,
}

/// Rows `part gain: interval, share => units`.
macro_rules! values {
    ($($part:literal $gain:literal: $interval:tt, $share:literal => $units:literal;)*) => {
        [$(Value {
            part: $part,
            gain: $gain,
            interval: $interval,
            share: $share,
            units: $units,
        }),*]
    };
}

const DIE: [Value; 3] = values! {
    333333 1: (166667, 999999), 200000 => 659707636373;
    333333 1: (166667, 999999), 300000 => 989561454559;
    333334 1: (166667, 999999), 500000 => 1649264143135;
};

/// Two values of one half each, and one between them that cannot come.
const GATE: [Value; 3] = values! {
    500_000 1: (250_000, 999_999), 400_000 => 879_609_302_220;
    0 1: (0, 0), 0 => 1_099_511_627_776;
    500_000 1: (250_000, 999_999), 600_000 => 1_319_413_953_331;
};

const SIXTEEN: [Value; 16] = values! {
    20246634 2788053345956: (25, 999999), 105859 => 463959290301849;
    698935573 2921083675072: (815, 999999), 57629 => 7316592360110;
    75 2874658040376: (1, 7795), 7795 => 9222735988449283177;
    47648925714 3413709269039: (47541, 999999), 104355 => 194341284720;
    932 864064640395: (1, 96872), 56815 => 5409436401234002177;
    5217088973 2923075714961: (6079, 999999), 62893 => 1069741854582;
    7105 1239694693703: (1, 738497), 56815 => 709584057135832516;
    75006692 839118057987: (305, 999999), 57119 => 67574914316060;
    95120 3545700563753: (1, 999999), 56815 => 53002467682402123;
    6118263335 2890782666807: (7209, 999999), 64023 => 928565995547;
    3658 3131287143860: (1, 380214), 56815 => 1378238033337914168;
    591 2595044832735: (1, 61428), 56815 => 8530617133587292773;
    53246120 2751701365076: (66, 999999), 56880 => 94793059725654;
    48846 3828652355710: (1, 999999), 56815 => 103214075378743193;
    20866963148 2458070545135: (28914, 999999), 85728 => 364559452513;
    7031987 2003401172016: (12, 999999), 56829 => 717128322970506;
};

/// The weight of the sixteen values together.
const WHOLE: u64 = 80705864503;

fn exact(rt: &impl Abort, number: u64) -> Enclosure {
    assert!(rt; number >= 1);
    Enclosure::exact(number)
}

/// The bounds of a value, where it can come.
fn part_of(rt: &impl Abort, value: &Value, trades: u32, net: i64) -> Option<ValueBounds> {
    if value.part == 0 {
        return None;
    }
    Some(ValueBounds {
        part: exact(rt, value.part),
        factor: Factor {
            gain: exact(rt, value.gain),
            trades,
            net,
        },
    })
}

/// The bounds of some values, for a user with so many trades and bits.
fn bounds_of(rt: &impl Abort, values: &[Value], whole: u64, trades: u32, net: i64) -> SpreadBounds {
    let mut parts = ArrayVec::new();
    for value in values {
        assert!(rt; parts.try_push(part_of(rt, value, trades, net)).is_ok());
    }
    SpreadBounds {
        whole: exact(rt, whole),
        parts,
    }
}

fn question(rt: &impl Abort, variable: u32, pairs: &[Pair]) -> SpreadQuestion {
    let mut condition = Event::empty();
    for pair in pairs {
        condition = condition.with(*pair).expect(rt, "room");
    }
    SpreadQuestion::make(variable, condition).expect(rt, "a question")
}

/// A quote over some values, for a user with so many trades and bits.
fn quote_of(rt: &impl Abort, values: &[Value], whole: u64, trades: u32, net: i64) -> SpreadQuote {
    let bounds = bounds_of(rt, values, whole, trades, net);
    SpreadQuote::make(7, question(rt, 0, &[]), 2, &bounds)
}

/// The same, checked: every interval, and the units of every share.
fn checked(rt: &impl Abort, values: &[Value], whole: u64, trades: u32, net: i64) -> SpreadQuote {
    let quote = quote_of(rt, values, whole, trades, net);
    let mut intervals: ArrayVec<(u32, u32), 16> = ArrayVec::new();
    let mut shares: ArrayVec<u32, 16> = ArrayVec::new();
    let mut units: ArrayVec<u64, 16> = ArrayVec::new();
    for value in values {
        assert!(rt; intervals.try_push(value.interval).is_ok());
        assert!(rt; shares.try_push(value.share).is_ok());
        assert!(rt; units.try_push(value.units).is_ok());
    }
    let printed = quote.intervals().expect(rt, "intervals");
    assert!(rt; printed.as_slice() == intervals.as_slice());
    let judged = quote.judge(shares.as_slice()).expect(rt, "inside");
    assert!(rt; judged.as_slice() == units.as_slice());
    quote
}

#[test]
fn die(rt: HostRuntime) {
    let quote = checked(&rt, &DIE, 1_000_000, 0, 1);
    assert!(rt; quote.judge(&[166_667, 300_000, 533_333]).is_some());
    assert!(rt; quote.judge(&[166_666, 300_000, 533_334]).is_none());
    assert!(rt; quote.judge(&[100_000, 400_000, 500_000]).is_none());
    assert!(rt; quote.judge(&[500_000, 500_000]).is_none());
    assert!(rt; quote.judge(&[200_000, 200_000, 300_000, 300_000]).is_none());
}

#[test]
fn sixteen_values(rt: HostRuntime) {
    let _ = checked(&rt, &SIXTEEN, WHOLE, 1, 2);
}

#[test]
fn gate(rt: HostRuntime) {
    let quote = checked(&rt, &GATE, 1_000_000, 0, 1);
    assert!(rt; quote.judge(&[249_999, 0, 750_001]).is_none());
    assert!(rt; quote.judge(&[400_000, 1, 599_999]).is_none());
    assert!(rt; quote.impossible_share(&[400_000, 1, 599_999]) == Some(1));
    assert!(rt; quote.impossible_share(&[400_000, 0, 600_000]).is_none());
    assert!(rt; quote.misses_share(&[0, 0, 1_000_000]));
    assert!(rt; !quote.misses_share(&[249_999, 0, 750_001]));
}

/// A user who has paid in nothing cannot lower any price, and one who owes can set none.
#[test]
fn without_bits(rt: HostRuntime) {
    let even = quote_of(&rt, &DIE, 1_000_000, 0, 0);
    let intervals = even.intervals().expect(&rt, "intervals");
    assert!(rt;
        intervals.as_slice() == &[(333_333, 999_999), (333_333, 999_999), (333_334, 999_999)][..]
    );
    let owing = quote_of(&rt, &DIE, 1_000_000, 0, -2);
    assert!(rt; owing.intervals().is_none());
    assert!(rt; owing.judge(&[333_333, 333_333, 333_334]).is_none());
}

#[test]
fn quotes(rt: HostRuntime) {
    let asked = question(&rt, 0, &[pair(1, 0), pair(2, 3)]);
    let bounds = bounds_of(&rt, &DIE, 1_000_000, 0, 1);
    let quote = SpreadQuote::make(7, asked, 2, &bounds);
    assert!(rt; quote.user() == 7);
    assert!(rt; quote.is_for(&asked, 2));
    assert!(rt; !quote.is_for(&asked, 3));
    let turned = question(&rt, 0, &[pair(2, 3), pair(1, 0)]);
    assert!(rt; !quote.is_for(&turned, 2));
    let other = question(&rt, 4, &[pair(1, 0), pair(2, 3)]);
    assert!(rt; !quote.is_for(&other, 2));
}

#[test]
fn questions(rt: HostRuntime) {
    let condition = Event::empty().with(Pair {
        variable: 3,
        value: 0,
    });
    let condition = condition.expect(&rt, "room");
    assert!(rt; SpreadQuestion::make(2, condition).is_some());
    assert!(rt; SpreadQuestion::make(3, condition).is_none());
}
