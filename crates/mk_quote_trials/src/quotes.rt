//! Limits and ratios that were worked out by hand, and sides at the edges by an exact reference over whole numbers.
ghost use Rattle.std.specs.Prelude.{◌≤◌};

use mk_enclose::{Enclosure, Factor};
use mk_net::{Event, Pair, Question};
use mk_quote::{Bounds, Quote, SideBounds};
use mk_scaled::Scaled;
use std::process::Abort;

/// A side without an error, a share, and what is right for it.
struct Edge {
    part: u64,
    whole: u64,
    gain: u64,
    trades: u32,
    net: i64,
    share: u32,
    units: Option<u64>,
    interval: Option<(u32, u32)>,
}

/// Rows `part / whole, gain trades net: share => units, interval`.
macro_rules! edges {
    ($($part:literal / $whole:literal, $gain:literal $trades:literal $net:literal: $share:literal
        => $units:expr, $interval:expr;)*) => {
        [$(Edge {
            part: $part,
            whole: $whole,
            gain: $gain,
            trades: $trades,
            net: $net,
            share: $share,
            units: $units,
            interval: $interval,
        }),*]
    };
}

const EDGES: [Edge; 6] = edges! {
    1 / 8796093022208, 1 0 0: 1 => None, None;
    1 / 4398046511104, 1 0 0: 1 => Some(4835703278458516698), Some((1, 1));
    1 / 1073741824, 1 0 0: 7812 => Some(9222781741044417102), Some((1, 7812));
    1 / 2, 7 0 -3: 571429 => Some(1256585659896), Some((571429, 999999));
    1 / 2, 7 0 -3: 571428 => None, Some((571429, 999999));
    999999 / 999998, 1 0 1000: 1 => Some(1099510), Some((1, 999999));
};

fn exact(rt: &impl Abort, number: u64) -> Enclosure {
    assert!(rt; number >= 1);
    Enclosure::exact(number)
}

fn factor(rt: &impl Abort, gain: u64, trades: u32, net: i64) -> Factor {
    Factor {
        gain: exact(rt, gain),
        trades,
        net,
    }
}

fn check_edge(rt: &impl Abort, edge: &Edge) {
    let side = SideBounds {
        part: exact(rt, edge.part),
        whole: exact(rt, edge.whole),
        factor: factor(rt, edge.gain, edge.trades, edge.net),
    };
    assert!(rt; edge.share <= 999_999);
    assert!(rt; side.judge(edge.share) == edge.units);
    assert!(rt; side.interval() == edge.interval);
}

#[test]
fn sides_at_edges(rt: HostRuntime) {
    for edge in &EDGES {
        check_edge(&rt, edge);
    }
}

/// A coin before any trade, for a user who paid in so many bits.
fn fair_coin(rt: &impl Abort, net: i64) -> Bounds {
    Bounds {
        hit: exact(rt, 500_000),
        miss: exact(rt, 500_000),
        whole: exact(rt, 1_000_000),
        hit_factor: factor(rt, 1, 0, net),
        miss_factor: factor(rt, 1, 0, net),
    }
}

/// The coin after a trade to 0.6 by a user who paid in one bit.
fn traded_coin(rt: &impl Abort) -> Bounds {
    Bounds {
        hit: exact(rt, 500_000 * 1319413953331),
        miss: exact(rt, 500_000 * 879609302220),
        whole: exact(rt, 500_000 * 2199023255551),
        hit_factor: factor(rt, 1319413953331, 1, 1),
        miss_factor: factor(rt, 879609302220, 1, 1),
    }
}

#[test]
fn coin(rt: HostRuntime) {
    let fair = fair_coin(&rt, 1);
    assert!(rt; fair.limits() == Some((250000, 750000)));
    assert!(rt; fair.judge(600000) == Some((1319413953331, 879609302220)));
    assert!(rt; fair_coin(&rt, 0).limits() == Some((500000, 500000)));
    let traded = traded_coin(&rt);
    assert!(rt; traded.limits() == Some((250001, 749999)));
    assert!(rt; traded.judge(749999) == Some((1374387702200, 687197516139)));
    assert!(rt; traded.judge(750000).is_none());
}

/// The coin after that trade, for a user who has paid in nothing.
#[test]
fn nothing_is_allowed(rt: HostRuntime) {
    let mut bounds = traded_coin(&rt);
    bounds.hit_factor = factor(&rt, 1, 0, 0);
    bounds.miss_factor = factor(&rt, 1, 0, 0);
    assert!(rt; bounds.limits().is_none());
    assert!(rt; bounds.judge(600000).is_none());
}

/// Ends that are apart: the ratio takes the lower end of the whole and the upper end of the part.
#[test]
fn ends_apart(rt: HostRuntime) {
    let side = SideBounds {
        part: Enclosure::between(Scaled::of_whole(3), Scaled::of_whole(4)),
        whole: Enclosure::between(Scaled::of_whole(8), Scaled::of_whole(16)),
        factor: factor(&rt, 1, 0, 0),
    };
    assert!(rt; side.ratio(500_000) == Some(1 << 40));
    assert!(rt; side.interval() == Some((500_000, 999_999)));
}

pub(crate) fn pair(variable: u32, value: u32) -> Pair {
    Pair { variable, value }
}

fn question(rt: &impl Abort, target: Pair, first: Pair, second: Pair) -> Question {
    let event = Event::empty().with(first).expect(rt, "room");
    let condition = event.with(second).expect(rt, "room");
    Question::make(target, condition).expect(rt, "a question")
}

#[test]
fn quotes(rt: HostRuntime) {
    let asked = question(&rt, pair(0, 1), pair(1, 0), pair(2, 3));
    let quote = Quote::make(7, asked, 2, &fair_coin(&rt, 1));
    assert_eq!(rt; quote.user(), 7);
    assert_eq!(rt; quote.limits(), Some((250000, 750000)));
    assert_eq!(rt; quote.judge(750000), Some((1649267441664, 549755813888)));
    assert!(rt; quote.judge(750001).is_none());
    assert!(rt; quote.is_for(&asked, 2));
    assert!(rt; !quote.is_for(&asked, 3));
    let turned = question(&rt, pair(0, 1), pair(2, 3), pair(1, 0));
    assert!(rt; !quote.is_for(&turned, 2));
    let other = question(&rt, pair(0, 0), pair(1, 0), pair(2, 3));
    assert!(rt; !quote.is_for(&other, 2));
}
