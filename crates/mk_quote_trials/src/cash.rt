//! Answers at the edges, as an exact reference computes them by whole numbers, and each call of the ledger.
ghost use Rattle.std.specs.Prelude.{ℕ, ◌<◌, ◌≤◌, ◌^◌};
ghost use Rattle.mk_scaled.specs.Range.{two_to};
ghost use Rattle.mk_enclose.specs.Enclosure.{upper_of};
ghost use Rattle.mk_enclose.specs.Factor.{paid_in, taken_out};

use mk_cash::{Ledger, bound, cash};
use mk_enclose::{Enclosure, Factor};
use mk_scaled::Scaled;
use std::process::Abort;
use std::test::Fail;

/// A factor with the gain `mantissa * 2^exponent`, and the points that it is worth.
struct Edge {
    mantissa: u64,
    exponent: u64,
    trades: u32,
    paid_in: u32,
    taken_out: u32,
    points_per_bit: u32,
    cash: u64,
}

/// Rows `mantissa exponent, trades, paid_in taken_out: points_per_bit = cash`.
macro_rules! edges {
    ($($mantissa:literal $exponent:literal, $trades:literal, $paid_in:literal $taken_out:literal:
        $points_per_bit:literal = $cash:literal;)*) => {
        [$(Edge {
            mantissa: $mantissa,
            exponent: $exponent,
            trades: $trades,
            paid_in: $paid_in,
            taken_out: $taken_out,
            points_per_bit: $points_per_bit,
            cash: $cash,
        }),*]
    };
}

const EDGES: [Edge; 20] = edges! {
    1 0, 0, 0 0: 1 = 0;
    1 0, 0, 65536000 0: 1000000 = 65536000000000;
    1099511627775 0, 0, 0 0: 1 = 39;
    1099511627776 0, 1, 0 0: 1000000 = 0;
    1099511627777 0, 1, 0 0: 1000000 = 0;
    2199023255551 0, 1, 0 0: 1 = 0;
    2199023255551 0, 1, 0 0: 1000000 = 999999;
    9223372036854775807 0, 1, 0 0: 1000000 = 22999999;
    9223372036854775808 0, 1, 0 0: 1000000 = 23000000;
    9223372036854775809 0, 1, 0 0: 1000000 = 23000000;
    879609302220 0, 1, 1 0: 100 = 67;
    1319413953331 0, 1, 1 0: 100 = 126;
    3 0, 0, 0 1: 1 = 0;
    3 0, 0, 0 1: 1000000 = 584962;
    2199023255552 0, 1, 0 1: 1000000 = 0;
    2199023255551 0, 1, 1 1: 1000000 = 999999;
    13835058055282163712 2621377, 65536, 0 0: 1000000 = 584962;
    18446744073709551615 2621376, 65536, 1 0: 1000000 = 999999;
    9223372036854775808 4128705, 65536, 65536000 0: 1000000 = 67043328000000;
    13835058055282163712 2686913, 65536, 0 65536: 1000000 = 584962;
};

/// The gain `mantissa * 2^exponent`, exactly.
fn gain(rt: &impl Abort, mantissa: u64, exponent: u64) -> Enclosure
    ensures { upper_of result < two_to (2 ^ 23) }
{
    assert!(rt; mantissa >= 1);
    assert!(rt; exponent <= 1 << 22);
    let number = Scaled::of_whole(mantissa).shift(exponent);
    Enclosure::between(number, number)
}

fn net(bits_in: u32, bits_out: u32) -> i64
    ensures paid { paid_in result ≤ bits_in }
    ensures taken { taken_out result ≤ bits_out }
{
    bits_in as i64 - bits_out as i64
}

fn worth(rt: &impl Abort, factor: &Factor, points_per_bit: u32) -> (u64, u64)
    requires gain { upper_of factor.now.gain < two_to (2 ^ 23) }
    requires paid { paid_in factor.now.net ≤ 65536000 }
    requires taken { taken_out factor.now.net ≤ 65536000 }
{
    assert!(rt; points_per_bit >= 1);
    assert!(rt; points_per_bit <= 1_000_000);
    assert!(rt; factor.trades <= 65_536);
    cash(factor, points_per_bit)
}

fn check_edge(rt: &impl Abort, edge: &Edge) {
    assert!(rt; edge.paid_in <= 65_536_000);
    assert!(rt; edge.taken_out <= 65_536_000);
    let factor = Factor {
        gain: gain(rt, edge.mantissa, edge.exponent),
        trades: edge.trades,
        net: net(edge.paid_in, edge.taken_out),
    };
    let (low, high) = worth(rt, &factor, edge.points_per_bit);
    assert!(rt; low == edge.cash);
    assert!(rt; high == edge.cash);
}

#[test]
fn cash_at_edges(rt: HostRuntime) {
    for edge in &EDGES {
        check_edge(&rt, edge);
    }
}

/// The bound of a market of so many questions with such a least initial weight, by whole numbers.
struct Risk {
    variables: u32,
    least: u64,
    points_per_bit: u32,
    points: u64,
}

/// Rows `variables, least: points_per_bit = points`.
macro_rules! risks {
    ($($variables:literal, $least:literal: $points_per_bit:literal = $points:literal;)*) => {
        [$(Risk {
            variables: $variables,
            least: $least,
            points_per_bit: $points_per_bit,
            points: $points,
        }),*]
    };
}

const RISKS: [Risk; 6] = risks! {
    1, 500_000: 100 = 100;
    1, 333_333: 100 = 158;
    2, 60_000_000_000: 100 = 405;
    3, 125_000_000_000_000_000: 100 = 300;
    3, 1_000_000_000_000_000_000: 100 = 0;
    3, 1: 1_000_000 = 59_794_705;
};

/// A least weight, exactly.
fn least(rt: &impl Abort, weight: u64) -> Enclosure
    ensures { upper_of result ≤ two_to 6000 }
{
    assert!(rt; weight >= 1);
    Enclosure::exact(weight)
}

fn check_risk(rt: &impl Abort, risk: &Risk) {
    assert!(rt; risk.variables >= 1);
    assert!(rt; risk.variables <= 256);
    assert!(rt; risk.points_per_bit >= 1);
    assert!(rt; risk.points_per_bit <= 1_000_000);
    let found = bound(&least(rt, risk.least), risk.variables, risk.points_per_bit);
    assert!(rt; found == (risk.points, risk.points));
}

/// Exact with up to three questions.
#[test]
fn bounds(rt: HostRuntime) {
    for risk in &RISKS {
        check_risk(&rt, risk);
    }
}

#[test]
fn ledger_calls(rt: HostRuntime) -> Result<(), Fail> {
    let mut ledger = Ledger::start(rt.alloc(), 2)?;
    ledger.join();
    ledger.join();
    ledger.deposit(1, 300);
    ledger.deposit(1, 40);
    ledger.withdraw(1, 5);
    ledger.pay(0, 7, 8);
    assert!(rt; ledger.deposited(0) == 0);
    assert!(rt; ledger.withdrawn(0) == 0);
    assert!(rt; ledger.paid(0) == 7 && ledger.high(0) == 8);
    assert!(rt; ledger.deposited(1) == 340);
    assert!(rt; ledger.withdrawn(1) == 5);
    assert!(rt; ledger.paid(1) == 0 && ledger.high(1) == 0);
    Ok(())
}
