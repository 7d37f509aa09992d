use crate::texts::{expect_none, expect_text, name};
use arrayvec::{ArrayString, ArrayVec};
use mk_names::Name;
use mk_net::PairText;
use mk_reply::{
    Intervals, Payment, Payments, Refusal, Reply, Spans, Unread, print_reply, read_reply,
};
use std::alloc::Global;
use std::process::Abort;
use std::test::Fail;

const MOST: u64 = 9_223_372_036_854_775_807;

/// Stops unless a reply is printed as this text, and read from it.
fn both_ways(rt: &impl Abort, alloc: Global, text: &str, reply: Reply) -> Result<(), Fail> {
    prints(rt, text, &reply);
    reads(rt, alloc, text, reply)
}

fn prints(rt: &impl Abort, text: &str, reply: &Reply) {
    let mut printed = ArrayString::new();
    print_reply(reply, &mut printed);
    expect_text(rt, printed.as_str(), text);
}

fn reads(rt: &impl Abort, alloc: Global, text: &str, reply: Reply) -> Result<(), Fail> {
    let read = read_reply(alloc, text.as_bytes())?;
    assert_eq!(rt; read, reply, "{text}");
    Ok(())
}

fn deposited(
    rt: &impl Abort,
    alloc: Global,
    text: &str,
    user: Name,
    bits: u32,
) -> Result<(), Fail> {
    both_ways(rt, alloc, text, Reply::Deposited { user, bits, at: 1 })
}

fn traded(
    rt: &impl Abort,
    alloc: Global,
    text: &str,
    units: (u64, u64),
    at: u64,
) -> Result<(), Fail> {
    let (hit, miss) = units;
    both_ways(rt, alloc, text, Reply::Traded { hit, miss, at })
}

#[test]
fn reads_and_prints_changes(rt: HostRuntime) -> Result<(), Fail> {
    let alloc = rt.alloc();
    let user = name(&rt, b"alice");
    let pair = PairText {
        variable: name(&rt, b"coin"),
        value: name(&rt, b"heads"),
    };
    both_ways(&rt, alloc, "user alice at 1", Reply::Joined { user, at: 1 })?;
    deposited(&rt, alloc, "deposit alice 1000 at 1", user, 1000)?;
    deposited(&rt, alloc, "deposit alice 4294967295 at 1", user, u32::MAX)?;
    let (bits, at) = (0, 0);
    let withdrawn = Reply::Withdrawn { user, bits, at };
    both_ways(&rt, alloc, "withdraw alice 0 at 0", withdrawn)?;
    let resolved = Reply::Resolved { pair, at };
    both_ways(&rt, alloc, "resolve coin=heads at 0", resolved)?;
    let text = "trade 1319413953331 879609302220 at 3";
    traded(&rt, alloc, text, (1_319_413_953_331, 879_609_302_220), 3)?;
    let text = "trade 1 9223372036854775807 at 9223372036854775807";
    traded(&rt, alloc, text, (1, MOST), MOST)
}

fn price(rt: &impl Abort, alloc: Global, text: &str, low: u64, high: u64) -> Result<(), Fail> {
    both_ways(rt, alloc, text, Reply::Price { low, high })
}

fn limits(
    rt: &impl Abort,
    alloc: Global,
    text: &str,
    limits: Option<(u32, u32)>,
    at: u64,
) -> Result<(), Fail> {
    both_ways(rt, alloc, text, Reply::Limits { limits, at })
}

fn worst(rt: &impl Abort, alloc: Global, text: &str, low: u64, high: u64) -> Result<(), Fail> {
    both_ways(rt, alloc, text, Reply::Worst { low, high })
}

fn bound(rt: &impl Abort, alloc: Global, text: &str, low: u64, high: u64) -> Result<(), Fail> {
    both_ways(rt, alloc, text, Reply::Bound { low, high })
}

#[test]
fn reads_and_prints_answers(rt: HostRuntime) -> Result<(), Fail> {
    let alloc = rt.alloc();
    let text = "price 0.0000000000..1.0000000000";
    price(&rt, alloc, text, 0, 10_000_000_000)?;
    let text = "price 0.6000000000..0.6000000001";
    price(&rt, alloc, text, 6_000_000_000, 6_000_000_001)?;
    let text = "price 0.0000000001..0.3333333334";
    price(&rt, alloc, text, 1, 3_333_333_334)?;
    limits(&rt, alloc, "limits none at 4", None, 4)?;
    let text = "limits 1..999999 at 2";
    limits(&rt, alloc, text, Some((1, 999_999)), 2)?;
    let text = "limits 500000..500000 at 1";
    limits(&rt, alloc, text, Some((500_000, 500_000)), 1)?;
    worst(&rt, alloc, "worst 67..67", 67, 67)?;
    worst(&rt, alloc, "worst 0..9223372036854775807", 0, MOST)?;
    bound(&rt, alloc, "bound 0..0", 0, 0)?;
    bound(&rt, alloc, "bound 300..301", 300, 301)?;
    bound(&rt, alloc, "bound 0..9223372036854775807", 0, MOST)
}

fn intervals(list: &[(u32, u32)]) -> Option<Intervals> {
    let mut intervals = ArrayVec::new();
    for interval in list {
        let _ = intervals.try_push(*interval);
    }
    Some(intervals)
}

fn factors(list: &[u64]) -> ArrayVec<u64, 16> {
    let mut factors = ArrayVec::new();
    for factor in list {
        let _ = factors.try_push(*factor);
    }
    factors
}

fn bounded(
    rt: &impl Abort,
    alloc: Global,
    text: &str,
    intervals: Option<Intervals>,
    at: u64,
) -> Result<(), Fail> {
    both_ways(rt, alloc, text, Reply::Bounded { intervals, at })
}

fn spreaded(rt: &impl Abort, alloc: Global, text: &str, list: &[u64], at: u64) -> Result<(), Fail> {
    let factors = factors(list);
    both_ways(rt, alloc, text, Reply::Spreaded { factors, at })
}

fn refused(rt: &impl Abort, alloc: Global, text: &str, why: Refusal) -> Result<(), Fail> {
    both_ways(rt, alloc, text, Reply::Refused { why })
}

const DIE: [(u32, u32); 3] = [(166_667, 999_999), (1, 1), (2, 3)];

/// The bounds of two values, of which the first cannot come.
const FIRST_CANNOT: [(u32, u32); 2] = [(0, 0), (1, 5)];

const SIXTEEN: &str =
    "bounds 1..999999 1..999999 1..999999 1..999999 1..999999 1..999999 1..999999 1..999999 1..999999 1..999999 1..999999 1..999999 1..999999 1..999999 1..999999 1..999999 at 9223372036854775807";

#[test]
fn reads_and_prints_whole_distributions(rt: HostRuntime) -> Result<(), Fail> {
    let alloc = rt.alloc();
    bounded(&rt, alloc, "bounds none at 0", None, 0)?;
    let text = "bounds 166667..999999 1..1 2..3 at 2";
    bounded(&rt, alloc, text, intervals(&DIE), 2)?;
    let text = "bounds 0..0 1..5 at 2";
    bounded(&rt, alloc, text, intervals(&FIRST_CANNOT), 2)?;
    let sixteen = [(1u32, 999_999u32); 16];
    bounded(&rt, alloc, SIXTEEN, intervals(&sixteen), MOST)?;
    let text = "spread 659707636373 989561454559 1649264143135 at 3";
    let row = [659_707_636_373, 989_561_454_559, 1_649_264_143_135];
    spreaded(&rt, alloc, text, &row, 3)?;
    let text = "spread 1 9223372036854775807 at 0";
    spreaded(&rt, alloc, text, &[1, MOST], 0)
}

#[test]
fn reads_and_prints_refusals_of_whole_distributions(rt: HostRuntime) -> Result<(), Fail> {
    let alloc = rt.alloc();
    let variable = name(&rt, b"dice");
    let why = Refusal::NoVariable { variable };
    refused(&rt, alloc, "refused variable dice", why)?;
    let why = Refusal::Numbers { given: 2 };
    refused(&rt, alloc, "refused numbers 2", why)?;
    let why = Refusal::Sum { sum: 900_000 };
    refused(&rt, alloc, "refused sum 900000", why)?;
    let why = Refusal::Outside {
        intervals: intervals(&DIE),
    };
    refused(&rt, alloc, "refused outside 166667..999999 1..1 2..3", why)?;
    let why = Refusal::Outside {
        intervals: intervals(&FIRST_CANNOT),
    };
    refused(&rt, alloc, "refused outside 0..0 1..5", why)?;
    let why = Refusal::Outside { intervals: None };
    refused(&rt, alloc, "refused outside none", why)
}

fn spans(list: &[(u64, u64)]) -> Spans {
    let mut spans = ArrayVec::new();
    for span in list {
        let _ = spans.try_push(*span);
    }
    spans
}

fn ends(list: &[Option<(u64, u64)>]) -> ArrayVec<Option<(u64, u64)>, 16> {
    let mut ends = ArrayVec::new();
    for one in list {
        let _ = ends.try_push(*one);
    }
    ends
}

fn prices(rt: &impl Abort, alloc: Global, text: &str, list: &[(u64, u64)]) -> Result<(), Fail> {
    let intervals = spans(list);
    both_ways(rt, alloc, text, Reply::Prices { intervals })
}

fn position(
    rt: &impl Abort,
    alloc: Global,
    text: &str,
    list: &[Option<(u64, u64)>],
) -> Result<(), Fail> {
    let intervals = ends(list);
    both_ways(rt, alloc, text, Reply::Position { intervals })
}

const HALF: (u64, u64) = (5_000_000_000, 5_000_000_000);

#[test]
fn reads_and_prints_what_is_told_of_each_value(rt: HostRuntime) -> Result<(), Fail> {
    let alloc = rt.alloc();
    let text = "prices 0.5000000000..0.5000000000 0.5000000000..0.5000000000";
    let halves = [HALF, HALF];
    prices(&rt, alloc, text, &halves)?;
    let text = "prices 0.6000000000..0.6000000001 0.3999999999..0.4000000000";
    let taken = [
        (6_000_000_000, 6_000_000_001),
        (3_999_999_999, 4_000_000_000),
    ];
    prices(&rt, alloc, text, &taken)?;
    let text = "prices 1.0000000000..0.0000000000 0.0000000000..1.0000000000";
    let odd = [(10_000_000_000, 0), (0, 10_000_000_000)];
    prices(&rt, alloc, text, &odd)?;
    let text = "position 126..126 67..67";
    position(&rt, alloc, text, &[Some((126, 126)), Some((67, 67))])?;
    let text = "position none 100..100 0..9223372036854775807";
    position(&rt, alloc, text, &[None, Some((100, 100)), Some((0, MOST))])?;
    position(&rt, alloc, "position none none", &[None, None])
}

/// Stops unless a reply has a text of this length both ways, and with more behind it none is read.
fn no_longer(
    rt: &impl Abort,
    alloc: Global,
    reply: Reply,
    length: usize,
    more: &str,
) -> Result<(), Fail> {
    let mut text = ArrayString::new();
    print_reply(&reply, &mut text);
    assert_eq!(rt; text.len(), length);
    reads(rt, alloc, text.as_str(), reply)?;
    let _ = text.try_push_str(more);
    expect_none(rt, is_none(alloc, text.as_str())?, more);
    Ok(())
}

#[test]
fn no_more_than_sixteen_values_are_told_of(rt: HostRuntime) -> Result<(), Fail> {
    let intervals = spans(&[(10_000_000_000, 10_000_000_000); 16]);
    let one_more = " 1.0000000000..1.0000000000";
    no_longer(&rt, rt.alloc(), Reply::Prices { intervals }, 438, one_more)?;
    let intervals = ends(&[Some((MOST, MOST)); 16]);
    no_longer(&rt, rt.alloc(), Reply::Position { intervals }, 664, " none")
}

#[test]
fn reads_and_prints_added_questions(rt: HostRuntime) -> Result<(), Fail> {
    let variable = name(&rt, b"at");
    let added = Reply::Added { variable, at: MOST };
    both_ways(&rt, rt.alloc(), "add at at 9223372036854775807", added)
}

#[test]
fn reads_and_prints_how_full_a_market_is(rt: HostRuntime) -> Result<(), Fail> {
    let status = Reply::Status {
        at: 3,
        users: 1,
        trades: 2,
        most: 1000,
        transfers: 4,
        most_transfers: 65_536,
        open: 5,
        questions: 6,
    };
    let text = "status at 3 users 1 trades 2 of 1000 transfers 4 of 65536 open 5 of 6";
    both_ways(&rt, rt.alloc(), text, status)?;
    let longest = Reply::Status {
        at: MOST,
        users: u32::MAX,
        trades: u32::MAX,
        most: u32::MAX,
        transfers: u32::MAX,
        most_transfers: u32::MAX,
        open: u32::MAX,
        questions: u32::MAX,
    };
    no_longer(&rt, rt.alloc(), longest, 143, " ")
}

/// What a user is paid, between these bounds.
fn payment(rt: &impl Abort, user: &[u8], bounds: (u64, u64), paid: u64) -> Payment {
    let (low, high) = bounds;
    Payment {
        user: name(rt, user),
        low,
        high,
        paid,
    }
}

#[test]
fn reads_and_prints_settlements(rt: HostRuntime) -> Result<(), Fail> {
    let alice = payment(&rt, b"alice", (126, 127), 126);
    let nobody = Reply::Settled {
        at: 6,
        payments: Payments::start(rt.alloc())?,
    };
    both_ways(&rt, rt.alloc(), "settle at 6", nobody)?;
    let mut payments = Payments::start(rt.alloc())?;
    payments.push(alice);
    payments.push(payment(&rt, b"paid", (0, MOST), 0));
    let text = "settle at 6, alice 126..127 paid 126, paid 0..9223372036854775807 paid 0";
    both_ways(&rt, rt.alloc(), text, Reply::Settled { at: 6, payments })?;
    Ok(())
}

#[test]
fn reads_and_prints_settlements_of_many(rt: HostRuntime) -> Result<(), Fail> {
    for (at, users, total, text) in [
        (5, 257, 5, "settle at 5 users 257 paid 5"),
        (0, 65_536, 0, "settle at 0 users 65536 paid 0"),
    ] {
        let settled = Reply::SettledAll { at, users, total };
        both_ways(&rt, rt.alloc(), text, settled)?;
    }
    let longest = Reply::SettledAll {
        at: MOST,
        users: 65_536,
        total: MOST,
    };
    no_longer(&rt, rt.alloc(), longest, 66, ", ")
}

fn paid(rt: &impl Abort, alloc: Global, text: &str, payment: Payment) -> Result<(), Fail> {
    both_ways(rt, alloc, text, Reply::Paid { payment })
}

#[test]
fn reads_and_prints_what_one_is_paid(rt: HostRuntime) -> Result<(), Fail> {
    let alice = payment(&rt, b"alice", (5, 6), 5);
    paid(&rt, rt.alloc(), "paid alice 5..6 paid 5", alice)?;
    let odd = payment(&rt, b"paid", (0, 0), 0);
    paid(&rt, rt.alloc(), "paid paid 0..0 paid 0", odd)?;
    let longest = payment(&rt, b"abcdefghijklmnopqrstuvwxyz_01234", (MOST, MOST), MOST);
    no_longer(&rt, rt.alloc(), Reply::Paid { payment: longest }, 103, " ")
}

#[test]
fn reads_and_prints_refusals_of_a_market(rt: HostRuntime) -> Result<(), Fail> {
    let alloc = rt.alloc();
    refused(&rt, alloc, "refused unsettled", Refusal::Unsettled)?;
    refused(&rt, alloc, "refused users 1", Refusal::Users { held: 1 })?;
    refused(
        &rt,
        alloc,
        "refused users 257",
        Refusal::Users { held: 257 },
    )
}

#[test]
fn reads_and_prints_names_that_are_words(rt: HostRuntime) -> Result<(), Fail> {
    let alloc = rt.alloc();
    let paid = name(&rt, b"paid");
    let pair = PairText {
        variable: paid,
        value: paid,
    };
    let at = 1;
    let joined = Reply::Joined { user: paid, at };
    both_ways(&rt, alloc, "user paid at 1", joined)?;
    let resolved = Reply::Resolved { pair, at };
    both_ways(&rt, alloc, "resolve paid=paid at 1", resolved)?;
    let added = Reply::Added { variable: paid, at };
    both_ways(&rt, alloc, "add paid at 1", added)?;
    let why = Refusal::User { user: paid };
    refused(&rt, alloc, "refused user paid", why)?;
    let why = Refusal::ValueTwice { value: paid };
    refused(&rt, alloc, "refused value paid", why)
}

#[test]
fn reads_and_prints_the_longest_settlement(rt: HostRuntime) -> Result<(), Fail> {
    let user = name(&rt, b"abcdefghijklmnopqrstuvwxyz_01234");
    let mut payments = Payments::start(rt.alloc())?;
    for _ in 0..256usize {
        payments.push(Payment {
            user,
            low: MOST,
            high: MOST,
            paid: MOST,
        });
    }
    let settled = Reply::Settled { at: MOST, payments };
    let mut text = ArrayString::new();
    print_reply(&settled, &mut text);
    assert_eq!(rt; text.len(), 25_629);
    both_ways(&rt, rt.alloc(), text.as_str(), settled)?;
    Ok(())
}

#[test]
fn reads_and_prints_refusals(rt: HostRuntime) -> Result<(), Fail> {
    let limits = Some((250_001, 749_999));
    for (why, text) in [
        (Refusal::Syntax, "refused syntax"),
        (Refusal::Long, "refused long"),
        (Refusal::Settled, "refused settled"),
        (Refusal::Users { held: 65_536 }, "refused users 65536"),
        (Refusal::Stale { named: 3, now: 4 }, "refused stale 3 4"),
        (Refusal::Wide, "refused wide"),
        (
            Refusal::Range { number: 1_000_000 },
            "refused range 1000000",
        ),
        (Refusal::Full { held: 65_536 }, "refused full 65536"),
        (Refusal::Beyond { limits }, "refused beyond 250001..749999"),
        (Refusal::Beyond { limits: None }, "refused beyond none"),
        (
            Refusal::Short { bits: MOST },
            "refused short 9223372036854775807",
        ),
        (Refusal::Variables { held: 256 }, "refused variables 256"),
        (Refusal::Link { number: 0 }, "refused link 0"),
        (Refusal::RowCount { given: 64 }, "refused rows 64"),
        (
            Refusal::RowWidth { row: 2, given: 16 },
            "refused width 2 16",
        ),
        (Refusal::Cells { total: 98_304 }, "refused cells 98304"),
        (Refusal::Memory, "refused memory"),
    ] {
        refused(&rt, rt.alloc(), text, why)?;
    }
    Ok(())
}

#[test]
fn reads_and_prints_refusals_that_name(rt: HostRuntime) -> Result<(), Fail> {
    let user = name(&rt, b"zed");
    let variable = name(&rt, b"coin");
    let value = name(&rt, b"edge");
    let unknown = PairText { variable, value };
    let impossible = PairText { variable, value };
    let sure = PairText {
        variable: name(&rt, b"w"),
        value: name(&rt, b"a"),
    };
    for (why, text) in [
        (Refusal::User { user }, "refused user zed"),
        (Refusal::Exists { user }, "refused exists zed"),
        (Refusal::Unknown { pair: unknown }, "refused name coin=edge"),
        (Refusal::Twice { variable }, "refused twice coin"),
        (Refusal::Resolved { variable }, "refused resolved coin"),
        (
            Refusal::Impossible { pair: impossible },
            "refused impossible coin=edge",
        ),
        (Refusal::Unresolved { variable }, "refused open coin"),
        (Refusal::Sure { pair: sure }, "refused sure w=a"),
        (Refusal::Taken { variable }, "refused taken coin"),
        (Refusal::ValueTwice { value: user }, "refused value zed"),
        (Refusal::Uncovered { variable }, "refused cover coin"),
        (Refusal::NotRunning { variable }, "refused running coin"),
    ] {
        refused(&rt, rt.alloc(), text, why)?;
    }
    Ok(())
}

/// Texts that are no replies, each a line: the first is empty, and some end in a space.
const NO_REPLIES: &str = "
user alice
user alice at 01
user alice at 9223372036854775808
user alice at 18446744073709551617
user alice  at 1
user alice at 1 
deposit alice 4294967296 at 1
deposit alice 01 at 1
withdraw alice 1
price 0.5..0.5
price 0.50000000000..0.5000000000
price 0.5000000000
price 00.5000000000..0.5000000000
price 1.0000000001..1.0000000001
price 2.0000000000..2.0000000000
price .5000000000..0.5000000000
price 0.500000000a..0.5000000000
price 0.+500000000..0.5000000000
limits 0..1 at 1
limits 2..1 at 1
limits 1..1000000 at 1
limits none
limits nonetheless at 1
trade 0 1 at 1
trade 1 0 at 1
trade 1 9223372036854775808 at 1
bounds 1..2 at 1
bounds 0..1 1..2 at 1
bounds 2..1 1..2 at 1
bounds 1..2 1..1000000 at 1
bounds 1..2 1..2
bounds none
bounds 0..1 1..5 at 2
bounds 0..0 0..5 at 2
bound 5
bound 5..6 at 1
bound none
bound 0..9223372036854775808
bound
prices 0.5000000000..0.5000000000
prices 0.5000000000..0.5000000000 0.5000000000..1.0000000001
prices 0.5000000000..0.5000000000 none
prices 0.5000000000..0.5000000000  0.5000000000..0.5000000000
prices 0.5000000000..0.5000000000 0.5000000000..0.5000000000 at 1
prices none
prices
position none
position none nonetheless
position 5..6
position 5..6 05..6
position 5..6 5..9223372036854775808
position 5..6 5..6 at 1
position 5..6 5..6 
position
status
status at 1 users 1 trades 0 of 1000 transfers 0 open 1 of 1
status at 1 users 1 trades 0 of 1000 transfers 0 of 4294967296 open 1 of 1
status at 9223372036854775808 users 1 trades 0 of 1000 transfers 0 of 65536 open 1 of 1
status at 01 users 1 trades 0 of 1000 transfers 0 of 65536 open 1 of 1
spread 1 at 1
spread 0 1 at 1
spread 1 9223372036854775808 at 1
spread 1 2
spread 1 1 1 1 1 1 1 1 1 1 1 1 1 1 1 1 1 at 1
refused numbers 1000000000
refused sum 1000000000
refused sum 01
refused outside 1..2
refused outside 1..2 1..2 at 1
refused outside 0..0 0..5
refused sure w
refused sure
add coin
add coin at
add coin at 01
add coin=heads at 1
refused variables 255
refused variables
refused taken
refused value a=b
refused link -1
refused link 1000000000
refused cover
refused rows
refused width 1
refused width 1 2 3
refused cells 1000000000
refused variable
worst 1
worst 1...2
worst 1..2 at 1
resolve coin at 1
settle
settle at
settle at 1,alice 1..1 paid 1
settle at 1, alice 1..2 paid 2
settle at 1, alice 1..2 paid 01
settle at 1, alice 1..2
settle at 5 users 256 paid 5
settle at 5 users 65537 paid 5
settle at 5 users 300
settle at 5 users 300 paid
settle at 5 users 0300 paid 5
settle at 5 users 300 paid 05
settle at 5 users 300 paid 9223372036854775808
settle at 5 users 300 paid 5 
settle at 5 users 300 paid 5, alice 5..6 paid 5
settle at 5 paid 5
settle at 5  users 300 paid 5
settle users 300 paid 5
settle at 5, users 300 paid 5
paid
paid alice
paid alice 5..6 paid 6
paid alice 5..5
paid alice 5..6 paid 05
paid alice 5..6 paid 5 at 1
paid alice 5..6 paid 5 
paid 5..6 paid 5
paid alice 5..6 paid 5, bob 5..6 paid 5
settle at 1, 
refused
refused 
refused Syntax
refused syntax error
refused users 0
refused users 65537
refused users 0256
refused Unsettled
refused unsettled at 1
refused stale 4294967296 1
refused stale 1
refused range 4294967296
refused full -1
refused beyond 5..4
refused open
refused unresolved coin
refused name coin";

/// Whether a text is that of no reply.
fn is_none(alloc: Global, text: &str) -> Result<bool, Fail> {
    match read_reply(alloc, text.as_bytes()) {
        Err(Unread::Syntax) => Ok(true),
        Err(Unread::Memory) => Err(Unread::Memory)?,
        Ok(_) => Ok(false),
    }
}

#[test]
fn reads_nothing_else(rt: HostRuntime) -> Result<(), Fail> {
    for text in NO_REPLIES.split("\n") {
        expect_none(&rt, is_none(rt.alloc(), text)?, text);
    }
    Ok(())
}
