//! Names, prices, limits and questions, and what all trials of texts expect.

use arrayvec::ArrayString;
use mk_names::Name;
use mk_net::QuestionText;
use mk_text::{Reader, put_condition, put_limits, put_pair, put_price};
use std::process::Abort;

/// The name that these bytes are.
pub(crate) fn name(rt: &impl Abort, text: &[u8]) -> Name {
    Name::read(text).expect(rt, "a name")
}

/// Stops where something was read from a text of nothing.
pub(crate) fn expect_none(rt: &impl Abort, is_none: bool, text: &str) {
    assert!(rt; is_none, "{text} is read");
}

/// Stops unless this text was printed.
pub(crate) fn expect_text(rt: &impl Abort, printed: &str, text: &str) {
    assert_eq!(rt; printed, text);
}

/// Stops unless a text was read as a value, and that was printed as this text.
fn expect_both_ways(rt: &impl Abort, is_read: bool, printed: &str, text: &str) {
    assert!(rt; is_read, "{text}");
    expect_text(rt, printed, text);
}

#[test]
fn reads_and_prints_prices(rt: HostRuntime) {
    for (price, text) in [
        (0, "0.0000000000"),
        (1, "0.0000000001"),
        (3_333_333_334, "0.3333333334"),
        (9_999_999_999, "0.9999999999"),
        (10_000_000_000, "1.0000000000"),
    ] {
        let read = Reader::new(text.as_bytes()).price();
        let mut printed = ArrayString::<31>::new();
        put_price(&mut printed, price);
        expect_both_ways(&rt, read == Some(price), printed.as_str(), text);
    }
}

#[test]
fn reads_and_prints_limits(rt: HostRuntime) {
    for (limits, text) in [
        (None, "none"),
        (Some((1, 999_999)), "1..999999"),
        (Some((500_000, 500_000)), "500000..500000"),
    ] {
        let read = Reader::new(text.as_bytes()).limits();
        let mut printed = ArrayString::<42>::new();
        put_limits(&mut printed, limits);
        expect_both_ways(&rt, read == Some(limits), printed.as_str(), text);
    }
}

/// Texts that are no prices.
const NO_PRICES: &str = "1.0000000001
2.0000000000
0.5
0,5000000000
00.5000000000
0.50000000000
0.+500000000
.5000000000";

#[test]
fn reads_no_other_prices(rt: HostRuntime) {
    for text in NO_PRICES.split("\n") {
        let price = Reader::new(text.as_bytes()).price();
        expect_none(&rt, price.is_none(), text);
    }
}

/// Texts that are no limits.
const NO_LIMITS: &str = "0..1
2..1
1..1000000
01..2
1.2
no";

#[test]
fn reads_no_other_limits(rt: HostRuntime) {
    for text in NO_LIMITS.split("\n") {
        let limits = Reader::new(text.as_bytes()).limits();
        expect_none(&rt, limits.is_none(), text);
    }
}

fn prints(rt: &impl Abort, question: &QuestionText, text: &str) {
    let mut printed = ArrayString::<604>::new();
    put_pair(&mut printed, &question.target);
    put_condition(&mut printed, question.condition.as_slice());
    expect_text(rt, printed.as_str(), text);
}

#[test]
fn reads_what_follows(rt: HostRuntime) {
    let text = b"rain=yes | sun=no, wind=up to 7";
    let mut reader = Reader::new(text);
    let mut question = QuestionText::default();
    assert_eq!(rt; reader.question(&mut question), Some(()));
    assert_eq!(rt; question.condition.len(), 2);
    prints(&rt, &question, "rain=yes | sun=no, wind=up");
    assert!(rt; !reader.skip(b" at "));
    assert!(rt; reader.expect(b" to ").is_some());
    assert!(rt; reader.number(8) == Some(7));
    assert!(rt; reader.is_at_end());
}
