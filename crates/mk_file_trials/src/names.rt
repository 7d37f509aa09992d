//! What is a name and what is none, and the rows of a question that is added.

use mk_names::Name;
use mk_net::Row;
use std::process::Abort;

const NAMES: &str = "a,rain_2,z__9,abcdefghijklmnopqrstuvwxyz_01234";

const NO_NAMES: &str =
    "abcdefghijklmnopqrstuvwxyz_012345,,Rain,raiN,2rain,_rain,rain fall,rain\n,régn";

#[test]
fn reads_names_alone(rt: HostRuntime) {
    for (texts, is_one) in [(NAMES, true), (NO_NAMES, false)] {
        for text in texts.split(",") {
            assert!(rt; Name::read(text.as_bytes()).is_some() == is_one, "{text}");
        }
    }
}

#[test]
fn keeps_its_bytes(rt: HostRuntime) {
    let name = Name::read(b"rain_2").expect(&rt, "a name");
    assert!(rt; name.bytes() == b"rain_2".as_slice());
    assert!(rt; name != Name::default());
    assert!(rt; Name::default().bytes() == b"a".as_slice());
}

/// Stops unless a row of one number more is there, and is another row.
fn longer(rt: &impl Abort, row: Row, number: u32) -> Row {
    let longer = row.with(number).expect(rt, "room");
    assert!(rt; longer != row);
    longer
}

fn check_full(rt: &impl Abort, row: Row) {
    assert!(rt; row.with(16).is_none());
    let numbers = row.numbers();
    assert!(rt; numbers.len() == 16);
    assert!(rt; numbers[0] == 0);
    assert!(rt; numbers[15] == 15);
}

#[test]
fn rows_hold_sixteen(rt: HostRuntime) {
    let mut row = Row::empty();
    assert!(rt; row == Row::default());
    for number in 0..16 {
        row = longer(&rt, row, number);
    }
    check_full(&rt, row);
}
