//! Texts of added questions, each both ways, and lines that are the text of none.

use crate::{AddText, print_add, read_add, text_length};
use arrayvec::{ArrayString, ArrayVec};
use mk_names::Name;
use mk_names::limits::MAX_LINE_BYTES;
use mk_net::{Row, Syntax};
use std::process::Abort;

/// A line and the words that it says.
struct Case {
    line: &'static str,
    variable: &'static str,
    values: &'static [&'static str],
    parents: &'static [&'static str],
    rows: &'static [&'static [u32]],
    clique: &'static [&'static str],
    link: u32,
}

const CASES: [Case; 4] = [
    Case {
        line: "add umbrella=yes,no | rain : 900000 100000, 200000 800000 in rain,umbrella to 1",
        variable: "umbrella",
        values: &["yes", "no"],
        parents: &["rain"],
        rows: &[&[900_000, 100_000], &[200_000, 800_000]],
        clique: &["rain", "umbrella"],
        link: 1,
    },
    Case {
        line: "add mood=a,b | season,umbrella : 500000 500000 in season,umbrella,mood to 1",
        variable: "mood",
        values: &["a", "b"],
        parents: &["season", "umbrella"],
        rows: &[&[500_000, 500_000]],
        clique: &["season", "umbrella", "mood"],
        link: 1,
    },
    Case {
        line: "add wind=a,b : 500000 400000 in wind to 4",
        variable: "wind",
        values: &["a", "b"],
        parents: &[],
        rows: &[&[500_000, 400_000]],
        clique: &["wind"],
        link: 4,
    },
    Case {
        line: "add in=to,in | in : 0 999999999, 1, 2 3 4 in to,in,to to 999999999",
        variable: "in",
        values: &["to", "in"],
        parents: &["in"],
        rows: &[&[0, 999_999_999], &[1], &[2, 3, 4]],
        clique: &["to", "in", "to"],
        link: 999_999_999,
    },
];

/// Further texts, each a line: the longest name, and the most values, parents, numbers and names.
const ADDITIONS: &str = "
add umbrella=a,b : 500000 500000 in umbrella to 1
add wind=a,a : 500000 500000 in wind to 1
add wind=a,b | rain : 500000 500000 in rain,wind to 1
add add=in,to | at,add : 0 in in to 0
add abcdefghijklmnopqrstuvwxyz_01234=abcdefghijklmnopqrstuvwxyz_01234,a : 1 in x to 1
add x=a,b,c,d,e,f,g,h,i,j,k,l,m,n,o,p | a,b,c,d,e,f,g,h : 1 in a,b,c,d,e,f,g,h,i,j,k,l,m to 1
add x=a,b : 1 1 1 1 1 1 1 1 1 1 1 1 1 1 1 1 in x to 1";

/// Texts of none, each a line: the first is empty, and some end in a space.
const NO_ADDITIONS: &str = "

add
add 
ADD x=a,b : 1 in x to 1
 add x=a,b : 1 in x to 1
add  x=a,b : 1 in x to 1
addx=a,b : 1 in x to 1
add x=a,b : 1 in x to 1 
add x=a,b | coin : 1 999999, 1 999999 in x,coin to 1 at 2
add x=a : 1000000 in x to 1
add x=a,b,c,d,e,f,g,h,i,j,k,l,m,n,o,p,q : 1 in x to 1
add x=a,b | a,b,c,d,e,f,g,h,i : 1 in x to 1
add x=a,b : 1 in a,b,c,d,e,f,g,h,i,j,k,l,m,n to 1
add x=a,b : 1 1 1 1 1 1 1 1 1 1 1 1 1 1 1 1 1 in x to 1
add abcdefghijklmnopqrstuvwxyz_012345=a,b : 1 in x to 1
add x=a,b : 1000000000 in x to 1
add x=a,b : 01 in x to 1
add x=a,b : 1 in x to 1000000000
add x=a,b : 1 in x to 01
add x=a,b : 1 in x to -1
add x=a, b : 1 in x to 1
add x=a,b, : 1 in x to 1
add x=,b : 1 in x to 1
add x=a,B : 1 in x to 1
add =a,b : 1 in x to 1
add x = a,b : 1 in x to 1
add x=a,b: 1 in x to 1
add x=a,b | : 1 in x to 1
add x=a,b |  : 1 in x to 1
add x=a,b|p : 1 in x to 1
add x=a,b | p, q : 1 in x to 1
add x=a,b | p | q : 1 in x to 1
add x=a,b : 1,1 in x to 1
add x=a,b : 1,  1 in x to 1
add x=a,b : 1  1 in x to 1
add x=a,b : 1 1, in x to 1
add x=a,b : in x to 1
add x=a,b :  in x to 1
add x=a,b in x to 1
add x=a,b : 1 to 1
add x=a,b : 1 in to 1
add x=a,b : 1 in x, y to 1
add x=a,b : 1 in x
add x=a,b : 1 in x to
add x=a,b : 1 in x to 
add x=a,b : 1 in x to 1 in x to 1";

fn names<const N: usize>(rt: &impl Abort, words: &[&str]) -> ArrayVec<Name, N> {
    let mut names = ArrayVec::new();
    for word in words {
        let _ = names.try_push(Name::read(word.as_bytes()).expect(rt, "a name"));
    }
    names
}

fn row(rt: &impl Abort, numbers: &[u32]) -> Row {
    let mut row = Row::empty();
    for number in numbers {
        row = row.with(*number).expect(rt, "room for a number");
    }
    row
}

fn rows(rt: &impl Abort, lists: &[&[u32]]) -> ArrayVec<Row, 64> {
    let mut rows = ArrayVec::new();
    for numbers in lists {
        let _ = rows.try_push(row(rt, numbers));
    }
    rows
}

fn words_of(rt: &impl Abort, case: &Case) -> AddText {
    AddText {
        variable: Name::read(case.variable.as_bytes()).expect(rt, "a name"),
        values: names(rt, case.values),
        parents: names(rt, case.parents),
        rows: rows(rt, case.rows),
        clique: names(rt, case.clique),
        link: case.link,
    }
}

/// Stops unless these words are printed as this text, of this length.
fn prints(rt: &impl Abort, text: &str, words: &AddText) {
    let length = text_length(words) as usize;
    assert_eq!(rt; length, text.len(), "{text}");
    assert!(rt; length <= MAX_LINE_BYTES, "{text}");
    let mut printed = ArrayString::new();
    print_add(words, &mut printed);
    assert_eq!(rt; printed.as_str(), text);
}

/// Stops unless a line is read, and printed as it is.
fn both_ways(rt: &impl Abort, line: &str) {
    let mut words = AddText::default();
    match read_add(line.as_bytes(), &mut words) {
        Ok(read) => prints(rt, line, read),
        Err(Syntax) => panic!(rt; "{line} is not read"),
    }
}

fn add_text(text: &mut ArrayString<4096>, part: &str) {
    let _ = text.try_push_str(part);
}

/// Adds a row of so many ones.
fn add_row(text: &mut ArrayString<4096>, numbers: usize) {
    add_text(text, "1");
    for _ in 1..numbers {
        add_text(text, " 1");
    }
}

/// A line with so many rows of so many ones.
fn line_of(rows: usize, numbers: usize) -> ArrayString<4096> {
    let mut text = ArrayString::new();
    add_text(&mut text, "add x=a,b : ");
    add_row(&mut text, numbers);
    for _ in 1..rows {
        add_text(&mut text, ", ");
        add_row(&mut text, numbers);
    }
    add_text(&mut text, " in x to 1");
    text
}

#[test]
fn reads_as_many_rows_as_there_may_be(rt: HostRuntime) {
    both_ways(&rt, line_of(64, 1).as_str());
    let mut words = AddText::default();
    let long = line_of(64, 16);
    assert_eq!(rt; long.len(), 2132);
    let length = match read_add(long.as_bytes(), &mut words) {
        Ok(read) => text_length(read),
        Err(Syntax) => 0,
    };
    assert_eq!(rt; length, 2132);
    for line in [line_of(65, 1), line_of(64, 17)] {
        assert!(rt; read_add(line.as_bytes(), &mut words) == Err(Syntax));
    }
}

#[test]
fn reads_and_prints_words(rt: HostRuntime) {
    let mut words = AddText::default();
    for case in &CASES {
        let expected = words_of(&rt, case);
        let read = read_add(case.line.as_bytes(), &mut words);
        assert_eq!(rt; read, Ok(&expected), "{}", case.line);
        prints(&rt, case.line, &expected);
    }
}

#[test]
fn reads_and_prints_limits(rt: HostRuntime) {
    for line in ADDITIONS.lines().skip(1) {
        both_ways(&rt, line);
    }
}

#[test]
fn reads_no_other_line(rt: HostRuntime) {
    let mut words = AddText::default();
    for line in NO_ADDITIONS.lines().skip(1) {
        let read = read_add(line.as_bytes(), &mut words);
        assert!(rt; read == Err(Syntax), "{line} is read");
    }
}
