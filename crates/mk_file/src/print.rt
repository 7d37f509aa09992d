//! Writing the line of a refused market file.

ghost use Rattle.std.specs.Prelude.{◌≡◌, ◌≢◌, ◌+◌, ◌<◌, ◌≤◌, ◌++◌, length, codes};
ghost use Rattle.mk_file.specs.Below.{MAX_ANSWER_BYTES};
ghost use Rattle.arrayvec.specs.ArrayString.{array_string_len};
ghost use Rattle.mk_file.specs.declared.fault.FileFault.TheVariants.{Memory};
ghost use Rattle.mk_file.specs.Faults.{fault_text, cause_text, place_text, then_number, then_signed};

use crate::fault::FileFault;
use arrayvec::ArrayString;
use itoa::Buffer;
use mk_names::Key;
use mk_names::limits::MAX_ANSWER_BYTES;
use mk_text::put_number;

/// The line of a fault, which has room for the longest.
type Line = ArrayString<MAX_ANSWER_BYTES>;

/// Puts the line of a refused market file into `out`, in place of what it held. Want of memory has no line.
pub fn print_fault(fault: &FileFault, out: &mut ArrayString<MAX_ANSWER_BYTES>)
    requires { fault.now ≢ Memory }
    ensures text { out.new.bytes ≡ fault_text fault.now }
    ensures room { array_string_len out.new < MAX_ANSWER_BYTES }
{
    out.clear();
    out.push_str("refused market ");
    put_cause(out, fault);
}

fn put_cause(out: &mut Line, fault: &FileFault)
    requires known { fault.now ≢ Memory }
    requires room { array_string_len out.old + 100 ≤ MAX_ANSWER_BYTES }
    ensures text { out.new.bytes ≡ out.old.bytes ++ cause_text fault.now }
    ensures growth { array_string_len out.new ≤ array_string_len out.old + 100 }
{
    match fault {
        FileFault::TooLong => out.push_str("long"),
        FileFault::BadToml => out.push_str("toml"),
        FileFault::Missing { key, place } => put_place(out, "missing ", *key, *place),
        FileFault::WrongType { key, place } => put_place(out, "type ", *key, *place),
        FileFault::Count { key, place, n } => put_count(out, *key, *place, *n),
        FileFault::BadName { variable } => put_at(out, "name", *variable),
        FileFault::Repeat { variable } => put_at(out, "repeat", *variable),
        FileFault::Parent { variable } => put_at(out, "parent", *variable),
        FileFault::Rows { variable, n } => put_rows(out, *variable, *n),
        FileFault::Width { variable, row, n } => put_row(out, "width", *variable, *row, *n),
        FileFault::Entry {
            variable,
            row,
            column,
        } => put_entry(out, *variable, *row, *column),
        FileFault::Sum { variable, row, sum } => put_row(out, "sum", *variable, *row, *sum),
        FileFault::Clique { clique } => put_at(out, "clique", *clique),
        FileFault::Link { clique } => put_at(out, "link", *clique),
        FileFault::Cover { variable } => put_at(out, "cover", *variable),
        FileFault::NotRunning { variable } => put_at(out, "running", *variable),
        FileFault::Cells { clique } => put_at(out, "cells", *clique),
        FileFault::Memory => unreachable!(),
    }
}

fn put_place(out: &mut Line, word: &str, key: Key, place: u32)
    requires { array_string_len out.old + length word.now + 35 ≤ MAX_ANSWER_BYTES }
    ensures text { out.new.bytes ≡ out.old.bytes ++ (word.now ++ place_text key place) }
    ensures growth { array_string_len out.new ≤ array_string_len out.old + length word.now + 35 }
{
    out.push_str(word);
    out.push_str(key.text());
    put_next(out, place);
}

fn put_count(out: &mut Line, key: Key, place: u32, n: i64)
    requires { array_string_len out.old + 62 ≤ MAX_ANSWER_BYTES }
    ensures text { out.new.bytes ≡ out.old.bytes ++ (codes "count " ++ (place_text key place ++ then_signed n)) }
    ensures growth { array_string_len out.new ≤ array_string_len out.old + 62 }
{
    put_place(out, "count ", key, place);
    put_signed(out, n);
}

fn put_at(out: &mut Line, word: &str, number: u32)
    requires { array_string_len out.old + length word.now + 21 ≤ MAX_ANSWER_BYTES }
    ensures text { out.new.bytes ≡ out.old.bytes ++ (word.now ++ then_number number) }
    ensures growth { array_string_len out.new ≤ array_string_len out.old + length word.now + 21 }
{
    out.push_str(word);
    put_next(out, number);
}

fn put_rows(out: &mut Line, variable: u32, n: i64)
    requires { array_string_len out.old + 46 ≤ MAX_ANSWER_BYTES }
    ensures text { out.new.bytes ≡ out.old.bytes ++ (codes "rows" ++ (then_number variable ++ then_signed n)) }
    ensures growth { array_string_len out.new ≤ array_string_len out.old + 46 }
{
    put_at(out, "rows", variable);
    put_signed(out, n);
}

fn put_row(out: &mut Line, word: &str, variable: u32, row: u32, n: i64)
    requires { array_string_len out.old + length word.now + 63 ≤ MAX_ANSWER_BYTES }
    ensures text { out.new.bytes ≡ out.old.bytes ++ (word.now ++ (then_number variable ++ (then_number row ++ then_signed n))) }
    ensures growth { array_string_len out.new ≤ array_string_len out.old + length word.now + 63 }
{
    put_at(out, word, variable);
    put_next(out, row);
    put_signed(out, n);
}

fn put_entry(out: &mut Line, variable: u32, row: u32, column: u32)
    requires { array_string_len out.old + 68 ≤ MAX_ANSWER_BYTES }
    ensures text { out.new.bytes ≡ out.old.bytes ++ (codes "entry" ++ (then_number variable ++ (then_number row ++ then_number column))) }
    ensures growth { array_string_len out.new ≤ array_string_len out.old + 68 }
{
    put_at(out, "entry", variable);
    put_next(out, row);
    put_next(out, column);
}

fn put_next(out: &mut Line, number: u32)
    requires { array_string_len out.old + 21 ≤ MAX_ANSWER_BYTES }
    ensures text { out.new.bytes ≡ out.old.bytes ++ then_number number }
    ensures growth { array_string_len out.new ≤ array_string_len out.old + 21 }
{
    out.push_str(" ");
    put_number(out, number as u64);
}

fn put_signed(out: &mut Line, number: i64)
    requires { array_string_len out.old + 21 ≤ MAX_ANSWER_BYTES }
    ensures text { out.new.bytes ≡ out.old.bytes ++ then_signed number }
    ensures growth { array_string_len out.new ≤ array_string_len out.old + 21 }
{
    out.push_str(" ");
    out.push_str(Buffer::new().format(number));
}
