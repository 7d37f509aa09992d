//! Lists with a separator between their things: reading and writing them, and their length.

ghost use Rattle.std.specs.Prelude.{◌≡◌, ◌+◌, ◌-◌, ◌*◌, ◌^◌, ◌<◌, ◌≤◌, ◌++◌};
ghost use Rattle.std.specs.Prelude.{length, option_map};
ghost use Rattle.mk_addition.specs.Below.{MAX_LINE_BYTES};
ghost use Rattle.mk_addition.specs.Below.{array_vec_len, array_string_len, items_text, IsRestOf};
ghost use Rattle.mk_addition.specs.Below.{Finds, never};
ghost use Rattle.mk_addition.specs.Adds.{joined};
ghost use Rattle.mk_addition.specs.Reading.{more, read_list};

use crate::row::read_row;
use crate::writable::Writable;
use arrayvec::{ArrayString, ArrayVec};
use mk_names::Name;
use mk_names::limits::MAX_LINE_BYTES;
use mk_net::Row;
use mk_text::Reader;

/// A thing of which a list may be read.
pub(crate) trait Readable: Copy + Default {
    ghost use Rattle.mk_text.specs.Reading.{Read};

    ghost reads: { Read Self };

    /// The thing that is next.
    fn next(reader: &mut Reader) -> Option<Self>
        ensures found { Finds result reader.new (reads reader.old) }
        ensures rest { IsRestOf reader.new reader.old };
}

impl Readable for Name {
    ghost use Rattle.mk_text.specs.Reading.{read_name};

    ghost reads = { read_name };

    fn next(reader: &mut Reader) -> Option<Name> {
        reader.name()
    }
}

impl Readable for Row {
    ghost use Rattle.mk_addition.specs.Reading.{read_row};

    ghost reads = { read_row };

    fn next(reader: &mut Reader) -> Option<Row> {
        read_row(reader)
    }
}

/// Reads a thing and as many more as there is room for, written over those of another list.
#[tactic(auto, using(crate::proofs::Ends::rests), unfolding(crate::specs::Reading::read_list))]
pub(crate) fn read_list<T: Readable, const N: usize>(
    reader: &mut Reader,
    separator: &[u8],
    list: &mut ArrayVec<T, N>,
) -> Option<()>
    requires { 1 ≤ N }
    ensures found { Finds (option_map (λ _. list.new.items) result) reader.new
        (read_list never separator.now T.reads (N - 1) reader.old) }
    ensures rest { IsRestOf reader.new reader.old }
{
    list.clear();
    list.push(T::next(reader)?);
    read_more(reader, separator, list)
}

/// Reads the things behind the first.
#[tactic(auto, using(crate::proofs::Ends::rests))]
fn read_more<T: Readable, const N: usize>(
    reader: &mut Reader,
    separator: &[u8],
    list: &mut ArrayVec<T, N>,
) -> Option<()>
    requires { array_vec_len list.old ≤ 1 }
    ensures found { Finds (option_map (λ _. list.new.items) result) reader.new
        (more never separator.now T.reads (N - 1) list.old.items reader.old) }
    ensures rest { IsRestOf reader.new reader.old }
{
    'things: for _ in 1..N {
        if !reader.skip(separator) {
            return Some(());
        }
        list.push(T::next(reader)?);
    }
    Some(())
}

/// Writes things with a separator between them, as many as there is room for.
pub(crate) fn put_list<T: Writable>(
    out: &mut ArrayString<MAX_LINE_BYTES>,
    separator: &str,
    things: &[T],
)
    requires { array_string_len out.old + length (joined separator.now T.text things.now)
        ≤ MAX_LINE_BYTES }
    ensures { out.new.bytes ≡ out.old.bytes ++ joined separator.now T.text things.now }
{
    if let [first, rest @ ..] = things {
        first.put(out);
        put_more(out, separator, rest);
    }
}

fn put_more<T: Writable>(out: &mut ArrayString<MAX_LINE_BYTES>, separator: &str, things: &[T])
    requires { array_string_len out.old
        + length (items_text separator.now T.text things.now) ≤ MAX_LINE_BYTES }
    ensures { out.new.bytes ≡ out.old.bytes ++ items_text separator.now T.text things.now }
{
    for thing in things {
        out.push_str(separator);
        thing.put(out);
    }
}

/// How long the text of things with a separator between them is.
pub(crate) fn list_length<T: Writable>(separator: &str, things: &[T]) -> usize
    requires { (T.most + length separator.now) * length things.now < 2 ^ 32 }
    ensures exact { result ≡ length (joined separator.now T.text things.now) }
    ensures few { result ≤ (T.most + length separator.now) * length things.now }
{
    match things {
        [] => 0,
        [first, rest @ ..] => first.text_length() + more_length(separator, rest),
    }
}

fn more_length<T: Writable>(separator: &str, things: &[T]) -> usize
    requires { (T.most + length separator.now) * length things.now < 2 ^ 32 }
    ensures exact { result ≡ length (items_text separator.now T.text things.now) }
    ensures few { result ≤ (T.most + length separator.now) * length things.now }
{
    let mut size = 0;
    for thing in things {
        size += separator.len() + thing.text_length();
    }
    size
}
