//! Writing the words of an added question.

ghost use Rattle.std.specs.Prelude.{◌≡◌, ◌+◌, ◌≤◌, ◌++◌, length};
ghost use Rattle.mk_addition.specs.Below.{MAX_LINE_BYTES};
ghost use Rattle.arrayvec.specs.ArrayString.{array_string_len};
ghost use Rattle.mk_addition.specs.Adds.{add_text, addition_text, parents_text};
ghost use Rattle.mk_addition.specs.Adds.{shares_text, place_text};

use crate::add::AddText;
use crate::list::put_list;
use crate::writable::Writable;
use arrayvec::ArrayString;
use mk_names::Name;
use mk_names::limits::MAX_LINE_BYTES;

/// Puts the text of an added question into `out`, in place of what it held. The text must have at
/// most 1,024 bytes, which `text_length` tells.
pub fn print_add(add: &AddText, out: &mut ArrayString<MAX_LINE_BYTES>)
    requires { length (add_text add.now) ≤ MAX_LINE_BYTES }
    ensures { out.new.bytes ≡ add_text add.now }
{
    out.clear();
    out.push_str("add ");
    put_addition(out, add);
}

/// Adds what stands behind the word `add `, for which there must be room.
pub fn put_addition(out: &mut ArrayString<MAX_LINE_BYTES>, add: &AddText)
    requires { array_string_len out.old + length (addition_text add.now) ≤ MAX_LINE_BYTES }
    ensures { out.new.bytes ≡ out.old.bytes ++ addition_text add.now }
{
    add.variable.put(out);
    out.push_str("=");
    put_list(out, ",", add.values.as_slice());
    put_parents(out, add.parents.as_slice());
    put_shares(out, add);
}

fn put_parents(out: &mut ArrayString<MAX_LINE_BYTES>, parents: &[Name])
    requires { array_string_len out.old + length (parents_text parents.now) ≤ MAX_LINE_BYTES }
    ensures { out.new.bytes ≡ out.old.bytes ++ parents_text parents.now }
{
    if !parents.is_empty() {
        out.push_str(" | ");
        put_list(out, ",", parents);
    }
}

fn put_shares(out: &mut ArrayString<MAX_LINE_BYTES>, add: &AddText)
    requires { array_string_len out.old + length (shares_text add.now) ≤ MAX_LINE_BYTES }
    ensures { out.new.bytes ≡ out.old.bytes ++ shares_text add.now }
{
    out.push_str(" : ");
    put_list(out, ", ", add.rows.as_slice());
    out.push_str(" in ");
    put_place(out, add);
}

fn put_place(out: &mut ArrayString<MAX_LINE_BYTES>, add: &AddText)
    requires { array_string_len out.old + length (place_text add.now) ≤ MAX_LINE_BYTES }
    ensures { out.new.bytes ≡ out.old.bytes ++ place_text add.now }
{
    put_list(out, ",", add.clique.as_slice());
    out.push_str(" to ");
    add.link.put(out);
}
