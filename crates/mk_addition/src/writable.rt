//! Things of which a list may be written.

ghost use Rattle.std.specs.Prelude.{◌≡◌, ◌+◌, ◌≤◌, ◌++◌, length};
ghost use Rattle.mk_addition.specs.Below.{MAX_LINE_BYTES};
ghost use Rattle.arrayvec.specs.ArrayString.{array_string_len};

use crate::list::{list_length, put_list};
use arrayvec::ArrayString;
use itoa::Buffer;
use mk_names::Name;
use mk_names::limits::MAX_LINE_BYTES;
use mk_net::Row;
use std::str;

/// A thing of which a list may be written.
pub(crate) trait Writable {
    ghost use Rattle.std.specs.Prelude.{ℕ, List};

    ghost text: { Self → List ℕ };

    ghost most: { ℕ };

    /// Adds its text, for which there must be room.
    fn put(&self, out: &mut ArrayString<MAX_LINE_BYTES>)
        requires { array_string_len out.old + length (text self.now) ≤ MAX_LINE_BYTES }
        ensures { out.new.bytes ≡ out.old.bytes ++ text self.now };

    /// How long its text is.
    fn text_length(&self) -> usize
        ensures exact { result ≡ length (text self.now) }
        ensures few { result ≤ most };
}

impl Writable for Name {
    ghost text = { λ name. name };

    ghost most = { 32 };

    fn put(&self, out: &mut ArrayString<MAX_LINE_BYTES>) {
        match str::from_utf8(self.bytes()) {
            Ok(text) => out.push_str(text),
            Err(_) => unreachable!(),
        }
    }

    fn text_length(&self) -> usize {
        self.bytes().len()
    }
}

impl Writable for u32 {
    ghost use Rattle.std.specs.Prelude.{decimal};

    ghost text = { decimal };

    ghost most = { 10 };

    fn put(&self, out: &mut ArrayString<MAX_LINE_BYTES>) {
        out.push_str(Buffer::new().format(*self));
    }

    fn text_length(&self) -> usize {
        Buffer::new().format(*self).len()
    }
}

impl Writable for Row {
    ghost use Rattle.mk_addition.specs.Adds.{row_text};

    ghost text = { row_text };

    ghost most = { 176 };

    fn put(&self, out: &mut ArrayString<MAX_LINE_BYTES>) {
        put_list(out, " ", self.numbers());
    }

    fn text_length(&self) -> usize {
        list_length(" ", self.numbers())
    }
}
