//! The text of one line.

ghost use Rattle.std.specs.Prelude.{◌≡◌, ℕ, ◌+◌, List, [], ◌∷◌, ◌++◌, length};
ghost use Rattle.mk_io.specs.Stream.{max_line_bytes};
ghost use Rattle.mk_io.specs.inner.Cut.{front, Settles};

use mk_names::limits::MAX_LINE_BYTES;
use std::marker::Model;

// one more than a line may have, so that a longer one shows
const TEXT_BYTES: usize = MAX_LINE_BYTES + 1;

/// The first bytes of a line: one more than a line may have.
#[derive(Drop)]
pub struct Text {
    buf: [u8; TEXT_BYTES],
    len: usize,
}

impl Model for Text {
    ghost use Rattle.std.specs.Prelude.{ℕ, ◌+◌, ◌≤◌, List, take};
    ghost use Rattle.mk_io.specs.Stream.{max_line_bytes};

    ghost Value = { List ℕ };

    ghost view = { λ t. take t.len t.buf };

    ghost invariant = { λ t. t.len ≤ max_line_bytes + 1 };
}

impl Text {
    /// No bytes.
    pub fn new() -> Text
        ensures { result ≡ [] }
    {
        Text {
            buf: [0; TEXT_BYTES],
            len: 0,
        }
    }

    /// Drops all bytes.
    pub fn clear(&mut self)
        ensures { self.new ≡ [] }
    {
        self.len = 0;
    }

    /// Puts the first bytes of some in place of those that are there, as many as there is room for.
    pub fn put(&mut self, bytes: &[u8])
        ensures { self.new ≡ front (max_line_bytes + 1) bytes.now }
    {
        let count = bytes.len().min(TEXT_BYTES);
        self.buf[..count].copy_from_slice(&bytes[..count]);
        self.len = count;
    }

    /// Adds a byte where there is room for it.
    pub fn push(&mut self, byte: u8)
        ensures { self.new ≡ front (max_line_bytes + 1) (self.old ++ byte ∷ []) }
    {
        if self.len < TEXT_BYTES {
            self.buf[self.len] = byte;
            self.len += 1;
        }
    }

    /// Makes the text that of a whole line, without one CR at its end, and says whether the line is short enough.
    pub fn settle(&mut self) -> bool
        ensures { Settles max_line_bytes self.old self.new result }
    {
        if self.len > MAX_LINE_BYTES {
            self.len = 0;
            return false;
        }
        if self.len > 0 && self.buf[self.len - 1] == b'\r' {
            self.len -= 1;
        }
        true
    }

    /// The bytes.
    pub fn as_slice(&self) -> &[u8]
        ensures { result.now ≡ self.now }
    {
        &self.buf[..self.len]
    }
}
