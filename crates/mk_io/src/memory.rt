//! Inputs and a sink in memory, whose calls can be made to fail.

ghost use Rattle.std.specs.Prelude.{◌≡◌, ℕ, ◌+◌, ◌-◌, ◌<◌, ◌≤◌, ◌↔◌, ◌⊎◌, List, [], ◌++◌, length, take, drop, map, Option, Some, None, IsErr, IfOk, OnOk, OnErr, MatchOption, vec_len, min};
ghost use Rattle.mk_io.specs.Outside.{HasCause, LeavesRest, Reads, Writes};
ghost use Rattle.mk_io.specs.Memory.{named, file_bytes, bytes_at, piece_of, counted, failed, uncalled, IsFailing, IsFull};

use crate::calls::Calls;
use crate::outside::{InputFailed, Inputs, Sink, SinkFailed};
use std::marker::Model;

/// A file of `MemoryInputs`.
#[derive(Drop)]
pub struct NamedFile {
    pub name: String,
    pub bytes: Vec<u8>,
}

/// Files and commands in memory.
///
/// The calls of a value are numbered from 1, and those with the given numbers fail. To open a file of an unknown name
/// fails too. A read gives at most `piece` bytes.
#[derive(Drop)]
pub struct MemoryInputs {
    files: Vec<NamedFile>,
    opened: Option<usize>,
    opened_at: usize,
    commands: Vec<u8>,
    commands_at: usize,
    piece: usize,
    calls: Calls,
}

impl Model for MemoryInputs {
    ghost use Rattle.std.specs.Prelude.{◌≤◌, drop, map, vec_len};
    ghost use Rattle.mk_io.specs.Memory.{MemoryIn};

    ghost Value = { MemoryIn };

    ghost use Rattle.mk_io.specs.Memory.{named, bytes_at, IsOpened};

    ghost view = { λ m. record {
      files = map named m.files.items;
      market = drop m.opened_at (bytes_at (map named m.files.items) m.opened);
      commands = drop m.commands_at m.commands.items;
      piece = m.piece;
      calls = m.calls;
    } };

    ghost invariant = { λ m. (1 ≤ m.piece) × (m.commands_at ≤ vec_len m.commands) × IsOpened m.files.items m.opened m.opened_at };
}

impl MemoryInputs {
    /// Inputs with these files and commands, of which no market is opened.
    pub fn new(
        files: Vec<NamedFile>,
        commands: Vec<u8>,
        piece: usize,
        failing: Vec<u64>,
    ) -> MemoryInputs
        requires { 1 ≤ piece }
        ensures { result ≡ record {
          files = map named files.items;
          market = [];
          commands = commands.items;
          piece = piece;
          calls = uncalled failing.items;
        } }
    {
        MemoryInputs {
            files,
            opened: None,
            opened_at: 0,
            commands,
            commands_at: 0,
            piece,
            calls: Calls::new(failing),
        }
    }

    /// How many calls there were, with those that failed.
    pub fn calls(&self) -> u64
        ensures { result ≡ ((self.now).calls).count }
    {
        self.calls.count()
    }
}

impl Inputs for MemoryInputs {
    ghost admits = { λ _. Unit {0} };

    ghost file = { λ m name. file_bytes m.files name };

    ghost market = { λ m. Some m.market };

    ghost commands = { λ m. Some m.commands };

    ghost faults = { λ m. m.calls.faults };

    fn open_market(&mut self, name: &str) -> Result<(), InputFailed>
        ensures cause { HasCause self.old.calls.faults self.new.calls.faults result }
        ensures opened { OnOk result (Some self.new.market ≡ file_bytes self.old.files name.now) }
        ensures not_opened { OnErr result (Some self.new.market ≡ Some self.old.market) }
        ensures rest { LeavesRest (Some self.old.commands) (Some self.new.commands) (file_bytes self.old.files) (file_bytes self.new.files) }

        ensures fails { IsErr result ↔ (IsFailing self.old.calls ⊎ (file_bytes self.old.files name.now ≡ None)) }
        ensures ok { OnOk result (self.new ≡ record self.old { market = self.new.market; calls = counted self.old.calls }) }
        ensures err { OnErr result (self.new ≡ record self.old { calls = failed (counted self.old.calls) }) }
    {
        if self.calls.begin() {
            self.calls.fail();
            return Err(InputFailed);
        }
        match index_of(&self.files, name) {
            None => {
                self.calls.fail();
                Err(InputFailed)
            }
            Some(index) => {
                self.opened = Some(index);
                self.opened_at = 0;
                Ok(())
            }
        }
    }

    fn read_market(&mut self, buf: &mut [u8]) -> Result<usize, InputFailed>
        requires { 0 < length buf.old }
        ensures cause { HasCause self.old.calls.faults self.new.calls.faults result }
        ensures reads { Reads (Some self.old.market) (Some self.new.market) result buf.new }
        ensures rest { LeavesRest (Some self.old.commands) (Some self.new.commands) (file_bytes self.old.files) (file_bytes self.new.files) }

        ensures fails { IsErr result ↔ IsFailing self.old.calls }
        ensures amount { IfOk result (λ n. n ≡ piece_of self.old.piece (length self.old.market) (length buf.old)) }
        ensures ok { IfOk result (λ n. self.new ≡ record self.old {
          market = drop n self.old.market;
          calls = counted self.old.calls;
        }) }
        ensures err { OnErr result (self.new ≡ record self.old { calls = failed (counted self.old.calls) }) }
    {
        if self.calls.begin() {
            self.calls.fail();
            return Err(InputFailed);
        }
        match self.opened {
            None => Ok(0),
            Some(index) => {
                let bytes = self.files[index].bytes.as_slice();
                let count = copy_piece(&bytes[self.opened_at..], self.piece, buf);
                self.opened_at += count;
                Ok(count)
            }
        }
    }

    fn read_commands(&mut self, buf: &mut [u8]) -> Result<usize, InputFailed>
        requires { 0 < length buf.old }
        ensures cause { HasCause self.old.calls.faults self.new.calls.faults result }
        ensures reads { Reads (Some self.old.commands) (Some self.new.commands) result buf.new }
        ensures rest { LeavesRest (Some self.old.market) (Some self.new.market) (file_bytes self.old.files) (file_bytes self.new.files) }

        ensures fails { IsErr result ↔ IsFailing self.old.calls }
        ensures amount { IfOk result (λ n. n ≡ piece_of self.old.piece (length self.old.commands) (length buf.old)) }
        ensures ok { IfOk result (λ n. self.new ≡ record self.old {
          commands = drop n self.old.commands;
          calls = counted self.old.calls;
        }) }
        ensures err { OnErr result (self.new ≡ record self.old { calls = failed (counted self.old.calls) }) }
    {
        if self.calls.begin() {
            self.calls.fail();
            return Err(InputFailed);
        }
        let count = copy_piece(&self.commands[self.commands_at..], self.piece, buf);
        self.commands_at += count;
        Ok(count)
    }
}

// The index of the first file of a name.
pub(crate) fn index_of(files: &[NamedFile], name: &str) -> Option<usize>
    ensures { MatchOption result (file_bytes (map named files.now) name.now ≡ None) (λ index.
        (index < length files.now) × (file_bytes (map named files.now) name.now ≡ Some (bytes_at (map named files.now) (Some index)))) }
{
    for (index, file) in files.iter().enumerate() {
        if file.name.as_str() == name {
            return Some(index);
        }
    }
    None
}

// Copies the first bytes that are left, at most `piece`, and says how many.
pub(crate) fn copy_piece(left: &[u8], piece: usize, buf: &mut [u8]) -> usize
    ensures count { result ≡ piece_of piece (length left.now) (length buf.old) }
    ensures bytes { take result buf.new ≡ take result left.now }
{
    let count = piece.min(left.len()).min(buf.len());
    buf[..count].copy_from_slice(&left[..count]);
    count
}

/// A sink in memory, of a fixed capacity.
///
/// The calls of a value are numbered from 1, and those with the given numbers fail. A write where no room is left
/// fails too. A write takes at most `piece` bytes.
#[derive(Drop)]
pub struct MemorySink {
    room: Vec<u8>,
    len: usize,
    piece: usize,
    calls: Calls,
}

impl Model for MemorySink {
    ghost use Rattle.std.specs.Prelude.{◌≤◌, take, vec_len};
    ghost use Rattle.mk_io.specs.Memory.{MemoryOut};

    ghost Value = { MemoryOut };

    ghost view = { λ s. record {
      written = take s.len s.room.items;
      capacity = vec_len s.room;
      piece = s.piece;
      calls = s.calls;
    } };

    ghost invariant = { λ s. (1 ≤ s.piece) × (s.len ≤ vec_len s.room) };
}

impl MemorySink {
    /// A sink to which nothing was written, which writes over the bytes of `room`.
    pub fn new(room: Vec<u8>, piece: usize, failing: Vec<u64>) -> MemorySink
        requires { 1 ≤ piece }
        ensures { result ≡ record {
          written = [];
          capacity = vec_len room;
          piece = piece;
          calls = uncalled failing.items;
        } }
    {
        MemorySink {
            room,
            len: 0,
            piece,
            calls: Calls::new(failing),
        }
    }

    /// How many calls there were, with those that failed.
    pub fn calls(&self) -> u64
        ensures { result ≡ ((self.now).calls).count }
    {
        self.calls.count()
    }

    /// The bytes written.
    pub fn written(&self) -> &[u8]
        ensures { result.now ≡ self.now.written }
    {
        &self.room[..self.len]
    }
}

impl Sink for MemorySink {
    ghost written = { λ s. Some s.written };

    ghost faults = { λ s. s.calls.faults };

    fn write(&mut self, bytes: &[u8]) -> Result<usize, SinkFailed>
        ensures cause { HasCause self.old.calls.faults self.new.calls.faults result }
        ensures writes { Writes (Some self.old.written) (Some self.new.written) result bytes.now }

        ensures fails { IsErr result ↔ (IsFailing self.old.calls ⊎ (IsFull self.old × (0 < length bytes.now))) }
        ensures amount { IfOk result (λ n. n
            ≡ piece_of self.old.piece (length bytes.now) (self.old.capacity - length self.old.written)) }
        ensures ok { IfOk result (λ n. self.new ≡ record self.old {
          written = self.old.written ++ take n bytes.now;
          calls = counted self.old.calls;
        }) }
        ensures err { OnErr result (self.new ≡ record self.old { calls = failed (counted self.old.calls) }) }
    {
        if self.calls.begin() {
            self.calls.fail();
            return Err(SinkFailed);
        }
        if self.len == self.room.len() && !bytes.is_empty() {
            self.calls.fail();
            return Err(SinkFailed);
        }
        let free = self.room.len() - self.len;
        let count = self.piece.min(bytes.len()).min(free);
        put(&mut self.room, self.len, &bytes[..count]);
        self.len += count;
        Ok(count)
    }
}

// Writes a piece over the bytes from `at` on.
fn put(room: &mut [u8], at: usize, piece: &[u8])
    requires { at + length piece.now ≤ length room.old }
    ensures { take (at + length piece.now) room.new ≡ take at room.old ++ piece.now }
{
    let end = at + piece.len();
    room[at..end].copy_from_slice(piece);
}
