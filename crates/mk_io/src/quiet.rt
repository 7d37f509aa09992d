//! Inputs in memory whose calls never fail, and a sink that takes all and keeps nothing.

ghost use Rattle.std.specs.Prelude.{◌≡◌, ℕ, ◌<◌, ◌≤◌, List, [], length, take, drop, map, Option, Some, None, IfOk, OnOk, OnErr, IsOk, Ok, vec_len};
ghost use Rattle.mk_io.specs.Outside.{HasCause, LeavesRest, Reads, Writes};
ghost use Rattle.mk_io.specs.Memory.{named, bytes_at, piece_of};
ghost use Rattle.mk_io.specs.Quiet.{QuietIn, file_or_empty};

use crate::memory::{NamedFile, copy_piece, index_of};
use crate::outside::{InputFailed, Inputs, Sink, SinkFailed};
use std::marker::Model;

/// Files and commands in memory, none of whose calls fails.
///
/// A name that no file has is that of an empty file. A read gives at most `piece` bytes.
#[derive(Drop)]
pub struct QuietInputs {
    files: Vec<NamedFile>,
    opened: Option<usize>,
    opened_at: usize,
    commands: Vec<u8>,
    commands_at: usize,
    piece: usize,
}

impl Model for QuietInputs {
    ghost use Rattle.std.specs.Prelude.{◌≤◌, drop, map, vec_len};
    ghost use Rattle.mk_io.specs.Quiet.{QuietIn};

    ghost Value = { QuietIn };

    ghost use Rattle.mk_io.specs.Memory.{named, bytes_at, IsOpened};

    ghost view = { λ m. record {
      files = map named m.files.items;
      market = drop m.opened_at (bytes_at (map named m.files.items) m.opened);
      commands = drop m.commands_at m.commands.items;
      piece = m.piece;
    } };

    ghost invariant = { λ m. (1 ≤ m.piece) × (m.commands_at ≤ vec_len m.commands) × IsOpened m.files.items m.opened m.opened_at };
}

impl QuietInputs {
    /// Inputs with these files and commands, of which no market is opened.
    pub fn new(files: Vec<NamedFile>, commands: Vec<u8>, piece: usize) -> QuietInputs
        requires { 1 ≤ piece }
        ensures { result ≡ record {
          files = map named files.items;
          market = [];
          commands = commands.items;
          piece = piece;
        } }
    {
        QuietInputs {
            files,
            opened: None,
            opened_at: 0,
            commands,
            commands_at: 0,
            piece,
        }
    }
}

impl Inputs for QuietInputs {
    ghost admits = { λ _. Unit {0} };

    ghost file = { λ m name. Some (file_or_empty m.files name) };

    ghost market = { λ m. Some m.market };

    ghost commands = { λ m. Some m.commands };

    ghost faults = { λ _. 0 };

    fn open_market(&mut self, name: &str) -> Result<(), InputFailed>
        ensures cause { HasCause 0 0 result }
        ensures opened { OnOk result (Some self.new.market ≡ Some (file_or_empty self.old.files name.now)) }
        ensures not_opened { OnErr result (Some self.new.market ≡ Some self.old.market) }
        ensures rest { LeavesRest (Some self.old.commands) (Some self.new.commands)
            (λ name. Some (file_or_empty self.old.files name)) (λ name. Some (file_or_empty self.new.files name)) }

        ensures answers { IsOk result }
        ensures ok { self.new ≡ record self.old { market = file_or_empty self.old.files name.now } }
    {
        self.opened = index_of(&self.files, name);
        self.opened_at = 0;
        Ok(())
    }

    fn read_market(&mut self, buf: &mut [u8]) -> Result<usize, InputFailed>
        requires { 0 < length buf.old }
        ensures cause { HasCause 0 0 result }
        ensures reads { Reads (Some self.old.market) (Some self.new.market) result buf.new }
        ensures rest { LeavesRest (Some self.old.commands) (Some self.new.commands)
            (λ name. Some (file_or_empty self.old.files name)) (λ name. Some (file_or_empty self.new.files name)) }

        ensures answers { IsOk result }
        ensures amount { IfOk result (λ n. n ≡ piece_of self.old.piece (length self.old.market) (length buf.old)) }
        ensures ok { IfOk result (λ n. self.new ≡ record self.old { market = drop n self.old.market }) }
    {
        match self.opened {
            None => Ok(0),
            Some(index) => {
                let bytes = self.files[index].bytes.as_slice();
                let count = copy_piece(&bytes[self.opened_at..], self.piece, buf);
                self.opened_at += count;
                Ok(count)
            }
        }
    }

    fn read_commands(&mut self, buf: &mut [u8]) -> Result<usize, InputFailed>
        requires { 0 < length buf.old }
        ensures cause { HasCause 0 0 result }
        ensures reads { Reads (Some self.old.commands) (Some self.new.commands) result buf.new }
        ensures rest { LeavesRest (Some self.old.market) (Some self.new.market)
            (λ name. Some (file_or_empty self.old.files name)) (λ name. Some (file_or_empty self.new.files name)) }

        ensures answers { IsOk result }
        ensures amount { IfOk result (λ n. n ≡ piece_of self.old.piece (length self.old.commands) (length buf.old)) }
        ensures ok { IfOk result (λ n. self.new ≡ record self.old { commands = drop n self.old.commands }) }
    {
        let count = copy_piece(&self.commands[self.commands_at..], self.piece, buf);
        self.commands_at += count;
        Ok(count)
    }
}

/// A sink that takes every piece whole, and tells nothing of the bytes.
#[derive(Drop)]
pub struct QuietSink;

impl QuietSink {
    /// A sink to which nothing was written.
    pub fn new() -> QuietSink {
        QuietSink
    }
}

impl Sink for QuietSink {
    ghost written = { λ _. None };

    ghost faults = { λ _. 0 };

    fn write(&mut self, bytes: &[u8]) -> Result<usize, SinkFailed>
        ensures cause { HasCause 0 0 result }
        ensures writes { Writes None None result bytes.now }

        ensures whole { result ≡ Ok (length bytes.now) }
    {
        Ok(bytes.len())
    }
}
