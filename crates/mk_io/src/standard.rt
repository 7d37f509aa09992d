//! The outside as it is: files, standard input and standard output.

ghost use Rattle.std.specs.Prelude.{◌≡◌, ◌≤◌, None};
ghost use Rattle.mk_io.specs.Outside.{Rose};

use crate::outside::{InputFailed, Inputs, Sink, SinkFailed};
use std::fs;
use std::io::Read;
use std::marker::Model;
use std::rt::Files;

/// Files, and the standard input as the commands. Nothing is told of their bytes.
#[derive(Drop)]
pub struct StdInputs<'a, R: Files + Input> {
    rt: &'a R,
    market: Option<R::File>,
    commands: R::Reader,
    faults: u64,
}

// seen as the number of faults
impl<'a, R: Files + Input> Model for StdInputs<'a, R> {
    ghost use Rattle.std.specs.Prelude.{ℕ};

    ghost Value = { ℕ };

    ghost view = { λ s. s.faults };
}

impl<'a, R: Files + Input> StdInputs<'a, R> {
    /// No market is opened, and nothing was read.
    pub fn new(rt: &'a R) -> StdInputs<'a, R>
        ensures { result ≡ 0 }
    {
        StdInputs {
            rt,
            market: None,
            commands: rt.reader(),
            faults: 0,
        }
    }

    // Counts a fault.
    fn fail(&mut self) -> InputFailed
        ensures later { self.old ≤ self.new }
        ensures rose { Rose self.old self.new }
    {
        self.faults = self.faults.saturating_add(1);
        InputFailed
    }
}

impl<'a, R: Files + Input> Inputs for StdInputs<'a, R> {
    ghost admits = { λ _. Unit {0} };

    ghost file = { λ _ _. None };

    ghost market = { λ _. None };

    ghost commands = { λ _. None };

    ghost faults = { λ s. s };

    fn open_market(&mut self, name: &str) -> Result<(), InputFailed> {
        match fs::open(self.rt, name) {
            Ok(file) => {
                self.market = Some(file);
                Ok(())
            }
            Err(_) => Err(self.fail()),
        }
    }

    fn read_market(&mut self, buf: &mut [u8]) -> Result<usize, InputFailed> {
        match &mut self.market {
            None => Ok(0),
            Some(file) => match file.read(buf) {
                Ok(count) => Ok(count),
                Err(_) => Err(self.fail()),
            },
        }
    }

    fn read_commands(&mut self, buf: &mut [u8]) -> Result<usize, InputFailed> {
        match self.commands.read(buf) {
            Ok(count) => Ok(count),
            Err(_) => Err(self.fail()),
        }
    }
}

/// The standard output, where each write goes through at once. Nothing is told of the bytes.
#[derive(Drop)]
pub struct StdSink<'a, R: Print> {
    rt: &'a R,
    faults: u64,
}

// seen as the number of faults
impl<'a, R: Print> Model for StdSink<'a, R> {
    ghost use Rattle.std.specs.Prelude.{ℕ};

    ghost Value = { ℕ };

    ghost view = { λ s. s.faults };
}

impl<'a, R: Print> StdSink<'a, R> {
    /// Nothing was written.
    pub fn new(rt: &'a R) -> StdSink<'a, R>
        ensures { result ≡ 0 }
    {
        StdSink { rt, faults: 0 }
    }
}

impl<'a, R: Print> Sink for StdSink<'a, R> {
    ghost written = { λ _. None };

    ghost faults = { λ s. s };

    fn write(&mut self, bytes: &[u8]) -> Result<usize, SinkFailed> {
        match self.rt.write_some(bytes) {
            // a writer that takes nothing of a piece would be asked for ever
            Ok(count) if count > 0 || bytes.is_empty() => Ok(count),
            _ => {
                self.faults = self.faults.saturating_add(1);
                Err(SinkFailed)
            }
        }
    }
}
