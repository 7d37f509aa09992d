//! Bytes that were read and are still to be taken.

ghost use Rattle.std.specs.Prelude.{◌≡◌, ℕ, ◌<◌, ◌≤◌, ◌↔◌, List, [], ◌∷◌, Option, Ok, true, IsTrue, Contains, length, drop};
ghost use Rattle.mk_io.specs.Outside.{HasCause, LeavesRest};
ghost use Rattle.mk_io.specs.inner.Cut.{Refills};

use crate::outside::{InputFailed, Inputs};
use memchr::memrchr;
use std::marker::Model;

const READ_BYTES: usize = 4096;

/// The bytes that were read and are still to be taken.
#[derive(Drop)]
pub struct Pending {
    buf: [u8; READ_BYTES],
    from: usize,
    to: usize,
    /// Where the last LF of the last read stands.
    last_lf: Option<usize>,
}

impl Model for Pending {
    ghost use Rattle.std.specs.Prelude.{ℕ, ◌-◌, ◌≤◌, List, take, drop};
    ghost use Rattle.memchr.specs.Find.{IsLastByte, is_byte};

    ghost Value = { List ℕ };

    ghost view = { λ p. take (p.to - p.from) (drop p.from p.buf) };

    ghost invariant = { λ p. (p.from ≤ p.to) × (p.to ≤ 4096)
        × IsLastByte (is_byte 10) (take p.to p.buf) p.last_lf };
}

impl Pending {
    /// No bytes.
    pub fn new() -> Pending
        ensures { result ≡ [] }
    {
        Pending {
            buf: [0; READ_BYTES],
            from: 0,
            to: 0,
            last_lf: None,
        }
    }

    /// Whether a byte is there, after a read where none was.
    // Asked for each byte of a line, so within the loop that asks; the read is a call of its own.
    #[inline(always)]
    pub fn refill<I: Inputs>(&mut self, inputs: &mut I) -> Result<bool, InputFailed>
        ensures cause { HasCause (I.faults inputs.old) (I.faults inputs.new) result }
        ensures bytes { Refills self.old self.new (I.commands inputs.old) (I.commands inputs.new) result }
        ensures rest { LeavesRest (I.market inputs.old) (I.market inputs.new) (I.file inputs.old) (I.file inputs.new) }
        ensures there { 0 < length self.old → result ≡ Ok true }
        ensures kept { 0 < length self.old → self.new ≡ self.old }
        ensures unread { 0 < length self.old → inputs.new ≡ inputs.old }
    {
        if self.from < self.to {
            return Ok(true);
        }
        self.read_more(inputs)
    }

    // A read where no byte was.
    #[inline(never)]
    fn read_more<I: Inputs>(&mut self, inputs: &mut I) -> Result<bool, InputFailed>
        requires { length self.old ≡ 0 }
        ensures cause { HasCause (I.faults inputs.old) (I.faults inputs.new) result }
        ensures bytes { Refills self.old self.new (I.commands inputs.old) (I.commands inputs.new) result }
        ensures rest { LeavesRest (I.market inputs.old) (I.market inputs.new) (I.file inputs.old) (I.file inputs.new) }
    {
        self.from = 0;
        self.to = 0;
        self.last_lf = None;
        let count = inputs.read_commands(&mut self.buf)?;
        self.to = count;
        self.last_lf = memrchr(b'\n', &self.buf[..count]);
        Ok(count > 0)
    }

    /// How many bytes there are.
    pub fn len(&self) -> usize
        ensures { result ≡ length self.now }
    {
        self.to - self.from
    }

    /// Whether an LF is among them.
    pub fn holds_lf(&self) -> bool
        ensures { IsTrue result ↔ Contains self.now 10 }
    {
        match self.last_lf {
            Some(at) => self.from <= at,
            None => false,
        }
    }

    /// The bytes, in their order.
    pub fn as_slice(&self) -> &[u8]
        ensures { result.now ≡ self.now }
    {
        &self.buf[self.from..self.to]
    }

    /// Passes over the first bytes.
    pub fn pass(&mut self, count: usize)
        requires { count ≤ length self.old }
        ensures { self.new ≡ drop count self.old }
    {
        self.from += count;
    }

    /// Takes the next byte.
    pub fn next_byte(&mut self) -> u8
        requires { 0 < length self.old }
        ensures { self.old ≡ result ∷ self.new }
    {
        let byte = self.buf[self.from];
        self.from += 1;
        byte
    }
}
