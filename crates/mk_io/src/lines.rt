//! The lines of a stream of commands, cut with buffers of fixed size.

ghost use Rattle.std.specs.Prelude.{◌≡◌, ◌≢◌, ℕ, ◌+◌, ◌<◌, ◌≤◌, ◌↔◌, List, [], Option, None, IsTrue, length};
ghost use Rattle.mk_io.specs.Outside.{LeavesRest};
ghost use Rattle.mk_io.specs.Stream.{max_stream_lines, max_stream_bytes};
ghost use Rattle.mk_io.specs.Cutting.{fresh, IsAnswer, IsFreshAnswer, IsWithinLimits, HasReadCause, CountsReadFault, HoldsLine, IsLine};
ghost use Rattle.mk_io.specs.inner.Giving.{GivesText};

use crate::cut::{Cut, cut_line};
use crate::outside::Inputs;
use crate::pending::Pending;
use crate::text::Text;
use std::marker::Model;

const MAX_STREAM_LINES: u64 = 1_000_000;

const MAX_STREAM_BYTES: u64 = 1_073_741_824;

/// What `Lines::next` found.
#[derive(Clone, Copy, Debug, PartialEq, Eq)]
pub enum Next {
    /// A line of at most 1,024 bytes: `Lines::line` has it, without its LF and without one CR at its end.
    Line,
    /// A line of more bytes, which was passed over whole.
    Long,
    /// The stream is at its end.
    End,
    /// A read failed.
    ReadFault,
    /// The next line is the 1,000,001st, or holds the 1,073,741,825th byte of the stream.
    TooMany,
}

const _: () = prove!(size_of::<Next>() <= 1);

/// Cuts a stream of commands into its lines.
#[derive(Drop)]
pub struct Lines {
    pending: Pending,
    text: Text,
    given: u64,
    spent: u64,
    last: Option<Next>,
}

impl Model for Lines {
    ghost use Rattle.std.specs.Prelude.{◌≤◌};
    ghost use Rattle.mk_io.specs.Cutting.{Cutting};
    ghost use Rattle.mk_io.specs.Stream.{max_stream_lines, max_stream_bytes};

    ghost Value = { Cutting };

    ghost view = { λ a. record {
      left = a.pending;
      line = a.text;
      given = a.given;
      spent = a.spent;
      last = a.last;
    } };

    ghost invariant = { λ a. (a.given ≤ max_stream_lines) × (a.spent ≤ max_stream_bytes) };
}

impl Lines {
    /// Has read nothing.
    pub fn new() -> Lines
        ensures { result ≡ fresh }
    {
        Lines {
            pending: Pending::new(),
            text: Text::new(),
            given: 0,
            spent: 0,
            last: None,
        }
    }

    /// The text of the line of the last answer `Line`; after another answer, no bytes.
    pub fn line(&self) -> &[u8]
        ensures { result.now ≡ self.now.line }
    {
        self.text.as_slice()
    }

    /// Whether a whole line was read and not given. Then `next` gives this line, and reads nothing.
    pub fn holds_line(&self) -> bool
        ensures { IsTrue result ↔ HoldsLine self.now }
    {
        self.last.is_none()
            && self.given < MAX_STREAM_LINES
            && self.pending.len() as u64 <= MAX_STREAM_BYTES - self.spent
            && self.pending.holds_lf()
    }

    /// Takes the next line of the stream.
    ///
    /// The stream is the bytes that were taken and not given, and then those that `inputs` has left. After `End`,
    /// `ReadFault` or `TooMany` each call gives that answer again, and reads nothing; after a last line without LF each
    /// gives `End`.
    pub fn next<I: Inputs>(&mut self, inputs: &mut I) -> Next
        ensures answer { IsAnswer result self.old self.new (I.commands inputs.old) (I.commands inputs.new) }
        ensures within { IsWithinLimits self.new }
        ensures rest { LeavesRest (I.market inputs.old) (I.market inputs.new) (I.file inputs.old) (I.file inputs.new) }
        ensures cause { HasReadCause result self.old (I.faults inputs.old) (I.faults inputs.new) }
        ensures unread { HoldsLine self.old → inputs.new ≡ inputs.old }
        ensures held { HoldsLine self.old → IsLine result }
    {
        match self.last {
            Some(last) => self.stop(last),
            None => self.fresh_answer(inputs),
        }
    }

    // The answer where no earlier one stays.
    fn fresh_answer<I: Inputs>(&mut self, inputs: &mut I) -> Next
        requires { self.old.last ≡ None }
        ensures answer { IsFreshAnswer result self.old self.new (I.commands inputs.old) (I.commands inputs.new) }
        ensures within { IsWithinLimits self.new }
        ensures rest { LeavesRest (I.market inputs.old) (I.market inputs.new) (I.file inputs.old) (I.file inputs.new) }
        ensures cause { CountsReadFault result (I.faults inputs.old) (I.faults inputs.new) }
        ensures unread { HoldsLine self.old → inputs.new ≡ inputs.old }
        ensures held { HoldsLine self.old → IsLine result }
    {
        match self.pending.refill(inputs) {
            Err(_) => self.stop(Next::ReadFault),
            Ok(false) => self.stop(Next::End),
            Ok(true) => self.next_line(inputs),
        }
    }

    // The answer where a byte is there.
    fn next_line<I: Inputs>(&mut self, inputs: &mut I) -> Next
        requires there { 0 < length self.old.left }
        requires goes_on { self.old.last ≡ None }
        ensures answer { IsFreshAnswer result self.old self.new (I.commands inputs.old) (I.commands inputs.new) }
        ensures not_end { result ≢ Next.End }
        ensures within { IsWithinLimits self.new }
        ensures rest { LeavesRest (I.market inputs.old) (I.market inputs.new) (I.file inputs.old) (I.file inputs.new) }
        ensures cause { CountsReadFault result (I.faults inputs.old) (I.faults inputs.new) }
        ensures unread { HoldsLine self.old → inputs.new ≡ inputs.old }
        ensures held { HoldsLine self.old → IsLine result }
    {
        if self.given == MAX_STREAM_LINES {
            return self.stop(Next::TooMany);
        }
        let room = MAX_STREAM_BYTES - self.spent;
        match cut_line(&mut self.pending, &mut self.text, inputs, room) {
            Cut::Fault => self.stop(Next::ReadFault),
            Cut::Full => self.stop(Next::TooMany),
            Cut::Whole(size) => self.give(size, None),
            Cut::Last(size) => self.give(size, Some(Next::End)),
        }
    }

    // Gives the line whose first bytes are in the text, and sets the answer that stays behind it.
    fn give(&mut self, size: u64, last: Option<Next>) -> Next
        requires line_fits { self.old.given < max_stream_lines }
        requires bytes_fit { self.old.spent + size ≤ max_stream_bytes }
        ensures settled { GivesText self.old self.new size last result }
    {
        self.last = last;
        self.given += 1;
        self.spent += size;
        if self.text.settle() {
            Next::Line
        } else {
            Next::Long
        }
    }

    // Gives an answer that stays.
    fn stop(&mut self, last: Next) -> Next
        ensures answer { result ≡ last }
        ensures stays { self.new ≡ record self.old { line = []; last = Some last } }
        ensures within { IsWithinLimits self.new }
    {
        self.text.clear();
        self.last = Some(last);
        last
    }
}
