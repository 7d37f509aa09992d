//! The right lines of a transcript, and what is found of one line more.

ghost use Rattle.std.specs.Prelude.{◌≡◌, ◌+◌, ◌^◌, ◌<◌, ◌≤◌, ◌++◌, true, false, length};
ghost use Rattle.std.specs.Prelude.{None, IfNone};
ghost use Rattle.mk_audit.specs.Below.{StreamLine, text, is_not_blank, max_stream_lines, Market};
ghost use Rattle.mk_audit.specs.Below.{IsCommand, command_of, IsReply, OfCommand, IsAt, Asks};
ghost use Rattle.mk_audit.specs.Below.{IsFrontOf, IsKnown};
ghost use Rattle.mk_audit.specs.inner.Progress.{StandsAt, standing_at, left_of};
ghost use Rattle.mk_audit.specs.inner.Progress.{HoldsBytes, HoldsReply, GoesOnBy, Holds};
ghost use Rattle.mk_audit.specs.inner.Progress.{EndsBehind};

use crate::lines::first_line;
use crate::verdict::{AuditFault, Verdict};
use mk_command::{CommandRef, Words, read_command};
use mk_judge::Judged;
use mk_known::{Known, follow};
use mk_net::NoMemory;
use mk_reply::{Reply, Unread, read_reply};
use mk_session::{LineBuffer, TreeMarket, is_blank, print_plain_price};
use mk_verify::judge;
use std::alloc::Global;

/// How far a transcript is right.
#[derive(Drop)]
pub(crate) struct Front {
    /// What is known of the market behind the right lines.
    pub known: Known,
    /// How many bytes they have.
    pub place: usize,
    /// How many they are, the ready line among them.
    pub right: u64,
}

/// Room for what is read and printed on the way, which is made once and holds nothing between two
/// lines.
#[derive(Drop)]
pub(crate) struct Room {
    /// Where the longer words of a command are put.
    pub words: Words,
    /// Where a line is printed.
    pub print: LineBuffer,
}

impl Front {
    /// Holds what stands next against a line of the commands that is not too long. None where the
    /// audit goes on; else how it ends. A blank line has no reply.
    pub(crate) fn hold_text(
        &mut self,
        alloc: Global,
        market: &mut TreeMarket,
        line: &[u8],
        room: &mut Room,
        transcript: &[u8],
    ) -> Option<Result<Verdict, AuditFault>>
        requires place { self.old.place ≤ length transcript.now }
        requires count { self.old.right ≤ max_stream_lines }
        requires known { StandsAt market.old.market market.old.standing self.old }
        ensures market { (start : Market) → IsAt start market.old → IsAt start market.new }
        ensures place { IfNone result (self.new.place ≤ length transcript.now) }
        ensures count { IfNone result (self.new.right ≤ self.old.right + 1) }
        ensures known { IfNone result
            (StandsAt market.new.market market.new.standing self.new) }
        ensures found { Holds result market.old.market market.old.standing market.new.standing
            (text line.now) transcript.now self.old self.new }
    {
        if is_blank(line) {
            return None;
        }
        match read_command(line, &mut room.words) {
            Err(_) => self.hold_bytes(b"refused syntax\n", transcript),
            Ok(command) => {
                self.hold_command(alloc, market, &command, &mut room.print, transcript)
            }
        }
    }

    /// Holds what stands next against the one line that is right.
    pub(crate) fn hold_bytes(
        &mut self,
        line: &[u8],
        transcript: &[u8],
    ) -> Option<Result<Verdict, AuditFault>>
        requires place { self.old.place ≤ length transcript.now }
        requires count { self.old.right ≤ max_stream_lines }
        ensures place { IfNone result (self.new.place ≤ length transcript.now) }
        ensures count { IfNone result (self.new.right ≤ self.old.right + 1) }
        ensures known { self.new.known ≡ self.old.known }
        ensures found { HoldsBytes result line.now transcript.now self.old self.new }
    {
        if self.passes(line, transcript) {
            None
        } else {
            Some(Ok(self.wrong()))
        }
    }

    /// Whether a line stands next, which is passed then.
    fn passes(&mut self, line: &[u8], transcript: &[u8]) -> bool
        requires place { self.old.place ≤ length transcript.now }
        requires count { self.old.right ≤ max_stream_lines }
        ensures place { self.new.place ≤ length transcript.now }
        ensures count { self.new.right ≤ self.old.right + 1 }
        ensures known { self.new.known ≡ self.old.known }
        ensures passed { result ≡ true →
            (left_of transcript.now self.old ≡ line.now ++ left_of transcript.now self.new)
            × (self.new.right ≡ self.old.right + 1) }
        ensures still { result ≡ false → (self.new ≡ self.old)
            × ¬ IsFrontOf (left_of transcript.now self.old) line.now }
    {
        if self.left(transcript).starts_with(line) {
            self.pass(line.len());
            true
        } else {
            false
        }
    }

    /// Holds the line that stands next against a command.
    fn hold_command(
        &mut self,
        alloc: Global,
        market: &mut TreeMarket,
        command: &CommandRef,
        print: &mut LineBuffer,
        transcript: &[u8],
    ) -> Option<Result<Verdict, AuditFault>>
        requires place { self.old.place ≤ length transcript.now }
        requires count { self.old.right ≤ max_stream_lines }
        requires known { StandsAt market.old.market market.old.standing self.old }
        requires command { IsCommand (command_of command.now) }
        ensures market { (start : Market) → IsAt start market.old → IsAt start market.new }
        ensures place { IfNone result (self.new.place ≤ length transcript.now) }
        ensures count { IfNone result (self.new.right ≤ self.old.right + 1) }
        ensures known { IfNone result
            (StandsAt market.new.market market.new.standing self.new) }
        ensures found { (line : StreamLine) → is_not_blank line ≡ true →
            Asks line (OfCommand (command_of command.now)) →
            Holds result market.old.market market.old.standing market.new.standing line
            transcript.now self.old self.new }
    {
        if self.passes_price(market, command, print, transcript) {
            None
        } else {
            self.hold_line(alloc, market, command, transcript)
        }
    }

    /// Whether a price is asked that the market itself tells by the line that stands next, which is
    /// passed then. Most prices are, and no judge has to be asked; of any other line this says
    /// nothing.
    fn passes_price(
        &mut self,
        market: &mut TreeMarket,
        command: &CommandRef,
        print: &mut LineBuffer,
        transcript: &[u8],
    ) -> bool
        requires place { self.old.place ≤ length transcript.now }
        requires count { self.old.right ≤ max_stream_lines }
        requires known { StandsAt market.old.market market.old.standing self.old }
        ensures market { market.new.market ≡ market.old.market }
        ensures standing { market.new.standing ≡ market.old.standing }
        ensures place { self.new.place ≤ length transcript.now }
        ensures count { self.new.right ≤ self.old.right + 1 }
        ensures known { self.new.known ≡ self.old.known }
        ensures passed { result ≡ true → (line : StreamLine) → is_not_blank line ≡ true →
            Asks line (OfCommand (command_of command.now)) →
            Holds None market.old.market market.old.standing market.new.standing line
            transcript.now self.old self.new }
        ensures still { result ≡ false → self.new ≡ self.old }
    {
        if print_plain_price(market, command, print) {
            self.passes(print.as_bytes(), transcript)
        } else {
            false
        }
    }

    /// Holds the line that stands next against a command, by what a judge says of the reply.
    fn hold_line(
        &mut self,
        alloc: Global,
        market: &mut TreeMarket,
        command: &CommandRef,
        transcript: &[u8],
    ) -> Option<Result<Verdict, AuditFault>>
        requires place { self.old.place ≤ length transcript.now }
        requires count { self.old.right ≤ max_stream_lines }
        requires known { StandsAt market.old.market market.old.standing self.old }
        requires command { IsCommand (command_of command.now) }
        ensures market { (start : Market) → IsAt start market.old → IsAt start market.new }
        ensures place { IfNone result (self.new.place ≤ length transcript.now) }
        ensures count { IfNone result (self.new.right ≤ self.old.right + 1) }
        ensures known { IfNone result
            (StandsAt market.new.market market.new.standing self.new) }
        ensures found { (line : StreamLine) → is_not_blank line ≡ true →
            Asks line (OfCommand (command_of command.now)) →
            Holds result market.old.market market.old.standing market.new.standing line
            transcript.now self.old self.new }
    {
        let Some(line) = first_line(self.left(transcript)) else {
            return Some(Ok(self.wrong()));
        };
        match read_reply(alloc, line) {
            Ok(reply) => self.hold_reply(alloc, market, command, &reply, line.len() + 1),
            Err(Unread::Syntax) => Some(Ok(self.wrong())),
            Err(Unread::Memory) => Some(Err(AuditFault::Memory)),
        }
    }

    /// Holds a reply of so many bytes, with its LF, against a command.
    fn hold_reply(
        &mut self,
        alloc: Global,
        market: &mut TreeMarket,
        command: &CommandRef,
        reply: &Reply,
        size: usize,
    ) -> Option<Result<Verdict, AuditFault>>
        requires room { self.old.place + size < 2 ^ 64 }
        requires count { self.old.right ≤ max_stream_lines }
        requires known { StandsAt market.old.market market.old.standing self.old }
        requires command { IsCommand (command_of command.now) }
        requires reply { IsReply reply.now }
        ensures market { (start : Market) → IsAt start market.old → IsAt start market.new }
        ensures place { IfNone result (self.new.place ≡ self.old.place + size) }
        ensures count { IfNone result (self.new.right ≡ self.old.right + 1) }
        ensures known { IfNone result
            (StandsAt market.new.market market.new.standing self.new) }
        ensures found { HoldsReply result market.old.market
            (standing_at market.old.standing self.old) (standing_at market.new.standing self.new)
            (command_of command.now) reply.now self.old.right }
    {
        match judge(market, &self.known, command, reply) {
            Judged::Allowed => self.go_on(alloc, market, command, reply, size),
            Judged::Wrong => Some(Ok(self.wrong())),
            Judged::Unclear => Some(Ok(self.unsure())),
        }
    }

    /// Goes on behind an allowed reply of so many bytes to a command.
    fn go_on(
        &mut self,
        alloc: Global,
        market: &mut TreeMarket,
        command: &CommandRef,
        reply: &Reply,
        size: usize,
    ) -> Option<Result<Verdict, AuditFault>>
        requires room { self.old.place + size < 2 ^ 64 }
        requires count { self.old.right ≤ max_stream_lines }
        requires known { IsKnown market.old.market (market.old.standing).history self.old.known }
        requires reply { IsReply reply.now }
        ensures place { IfNone result (self.new.place ≡ self.old.place + size) }
        ensures count { IfNone result (self.new.right ≡ self.old.right + 1) }
        ensures next { GoesOnBy result market.old market.new self.old self.new
            (command_of command.now) reply.now }
    {
        match follow(alloc, market, &mut self.known, command, reply) {
            Ok(()) => {
                self.pass(size);
                None
            }
            Err(NoMemory) => Some(Err(AuditFault::Memory)),
        }
    }

    /// One line more is right, which has so many bytes.
    fn pass(&mut self, size: usize)
        requires room { self.old.place + size < 2 ^ 64 }
        requires count { self.old.right ≤ max_stream_lines }
        ensures known { self.new.known ≡ self.old.known }
        ensures place { self.new.place ≡ self.old.place + size }
        ensures count { self.new.right ≡ self.old.right + 1 }
    {
        self.place += size;
        self.right += 1;
    }

    /// What is left of a transcript behind the right lines.
    fn left<'t>(&self, transcript: &'t [u8]) -> &'t [u8]
        requires { self.now.place ≤ length transcript.now }
        ensures { result.now ≡ left_of transcript.now self.now }
    {
        &transcript[self.place..]
    }

    /// The line behind the right ones is not.
    fn wrong(&self) -> Verdict
        requires { self.now.right ≤ max_stream_lines + 1 }
        ensures { result ≡ Verdict.No (self.now.right + 1) }
    {
        let line = self.right + 1;
        Verdict::No { line }
    }

    /// The line behind the right ones may be.
    fn unsure(&self) -> Verdict
        requires { self.now.right ≤ max_stream_lines + 1 }
        ensures { result ≡ Verdict.Unsure (self.now.right + 1) }
    {
        let line = self.right + 1;
        Verdict::Unsure { line }
    }

    /// What is found where no line of the commands is left.
    pub(crate) fn end(&self, transcript: &[u8]) -> Verdict
        requires place { self.now.place ≤ length transcript.now }
        requires count { self.now.right ≤ max_stream_lines + 1 }
        ensures { EndsBehind result (left_of transcript.now self.now) self.now.right }
    {
        if self.place == transcript.len() {
            Verdict::Yes { lines: self.right }
        } else {
            self.wrong()
        }
    }
}
