//! A whole audit: the lines of the commands, one after another, and the lines of the transcript
//! beside them.

ghost use Rattle.std.specs.Prelude.{◌≡◌, ℕ, ◌+◌, ◌≤◌, List, length, Some};
ghost use Rattle.std.specs.Prelude.{IfNone, IfSome, MatchOption};
ghost use Rattle.mk_audit.specs.Below.{max_stream_lines, fresh, GoesOn, Market, IsTreeOf};
ghost use Rattle.mk_audit.specs.Below.{market_of, IsMarket, opening, IsAt};
ghost use Rattle.mk_audit.specs.Verdicts.{AuditEnds, HasAuditCause};
ghost use Rattle.mk_audit.specs.inner.Progress.{StandsAt, IsSoFar};

use crate::front::{Front, Room};
use crate::ready::behind_ready_line;
use crate::verdict::{AuditFault, Verdict};
use mk_command::Words;
use mk_file::MarketFile;
use mk_io::{Inputs, Lines, Next};
use mk_known::Known;
use mk_session::{LineBuffer, TreeMarket, open};
use std::alloc::Global;

/// Audits the transcript of a market's commands: holds each of its lines against what the market
/// allows, and stops at the first that it cannot show to be allowed.
///
/// No command is read behind a verdict. A fault comes only where no verdict came before.
pub fn audit<I: Inputs>(
    alloc: Global,
    file: MarketFile,
    inputs: &mut I,
    transcript: &[u8],
) -> Result<Verdict, AuditFault>
    requires tree { IsTreeOf file.net file.tree }
    ensures ends { (all : List ℕ) → I.commands inputs.old ≡ Some all →
        AuditEnds result (market_of file) all transcript.now }
    ensures causes { HasAuditCause result (I.faults inputs.old) (I.faults inputs.new) }
    ensures opened { I.market inputs.new ≡ I.market inputs.old }
{
    match open(alloc, file) {
        Ok(mut market) => {
            let ended = audit_market(alloc, &mut market, inputs, transcript);
            // Let go by a call: the end of its scope would let go of each part, and take far longer
            // to prove.
            drop(market);
            ended
        }
        Err(_) => Err(AuditFault::Memory),
    }
}

/// Audits the transcript of an opened market.
fn audit_market<I: Inputs>(
    alloc: Global,
    market: &mut TreeMarket,
    inputs: &mut I,
    transcript: &[u8],
) -> Result<Verdict, AuditFault>
    requires is_market { IsMarket market.old.market }
    requires opening { market.old.standing ≡ opening }
    ensures ends { (all : List ℕ) → I.commands inputs.old ≡ Some all →
        AuditEnds result market.old.market all transcript.now }
    ensures causes { HasAuditCause result (I.faults inputs.old) (I.faults inputs.new) }
    ensures opened { I.market inputs.new ≡ I.market inputs.old }
{
    let Some(place) = behind_ready_line(market, transcript) else {
        return Ok(Verdict::No { line: 1 });
    };
    let mut auditor = Auditor {
        lines: Lines::new(),
        room: Room {
            words: Words::default(),
            print: LineBuffer::new(),
        },
        front: Front {
            known: Known::at_opening(alloc, market),
            place,
            right: 1,
        },
    };
    auditor.hold_lines(alloc, market, inputs, transcript)
}

/// What stands between the commands and their transcript.
#[derive(Drop)]
struct Auditor {
    /// Reads the commands and cuts them into lines.
    lines: Lines,
    /// Room for the words and the print of a line.
    room: Room,
    /// How far the transcript is right.
    front: Front,
}

impl Auditor {
    /// Holds all lines of the commands, until the audit ends.
    fn hold_lines<I: Inputs>(
        &mut self,
        alloc: Global,
        market: &mut TreeMarket,
        inputs: &mut I,
        transcript: &[u8],
    ) -> Result<Verdict, AuditFault>
        requires unread { self.old.lines ≡ fresh }
        requires place { self.old.front.place ≤ length transcript.now }
        requires count { self.old.front.right ≡ 1 }
        requires known { StandsAt market.old.market market.old.standing self.old.front }
        ensures ends { (start : Market) (all : List ℕ) → IsMarket start → IsAt start market.old →
            IsSoFar start all self.old.lines (I.commands inputs.old) market.old.standing
            transcript.now self.old.front →
            AuditEnds result start all transcript.now }
        ensures causes { HasAuditCause result (I.faults inputs.old) (I.faults inputs.new) }
        ensures opened { I.market inputs.new ≡ I.market inputs.old }
    {
        loop {
            if let Some(ended) = self.take_line(alloc, market, inputs, transcript) {
                return ended;
            }
        }
    }

    /// Takes the next line of the commands, and holds what stands next in the transcript against
    /// it. None where the audit goes on; else how it ends.
    fn take_line<I: Inputs>(
        &mut self,
        alloc: Global,
        market: &mut TreeMarket,
        inputs: &mut I,
        transcript: &[u8],
    ) -> Option<Result<Verdict, AuditFault>>
        requires goes_on { GoesOn self.old.lines.last }
        requires place { self.old.front.place ≤ length transcript.now }
        requires count { self.old.front.right ≤ self.old.lines.given + 1 }
        requires known { StandsAt market.old.market market.old.standing self.old.front }
        ensures market { (start : Market) → IsAt start market.old → IsAt start market.new }
        ensures goes_on { IfNone result (GoesOn self.new.lines.last) }
        ensures given { IfNone result (self.new.lines.given ≡ self.old.lines.given + 1) }
        ensures within { self.new.lines.given ≤ max_stream_lines }
        ensures place { IfNone result (self.new.front.place ≤ length transcript.now) }
        ensures count { IfNone result (self.new.front.right ≤ self.new.lines.given + 1) }
        ensures known { IfNone result
            (StandsAt market.new.market market.new.standing self.new.front) }
        ensures so_far { IfNone result ((start : Market) (all : List ℕ) → IsAt start market.old →
            IsSoFar start all self.old.lines (I.commands inputs.old) market.old.standing
            transcript.now self.old.front →
            IsSoFar start all self.new.lines (I.commands inputs.new) market.new.standing
            transcript.now self.new.front) }
        ensures ended { IfSome result (λ end. (start : Market) (all : List ℕ) → IsMarket start →
            IsAt start market.old →
            IsSoFar start all self.old.lines (I.commands inputs.old) market.old.standing
            transcript.now self.old.front →
            AuditEnds end start all transcript.now) }
        ensures causes { MatchOption result (I.faults inputs.new ≡ I.faults inputs.old)
            (λ end. HasAuditCause end (I.faults inputs.old) (I.faults inputs.new)) }
        ensures opened { I.market inputs.new ≡ I.market inputs.old }
    {
        match self.lines.next(inputs) {
            Next::Line => {
                let line = self.lines.line();
                let room = &mut self.room;
                self.front.hold_text(alloc, market, line, room, transcript)
            }
            Next::Long => self.front.hold_bytes(b"refused long\n", transcript),
            Next::End => Some(Ok(self.front.end(transcript))),
            Next::TooMany => Some(Err(AuditFault::TooMany)),
            Next::ReadFault => Some(Err(AuditFault::Read)),
        }
    }
}
