//! The audit of a transcript in a file, and the line that it writes.

ghost use Rattle.std.specs.Prelude.{◌≡◌, ◌≢◌, ◌⊎◌, ℕ, List, Some, Ok, Err, IsOk};
ghost use Rattle.mk_audit.specs.Below.{Rose, file_of, market_of, IsTreeOf, AreWithin, Adds};
ghost use Rattle.mk_audit.specs.Below.{IsTurnedAway, HasCauses};
ghost use Rattle.mk_file.specs.declared.fault.FileFault.{FileFault};
ghost use Rattle.mk_audit.specs.AuditOutcome.{AuditOutcome, AuditsTo, EndsAudit};
ghost use Rattle.mk_audit.specs.AuditOutcome.{verdict_line, long_line};
ghost use Rattle.mk_audit.specs.inner.Telling.{Says};

use crate::auditing::audit;
use crate::verdict::{AuditFault, Verdict};
use arrayvec::ArrayString;
use mk_file::{MarketFile, read_market};
use mk_io::{Inputs, Sink, Status, write_all};
use mk_session::{LoadFault, load, load_within, refuse};
use mk_text::put_number;
use std::alloc::Global;

/// The greatest length of a transcript, in bytes.
const MAX_TRANSCRIPT_BYTES: usize = 67_108_864;

/// Audits the transcript in a file beside the commands of the market of another, and writes the
/// verdict's line: `audit yes N`, `audit no N` or `audit unsure N`; or `audit long`, where the
/// transcript has more than 67,108,864 bytes, of which no command is read; or the one line of a
/// refused market file, of which the transcript is not opened.
///
/// Where a read fails nothing is written, nor where the commands are more than a stream may hold
/// before a verdict came, nor where memory is wanting.
pub fn audit_named<I: Inputs, S: Sink>(
    alloc: Global,
    name: &str,
    transcript: &str,
    inputs: &mut I,
    out: &mut S,
) -> Status
    requires market { I.admits name.now }
    requires transcript { I.admits transcript.now }
    ensures outcome { (file text all : List ℕ) →
        I.file inputs.old name.now ≡ Some file → I.file inputs.old transcript.now ≡ Some text →
        I.commands inputs.old ≡ Some all →
        AuditOutcome result file text all (I.commands inputs.new)
        (S.written out.old) (S.written out.new) }
    ensures refused { (file : List ℕ) (fault : FileFault) →
        I.file inputs.old name.now ≡ Some file → file_of file ≡ Err fault →
        IsTurnedAway result fault (I.commands inputs.old) (I.commands inputs.new)
        (S.written out.old) (S.written out.new) }
    ensures complete { (file all : List ℕ) →
        I.file inputs.old name.now ≡ Some file → I.commands inputs.old ≡ Some all →
        IsOk (file_of file) → AreWithin all →
        (Rose (I.faults inputs.old) (I.faults inputs.new) → ⊥) →
        (Rose (S.faults out.old) (S.faults out.new) → ⊥) →
        (result ≡ Status.Done) ⊎ (result ≡ Status.Memory) }
    ensures causes { HasCauses result (I.faults inputs.old) (I.faults inputs.new)
        (S.faults out.old) (S.faults out.new) }
    ensures not_usage { result ≢ Status.Usage }
{
    match load(alloc, name, inputs) {
        Err(LoadFault::Input) => Status::ReadFault,
        Err(LoadFault::Memory) => Status::Memory,
        Ok(bytes) => audit_bytes(alloc, bytes, transcript, inputs, out),
    }
}

/// Audits a transcript of the market of these bytes of a file, and gives their memory back before
/// the transcript is read.
fn audit_bytes<I: Inputs, S: Sink>(
    alloc: Global,
    bytes: Vec<u8>,
    transcript: &str,
    inputs: &mut I,
    out: &mut S,
) -> Status
    requires { I.admits transcript.now }
    ensures outcome { (text all : List ℕ) →
        I.file inputs.old transcript.now ≡ Some text → I.commands inputs.old ≡ Some all →
        Adds (S.written out.old) (S.written out.new)
        (EndsAudit result (file_of bytes.items) all text) }
    ensures refused { (fault : FileFault) → file_of bytes.items ≡ Err fault →
        IsTurnedAway result fault (I.commands inputs.old) (I.commands inputs.new)
        (S.written out.old) (S.written out.new) }
    ensures complete { (all : List ℕ) → I.commands inputs.old ≡ Some all →
        IsOk (file_of bytes.items) → AreWithin all →
        (Rose (I.faults inputs.old) (I.faults inputs.new) → ⊥) →
        (Rose (S.faults out.old) (S.faults out.new) → ⊥) →
        (result ≡ Status.Done) ⊎ (result ≡ Status.Memory) }
    ensures causes { HasCauses result (I.faults inputs.old) (I.faults inputs.new)
        (S.faults out.old) (S.faults out.new) }
    ensures not_usage { result ≢ Status.Usage }
{
    let read = read_market(alloc, bytes.as_slice());
    drop(bytes);
    match read {
        Err(fault) => refuse(fault, out),
        Ok(file) => audit_file(alloc, file, transcript, inputs, out),
    }
}

/// Reads a transcript of the market of an accepted file, and audits it.
fn audit_file<I: Inputs, S: Sink>(
    alloc: Global,
    file: MarketFile,
    transcript: &str,
    inputs: &mut I,
    out: &mut S,
) -> Status
    requires tree { IsTreeOf file.net file.tree }
    requires transcript { I.admits transcript.now }
    ensures outcome { (text all : List ℕ) →
        I.file inputs.old transcript.now ≡ Some text → I.commands inputs.old ≡ Some all →
        Adds (S.written out.old) (S.written out.new) (AuditsTo result (market_of file) all text) }
    ensures complete { (all : List ℕ) → I.commands inputs.old ≡ Some all → AreWithin all →
        (Rose (I.faults inputs.old) (I.faults inputs.new) → ⊥) →
        (Rose (S.faults out.old) (S.faults out.new) → ⊥) →
        (result ≡ Status.Done) ⊎ (result ≡ Status.Memory) }
    ensures causes { HasCauses result (I.faults inputs.old) (I.faults inputs.new)
        (S.faults out.old) (S.faults out.new) }
    ensures not_usage { result ≢ Status.Usage }
{
    match load_within(alloc, transcript, MAX_TRANSCRIPT_BYTES + 1, inputs) {
        Err(LoadFault::Input) => {
            drop(file);
            Status::ReadFault
        }
        Err(LoadFault::Memory) => {
            drop(file);
            Status::Memory
        }
        Ok(text) => audit_text(alloc, file, text, inputs, out),
    }
}

/// Audits these first bytes of a transcript, which are all of it unless it is too long.
fn audit_text<I: Inputs, S: Sink>(
    alloc: Global,
    file: MarketFile,
    text: Vec<u8>,
    inputs: &mut I,
    out: &mut S,
) -> Status
    requires tree { IsTreeOf file.net file.tree }
    ensures outcome { (all : List ℕ) → I.commands inputs.old ≡ Some all →
        Adds (S.written out.old) (S.written out.new)
        (AuditsTo result (market_of file) all text.items) }
    ensures complete { (all : List ℕ) → I.commands inputs.old ≡ Some all → AreWithin all →
        (Rose (I.faults inputs.old) (I.faults inputs.new) → ⊥) →
        (Rose (S.faults out.old) (S.faults out.new) → ⊥) →
        (result ≡ Status.Done) ⊎ (result ≡ Status.Memory) }
    ensures causes { HasCauses result (I.faults inputs.old) (I.faults inputs.new)
        (S.faults out.old) (S.faults out.new) }
    ensures not_usage { result ≢ Status.Usage }
{
    if text.len() > MAX_TRANSCRIPT_BYTES {
        drop(file);
        return tell(b"audit long\n", out);
    }
    match audit(alloc, file, inputs, text.as_slice()) {
        Ok(verdict) => tell(print_verdict(verdict).as_bytes(), out),
        Err(AuditFault::Read) => Status::ReadFault,
        Err(AuditFault::TooMany) => Status::TooMany,
        Err(AuditFault::Memory) => Status::Memory,
    }
}

/// Writes the one line of an audit.
fn tell<S: Sink>(line: &[u8], out: &mut S) -> Status
    ensures output { Adds (S.written out.old) (S.written out.new) (Says result line.now) }
    ensures causes { (inputs : ℕ) → HasCauses result inputs inputs
        (S.faults out.old) (S.faults out.new) }
{
    match write_all(out, line) {
        Ok(()) => Status::Done,
        Err(_) => Status::WriteFault,
    }
}

/// The line of a verdict.
fn print_verdict(verdict: Verdict) -> ArrayString<64>
    ensures { result.bytes ≡ verdict_line verdict }
{
    let mut line = ArrayString::new();
    let number = match verdict {
        Verdict::Yes { lines } => {
            line.push_str("audit yes ");
            lines
        }
        Verdict::No { line: number } => {
            line.push_str("audit no ");
            number
        }
        Verdict::Unsure { line: number } => {
            line.push_str("audit unsure ");
            number
        }
    };
    put_number(&mut line, number);
    line.push_str("\n");
    line
}
