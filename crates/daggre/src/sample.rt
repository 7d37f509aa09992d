//! The run of a sample market, and what is written of it.

ghost use Rattle.std.specs.Prelude.{◌≡◌, ◌≢◌, ℕ, ◌≤◌, OnOk, OnErr, IfOk, Result, Ok, Err};
ghost use Rattle.daggre.specs.Below.{HasCause, AddsFront, append_known, sample_file};
ghost use Rattle.daggre.specs.Below.{sample_commands, file_of, Adds, HasCauses, TallyEnds};
ghost use Rattle.daggre.specs.Words.{max_sample};
ghost use Rattle.daggre.specs.Sampled.{count_lines, last_line, sample_text, EndsSample};
ghost use Rattle.daggre.specs.Sampled.{SamplesAreWithin};

use mk_file::FileFault;
use mk_io::{Sink, SinkFailed, Status, write_all};
use mk_make::sample;
use mk_net::NoMemory;
use mk_reply::Reply;
use mk_session::{LineBuffer, print_fault_line, print_reply_line};
use mk_tally::{Tally, TallyFault, tally};
use mk_text::put_number;
use std::alloc::Global;

/// The commands of every sample are within the limits of a stream.
pub fn samples_are_within()
    ensures { SamplesAreWithin }
{}

/// Runs the sample market of `n` variables over its commands, and writes the counts of its replies
/// and the last one.
pub fn run_sample<S: Sink>(alloc: Global, n: u32, out: &mut S) -> Status
    requires least { 2 ≤ n }
    requires most { n ≤ max_sample }
    ensures output { Adds (S.written out.old) (S.written out.new) (EndsSample result n) }
    ensures causes { (inputs : ℕ) → HasCauses result inputs inputs
        (S.faults out.old) (S.faults out.new) }
    ensures not_usage { result ≢ Status.Usage }
{
    match count_sample(alloc, n) {
        Err(_) => Status::Memory,
        Ok(counted) => write_sample(n, counted, out),
    }
}

/// Counts the replies of the sample market of `n` variables.
fn count_sample(alloc: Global, n: u32) -> Result<Result<Tally, TallyFault>, NoMemory>
    requires least { 2 ≤ n }
    requires most { n ≤ max_sample }
    ensures { IfOk result (λ counted. TallyEnds counted (file_of (sample_file n))
        (sample_commands n)) }
{
    let sample = sample(alloc, n)?;
    Ok(tally(alloc, sample.file.bytes(), sample.commands.bytes()))
}

/// Writes what came of a sample, which never has too many commands.
#[tactic(auto, using(crate::proofs::SampleLengths::never_too_many))]
fn write_sample<S: Sink>(n: u32, counted: Result<Tally, TallyFault>, out: &mut S) -> Status
    requires least { 2 ≤ n }
    requires most { n ≤ max_sample }
    requires counted { TallyEnds counted (file_of (sample_file n)) (sample_commands n) }
    ensures output { Adds (S.written out.old) (S.written out.new) (EndsSample result n) }
    ensures causes { (inputs : ℕ) → HasCauses result inputs inputs
        (S.faults out.old) (S.faults out.new) }
    ensures not_usage { result ≢ Status.Usage }
{
    match counted {
        Ok(tally) => say_tally(n, &tally, out),
        Err(TallyFault::Market(fault)) => say_fault(n, fault, out),
        Err(TallyFault::TooMany) => unreachable!(),
        Err(TallyFault::Memory) => Status::Memory,
    }
}

/// Writes the counts of a sample whose file is accepted.
fn say_tally<S: Sink>(n: u32, tally: &Tally, out: &mut S) -> Status
    requires { TallyEnds (Ok tally.now) (file_of (sample_file n)) (sample_commands n) }
    ensures output { Adds (S.written out.old) (S.written out.new) (EndsSample result n) }
    ensures causes { (inputs : ℕ) → HasCauses result inputs inputs
        (S.faults out.old) (S.faults out.new) }
    ensures not_usage { result ≢ Status.Usage }
{
    let mut line = LineBuffer::new();
    match write_tally(n, tally, &mut line, out) {
        Ok(()) => Status::Done,
        Err(SinkFailed) => Status::WriteFault,
    }
}

/// Writes the one line of a sample whose file is refused.
fn say_fault<S: Sink>(n: u32, fault: FileFault, out: &mut S) -> Status
    requires { TallyEnds (Err (TallyFault.Market fault)) (file_of (sample_file n))
        (sample_commands n) }
    ensures output { Adds (S.written out.old) (S.written out.new) (EndsSample result n) }
    ensures causes { (inputs : ℕ) → HasCauses result inputs inputs
        (S.faults out.old) (S.faults out.new) }
    ensures not_usage { result ≢ Status.Usage }
{
    let mut line = LineBuffer::new();
    print_fault_line(&fault, &mut line);
    match write_all(out, line.as_bytes()) {
        Ok(()) => Status::MarketRefused,
        Err(SinkFailed) => Status::WriteFault,
    }
}

/// Writes the lines of a tally.
fn write_tally<S: Sink>(
    n: u32,
    tally: &Tally,
    line: &mut LineBuffer,
    out: &mut S,
) -> Result<(), SinkFailed>
    ensures cause { HasCause (S.faults out.old) (S.faults out.new) result }
    ensures whole { OnOk result (S.written out.new ≡ append_known (S.written out.old)
        (sample_text n tally.now)) }
    ensures front { OnErr result (AddsFront (S.written out.old) (S.written out.new)
        (sample_text n tally.now)) }
{
    print_counts(n, tally, line);
    match write_all(out, line.as_bytes()) {
        Ok(()) => write_last(&tally.last, line, out),
        Err(fault) => Err(fault),
    }
}

/// Writes the line of the last reply, where there is one.
fn write_last<S: Sink>(
    last: &Option<Reply>,
    line: &mut LineBuffer,
    out: &mut S,
) -> Result<(), SinkFailed>
    ensures cause { HasCause (S.faults out.old) (S.faults out.new) result }
    ensures whole { OnOk result (S.written out.new ≡ append_known (S.written out.old)
        (last_line last.now)) }
    ensures front { OnErr result (AddsFront (S.written out.old) (S.written out.new)
        (last_line last.now)) }
{
    match last {
        None => Ok(()),
        Some(reply) => {
            print_reply_line(reply, line);
            write_all(out, line.as_bytes())
        }
    }
}

/// Puts the lines of the counts into `line`, in place of what it held.
#[tactic(auto, unfolding(crate::specs::Sampled::count_lines))]
fn print_counts(n: u32, tally: &Tally, line: &mut LineBuffer)
    ensures { line.new.bytes ≡ count_lines n tally.now }
{
    line.clear();
    line.push_str("sample ");
    put_number(line, n as u64);
    line.push_str("\nreplies ");
    put_number(line, tally.replies as u64);
    line.push_str(" trades ");
    put_number(line, tally.trades as u64);
    line.push_str(" refused ");
    put_number(line, tally.refused as u64);
    line.push_str("\n");
}
