//! A run of a market, behind which something is asked of its last history.

ghost use Rattle.std.specs.Prelude.{◌≡◌, ◌≢◌, ◌⊎◌, ℕ, List, Some, Err, IsOk};
ghost use Rattle.daggre.specs.Below.{Rose, file_of, IsMarket, AreWithin, Adds, IsTurnedAway};
ghost use Rattle.daggre.specs.Below.{HasCauses};
ghost use Rattle.mk_file.specs.declared.fault.FileFault.{FileFault};
ghost use Rattle.daggre.specs.AskOutcome.{AskOutcome};
ghost use Rattle.daggre.specs.inner.Printing.{SaysLast};

use crate::ask::Ask;
use crate::last_line::print_last;
use mk_io::{Inputs, Sink, SinkFailed, Status, write_all};
use mk_net::NoMemory;
use mk_session::{LineBuffer, TreeMarket, run_market};
use std::alloc::Global;
use std::mem;

/// Runs the market of a file over all commands, and then writes one line that answers what is asked
/// of its last history. The process is to end after it: the market's memory is not given back.
pub fn run_ask<I: Inputs, S: Sink>(
    alloc: Global,
    name: &str,
    ask: &Ask,
    inputs: &mut I,
    out: &mut S,
) -> Status
    requires { I.admits name.now }
    ensures outcome { (file all : List ℕ) →
        I.file inputs.old name.now ≡ Some file → I.commands inputs.old ≡ Some all →
        AskOutcome result ask.now file all (I.commands inputs.new)
        (S.written out.old) (S.written out.new) }
    ensures refused { (file : List ℕ) (fault : FileFault) →
        I.file inputs.old name.now ≡ Some file → file_of file ≡ Err fault →
        IsTurnedAway result fault (I.commands inputs.old) (I.commands inputs.new)
        (S.written out.old) (S.written out.new) }
    ensures complete { (file all : List ℕ) →
        I.file inputs.old name.now ≡ Some file → I.commands inputs.old ≡ Some all →
        IsOk (file_of file) → AreWithin all →
        (Rose (I.faults inputs.old) (I.faults inputs.new) → ⊥) →
        (Rose (S.faults out.old) (S.faults out.new) → ⊥) →
        (result ≡ Status.Done) ⊎ (result ≡ Status.Memory) }
    ensures causes { HasCauses result (I.faults inputs.old) (I.faults inputs.new)
        (S.faults out.old) (S.faults out.new) }
    ensures not_usage { result ≢ Status.Usage }
{
    match run_market(alloc, name, inputs, out) {
        Ok(market) => {
            let status = say_last(alloc, &market, ask, out);
            // The process ends next, and gives all memory back at once.
            mem::forget(market);
            status
        }
        Err(status) => status,
    }
}

/// Writes the line that answers what is asked of a market's last history.
fn say_last<S: Sink>(alloc: Global, market: &TreeMarket, ask: &Ask, out: &mut S) -> Status
    requires { IsMarket market.now.market }
    ensures output { Adds (S.written out.old) (S.written out.new)
        (SaysLast result market.now.market (market.now.standing).history ask.now) }
    ensures causes { (inputs : ℕ) → HasCauses result inputs inputs
        (S.faults out.old) (S.faults out.new) }
{
    let mut line = LineBuffer::new();
    match print_last(alloc, market, ask, &mut line) {
        Err(NoMemory) => Status::Memory,
        Ok(()) => match write_all(out, line.as_bytes()) {
            Ok(()) => Status::Done,
            Err(SinkFailed) => Status::WriteFault,
        },
    }
}
