//! A whole run.

ghost use Rattle.std.specs.Prelude.{◌≡◌, ◌≢◌, ◌+◌, ◌<◌, ◌≤◌, ℕ, List, [], Some, Ok, Err, Result};
ghost use Rattle.std.specs.Prelude.{length, take, ◌⊎◌, IsOk, IfOk, IfErr, MatchResult};
ghost use Rattle.mk_session.specs.Below.{Rose, IsAtEnd, CountsFault, file_of, IsTreeOf, market_of};
ghost use Rattle.mk_session.specs.Below.{Market, IsMarket, opening, IsAt};
ghost use Rattle.mk_file.specs.declared.fault.FileFault.{FileFault};
ghost use Rattle.mk_session.specs.Outcome.{Adds, Ends, Opened, Outcome, IsTurnedAway, HasCauses};
ghost use Rattle.mk_session.specs.Outcome.{Refuses, IsRunTo, IsHandedBack, status_of};
ghost use Rattle.mk_session.specs.Complete.{AreWithin};
ghost use Rattle.mk_session.specs.Opening.{opened_part, IsTakenWithin, IsPartRead, IsReadWithin};
ghost use Rattle.mk_session.specs.Opening.{HasLoadCause};
ghost use Rattle.mk_session.specs.inner.Loading.{IsTaken};

use crate::answer::{Kept, serve_from};
use crate::market::{TreeMarket, open};
use crate::print::{LineBuffer, print_fault_line};
use mk_file::{FileFault, MAX_FILE_BYTES, MarketFile, read_market};
use mk_io::{InputFailed, Inputs, Sink, Status, write_all};
use mk_journal::NoStore;
use std::alloc::Global;
use std::mem;

/// One byte more than a market file may have.
const READ_AT_MOST: usize = MAX_FILE_BYTES + 1;

/// The room for the bytes of a file, before it grows. Most market files have no more.
const FIRST_ROOM: usize = 65_536;

/// Why a file could not be read.
#[derive(Clone, Copy)]
pub enum LoadFault {
    /// The file could not be opened, or a read of it failed.
    Input,
    /// Memory was wanting.
    Memory,
}

/// Runs the market of the file `name` over all commands, and writes `ready V B` and one line for
/// each command line that is not blank, or the one line of a refused file. The process is to end
/// after it: the market's memory is not given back.
pub fn serve<I: Inputs, S: Sink>(alloc: Global, name: &str, inputs: &mut I, out: &mut S) -> Status
    requires { I.admits name.now }
    ensures outcome { (file all : List ℕ) →
        I.file inputs.old name.now ≡ Some file → I.commands inputs.old ≡ Some all →
        Outcome result file all (I.commands inputs.new) (S.written out.old) (S.written out.new) }
    ensures refused { (file : List ℕ) (fault : FileFault) →
        I.file inputs.old name.now ≡ Some file → file_of file ≡ Err fault →
        IsTurnedAway result fault (I.commands inputs.old) (I.commands inputs.new)
        (S.written out.old) (S.written out.new) }
    ensures complete { (file all : List ℕ) →
        I.file inputs.old name.now ≡ Some file → I.commands inputs.old ≡ Some all →
        IsOk (file_of file) → AreWithin all →
        (Rose (I.faults inputs.old) (I.faults inputs.new) → ⊥) →
        (Rose (S.faults out.old) (S.faults out.new) → ⊥) →
        (result ≡ Status.Done) ⊎ (result ≡ Status.Memory) }
    ensures opened { (file : List ℕ) → I.file inputs.old name.now ≡ Some file →
        IsReadWithin file (I.market inputs.old) (I.market inputs.new) }
    ensures causes { HasCauses result (I.faults inputs.old) (I.faults inputs.new)
        (S.faults out.old) (S.faults out.new) }
    ensures not_usage { result ≢ Status.Usage }
{
    match load(alloc, name, inputs) {
        Err(LoadFault::Input) => Status::ReadFault,
        Err(LoadFault::Memory) => Status::Memory,
        Ok(bytes) => serve_bytes(alloc, bytes, inputs, out),
    }
}

/// Runs the market of these bytes of a file, and gives their memory back before the first command
/// is read. `run_bytes` does the same, and hands the market back: a market has some 17,000 bytes,
/// which each call on the way would clear and copy.
fn serve_bytes<I: Inputs, S: Sink>(
    alloc: Global,
    bytes: Vec<u8>,
    inputs: &mut I,
    out: &mut S,
) -> Status
    ensures outcome { (all : List ℕ) → I.commands inputs.old ≡ Some all →
        Opened result (file_of bytes.items) all (I.commands inputs.new)
        (S.written out.old) (S.written out.new) }
    ensures refused { (fault : FileFault) → file_of bytes.items ≡ Err fault →
        IsTurnedAway result fault (I.commands inputs.old) (I.commands inputs.new)
        (S.written out.old) (S.written out.new) }
    ensures opened { I.market inputs.new ≡ I.market inputs.old }
    ensures causes { HasCauses result (I.faults inputs.old) (I.faults inputs.new)
        (S.faults out.old) (S.faults out.new) }
    ensures not_usage { result ≢ Status.Usage }
{
    let read = read_market(alloc, bytes.as_slice());
    drop(bytes);
    match read {
        Err(fault) => refuse(fault, out),
        Ok(file) => serve_file(alloc, file, inputs, out),
    }
}

/// Opens the market of an accepted file, and answers its commands.
fn serve_file<I: Inputs, S: Sink>(
    alloc: Global,
    file: MarketFile,
    inputs: &mut I,
    out: &mut S,
) -> Status
    requires tree { IsTreeOf file.net file.tree }
    ensures outcome { (all : List ℕ) → I.commands inputs.old ≡ Some all →
        Opened result (Ok (market_of file)) all (I.commands inputs.new)
        (S.written out.old) (S.written out.new) }
    ensures opened { I.market inputs.new ≡ I.market inputs.old }
    ensures causes { HasCauses result (I.faults inputs.old) (I.faults inputs.new)
        (S.faults out.old) (S.faults out.new) }
    ensures not_usage { result ≢ Status.Usage }
{
    match open(alloc, file) {
        Ok(mut market) => {
            let status = answer_market(alloc, &mut market, inputs, out);
            // The process ends next, and gives all memory back at once: one by one, the many small
            // tables of a chain take long.
            mem::forget(market);
            status
        }
        Err(_) => Status::Memory,
    }
}

/// Runs the market of the file `name` over all commands, as `serve` does, and hands it back where
/// the run is done. It fails with each other status of a run, and then the market's memory is not
/// given back.
pub fn run_market<I: Inputs, S: Sink>(
    alloc: Global,
    name: &str,
    inputs: &mut I,
    out: &mut S,
) -> Result<TreeMarket, Status>
    requires { I.admits name.now }
    ensures outcome { (file all : List ℕ) →
        I.file inputs.old name.now ≡ Some file → I.commands inputs.old ≡ Some all →
        MatchResult result
        (λ market. IsHandedBack market (file_of file) all (I.commands inputs.new)
        (S.written out.old) (S.written out.new))
        (λ status. Outcome status file all (I.commands inputs.new)
        (S.written out.old) (S.written out.new)) }
    ensures is_market { IfOk result (λ market. IsMarket market.market) }
    ensures refused { (file : List ℕ) (fault : FileFault) →
        I.file inputs.old name.now ≡ Some file → file_of file ≡ Err fault →
        MatchResult result (λ _. ⊥)
        (λ status. IsTurnedAway status fault (I.commands inputs.old) (I.commands inputs.new)
        (S.written out.old) (S.written out.new)) }
    ensures complete { (file all : List ℕ) →
        I.file inputs.old name.now ≡ Some file → I.commands inputs.old ≡ Some all →
        IsOk (file_of file) → AreWithin all →
        (Rose (I.faults inputs.old) (I.faults inputs.new) → ⊥) →
        (Rose (S.faults out.old) (S.faults out.new) → ⊥) →
        IfErr result (λ status. status ≡ Status.Memory) }
    ensures opened { (file : List ℕ) → I.file inputs.old name.now ≡ Some file →
        IsReadWithin file (I.market inputs.old) (I.market inputs.new) }
    ensures causes { HasCauses (status_of result) (I.faults inputs.old) (I.faults inputs.new)
        (S.faults out.old) (S.faults out.new) }
    ensures not_done { IfErr result (λ status. status ≢ Status.Done) }
    ensures not_usage { IfErr result (λ status. status ≢ Status.Usage) }
{
    match load(alloc, name, inputs) {
        Err(LoadFault::Input) => Err(Status::ReadFault),
        Err(LoadFault::Memory) => Err(Status::Memory),
        Ok(bytes) => run_bytes(alloc, bytes, inputs, out),
    }
}

/// Runs the market of these bytes of a file, and gives their memory back before the first command
/// is read.
fn run_bytes<I: Inputs, S: Sink>(
    alloc: Global,
    bytes: Vec<u8>,
    inputs: &mut I,
    out: &mut S,
) -> Result<TreeMarket, Status>
    ensures outcome { (all : List ℕ) → I.commands inputs.old ≡ Some all →
        MatchResult result
        (λ market. IsHandedBack market (file_of bytes.items) all (I.commands inputs.new)
        (S.written out.old) (S.written out.new))
        (λ status. Opened status (file_of bytes.items) all (I.commands inputs.new)
        (S.written out.old) (S.written out.new)) }
    ensures is_market { IfOk result (λ market. IsMarket market.market) }
    ensures refused { (fault : FileFault) → file_of bytes.items ≡ Err fault →
        MatchResult result (λ _. ⊥)
        (λ status. IsTurnedAway status fault (I.commands inputs.old) (I.commands inputs.new)
        (S.written out.old) (S.written out.new)) }
    ensures opened { I.market inputs.new ≡ I.market inputs.old }
    ensures causes { HasCauses (status_of result) (I.faults inputs.old) (I.faults inputs.new)
        (S.faults out.old) (S.faults out.new) }
    ensures not_done { IfErr result (λ status. status ≢ Status.Done) }
    ensures not_usage { IfErr result (λ status. status ≢ Status.Usage) }
{
    let read = read_market(alloc, bytes.as_slice());
    drop(bytes);
    match read {
        Err(fault) => Err(refuse(fault, out)),
        Ok(file) => answer_file(alloc, file, inputs, out),
    }
}

/// Writes the one line of a refused file. Want of memory has none.
pub fn refuse<S: Sink>(fault: FileFault, out: &mut S) -> Status
    ensures line { ((result ≡ Status.Memory) × (S.written out.new ≡ S.written out.old))
        ⊎ ((fault ≢ FileFault.Memory)
        × Adds (S.written out.old) (S.written out.new) (Refuses result fault)) }
    ensures output { (given : Result Market FileFault) (all : List ℕ) →
        (fault ≢ FileFault.Memory → given ≡ Err fault) →
        Adds (S.written out.old) (S.written out.new) (Ends result given all all) }
    ensures causes { (inputs : ℕ) → HasCauses result inputs inputs
        (S.faults out.old) (S.faults out.new) }
    ensures not_done { result ≢ Status.Done }
    ensures not_usage { result ≢ Status.Usage }
{
    match fault {
        FileFault::Memory => Status::Memory,
        _ => {
            let mut line = LineBuffer::new();
            print_fault_line(&fault, &mut line);
            match write_all(out, line.as_bytes()) {
                Ok(()) => Status::MarketRefused,
                Err(_) => Status::WriteFault,
            }
        }
    }
}

/// Opens the market of an accepted file, answers its commands, and hands it back where all are
/// answered.
fn answer_file<I: Inputs, S: Sink>(
    alloc: Global,
    file: MarketFile,
    inputs: &mut I,
    out: &mut S,
) -> Result<TreeMarket, Status>
    requires tree { IsTreeOf file.net file.tree }
    ensures outcome { (all : List ℕ) → I.commands inputs.old ≡ Some all →
        MatchResult result
        (λ market. IsHandedBack market (Ok (market_of file)) all (I.commands inputs.new)
        (S.written out.old) (S.written out.new))
        (λ status. Opened status (Ok (market_of file)) all (I.commands inputs.new)
        (S.written out.old) (S.written out.new)) }
    ensures is_market { IfOk result (λ market. IsMarket market.market) }
    ensures opened { I.market inputs.new ≡ I.market inputs.old }
    ensures causes { HasCauses (status_of result) (I.faults inputs.old) (I.faults inputs.new)
        (S.faults out.old) (S.faults out.new) }
    ensures not_done { IfErr result (λ status. status ≢ Status.Done) }
    ensures not_usage { IfErr result (λ status. status ≢ Status.Usage) }
{
    match open(alloc, file) {
        Err(_) => Err(Status::Memory),
        Ok(mut market) => match answer_market(alloc, &mut market, inputs, out) {
            Status::Done => {
                // Tells the proof that what was added left a market.
                let _ = market.history();
                Ok(market)
            }
            status => {
                // The process ends next, also where the ready line could not be written.
                mem::forget(market);
                Err(status)
            }
        },
    }
}

/// Answers the commands of an opened market. Nothing is kept.
fn answer_market<I: Inputs, S: Sink>(
    alloc: Global,
    market: &mut TreeMarket,
    inputs: &mut I,
    out: &mut S,
) -> Status
    requires is_market { IsMarket market.old.market }
    requires opening { market.old.standing ≡ opening }
    ensures outcome { (all : List ℕ) → I.commands inputs.old ≡ Some all →
        Opened result (Ok market.old.market) all (I.commands inputs.new)
        (S.written out.old) (S.written out.new) }
    ensures done { result ≡ Status.Done → (all : List ℕ) → I.commands inputs.old ≡ Some all →
        IsHandedBack market.new (Ok market.old.market) all (I.commands inputs.new)
        (S.written out.old) (S.written out.new) }
    ensures market { (start : Market) → IsAt start market.old → IsAt start market.new }
    ensures opened { I.market inputs.new ≡ I.market inputs.old }
    ensures causes { HasCauses result (I.faults inputs.old) (I.faults inputs.new)
        (S.faults out.old) (S.faults out.new) }
    ensures not_usage { result ≢ Status.Usage }
{
    let keeping = Kept {
        keeper: NoStore,
        recovered: None,
    };
    serve_from(alloc, keeping, market, inputs, out, &mut ())
}

/// The first bytes of the market file of a name, at most one byte more than a market file may have.
pub fn load<I: Inputs>(alloc: Global, name: &str, inputs: &mut I) -> Result<Vec<u8>, LoadFault>
    requires { I.admits name.now }
    ensures bytes { IfOk result (λ bytes. (file : List ℕ) → I.file inputs.old name.now ≡ Some file
        → bytes.items ≡ opened_part file) }
    ensures opened { (file : List ℕ) → I.file inputs.old name.now ≡ Some file →
        IsReadWithin file (I.market inputs.old) (I.market inputs.new) }
    ensures commands { I.commands inputs.new ≡ I.commands inputs.old }
    ensures files { I.file inputs.new ≡ I.file inputs.old }
    ensures cause { HasLoadCause result (I.faults inputs.old) (I.faults inputs.new) }
{
    load_within(alloc, name, READ_AT_MOST, inputs)
}

/// The first bytes of the file of a name, at most `most` of them. It fails where the file could not
/// be opened, where a read of it failed, and where memory was wanting.
pub fn load_within<I: Inputs>(
    alloc: Global,
    name: &str,
    most: usize,
    inputs: &mut I,
) -> Result<Vec<u8>, LoadFault>
    requires { I.admits name.now }
    ensures bytes { IfOk result (λ bytes. (file : List ℕ) → I.file inputs.old name.now ≡ Some file
        → bytes.items ≡ take most file) }
    ensures opened { (file : List ℕ) → I.file inputs.old name.now ≡ Some file →
        IsPartRead most file (I.market inputs.old) (I.market inputs.new) }
    ensures commands { I.commands inputs.new ≡ I.commands inputs.old }
    ensures files { I.file inputs.new ≡ I.file inputs.old }
    ensures cause { HasLoadCause result (I.faults inputs.old) (I.faults inputs.new) }
{
    match inputs.open_market(name) {
        Ok(()) => read_opened(alloc, most, inputs),
        Err(InputFailed) => Err(LoadFault::Input),
    }
}

/// The first bytes of the opened file, at most `most` of them.
fn read_opened<I: Inputs>(alloc: Global, most: usize, inputs: &mut I) -> Result<Vec<u8>, LoadFault>
    ensures bytes { IfOk result (λ bytes. (file : List ℕ) → I.market inputs.old ≡ Some file
        → bytes.items ≡ take most file) }
    ensures few { (file : List ℕ) → I.market inputs.old ≡ Some file →
        IsTakenWithin most file (I.market inputs.new) }
    ensures commands { I.commands inputs.new ≡ I.commands inputs.old }
    ensures files { I.file inputs.new ≡ I.file inputs.old }
    ensures cause { HasLoadCause result (I.faults inputs.old) (I.faults inputs.new) }
{
    let Ok(mut bytes) = Vec::with_capacity(alloc, FIRST_ROOM) else {
        return Err(LoadFault::Memory);
    };
    let mut buffer = [0u8; 4096];
    'pieces: while bytes.len() < most {
        let room = (most - bytes.len()).min(4096);
        match read_piece(inputs, &mut buffer[..room], &mut bytes) {
            Ok(0) => return Ok(bytes),
            Ok(_) => {}
            Err(fault) => return Err(fault),
        }
    }
    Ok(bytes)
}

/// Reads the next piece of the opened file behind the bytes before, and says how long it is.
fn read_piece<I: Inputs>(
    inputs: &mut I,
    piece: &mut [u8],
    bytes: &mut Vec<u8>,
) -> Result<usize, LoadFault>
    requires { 0 < length piece.old }
    ensures count { IfOk result (λ count. count ≤ length piece.old) }
    ensures grows { IfOk result (λ count. length bytes.new.items ≡ length bytes.old.items + count) }
    ensures taken { IfOk result (λ count. (file : List ℕ) → IsTaken file bytes.old.items
        (I.market inputs.old) →
        IsTaken file bytes.new.items (I.market inputs.new)) }
    ensures few { (file : List ℕ) → IsTaken file bytes.old.items (I.market inputs.old) →
        IsTakenWithin (length bytes.old.items + length piece.old) file (I.market inputs.new) }
    ensures at_end { IfOk result (λ count. count ≡ 0 → IsAtEnd (I.market inputs.new)) }
    ensures commands { I.commands inputs.new ≡ I.commands inputs.old }
    ensures files { I.file inputs.new ≡ I.file inputs.old }
    ensures cause { HasLoadCause result (I.faults inputs.old) (I.faults inputs.new) }
{
    match inputs.read_market(piece) {
        Err(InputFailed) => Err(LoadFault::Input),
        Ok(count) => match bytes.extend_from_slice(&piece[..count]) {
            Ok(()) => Ok(count),
            Err(_) => Err(LoadFault::Memory),
        },
    }
}
