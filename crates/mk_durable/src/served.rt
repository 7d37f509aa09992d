//! Serving a market whose changes are kept in a store.

ghost use Rattle.std.specs.Prelude.{◌≡◌, ◌≢◌, ◌⊎◌, ◌≤◌, ℕ, List, Some, Ok, Err, IsOk, IfOk};
ghost use Rattle.std.specs.Prelude.{IfErr, OnOk, IsTrue, length};
ghost use Rattle.mk_durable.specs.Below.{Rose, file_of, market_of, IsTreeOf, Market, AreWithin};
ghost use Rattle.mk_durable.specs.Below.{IsReadWithin, Adds, Refuses, IsTurnedAway, HasCauses};
ghost use Rattle.mk_durable.specs.Below.{HasKeepCauses, IsMarket, opening, LeavesOnly};
ghost use Rattle.mk_file.specs.declared.fault.FileFault.{FileFault};
ghost use Rattle.mk_durable.specs.Recovery.{IsHonest};
ghost use Rattle.mk_durable.specs.KeepOutcome.{KeepOutcome, OpenedKeep, KeepsChanges};
ghost use Rattle.mk_durable.specs.KeepOutcome.{store_fault_line, GivesSound};
ghost use Rattle.mk_durable.specs.KeepOutcome.{IsSoundStore, IsHonestStore, AreHonest};
ghost use Rattle.mk_durable.specs.Resuming.{IsCounted};
ghost use Rattle.mk_durable.specs.inner.Preparing.{IsPlace, AreHonestTo, Stops};

use crate::fault::{ResumeFault, StoreFault};
use crate::opening::resume;
use arrayvec::ArrayString;
use mk_disk::Disk;
use mk_file::{MarketFile, read_market};
use mk_io::{Inputs, Sink, Status, write_all};
use mk_journal::{Group, header_of};
use mk_net::NoMemory;
use mk_session::{Kept, LoadFault, TreeMarket, load, open, refuse, serve_from};
use mk_text::put_number;
use std::alloc::Global;
use std::mem;

/// Where the changes of a market are kept, with all memory that this takes.
#[derive(Drop)]
struct Place {
    /// What stands behind the gate of a new store of the market.
    header: Vec<u8>,
    /// Where changes wait.
    group: Group,
}

/// Runs the market of the file `name` over all commands, from the changes on that the file `store`
/// gives back, and keeps each change there before its reply is written. It writes `ready V B`,
/// `resumed R` with the number of these changes, and one line for each command line that is not
/// blank; or the one line of a refused market file or of a refused store. The process is to end
/// after it: the market's memory is not given back.
pub fn keep<I: Inputs, S: Sink, K: Disk>(
    alloc: Global,
    name: &str,
    store: &str,
    inputs: &mut I,
    out: &mut S,
    disk: &mut K,
) -> Status
    requires market { I.admits name.now }
    requires store { K.admits store.now }
    ensures outcome { (file stored all : List ℕ) →
        I.file inputs.old name.now ≡ Some file → I.commands inputs.old ≡ Some all →
        K.file disk.old store.now ≡ Some stored → IsSoundStore file stored →
        KeepOutcome result file stored all (I.commands inputs.new)
        (S.written out.old) (S.written out.new) }
    ensures kept { (file stored all : List ℕ) →
        I.file inputs.old name.now ≡ Some file → I.commands inputs.old ≡ Some all →
        K.file disk.old store.now ≡ Some stored → AreHonest file (K.may_leave disk.old store.now) →
        KeepsChanges (file_of file) file stored all (S.written out.old) (S.written out.new)
        (K.may_leave disk.old store.now) (K.may_leave disk.new store.now)
        (λ P. (c : List ℕ) → K.left_since disk.new store.now (K.moment disk.old) c → P c) }
    ensures refused { (file : List ℕ) (fault : FileFault) →
        I.file inputs.old name.now ≡ Some file → file_of file ≡ Err fault →
        IsTurnedAway result fault (I.commands inputs.old) (I.commands inputs.new)
        (S.written out.old) (S.written out.new) }
    ensures complete { (file stored all : List ℕ) →
        I.file inputs.old name.now ≡ Some file → I.commands inputs.old ≡ Some all →
        K.file disk.old store.now ≡ Some stored → IsHonestStore file stored →
        IsOk (file_of file) → AreWithin all →
        (Rose (K.faults disk.old) (K.faults disk.new) → ⊥) →
        (Rose (I.faults inputs.old) (I.faults inputs.new) → ⊥) →
        (Rose (S.faults out.old) (S.faults out.new) → ⊥) →
        (result ≡ Status.Done) ⊎ (result ≡ Status.Memory) }
    ensures opened { (file : List ℕ) → I.file inputs.old name.now ≡ Some file →
        IsReadWithin file (I.market inputs.old) (I.market inputs.new) }
    ensures causes { HasKeepCauses result (K.faults disk.old) (K.faults disk.new)
        (I.faults inputs.old) (I.faults inputs.new) (S.faults out.old) (S.faults out.new) }
    ensures not_usage { result ≢ Status.Usage }
{
    match load(alloc, name, inputs) {
        Err(LoadFault::Input) => Status::ReadFault,
        Err(LoadFault::Memory) => Status::Memory,
        Ok(bytes) => keep_bytes(alloc, bytes, store, inputs, out, disk),
    }
}

/// Runs the market of these bytes of a file over a store.
fn keep_bytes<I: Inputs, S: Sink, K: Disk>(
    alloc: Global,
    bytes: Vec<u8>,
    store: &str,
    inputs: &mut I,
    out: &mut S,
    disk: &mut K,
) -> Status
    requires { K.admits store.now }
    ensures outcome { (market : Market) (stored all : List ℕ) →
        file_of bytes.items ≡ Ok market → I.commands inputs.old ≡ Some all →
        K.file disk.old store.now ≡ Some stored → GivesSound market bytes.items stored →
        OpenedKeep result (Ok market) bytes.items stored all (I.commands inputs.new)
        (S.written out.old) (S.written out.new) }
    ensures kept { (market : Market) (stored all : List ℕ) →
        file_of bytes.items ≡ Ok market → I.commands inputs.old ≡ Some all →
        K.file disk.old store.now ≡ Some stored →
        AreHonestTo market bytes.items (K.may_leave disk.old store.now) →
        KeepsChanges (Ok market) bytes.items stored all (S.written out.old) (S.written out.new)
        (K.may_leave disk.old store.now) (K.may_leave disk.new store.now)
        (LeavesOnly (K.moment disk.old) (K.moment disk.new)
        (K.left_since disk.old store.now) (K.left_since disk.new store.now)) }
    ensures refused { (fault : FileFault) → file_of bytes.items ≡ Err fault →
        Adds (S.written out.old) (S.written out.new) (Refuses result fault)
        × (I.commands inputs.new ≡ I.commands inputs.old) × (disk.new ≡ disk.old) }
    ensures complete { (market : Market) (stored all : List ℕ) →
        file_of bytes.items ≡ Ok market → I.commands inputs.old ≡ Some all →
        K.file disk.old store.now ≡ Some stored → IsHonest market bytes.items stored →
        AreWithin all → (Rose (K.faults disk.old) (K.faults disk.new) → ⊥) →
        (Rose (I.faults inputs.old) (I.faults inputs.new) → ⊥) →
        (Rose (S.faults out.old) (S.faults out.new) → ⊥) →
        (result ≡ Status.Done) ⊎ (result ≡ Status.Memory) }
    ensures opened { I.market inputs.new ≡ I.market inputs.old }
    ensures causes { HasKeepCauses result (K.faults disk.old) (K.faults disk.new)
        (I.faults inputs.old) (I.faults inputs.new) (S.faults out.old) (S.faults out.new) }
    ensures not_usage { result ≢ Status.Usage }
{
    match read_market(alloc, bytes.as_slice()) {
        Err(fault) => refuse(fault, out),
        Ok(file) => match open_place(alloc, bytes, store, disk) {
            Ok(place) => keep_file(alloc, file, place, inputs, out, disk),
            Err(status) => {
                // The process ends next.
                mem::forget(file);
                status
            }
        },
    }
}

/// Takes the memory that keeping a market's changes takes, and then opens the file of its store.
fn open_place<K: Disk>(
    alloc: Global,
    bytes: Vec<u8>,
    store: &str,
    disk: &mut K,
) -> Result<Place, Status>
    requires { K.admits store.now }
    ensures place { IfOk result (λ place. length bytes.items ≤ 1048576
        → IsPlace bytes.items place) }
    ensures opened { OnOk result (IsTrue (K.is_open disk.new)) }
    ensures opened_name { OnOk result (K.open_name disk.new ≡ store.now) }
    ensures files { (n : List ℕ) → K.file disk.new n ≡ K.file disk.old n }
    ensures images { (n c : List ℕ) → K.may_leave disk.new n c → K.may_leave disk.old n c }
    ensures any_moment { (n : List ℕ) → LeavesOnly (K.moment disk.old) (K.moment disk.new)
        (K.left_since disk.old n) (K.left_since disk.new n) (K.may_leave disk.old n) }
    ensures stops { IfErr result (λ status. (status ≡ Status.Memory)
        ⊎ (status ≡ Status.DiskFault)) }
    ensures counts { OnOk result (K.faults disk.new ≡ K.faults disk.old) }
    ensures causes { IfErr result (λ status. (inputs out : ℕ) → HasKeepCauses status
        (K.faults disk.old) (K.faults disk.new) inputs inputs out out) }
{
    match place_of(alloc, bytes) {
        Err(_) => Err(Status::Memory),
        Ok(place) => match disk.open(store) {
            Ok(()) => Ok(place),
            Err(_) => Err(Status::DiskFault),
        },
    }
}

/// The memory that keeping a market's changes takes.
fn place_of(alloc: Global, bytes: Vec<u8>) -> Result<Place, NoMemory>
    ensures { IfOk result (λ place. length bytes.items ≤ 1048576 → IsPlace bytes.items place) }
{
    let header = header_of(alloc, bytes.as_slice())?;
    let group = Group::start(alloc)?;
    Ok(Place { header, group })
}

/// Opens the market of an accepted file, and runs it over the open store.
fn keep_file<I: Inputs, S: Sink, K: Disk>(
    alloc: Global,
    file: MarketFile,
    place: Place,
    inputs: &mut I,
    out: &mut S,
    disk: &mut K,
) -> Status
    requires tree { IsTreeOf file.net file.tree }
    requires is_open { IsTrue (K.is_open disk.old) }
    requires place { (bytes : List ℕ) × IsPlace bytes place }
    ensures outcome { (n bytes stored all : List ℕ) → n ≡ K.open_name disk.old →
        IsPlace bytes place → I.commands inputs.old ≡ Some all →
        K.file disk.old n ≡ Some stored → GivesSound (market_of file) bytes stored →
        OpenedKeep result (Ok (market_of file)) bytes stored all (I.commands inputs.new)
        (S.written out.old) (S.written out.new) }
    ensures kept { (n bytes stored all : List ℕ) → n ≡ K.open_name disk.old →
        IsPlace bytes place → I.commands inputs.old ≡ Some all →
        K.file disk.old n ≡ Some stored →
        AreHonestTo (market_of file) bytes (K.may_leave disk.old n) →
        KeepsChanges (Ok (market_of file)) bytes stored all (S.written out.old) (S.written out.new)
        (K.may_leave disk.old n) (K.may_leave disk.new n)
        (LeavesOnly (K.moment disk.old) (K.moment disk.new)
        (K.left_since disk.old n) (K.left_since disk.new n)) }
    ensures complete { (n bytes stored all : List ℕ) → n ≡ K.open_name disk.old →
        IsPlace bytes place → I.commands inputs.old ≡ Some all →
        K.file disk.old n ≡ Some stored → IsHonest (market_of file) bytes stored →
        AreWithin all → (Rose (K.faults disk.old) (K.faults disk.new) → ⊥) →
        (Rose (I.faults inputs.old) (I.faults inputs.new) → ⊥) →
        (Rose (S.faults out.old) (S.faults out.new) → ⊥) →
        (result ≡ Status.Done) ⊎ (result ≡ Status.Memory) }
    ensures opened { I.market inputs.new ≡ I.market inputs.old }
    ensures causes { HasKeepCauses result (K.faults disk.old) (K.faults disk.new)
        (I.faults inputs.old) (I.faults inputs.new) (S.faults out.old) (S.faults out.new) }
    ensures not_usage { result ≢ Status.Usage }
{
    match open(alloc, file) {
        Err(_) => Status::Memory,
        Ok(mut market) => {
            let status = keep_market(alloc, &mut market, place, inputs, out, disk);
            // The process ends next, and gives all memory back at once.
            mem::forget(market);
            status
        }
    }
}

/// Takes the changes back that the open store holds, and runs the market from there.
fn keep_market<I: Inputs, S: Sink, K: Disk>(
    alloc: Global,
    market: &mut TreeMarket,
    place: Place,
    inputs: &mut I,
    out: &mut S,
    disk: &mut K,
) -> Status
    requires is_market { IsMarket market.old.market }
    requires opening { market.old.standing ≡ opening }
    requires is_open { IsTrue (K.is_open disk.old) }
    requires place { (bytes : List ℕ) × IsPlace bytes place }
    ensures outcome { (n bytes stored all : List ℕ) → n ≡ K.open_name disk.old →
        IsPlace bytes place → I.commands inputs.old ≡ Some all →
        K.file disk.old n ≡ Some stored → GivesSound market.old.market bytes stored →
        OpenedKeep result (Ok market.old.market) bytes stored all (I.commands inputs.new)
        (S.written out.old) (S.written out.new) }
    ensures kept { (n bytes stored all : List ℕ) → n ≡ K.open_name disk.old →
        IsPlace bytes place → I.commands inputs.old ≡ Some all →
        K.file disk.old n ≡ Some stored →
        AreHonestTo market.old.market bytes (K.may_leave disk.old n) →
        KeepsChanges (Ok market.old.market) bytes stored all (S.written out.old)
        (S.written out.new) (K.may_leave disk.old n) (K.may_leave disk.new n)
        (LeavesOnly (K.moment disk.old) (K.moment disk.new)
        (K.left_since disk.old n) (K.left_since disk.new n)) }
    ensures complete { (n bytes stored all : List ℕ) → n ≡ K.open_name disk.old →
        IsPlace bytes place → I.commands inputs.old ≡ Some all →
        K.file disk.old n ≡ Some stored → IsHonest market.old.market bytes stored →
        AreWithin all → (Rose (K.faults disk.old) (K.faults disk.new) → ⊥) →
        (Rose (I.faults inputs.old) (I.faults inputs.new) → ⊥) →
        (Rose (S.faults out.old) (S.faults out.new) → ⊥) →
        (result ≡ Status.Done) ⊎ (result ≡ Status.Memory) }
    ensures opened { I.market inputs.new ≡ I.market inputs.old }
    ensures causes { HasKeepCauses result (K.faults disk.old) (K.faults disk.new)
        (I.faults inputs.old) (I.faults inputs.new) (S.faults out.old) (S.faults out.new) }
    ensures not_usage { result ≢ Status.Usage }
{
    let Place { header, group } = place;
    match resume(alloc, market, &header, group, disk) {
        Err(fault) => stop(fault, out),
        Ok(resumed) => {
            let _ = market.history();
            let kept = Kept {
                keeper: resumed.store,
                recovered: Some(resumed.count),
            };
            serve_from(alloc, kept, market, inputs, out, disk)
        }
    }
}

/// How a run ends whose store was not opened: a refused store has its one line.
fn stop<S: Sink>(fault: ResumeFault, out: &mut S) -> Status
    ensures output { Adds (S.written out.old) (S.written out.new) (Stops result fault) }
    ensures causes { (inputs disk disk_now : ℕ) → IsCounted disk disk_now fault → disk ≤ disk_now
        → HasKeepCauses result disk disk_now inputs inputs (S.faults out.old) (S.faults out.new) }
{
    match fault {
        ResumeFault::Disk => Status::DiskFault,
        ResumeFault::Memory => Status::Memory,
        ResumeFault::Refused(fault) => match write_all(out, print_store_fault(fault).as_bytes()) {
            Ok(()) => Status::StoreRefused,
            Err(_) => Status::WriteFault,
        },
    }
}

/// The one line of a refused store.
fn print_store_fault(fault: StoreFault) -> ArrayString<64>
    ensures { result.bytes ≡ store_fault_line fault }
{
    let mut line = ArrayString::new();
    let number = match fault {
        StoreFault::Foreign { at } => {
            line.push_str("refused store foreign ");
            at
        }
        StoreFault::Unfit { number } => {
            line.push_str("refused store record ");
            number
        }
    };
    put_number(&mut line, number);
    line.push_str("\n");
    line
}
