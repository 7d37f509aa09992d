//! The program, over any inputs, any sink and any disk.

ghost use Rattle.std.specs.Prelude.{◌≡◌, ◌≢◌, ℕ, List, map, None, Some, Err, ◌⊎◌, IsOk};
ghost use Rattle.daggre.specs.Below.{Rose, file_of, AreWithin, Adds, Outcome, IsTurnedAway};
ghost use Rattle.daggre.specs.Below.{HasCauses, HasKeepCauses, KeepOutcome, KeepsChanges};
ghost use Rattle.daggre.specs.Below.{IsSoundStore, IsHonestStore, AreHonest, AuditOutcome};
ghost use Rattle.mk_file.specs.declared.fault.FileFault.{FileFault};
ghost use Rattle.daggre.specs.Words.{Run, Sample, RunThen, Keep, Audit};
ghost use Rattle.daggre.specs.Words.{asked_of, EndsUsage};
ghost use Rattle.daggre.specs.Words.{market_named, store_named, transcript_named};
ghost use Rattle.daggre.specs.AskOutcome.{AskOutcome};
ghost use Rattle.daggre.specs.declared.ask.Ask.{Ask};
ghost use Rattle.daggre.specs.Sampled.{EndsSample};

use crate::asking::run_ask;
use crate::sample::run_sample;
use crate::words::{Asked, read_words};
use mk_audit::audit_named;
use mk_disk::Disk;
use mk_durable::keep;
use mk_io::{Inputs, Sink, Status, write_all};
use mk_session::serve;
use std::alloc::Global;

/// Does what the words ask: `run NAME` serves the market of that file, and `sample N` runs the
/// sample market of `N` variables. `chance NAME PAIR.. [given PAIR..]`, `best NAME [PAIR..]` and
/// `expect NAME USER` serve the market of a file, and then answer what they ask of its history.
/// `keep NAME STORE` serves the market of a file from the changes on that a store gives back, and
/// keeps each change there before its reply is written. `audit NAME TRANSCRIPT` says whether the
/// market of a file allows the transcript in another, beside the commands.
///
/// Where the bytes of the file and of the commands are told, the status says what was written: with
/// `Done` the transcript of the whole stream, one that the exact joint table allows, and behind it
/// the one line that answers what is asked. It is `Done` for each accepted market and each stream
/// within the limits, unless reading, writing or memory fails. Of a sample the counts of such a
/// run's replies are written, and its last reply. For other words the usage line is written. Where
/// no market is named, nothing is opened or read, and where no store is, the disk is left alone.
///
/// Over a store that stands for what runs wrote there, a crash behind the call leaves, whatever
/// its status is, a front of the changes from before it and of its own: all of the former, and each
/// whose reply was written whole.
pub fn program<I: Inputs, S: Sink, K: Disk>(
    alloc: Global,
    words: &[&str],
    inputs: &mut I,
    out: &mut S,
    disk: &mut K,
) -> Status
    requires market { (name : List ℕ) →
        market_named (asked_of (map (λ w. w.now) words.now)) ≡ Some name → I.admits name }
    requires store { (store : List ℕ) →
        store_named (asked_of (map (λ w. w.now) words.now)) ≡ Some store → K.admits store }
    requires transcript { (transcript : List ℕ) →
        transcript_named (asked_of (map (λ w. w.now) words.now)) ≡ Some transcript →
        I.admits transcript }
    ensures run { (name file all : List ℕ) →
        asked_of (map (λ w. w.now) words.now) ≡ Some (Run name) →
        I.file inputs.old name ≡ Some file → I.commands inputs.old ≡ Some all →
        Outcome result file all (I.commands inputs.new) (S.written out.old) (S.written out.new) }
    ensures asks { (name file all : List ℕ) (ask : Ask) →
        asked_of (map (λ w. w.now) words.now) ≡ Some (RunThen name ask) →
        I.file inputs.old name ≡ Some file → I.commands inputs.old ≡ Some all →
        AskOutcome result ask file all (I.commands inputs.new)
        (S.written out.old) (S.written out.new) }
    ensures audit { (name transcript file text all : List ℕ) →
        asked_of (map (λ w. w.now) words.now) ≡ Some (Audit name transcript) →
        I.file inputs.old name ≡ Some file → I.file inputs.old transcript ≡ Some text →
        I.commands inputs.old ≡ Some all →
        AuditOutcome result file text all (I.commands inputs.new)
        (S.written out.old) (S.written out.new) }
    ensures keep { (name store file stored all : List ℕ) →
        asked_of (map (λ w. w.now) words.now) ≡ Some (Keep name store) →
        I.file inputs.old name ≡ Some file → I.commands inputs.old ≡ Some all →
        K.file disk.old store ≡ Some stored → IsSoundStore file stored →
        KeepOutcome result file stored all (I.commands inputs.new)
        (S.written out.old) (S.written out.new) }
    ensures kept { (name store file stored all : List ℕ) →
        asked_of (map (λ w. w.now) words.now) ≡ Some (Keep name store) →
        I.file inputs.old name ≡ Some file → I.commands inputs.old ≡ Some all →
        K.file disk.old store ≡ Some stored → AreHonest file (K.may_leave disk.old store) →
        KeepsChanges (file_of file) file stored all (S.written out.old) (S.written out.new)
        (K.may_leave disk.old store) (K.may_leave disk.new store)
        (λ P. (c : List ℕ) → K.left_since disk.new store (K.moment disk.old) c → P c) }
    ensures refused { (name file : List ℕ) (fault : FileFault) →
        market_named (asked_of (map (λ w. w.now) words.now)) ≡ Some name →
        I.file inputs.old name ≡ Some file → file_of file ≡ Err fault →
        IsTurnedAway result fault (I.commands inputs.old) (I.commands inputs.new)
        (S.written out.old) (S.written out.new) }
    ensures complete { (name file all : List ℕ) →
        market_named (asked_of (map (λ w. w.now) words.now)) ≡ Some name →
        store_named (asked_of (map (λ w. w.now) words.now)) ≡ None →
        I.file inputs.old name ≡ Some file → I.commands inputs.old ≡ Some all →
        IsOk (file_of file) → AreWithin all →
        (Rose (I.faults inputs.old) (I.faults inputs.new) → ⊥) →
        (Rose (S.faults out.old) (S.faults out.new) → ⊥) →
        (result ≡ Status.Done) ⊎ (result ≡ Status.Memory) }
    ensures keep_complete { (name store file stored all : List ℕ) →
        asked_of (map (λ w. w.now) words.now) ≡ Some (Keep name store) →
        I.file inputs.old name ≡ Some file → I.commands inputs.old ≡ Some all →
        K.file disk.old store ≡ Some stored → IsHonestStore file stored →
        IsOk (file_of file) → AreWithin all →
        (Rose (K.faults disk.old) (K.faults disk.new) → ⊥) →
        (Rose (I.faults inputs.old) (I.faults inputs.new) → ⊥) →
        (Rose (S.faults out.old) (S.faults out.new) → ⊥) →
        (result ≡ Status.Done) ⊎ (result ≡ Status.Memory) }
    ensures sample { (n : ℕ) → asked_of (map (λ w. w.now) words.now) ≡ Some (Sample n) →
        Adds (S.written out.old) (S.written out.new) (EndsSample result n) }
    ensures other_words { asked_of (map (λ w. w.now) words.now) ≡ None →
        Adds (S.written out.old) (S.written out.new) (EndsUsage result) }
    ensures unread { market_named (asked_of (map (λ w. w.now) words.now)) ≡ None →
        inputs.new ≡ inputs.old }
    ensures unkept { store_named (asked_of (map (λ w. w.now) words.now)) ≡ None →
        disk.new ≡ disk.old }
    ensures usage { result ≡ Status.Usage → asked_of (map (λ w. w.now) words.now) ≡ None }
    ensures causes { store_named (asked_of (map (λ w. w.now) words.now)) ≡ None →
        HasCauses result (I.faults inputs.old) (I.faults inputs.new)
        (S.faults out.old) (S.faults out.new) }
    ensures keep_causes { HasKeepCauses result (K.faults disk.old) (K.faults disk.new)
        (I.faults inputs.old) (I.faults inputs.new) (S.faults out.old) (S.faults out.new) }
{
    match read_words(words) {
        Some(Asked::Run { name }) => serve(alloc, name, inputs, out),
        Some(Asked::RunThen { name, ask }) => run_ask(alloc, name, &ask, inputs, out),
        Some(Asked::Keep { name, store }) => keep(alloc, name, store, inputs, out, disk),
        Some(Asked::Audit { name, transcript }) => {
            audit_named(alloc, name, transcript, inputs, out)
        }
        Some(Asked::Sample { size }) => run_sample(alloc, size, out),
        None => explain(out),
    }
}

/// Writes how the program is called.
fn explain<S: Sink>(out: &mut S) -> Status
    ensures output { Adds (S.written out.old) (S.written out.new) (EndsUsage result) }
    ensures causes { (inputs : ℕ) → HasCauses result inputs inputs
        (S.faults out.old) (S.faults out.new) }
{
    let usage =
        b"usage: daggre run NAME | daggre sample N | daggre chance NAME PAIR.. [given PAIR..] \
        | daggre best NAME [PAIR..] | daggre expect NAME USER | daggre audit NAME TRANSCRIPT \
        | daggre keep NAME STORE\n";
    match write_all(out, usage) {
        Ok(()) => Status::Usage,
        Err(_) => Status::WriteFault,
    }
}
