//! A call of the program, from its arguments to its exit status.

ghost use Rattle.daggre.specs.Below.{into_iter_items, Rose, code_of, file_of, AreWithin, Adds};
ghost use Rattle.daggre.specs.Below.{Outcome, IsTurnedAway, HasCauses, HasKeepCauses, KeepOutcome};
ghost use Rattle.daggre.specs.Below.{KeepsChanges, IsSoundStore, IsHonestStore, AreHonest};
ghost use Rattle.daggre.specs.Below.{AuditOutcome};
ghost use Rattle.std.specs.Prelude.{◌≡◌, ◌≢◌, ◌≤◌, ◌⊎◌, ℕ, List, [], drop, map, string_bytes};
ghost use Rattle.std.specs.Prelude.{length};
ghost use Rattle.std.specs.Prelude.{None, Some, Err, IsOk, IfOk, IfErr, IfSome, IfNone};
ghost use Rattle.mk_file.specs.declared.fault.FileFault.{FileFault};
ghost use Rattle.daggre.specs.Words.{Run, Sample, RunThen, Keep, Audit, asked_of, EndsUsage};
ghost use Rattle.daggre.specs.AskOutcome.{AskOutcome};
ghost use Rattle.daggre.specs.declared.ask.Ask.{Ask};
ghost use Rattle.daggre.specs.Called.{words_in, asked_by, named_by, kept_by, audited_by, Exits};
ghost use Rattle.daggre.specs.Sampled.{EndsSample};

use crate::program::program;
use arrayvec::ArrayVec;
use mk_disk::Disk;
use mk_io::{Inputs, Sink, Status};
use mk_net::NoMemory;
use std::alloc::Global;
use std::env::Args;
use std::io;

/// Does what the arguments of a call ask, and gives the exit status of the process, that of
/// `program`.
///
/// The first argument is the program's own name, and is no word. Where an argument is no text, the
/// words ask for nothing that the program knows. Where memory was wanting for them, nothing is read
/// or written.
pub fn call<I: Inputs, S: Sink, K: Disk>(
    alloc: Global,
    arguments: io::Result<Args>,
    inputs: &mut I,
    out: &mut S,
    disk: &mut K,
) -> u8
    requires market { (name : List ℕ) → named_by arguments ≡ Some (Some name) → I.admits name }
    requires store { (store : List ℕ) → kept_by arguments ≡ Some (Some store) → K.admits store }
    requires transcript { (transcript : List ℕ) → audited_by arguments ≡ Some (Some transcript) →
        I.admits transcript }
    ensures run { (name file all : List ℕ) → asked_by arguments ≡ Some (Some (Run name)) →
        I.file inputs.old name ≡ Some file → I.commands inputs.old ≡ Some all →
        Exits result (λ status. Outcome status file all (I.commands inputs.new)
        (S.written out.old) (S.written out.new)) }
    ensures asks { (name file all : List ℕ) (ask : Ask) →
        asked_by arguments ≡ Some (Some (RunThen name ask)) →
        I.file inputs.old name ≡ Some file → I.commands inputs.old ≡ Some all →
        Exits result (λ status. AskOutcome status ask file all (I.commands inputs.new)
        (S.written out.old) (S.written out.new)) }
    ensures audit { (name transcript file text all : List ℕ) →
        asked_by arguments ≡ Some (Some (Audit name transcript)) →
        I.file inputs.old name ≡ Some file → I.file inputs.old transcript ≡ Some text →
        I.commands inputs.old ≡ Some all →
        Exits result (λ status. AuditOutcome status file text all (I.commands inputs.new)
        (S.written out.old) (S.written out.new)) }
    ensures keep { (name store file stored all : List ℕ) →
        asked_by arguments ≡ Some (Some (Keep name store)) →
        I.file inputs.old name ≡ Some file → I.commands inputs.old ≡ Some all →
        K.file disk.old store ≡ Some stored → IsSoundStore file stored →
        Exits result (λ status. KeepOutcome status file stored all (I.commands inputs.new)
        (S.written out.old) (S.written out.new)) }
    ensures kept { (name store file stored all : List ℕ) →
        asked_by arguments ≡ Some (Some (Keep name store)) →
        I.file inputs.old name ≡ Some file → I.commands inputs.old ≡ Some all →
        K.file disk.old store ≡ Some stored → AreHonest file (K.may_leave disk.old store) →
        KeepsChanges (file_of file) file stored all (S.written out.old) (S.written out.new)
        (K.may_leave disk.old store) (K.may_leave disk.new store)
        (λ P. (c : List ℕ) → K.left_since disk.new store (K.moment disk.old) c → P c) }
    ensures refused { (name file : List ℕ) (fault : FileFault) →
        named_by arguments ≡ Some (Some name) →
        I.file inputs.old name ≡ Some file → file_of file ≡ Err fault →
        Exits result (λ status. IsTurnedAway status fault (I.commands inputs.old)
        (I.commands inputs.new) (S.written out.old) (S.written out.new)) }
    ensures complete { (name file all : List ℕ) → named_by arguments ≡ Some (Some name) →
        kept_by arguments ≡ Some None → I.file inputs.old name ≡ Some file →
        I.commands inputs.old ≡ Some all →
        IsOk (file_of file) → AreWithin all →
        (Rose (I.faults inputs.old) (I.faults inputs.new) → ⊥) →
        (Rose (S.faults out.old) (S.faults out.new) → ⊥) →
        (result ≡ code_of Status.Done) ⊎ (result ≡ code_of Status.Memory) }
    ensures keep_complete { (name store file stored all : List ℕ) →
        asked_by arguments ≡ Some (Some (Keep name store)) →
        I.file inputs.old name ≡ Some file → I.commands inputs.old ≡ Some all →
        K.file disk.old store ≡ Some stored → IsHonestStore file stored →
        IsOk (file_of file) → AreWithin all →
        (Rose (K.faults disk.old) (K.faults disk.new) → ⊥) →
        (Rose (I.faults inputs.old) (I.faults inputs.new) → ⊥) →
        (Rose (S.faults out.old) (S.faults out.new) → ⊥) →
        (result ≡ code_of Status.Done) ⊎ (result ≡ code_of Status.Memory) }
    ensures sample { (n : ℕ) → asked_by arguments ≡ Some (Some (Sample n)) →
        Exits result (λ status.
        Adds (S.written out.old) (S.written out.new) (EndsSample status n)) }
    ensures other_words { asked_by arguments ≡ Some None →
        Exits result (λ status. Adds (S.written out.old) (S.written out.new) (EndsUsage status)) }
    ensures unread { ((name : List ℕ) → named_by arguments ≢ Some (Some name)) →
        inputs.new ≡ inputs.old }
    ensures unkept { ((store : List ℕ) → kept_by arguments ≢ Some (Some store)) →
        disk.new ≡ disk.old }
    ensures usage { result ≡ code_of Status.Usage → asked_by arguments ≡ Some None }
    ensures causes { ((store : List ℕ) → kept_by arguments ≢ Some (Some store)) →
        Exits result (λ status. HasCauses status
        (I.faults inputs.old) (I.faults inputs.new) (S.faults out.old) (S.faults out.new)) }
    ensures keep_causes { Exits result (λ status. HasKeepCauses status
        (K.faults disk.old) (K.faults disk.new) (I.faults inputs.old) (I.faults inputs.new)
        (S.faults out.old) (S.faults out.new)) }
    ensures no_memory { asked_by arguments ≡ None →
        (result ≡ code_of Status.Memory) × (S.written out.new ≡ S.written out.old) }
{
    match words_of(alloc, arguments) {
        Ok(Some(words)) => {
            program(alloc, lent(words.as_slice()).as_slice(), inputs, out, disk).code()
        }
        Ok(None) => program(alloc, &[], inputs, out, disk).code(),
        Err(NoMemory) => Status::Memory.code(),
    }
}

/// As many words as ask for something at most: a form, a name, two lists and the word between them.
type WordList = ArrayVec<String, 131, Global>;

/// The words of a call, where they are not too many. More words ask for nothing.
fn words_of(alloc: Global, arguments: io::Result<Args>) -> Result<Option<WordList>, NoMemory>
    ensures some { IfOk result (λ found. IfSome found (λ words.
        words_in arguments ≡ Some (map string_bytes words.items))) }
    ensures others { IfOk result (λ found. IfNone found (asked_by arguments ≡ Some None)) }
    ensures unknown { IfErr result (λ _. words_in arguments ≡ None) }
{
    match arguments {
        Ok(arguments) => Ok(words_behind_name(alloc, arguments)),
        Err(error) => match error.kind() {
            io::ErrorKind::InvalidData => Ok(None),
            _ => Err(NoMemory),
        },
    }
}

/// The words behind the program's own name, where they are not too many.
fn words_behind_name(alloc: Global, mut arguments: Args) -> Option<WordList>
    ensures some { IfSome result (λ words.
        drop 1 (map string_bytes (into_iter_items arguments)) ≡ map string_bytes words.items) }
    ensures others { IfNone result
        (asked_of (drop 1 (map string_bytes (into_iter_items arguments))) ≡ None) }
{
    let _name = arguments.next();
    let mut words = ArrayVec::new_in(alloc);
    'words: while let Some(word) = arguments.next() {
        if words.is_full() {
            return None;
        }
        words.push(word);
    }
    Some(words)
}

/// The words, lent.
fn lent(words: &[String]) -> ArrayVec<&str, 131>
    requires { length words.now ≤ 131 }
    ensures { map (λ w. w.now) result.items ≡ map string_bytes words.now }
{
    let mut texts = ArrayVec::new();
    for word in words {
        texts.push(word.as_str());
    }
    texts
}
