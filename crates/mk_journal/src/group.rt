//! Records that wait to be made durable together.

ghost use Rattle.std.specs.Prelude.{◌≡◌, ◌↔◌, ℕ, ◌+◌, ◌^◌, ◌<◌, ◌≤◌, List, [], ◌∷◌, ◌++◌, length, IsTrue, IfSome, IfOk, OnOk, OnErr};
ghost use Rattle.mk_names.specs.declared.limits.TheConstants.{MAX_RECORD_BYTES};
ghost use Rattle.mk_disk.specs.Disk.{HasCause};
ghost use Rattle.mk_journal.specs.Store.{IsLength, AreRecords, framed, opened, IsWithOrWithout};
ghost use Rattle.mk_journal.specs.Kept.{IsSettled};
ghost use Rattle.mk_journal.specs.Moments.{LeavesOnly};

use crate::steps::append;
use mk_disk::{Disk, DiskFailed};
use std::alloc::{AllocError, Global};
use std::marker::Model;

// room for the records of a group and for the next gate
const ROOM: usize = 102_400;

// what a record takes beside its own bytes: its gate, its length, and the next gate
const AROUND: usize = 6;

/// Records that wait, each behind an open gate. Contracts see the bytes; all memory is taken at the start.
#[derive(Drop)]
pub struct Group {
    bytes: Vec<u8>,
}

impl Model for Group {
    ghost use Rattle.std.specs.Prelude.{ℕ, List, ◌≤◌, vec_capacity};

    ghost Value = { List ℕ };

    ghost view = { λ g. g.bytes.items };

    ghost invariant = { λ g. 102400 ≤ vec_capacity g.bytes };
}

impl Group {
    /// No record yet.
    pub fn start(alloc: Global) -> Result<Group, AllocError>
        ensures { IfOk result (λ group. group ≡ []) }
    {
        Ok(Group {
            bytes: Vec::with_capacity(alloc, ROOM)?,
        })
    }

    /// Whether there is room for a record of so many bytes.
    pub fn has_room(&self, size: usize) -> bool
        requires { size ≤ MAX_RECORD_BYTES }
        ensures { IsTrue result ↔ (length self.now + size + 6 ≤ 102400) }
    {
        self.bytes.len() + size + AROUND <= ROOM
    }

    /// Puts a record behind those that wait.
    pub fn put(&mut self, entry: &[u8])
        requires size { IsLength (length entry.now) }
        requires room { length self.old + length entry.now + 6 ≤ 102400 }
        ensures { self.new ≡ self.old ++ 1 ∷ framed entry.now }
    {
        self.bytes.push_reserved(1);
        let Ok(()) = self
            .bytes
            .extend_from_slice(&(entry.len() as u32).to_be_bytes())
        else {
            unreachable!()
        };
        let Ok(()) = self.bytes.extend_from_slice(entry) else {
            unreachable!()
        };
    }

    /// Makes all that wait durable together, behind the closed gate at `gate`, and gives the place of the next one. At any
    /// moment a crash leaves the records from before, with all of these or none. No call of the disk is made for none.
    pub fn commit<K: Disk>(&mut self, disk: &mut K, gate: u64) -> Result<u64, DiskFailed>
        requires is_open { IsTrue (K.is_open disk.old) }
        requires place { IfSome (K.file disk.old (K.open_name disk.old)) (λ f. gate < length f) }
        requires bound { gate < 2 ^ 63 }
        requires room { length self.old + 1 ≤ 102400 }
        ensures cause { HasCause (K.faults disk.old) (K.faults disk.new) result }
        ensures stays { K.is_open disk.new ≡ K.is_open disk.old }
        ensures stays_name { K.open_name disk.new ≡ K.open_name disk.old }
        ensures none { OnOk result (self.new ≡ []) }
        ensures same { OnErr result (self.new ≡ self.old) }
        ensures grows { IfOk result (λ next. next ≤ gate + length self.old) }
        ensures place { IfOk result (λ next. IfSome (K.file disk.new (K.open_name disk.old)) (λ f. next < length f)) }
        ensures settled { (n market : List ℕ) (records group : List (List ℕ)) → n ≡ K.open_name disk.old → self.old ≡ opened group → AreRecords group
            → IsSettled (K.file disk.old n) (K.may_leave disk.old n) market records gate
            → IfOk result (λ next. IsSettled (K.file disk.new n) (K.may_leave disk.new n) market (records ++ group) next) }
        ensures any_moment { (n market : List ℕ) (records group : List (List ℕ)) → n ≡ K.open_name disk.old → self.old ≡ opened group → AreRecords group
            → IsSettled (K.file disk.old n) (K.may_leave disk.old n) market records gate
            → LeavesOnly (K.moment disk.old) (K.moment disk.new) (K.left_since disk.old n) (K.left_since disk.new n) (IsWithOrWithout market records group) }
    {
        if self.bytes.is_empty() {
            return Ok(gate);
        }
        let size = self.bytes.len();
        self.bytes.push_reserved(0);
        let appended = append(disk, gate, &self.bytes[1..]);
        self.bytes.truncate(size);
        appended?;
        self.bytes.clear();
        Ok(gate + size as u64)
    }
}
