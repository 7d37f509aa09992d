//! Writes that are made durable one by one, and the two steps of an append.

ghost use Rattle.std.specs.Prelude.{◌≡◌, ℕ, ◌+◌, ◌-◌, ◌^◌, ◌<◌, ◌≤◌, List, [], ◌∷◌, ◌++◌, length, option_map, IsTrue, IfSome, OnOk};
ghost use Rattle.mk_disk.specs.Disk.{HasCause, Torn, overwritten};
ghost use Rattle.mk_journal.specs.Store.{AreRecords, chained, IsStarted, IsWithOrWithout};
ghost use Rattle.mk_journal.specs.Kept.{IsKept, IsSettled, IsStaged};
ghost use Rattle.mk_journal.specs.Moments.{LeavesOnly};

use mk_disk::{Disk, DiskFailed};

/// Writes bytes from a place on, and makes them durable.
pub(crate) fn write_synced<K: Disk>(disk: &mut K, at: u64, bytes: &[u8]) -> Result<(), DiskFailed>
    requires is_open { IsTrue (K.is_open disk.old) }
    requires place { IfSome (K.file disk.old (K.open_name disk.old)) (λ f. at ≤ length f) }
    requires some { 0 < length bytes.now }
    ensures cause { HasCause (K.faults disk.old) (K.faults disk.new) result }
    ensures stays { K.is_open disk.new ≡ K.is_open disk.old }
    ensures stays_name { K.open_name disk.new ≡ K.open_name disk.old }
    ensures written { OnOk result (K.file disk.new (K.open_name disk.old) ≡ option_map (overwritten at bytes.now) (K.file disk.old (K.open_name disk.old))) }
    ensures kept { (n f : List ℕ) → n ≡ K.open_name disk.old → IsKept (K.file disk.old n) (K.may_leave disk.old n) f
        → OnOk result (IsKept (K.file disk.new n) (K.may_leave disk.new n) (overwritten at bytes.now f)) }
    ensures any_moment { (n f : List ℕ) → n ≡ K.open_name disk.old → IsKept (K.file disk.old n) (K.may_leave disk.old n) f
        → LeavesOnly (K.moment disk.old) (K.moment disk.new) (K.left_since disk.old n) (K.left_since disk.new n) (Torn at (length bytes.now) f) }
{
    disk.write_at(at, bytes)?;
    disk.sync()
}

/// The second step of an append: the gate before the group, which was written first, is opened in a
/// write of its own.
pub(crate) fn open_gate<K: Disk>(disk: &mut K, gate: u64) -> Result<(), DiskFailed>
    requires is_open { IsTrue (K.is_open disk.old) }
    requires place { IfSome (K.file disk.old (K.open_name disk.old)) (λ f. gate < length f) }
    ensures cause { HasCause (K.faults disk.old) (K.faults disk.new) result }
    ensures stays { K.is_open disk.new ≡ K.is_open disk.old }
    ensures stays_name { K.open_name disk.new ≡ K.open_name disk.old }
    ensures reached { (end : ℕ) → IfSome (K.file disk.old (K.open_name disk.old)) (λ f. end < length f)
        → OnOk result (IfSome (K.file disk.new (K.open_name disk.old)) (λ f. end < length f)) }
    ensures settled { (n market r : List ℕ) (records group : List (List ℕ)) → n ≡ K.open_name disk.old → AreRecords (r ∷ group)
        → IsStaged (K.file disk.old n) (K.may_leave disk.old n) market records gate (chained r group)
        → OnOk result (IsSettled (K.file disk.new n) (K.may_leave disk.new n) market (records ++ r ∷ group) (gate + length (chained r group))) }
    ensures any_moment { (n market r : List ℕ) (records group : List (List ℕ)) → n ≡ K.open_name disk.old → AreRecords (r ∷ group)
        → IsStaged (K.file disk.old n) (K.may_leave disk.old n) market records gate (chained r group)
        → LeavesOnly (K.moment disk.old) (K.moment disk.new) (K.left_since disk.old n) (K.left_since disk.new n) (IsWithOrWithout market records (r ∷ group)) }
{
    write_synced(disk, gate, &[1])
}

/// Appends a group of records behind the closed gate at `gate`. At `Ok` each crash from then on leaves all of them; at any
/// moment of the call a crash leaves the records from before it, with the whole group or without. `body` is the first
/// record behind its length, the others each behind an open gate, and a closed gate.
pub fn append<K: Disk>(disk: &mut K, gate: u64, body: &[u8]) -> Result<(), DiskFailed>
    requires is_open { IsTrue (K.is_open disk.old) }
    requires place { IfSome (K.file disk.old (K.open_name disk.old)) (λ f. gate < length f) }
    requires bound { gate < 2 ^ 63 }
    requires some { 0 < length body.now }
    ensures cause { HasCause (K.faults disk.old) (K.faults disk.new) result }
    ensures stays { K.is_open disk.new ≡ K.is_open disk.old }
    ensures stays_name { K.open_name disk.new ≡ K.open_name disk.old }
    ensures place { OnOk result (IfSome (K.file disk.new (K.open_name disk.old)) (λ f. gate + length body.now < length f)) }
    ensures settled { (n market r : List ℕ) (records group : List (List ℕ)) → n ≡ K.open_name disk.old → body.now ≡ chained r group → AreRecords (r ∷ group)
        → IsSettled (K.file disk.old n) (K.may_leave disk.old n) market records gate
        → OnOk result (IsSettled (K.file disk.new n) (K.may_leave disk.new n) market (records ++ r ∷ group) (gate + length body.now)) }
    ensures any_moment { (n market r : List ℕ) (records group : List (List ℕ)) → n ≡ K.open_name disk.old → body.now ≡ chained r group → AreRecords (r ∷ group)
        → IsSettled (K.file disk.old n) (K.may_leave disk.old n) market records gate
        → LeavesOnly (K.moment disk.old) (K.moment disk.new) (K.left_since disk.old n) (K.left_since disk.new n) (IsWithOrWithout market records (r ∷ group)) }
{
    write_synced(disk, gate + 1, body)?;
    open_gate(disk, gate)
}
