//! The three steps of a new header.

ghost use Rattle.std.specs.Prelude.{◌≡◌, ℕ, ◌+◌, ◌<◌, ◌≤◌, List, [], length, IsTrue, IfSome, OnOk};
ghost use Rattle.mk_disk.specs.Disk.{HasCause};
ghost use Rattle.mk_journal.specs.Store.{begun, IsCleared, IsUnstarted, StandsFor};
ghost use Rattle.mk_journal.specs.Kept.{IsKept, IsDurably, IsHeaded, IsSettled};
ghost use Rattle.mk_journal.specs.Moments.{LeavesOnly};
ghost use Rattle.mk_journal.specs.inner.Reading.{HasHeader, HasRoom, IsUnstartedAs};

use crate::front::Unstarted;
use crate::steps::write_synced;
use mk_disk::{Disk, DiskFailed};

/// The header's gate is closed, in a file of at most one byte. That of a longer file is closed already, and a crash in
/// a write of it could open it over other bytes.
fn close_gate<K: Disk>(disk: &mut K) -> Result<(), DiskFailed>
    requires { IsTrue (K.is_open disk.old) }
    ensures cause { HasCause (K.faults disk.old) (K.faults disk.new) result }
    ensures stays { K.is_open disk.new ≡ K.is_open disk.old }
    ensures stays_name { K.open_name disk.new ≡ K.open_name disk.old }
    ensures place { OnOk result (IfSome (K.file disk.new (K.open_name disk.old)) (λ f. 1 ≤ length f)) }
    ensures cleared { (n market f : List ℕ) → n ≡ K.open_name disk.old → length f ≤ 1 → IsKept (K.file disk.old n) (K.may_leave disk.old n) f
        → OnOk result (IsDurably (K.file disk.new n) (K.may_leave disk.new n) (IsCleared market)) }
    ensures any_moment { (n market f : List ℕ) → n ≡ K.open_name disk.old → length f ≤ 1 → IsKept (K.file disk.old n) (K.may_leave disk.old n) f
        → LeavesOnly (K.moment disk.old) (K.moment disk.new) (K.left_since disk.old n) (K.left_since disk.new n) (IsUnstarted market) }
{
    write_synced(disk, 0, &[0])
}

/// The header's bytes and a closed first gate are written behind the gate 0.
fn write_header<K: Disk>(disk: &mut K, body: &[u8]) -> Result<(), DiskFailed>
    requires is_open { IsTrue (K.is_open disk.old) }
    requires place { IfSome (K.file disk.old (K.open_name disk.old)) (λ f. 1 ≤ length f) }
    requires some { 0 < length body.now }
    ensures cause { HasCause (K.faults disk.old) (K.faults disk.new) result }
    ensures stays { K.is_open disk.new ≡ K.is_open disk.old }
    ensures stays_name { K.open_name disk.new ≡ K.open_name disk.old }
    ensures place { OnOk result (IfSome (K.file disk.new (K.open_name disk.old)) (λ f. length body.now < length f)) }
    ensures headed { (n market : List ℕ) → n ≡ K.open_name disk.old → body.now ≡ begun market → IsDurably (K.file disk.old n) (K.may_leave disk.old n) (IsCleared market)
        → OnOk result (IsDurably (K.file disk.new n) (K.may_leave disk.new n) (IsHeaded market)) }
    ensures any_moment { (n market : List ℕ) → n ≡ K.open_name disk.old → body.now ≡ begun market → IsDurably (K.file disk.old n) (K.may_leave disk.old n) (IsCleared market)
        → LeavesOnly (K.moment disk.old) (K.moment disk.new) (K.left_since disk.old n) (K.left_since disk.new n) (IsUnstarted market) }
{
    write_synced(disk, 1, body)
}

/// A closed first gate alone is written behind a header that stands already. Written again behind another gate than 0,
/// the header could be lost by a crash.
fn close_first_gate<K: Disk>(disk: &mut K, at: u64) -> Result<(), DiskFailed>
    requires is_open { IsTrue (K.is_open disk.old) }
    requires place { IfSome (K.file disk.old (K.open_name disk.old)) (λ f. at ≤ length f) }
    ensures cause { HasCause (K.faults disk.old) (K.faults disk.new) result }
    ensures stays { K.is_open disk.new ≡ K.is_open disk.old }
    ensures stays_name { K.open_name disk.new ≡ K.open_name disk.old }
    ensures place { OnOk result (IfSome (K.file disk.new (K.open_name disk.old)) (λ f. at < length f)) }
    ensures headed { (n market f : List ℕ) → n ≡ K.open_name disk.old → at ≡ length (begun market) → HasHeader market f → IsUnstarted market f
        → IsKept (K.file disk.old n) (K.may_leave disk.old n) f
        → OnOk result (IsDurably (K.file disk.new n) (K.may_leave disk.new n) (IsHeaded market)) }
    ensures any_moment { (n market f : List ℕ) → n ≡ K.open_name disk.old → at ≡ length (begun market) → HasHeader market f → IsUnstarted market f
        → IsKept (K.file disk.old n) (K.may_leave disk.old n) f
        → LeavesOnly (K.moment disk.old) (K.moment disk.new) (K.left_since disk.old n) (K.left_since disk.new n) (IsUnstarted market) }
{
    write_synced(disk, at, &[0])
}

/// The first two steps: the header, with a closed first gate, stands behind its closed gate.
fn prepare<K: Disk>(disk: &mut K, unstarted: Unstarted, body: &[u8]) -> Result<(), DiskFailed>
    requires is_open { IsTrue (K.is_open disk.old) }
    requires place { IfSome (K.file disk.old (K.open_name disk.old)) (λ f. HasRoom unstarted (length body.now) (length f)) }
    requires some { 0 < length body.now }
    ensures cause { HasCause (K.faults disk.old) (K.faults disk.new) result }
    ensures stays { K.is_open disk.new ≡ K.is_open disk.old }
    ensures stays_name { K.open_name disk.new ≡ K.open_name disk.old }
    ensures place { OnOk result (IfSome (K.file disk.new (K.open_name disk.old)) (λ f. length body.now < length f)) }
    ensures headed { (n market f : List ℕ) → n ≡ K.open_name disk.old → body.now ≡ begun market → IsUnstartedAs market f unstarted
        → IsKept (K.file disk.old n) (K.may_leave disk.old n) f
        → OnOk result (IsDurably (K.file disk.new n) (K.may_leave disk.new n) (IsHeaded market)) }
    ensures any_moment { (n market f : List ℕ) → n ≡ K.open_name disk.old → body.now ≡ begun market → IsUnstartedAs market f unstarted
        → IsKept (K.file disk.old n) (K.may_leave disk.old n) f
        → LeavesOnly (K.moment disk.old) (K.moment disk.new) (K.left_since disk.old n) (K.left_since disk.new n) (IsUnstarted market) }
{
    match unstarted {
        Unstarted::Short => {
            close_gate(disk)?;
            write_header(disk, body)
        }
        Unstarted::Cleared => write_header(disk, body),
        Unstarted::Written => close_first_gate(disk, body.len() as u64),
    }
}

/// The third step: the header's gate is opened.
fn open_header<K: Disk>(disk: &mut K) -> Result<(), DiskFailed>
    requires { IsTrue (K.is_open disk.old) }
    ensures cause { HasCause (K.faults disk.old) (K.faults disk.new) result }
    ensures stays { K.is_open disk.new ≡ K.is_open disk.old }
    ensures stays_name { K.open_name disk.new ≡ K.open_name disk.old }
    ensures reached { (end : ℕ) → IfSome (K.file disk.old (K.open_name disk.old)) (λ f. end < length f)
        → OnOk result (IfSome (K.file disk.new (K.open_name disk.old)) (λ f. end < length f)) }
    ensures settled { (n market : List ℕ) → n ≡ K.open_name disk.old → IsDurably (K.file disk.old n) (K.may_leave disk.old n) (IsHeaded market)
        → OnOk result (IsSettled (K.file disk.new n) (K.may_leave disk.new n) market [] (length (begun market))) }
    ensures any_moment { (n market : List ℕ) → n ≡ K.open_name disk.old → IsDurably (K.file disk.old n) (K.may_leave disk.old n) (IsHeaded market)
        → LeavesOnly (K.moment disk.old) (K.moment disk.new) (K.left_since disk.old n) (K.left_since disk.new n) (StandsFor market []) }
{
    write_synced(disk, 0, &[1])
}

/// Gives a file without a header the header of a market. `body` is what stands behind the header's gate, with a closed
/// first gate. At any moment of the call a crash leaves a file that stands for no record.
pub(crate) fn begin<K: Disk>(
    disk: &mut K,
    unstarted: Unstarted,
    body: &[u8],
) -> Result<(), DiskFailed>
    requires is_open { IsTrue (K.is_open disk.old) }
    requires place { IfSome (K.file disk.old (K.open_name disk.old)) (λ f. HasRoom unstarted (length body.now) (length f)) }
    requires some { 0 < length body.now }
    ensures cause { HasCause (K.faults disk.old) (K.faults disk.new) result }
    ensures stays { K.is_open disk.new ≡ K.is_open disk.old }
    ensures stays_name { K.open_name disk.new ≡ K.open_name disk.old }
    ensures place { OnOk result (IfSome (K.file disk.new (K.open_name disk.old)) (λ f. length body.now < length f)) }
    ensures settled { (n market f : List ℕ) → n ≡ K.open_name disk.old → body.now ≡ begun market → IsUnstartedAs market f unstarted
        → IsKept (K.file disk.old n) (K.may_leave disk.old n) f
        → OnOk result (IsSettled (K.file disk.new n) (K.may_leave disk.new n) market [] (length body.now)) }
    ensures any_moment { (n market f : List ℕ) → n ≡ K.open_name disk.old → body.now ≡ begun market → IsUnstartedAs market f unstarted
        → IsKept (K.file disk.old n) (K.may_leave disk.old n) f
        → LeavesOnly (K.moment disk.old) (K.moment disk.new) (K.left_since disk.old n) (K.left_since disk.new n) (StandsFor market []) }
{
    prepare(disk, unstarted, body)?;
    open_header(disk)
}
