//! The opening of a store.

ghost use Rattle.std.specs.Prelude.{◌≡◌, ◌⊎◌, ℕ, ◌+◌, ◌*◌, ◌^◌, ◌<◌, ◌≤◌, List, [], length, take, drop, Some, IsTrue, IfSome, IfOk, IfErr, OnOk};
ghost use Rattle.mk_disk.specs.Disk.{Only, NoMore};
ghost use Rattle.mk_journal.specs.Store.{begun, IsUnstarted, StandsFor, IsBroken};
ghost use Rattle.mk_journal.specs.Kept.{IsSettled};
ghost use Rattle.mk_journal.specs.Opening.{contents, IfGate, IfMalformed, IfForeign, IsCounted, IsRefused};
ghost use Rattle.mk_journal.specs.inner.Reading.{IsRead};
ghost use Rattle.mk_journal.specs.Moments.{LeavesOnly};
ghost use Rattle.mk_journal.specs.declared.open.OpenFault.TheVariants.{Disk, Memory};

use crate::front::{Kind, kind_of};
use crate::header::begin;
use crate::read::{End, Found, read_records};
use mk_disk::{Disk, DiskFailed};
use std::alloc::{AllocError, Global};

/// Why a store was not opened.
#[derive(Clone, Copy, Debug, PartialEq, Eq)]
pub enum OpenFault {
    /// A call of the disk failed.
    Disk,
    /// From this place on the file is not this market's.
    Foreign { at: u64 },
    /// Memory was wanting.
    Memory,
}

impl From<DiskFailed> for OpenFault {
    ghost from_gives = { λ _ e. e ≡ Disk };

    fn from(_: DiskFailed) -> Self {
        OpenFault::Disk
    }
}

impl From<AllocError> for OpenFault {
    ghost from_gives = { λ _ e. e ≡ Memory };

    fn from(_: AllocError) -> Self {
        OpenFault::Memory
    }
}

// The first bytes of a file, and its length.
#[derive(Drop)]
struct Front {
    bytes: Vec<u8>,
    len: u64,
}

// Makes the open file durable, and reads its first bytes, as many as `size`.
fn load_front<K: Disk>(alloc: Global, disk: &mut K, size: usize) -> Result<Front, OpenFault>
    requires { IsTrue (K.is_open disk.old) }
    ensures later { K.faults disk.old ≤ K.faults disk.new }
    ensures ok { OnOk result (K.faults disk.new ≡ K.faults disk.old) }
    ensures fault { IfErr result (IsCounted (K.faults disk.old) (K.faults disk.new)) }
    ensures plain { (market f : List ℕ) → IfErr result (IsRefused market f) }
    ensures stays { K.is_open disk.new ≡ K.is_open disk.old }
    ensures stays_name { K.open_name disk.new ≡ K.open_name disk.old }
    ensures files { (n : List ℕ) → K.file disk.new n ≡ K.file disk.old n }
    ensures images { (n : List ℕ) → NoMore (K.may_leave disk.old n) (K.may_leave disk.new n) }
    ensures any_moment { (n : List ℕ) → LeavesOnly (K.moment disk.old) (K.moment disk.new) (K.left_since disk.old n) (K.left_since disk.new n) (K.may_leave disk.old n) }
    ensures bytes { IfOk result (λ front. IfSome (K.file disk.old (K.open_name disk.old)) (λ f. front.bytes.items ≡ take size f)) }
    ensures len { IfOk result (λ front. IfSome (K.file disk.old (K.open_name disk.old)) (λ f. front.len ≡ length f)) }
    ensures durable { OnOk result (IfSome (K.file disk.old (K.open_name disk.old)) (λ f. Only f (K.may_leave disk.new (K.open_name disk.old)))) }
{
    disk.sync()?;
    let len = disk.length()?;
    let mut bytes = vec![in alloc; 0; size]?;
    let count = disk.read_at(0, &mut bytes)?;
    bytes.truncate(count);
    Ok(Front { bytes, len })
}

// Reads the open file, of `len` bytes, from a place on.
fn load_rest<K: Disk>(
    alloc: Global,
    disk: &mut K,
    len: u64,
    place: u64,
) -> Result<Vec<u8>, OpenFault>
    requires { IsTrue (K.is_open disk.old) }
    ensures later { K.faults disk.old ≤ K.faults disk.new }
    ensures ok { OnOk result (K.faults disk.new ≡ K.faults disk.old) }
    ensures fault { IfErr result (IsCounted (K.faults disk.old) (K.faults disk.new)) }
    ensures plain { (market f : List ℕ) → IfErr result (IsRefused market f) }
    ensures stays { K.is_open disk.new ≡ K.is_open disk.old }
    ensures stays_name { K.open_name disk.new ≡ K.open_name disk.old }
    ensures files { (n : List ℕ) → K.file disk.new n ≡ K.file disk.old n }
    ensures images { (n : List ℕ) → NoMore (K.may_leave disk.old n) (K.may_leave disk.new n) }
    ensures any_moment { (n : List ℕ) → LeavesOnly (K.moment disk.old) (K.moment disk.new) (K.left_since disk.old n) (K.left_since disk.new n) (K.may_leave disk.old n) }
    ensures bytes { IfOk result (λ v. IfSome (K.file disk.old (K.open_name disk.old)) (λ f. len ≡ length f → v.items ≡ drop place f)) }
{
    let mut bytes = vec![in alloc; 0; len.saturating_sub(place) as usize]?;
    let count = disk.read_at(place, &mut bytes)?;
    bytes.truncate(count);
    Ok(bytes)
}

// The records of the open file, of `len` bytes, which stand from a place on.
fn load_records<K: Disk>(
    alloc: Global,
    disk: &mut K,
    len: u64,
    place: u64,
) -> Result<Found, OpenFault>
    requires is_open { IsTrue (K.is_open disk.old) }
    requires bound { place < 2 ^ 63 }
    ensures later { K.faults disk.old ≤ K.faults disk.new }
    ensures ok { OnOk result (K.faults disk.new ≡ K.faults disk.old) }
    ensures fault { IfErr result (IsCounted (K.faults disk.old) (K.faults disk.new)) }
    ensures plain { (market f : List ℕ) → IfErr result (IsRefused market f) }
    ensures stays { K.is_open disk.new ≡ K.is_open disk.old }
    ensures stays_name { K.open_name disk.new ≡ K.open_name disk.old }
    ensures files { (n : List ℕ) → K.file disk.new n ≡ K.file disk.old n }
    ensures images { (n : List ℕ) → NoMore (K.may_leave disk.old n) (K.may_leave disk.new n) }
    ensures any_moment { (n : List ℕ) → LeavesOnly (K.moment disk.old) (K.moment disk.new) (K.left_since disk.old n) (K.left_since disk.new n) (K.may_leave disk.old n) }
    ensures near { IfOk result (λ found. IfGate found.end (λ gate. gate ≤ place + 34005 * length found.records.items)) }
    ensures found { IfOk result (λ found. IfSome (K.file disk.old (K.open_name disk.old)) (λ f. len ≡ length f → place < length f → IsRead place (drop place f) found)) }
{
    let bytes = load_rest(alloc, disk, len, place)?;
    Ok(read_records(alloc, &bytes, place)?)
}

/// What stands behind the gate of a new store of a market: its header, and a closed first gate.
pub fn header_of(alloc: Global, market: &[u8]) -> Result<Vec<u8>, AllocError>
    ensures { IfOk result (λ v. v.items ≡ begun market.now) }
{
    let mut body = b"DAGGRE01".to_vec(alloc)?;
    body.extend_from_slice(&(market.len() as u64).to_be_bytes())?;
    body.extend_from_slice(market)?;
    body.push(0)?;
    Ok(body)
}

/// Opens the store of a market on the open file, one that a crash may have left, and gives the records that it stands
/// for, or those before a malformed one. `header` is what `header_of` gives for the market. A file without a header gets
/// one. The call may crash too: at any moment each image is one from before it, or stands for no record as the file did.
/// Where neither `Disk` nor `Memory` comes, `Foreign` comes exactly where the file is another's. That is decided by the
/// file's length and its first bytes, before the records are read into memory, and nothing is written then.
pub fn open_store<K: Disk>(alloc: Global, disk: &mut K, header: &[u8]) -> Result<Found, OpenFault>
    requires is_open { IsTrue (K.is_open disk.old) }
    requires some { 0 < length header.now }
    ensures later { K.faults disk.old ≤ K.faults disk.new }
    ensures ok { OnOk result (K.faults disk.new ≡ K.faults disk.old) }
    ensures fault { IfErr result (IsCounted (K.faults disk.old) (K.faults disk.new)) }
    ensures refused { (n market f : List ℕ) → n ≡ K.open_name disk.old → header.now ≡ begun market → K.file disk.old n ≡ Some f → IfErr result (IsRefused market f) }
    ensures unwritten { (n : List ℕ) → IfErr result (λ fault. IfForeign fault (K.file disk.new n ≡ K.file disk.old n)) }
    ensures stays { K.is_open disk.new ≡ K.is_open disk.old }
    ensures stays_name { K.open_name disk.new ≡ K.open_name disk.old }
    ensures stands { (n market f : List ℕ) → n ≡ K.open_name disk.old → header.now ≡ begun market → K.file disk.old n ≡ Some f
        → IfOk result (λ found. IfGate found.end (λ gate. StandsFor market (contents found.records.items) f)) }
    ensures broken { (n market f : List ℕ) → n ≡ K.open_name disk.old → header.now ≡ begun market → K.file disk.old n ≡ Some f
        → IfOk result (λ found. IfMalformed found.end (IsBroken market (contents found.records.items) f)) }
    ensures settled { (n market f : List ℕ) → n ≡ K.open_name disk.old → header.now ≡ begun market → K.file disk.old n ≡ Some f
        → IfOk result (λ found. IfGate found.end (IsSettled (K.file disk.new n) (K.may_leave disk.new n) market (contents found.records.items))) }
    ensures near { IfOk result (λ found. IfGate found.end (λ gate. gate ≤ length header.now + 34005 * length found.records.items)) }
    ensures place { IfOk result (λ found. IfGate found.end (λ gate. IfSome (K.file disk.new (K.open_name disk.old)) (λ f. gate < length f))) }
    ensures any_moment { (n market f : List ℕ) → n ≡ K.open_name disk.old → header.now ≡ begun market → K.file disk.old n ≡ Some f
        → LeavesOnly (K.moment disk.old) (K.moment disk.new) (K.left_since disk.old n) (K.left_since disk.new n) (λ c. K.may_leave disk.old n c ⊎ (IsUnstarted market f × StandsFor market [] c)) }
{
    let front = load_front(alloc, disk, header.len() + 1)?;
    match kind_of(&front.bytes, front.len, header) {
        Kind::New(unstarted) => {
            begin(disk, unstarted, header)?;
            Ok(Found {
                records: Vec::new(alloc),
                end: End::Gate(header.len() as u64),
            })
        }
        Kind::Own => load_records(alloc, disk, front.len, header.len() as u64),
        Kind::Alien(at) => Err(OpenFault::Foreign { at }),
    }
}
