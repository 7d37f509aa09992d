//! Crashes after each call of the disk, twice, and files that are no store.

ghost use Rattle.std.specs.Prelude.{ℕ, ◌≡◌, ◌+◌, ◌^◌, ◌<◌, List, length, IsTrue, IfSome, OnOk};
ghost use Rattle.mk_journal.specs.Store.{IsLength};
ghost use Rattle.mk_journal.specs.Keepers.{IsReady};

use mk_disk::{Choice, Disk, DiskFailed, MemoryDisk};
use mk_journal::{End, Found, Group, Keeper, OpenFault, Store, header_of, open_store};
use std::alloc::{AllocError, Global};
use std::process::Abort;
use std::test::Fail;

const MARKET: &[u8] = b"coin";

const NAME: &str = "store";

const CHOICES: [Choice; 3] = [Choice::Old, Choice::New, Choice::Noise];

// The changes of a run.
const CHANGES: [[u8; 3]; 2] = [[1, 10, 1], [2, 10, 2]];

// A run of two changes: whether they are kept together, and how many calls of the disk the run makes.
#[derive(Clone, Copy)]
struct Plan {
    together: bool,
    calls: u64,
}

// Opens the store; none where a call of the disk fails.
fn reopened<D: Disk>(alloc: Global, disk: &mut D) -> Option<Found>
    requires { (n : List ℕ) → D.admits n }
{
    let header = header_of(alloc, MARKET).ok()?;
    if disk.open(NAME).is_err() {
        return None;
    }
    open_store(alloc, disk, &header).ok()
}

// Takes a change, and keeps all that waits unless more is to come.
fn take_change<D: Disk>(
    store: &mut Store,
    disk: &mut D,
    change: &[u8],
    more: bool,
) -> Result<(), DiskFailed>
    requires size { IsLength (length change.now) }
    requires ready { (n : ℕ) × (n < 2 ^ 39)
        × IsReady (D.is_open disk.old) (D.file disk.old (D.open_name disk.old)) store.old n }
    ensures { (n : ℕ) → n < 2 ^ 39
        → IsReady (D.is_open disk.old) (D.file disk.old (D.open_name disk.old)) store.old n
        → OnOk result (IsReady (D.is_open disk.new) (D.file disk.new (D.open_name disk.new))
        store.new (n + 1)) }
{
    store.take(disk, change)?;
    if more {
        return Ok(());
    }
    store.keep(disk)
}

// Keeps two changes in a store that has its closed gate at `gate`, each by itself or both together, until a call of the
// disk fails; gives how many were kept.
fn keep_changes<D: Disk>(
    alloc: Global,
    disk: &mut D,
    gate: u64,
    together: bool,
) -> Result<u64, AllocError>
    requires is_open { IsTrue (D.is_open disk.old) }
    requires place { IfSome (D.file disk.old (D.open_name disk.old)) (λ f. gate < length f) }
    requires near { gate < 1000 }
{
    let mut store = Store::new(gate, Group::start(alloc)?);
    if take_change(&mut store, disk, &CHANGES[0], together).is_err() {
        return Ok(0);
    }
    if take_change(&mut store, disk, &CHANGES[1], false).is_err() {
        return Ok(if together { 0 } else { 1 });
    }
    Ok(2)
}

// Opens the store and keeps two changes, until a call of the disk fails; gives how many were kept.
fn run<D: Disk>(
    rt: &impl Abort,
    alloc: Global,
    disk: &mut D,
    together: bool,
) -> Result<u64, AllocError>
    requires { (n : List ℕ) → D.admits n }
{
    let header = header_of(alloc, MARKET)?;
    if disk.open(NAME).is_err() {
        return Ok(0);
    }
    let Ok(found) = open_store(alloc, disk, &header) else {
        return Ok(0);
    };
    let End::Gate(gate) = found.end else {
        return Ok(0);
    };
    assert!(rt; gate < 1000);
    keep_changes(alloc, disk, gate, together)
}

// Opens the store, again where a call failed.
fn opened_at_last<D: Disk>(alloc: Global, disk: &mut D) -> Option<Found>
    requires { (n : List ℕ) → D.admits n }
{
    match reopened(alloc, disk) {
        Some(found) => Some(found),
        None => reopened(alloc, disk),
    }
}

// The store holds the first of the two changes, at least so many, and both or none where they were kept together.
fn expect_front(rt: &impl Abort, found: &Found, least: u64, together: bool) {
    assert!(rt; matches!(found.end, End::Gate(_)));
    assert!(rt; found.records.len() <= 2);
    assert!(rt; found.records.len() as u64 >= least);
    assert!(rt; !together || found.records.len() != 1);
    for (record, bytes) in found.records.iter().zip(CHANGES.iter()) {
        assert!(rt; record.as_slice() == bytes.as_slice());
    }
}

// The store is opened at last, and holds what was kept.
fn expect_opened(
    rt: &impl Abort,
    alloc: Global,
    disk: &mut MemoryDisk,
    kept: Result<u64, AllocError>,
    together: bool,
) -> Result<(), AllocError> {
    let kept = kept?;
    let found = opened_at_last(alloc, disk);
    assert!(rt; found.is_some());
    if let Some(found) = &found {
        expect_front(rt, found, kept, together);
    }
    drop(found);
    Ok(())
}

// A run stops at the first of the failing calls, after so many, and crashes; the next opening stops at the second and
// crashes again; then the store is opened. Says whether the opening before ended.
fn crash_pair(
    rt: &impl Abort,
    alloc: Global,
    failing: [u64; 2],
    plan: Plan,
    left: Choice,
    again: Choice,
) -> Result<bool, AllocError> {
    let mut disk = MemoryDisk::new(alloc, failing.to_vec(alloc)?);
    let kept = run(rt, alloc, &mut disk, plan.together);
    assert!(rt; disk.calls() == plan.calls);
    let mut disk = disk.crash(left)?;
    let ended = reopened(alloc, &mut disk).is_some();
    let mut disk = disk.crash(again)?;
    let opened = expect_opened(rt, alloc, &mut disk, kept, plan.together);
    drop(disk);
    opened?;
    Ok(ended)
}

// A run stops at call `first` and crashes; the next opening stops at each of its calls in turn and crashes again; then
// the store is opened. Gives how many images were opened.
fn crash_twice(
    rt: &impl Abort,
    alloc: Global,
    first: u64,
    plan: Plan,
    left: Choice,
) -> Result<u64, AllocError> {
    let mut images = 0u64;
    // a call of number 0 is never made
    let (stop, calls) = if first > plan.calls {
        (0, plan.calls)
    } else {
        (first, first)
    };
    for second in 1..=11 {
        let mut ended = false;
        for again in CHOICES {
            let stopped = Plan {
                together: plan.together,
                calls,
            };
            let failing = [stop, calls.saturating_add(second)];
            ended = crash_pair(rt, alloc, failing, stopped, left, again)?;
            images = images.saturating_add(1);
        }
        if ended {
            return Ok(images);
        }
    }
    Ok(images)
}

// Stops a run at each of its calls, and at none, and crashes by each choice. Gives how many images were opened.
fn crash_everywhere(rt: &impl Abort, alloc: Global, plan: Plan) -> Result<u64, AllocError> {
    let mut images = 0u64;
    for first in 1..=plan.calls.saturating_add(1) {
        for left in CHOICES {
            images = images.saturating_add(crash_twice(rt, alloc, first, plan, left)?);
        }
    }
    Ok(images)
}

// So many images are opened, and each holds what was kept.
fn expect_crashes(
    rt: &impl Abort,
    alloc: Global,
    together: bool,
    calls: u64,
    images: u64,
) -> Result<(), Fail> {
    let opened = crash_everywhere(rt, alloc, Plan { together, calls })?;
    assert_eq!(rt; opened, images);
    Ok(())
}

// One call opens the file, three load its front, six write a header, and four each of two changes: 18. The first run is
// stopped at each of them, and at none, and crashes by 3 choices: 57 images. Of these 21 have at most one byte (all of
// calls 1 to 6, two of call 7 and one of call 8), and an opening then makes 10 calls; 6 have a closed gate and more (one
// of call 7, two each of 8 and 9, one of 10), 8 calls; 30 have a header, 5 calls. Each opening is stopped at each of its
// calls, and at none, and crashes by 3 choices: 3 * (21 * 11 + 6 * 9 + 30 * 6).
#[test]
fn each_crash_leaves_every_kept_change(rt: HostRuntime) -> Result<(), Fail> {
    expect_crashes(&rt, rt.alloc(), false, 18, 1395)
}

// Both changes are kept by four calls: 14 calls and 45 images, of which 18 have a header.
#[test]
fn each_crash_leaves_a_group_or_none_of_it(rt: HostRuntime) -> Result<(), Fail> {
    expect_crashes(&rt, rt.alloc(), true, 14, 1179)
}

// A file of a gate, so many bytes of the market's header, and a tail.
fn file_of(alloc: Global, gate: u8, header: usize, tail: &[u8]) -> Result<Vec<u8>, AllocError> {
    let start = header_of(alloc, MARKET)?;
    let mut file = vec![in alloc; gate]?;
    file.extend_from_slice(&start[..header.min(start.len())])?;
    file.extend_from_slice(tail)?;
    Ok(file)
}

// What an opening makes of a durable file, and what the file is then.
fn opening_of(
    rt: &impl Abort,
    alloc: Global,
    file: &[u8],
    header: &[u8],
) -> Result<(Result<Found, OpenFault>, Vec<u8>), AllocError>
    requires some { 0 < length file.now }
    requires header { 0 < length header.now }
{
    let mut disk = MemoryDisk::new(alloc, Vec::new(alloc));
    assert!(rt; disk.open(NAME).is_ok());
    assert!(rt; disk.write_at(0, file).is_ok());
    let found = open_store(alloc, &mut disk, header);
    let left = disk.bytes(NAME);
    drop(disk);
    Ok((found, left?))
}

// A file is foreign from a place on, and left as it is, or else holds no record.
fn expect_kind(
    rt: &impl Abort,
    alloc: Global,
    file: &[u8],
    foreign: Option<u64>,
) -> Result<(), AllocError>
    requires { 0 < length file.now }
{
    let header = header_of(alloc, MARKET)?;
    let (found, left) = opening_of(rt, alloc, file, &header)?;
    match (&found, foreign) {
        (Ok(found), None) => {
            assert!(rt; found.records.is_empty() && found.end == End::Gate(21));
        }
        (Err(fault), Some(at)) => {
            assert!(rt; *fault == OpenFault::Foreign { at });
            assert!(rt; left.as_slice() == file);
        }
        _ => panic!(rt; "another answer"),
    }
    drop(found);
    drop(left);
    Ok(())
}

#[test]
fn a_file_of_somebody_else_is_left_as_it_is(rt: HostRuntime) -> Result<(), Fail> {
    // the header has 20 bytes
    let cases: [(u8, usize, &[u8], Option<u64>); 17] = [
        (b'h', 0, b"i", Some(0)),
        (b'c', 0, b"oin", Some(0)),
        (7, 0, b"", None),
        (7, 20, &[0], None),
        (7, 20, &[9], None),
        (7, 19, b"x\0", Some(0)),
        (7, 20, b"", Some(0)),
        (7, 20, &[0, 0], Some(0)),
        (0, 0, b"hello", None),
        (0, 20, b"", None),
        (0, 19, b"x\0", None),
        (0, 20, &[0, 0], Some(0)),
        (1, 0, b"", None),
        (1, 0, b"hi", Some(1)),
        (1, 19, b"x\0", Some(20)),
        (1, 20, b"", Some(21)),
        (1, 20, &[9, 1, 1], None),
    ];
    for (gate, header, tail, foreign) in cases {
        let file = file_of(rt.alloc(), gate, header, tail)?;
        assert!(rt; !file.is_empty());
        expect_kind(&rt, rt.alloc(), &file, foreign)?;
    }
    Ok(())
}

// A good record stands before a malformed one, and is found.
fn expect_malformed(rt: &impl Abort, alloc: Global, tail: &[u8]) -> Result<(), AllocError> {
    let mut file = file_of(alloc, 1, 20, &[1, 0, 0, 0, 1, 5])?;
    file.extend_from_slice(tail)?;
    assert!(rt; !file.is_empty());
    let header = header_of(alloc, MARKET)?;
    let (found, left) = opening_of(rt, alloc, &file, &header)?;
    assert!(rt; left.as_slice() == file.as_slice());
    let Ok(found) = &found else {
        panic!(rt; "refused");
    };
    assert!(rt; found.end == End::Malformed && found.records.len() == 1);
    for record in &found.records {
        assert!(rt; record.as_slice() == [5].as_slice());
    }
    Ok(())
}

#[test]
fn the_records_before_a_malformed_one_are_found(rt: HostRuntime) -> Result<(), Fail> {
    // no length; no bytes, too many of them, and a record without the next gate
    let tails: [&[u8]; 4] = [
        &[1],
        &[1, 0, 0, 0, 0, 0],
        &[1, 0, 0, 0x84, 0xD1, 0],
        &[1, 0, 0, 0, 1, 5],
    ];
    for tail in tails {
        expect_malformed(&rt, rt.alloc(), tail)?;
    }
    Ok(())
}
