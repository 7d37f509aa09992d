//! A disk in memory that fails and crashes, and one real file.

ghost use Rattle.std.specs.Prelude.{ℕ, ◌≤◌, List, length, IfSome};

use mk_disk::{Choice, Disk, DiskFailed, MemoryDisk, StdDisk};
use std::alloc::{AllocError, Global};
use std::fs;
use std::process::Abort;
use std::test::Fail;

const NAME: &str = "store";

const REAL_NAME: &str = "a_real_file.store";

const NEXT_NAME: &str = "the_next_file.store";

// Two durable bytes and a write of three from the second on, up to the call that fails.
fn write_twice(rt: &impl Abort, disk: &mut MemoryDisk, failing: u64) {
    assert!(rt; disk.open(NAME).is_ok());
    assert!(rt; disk.write_at(0, &[7, 8]).is_ok());
    assert!(rt; disk.sync().is_ok());
    assert!(rt; disk.write_at(1, &[9, 10, 11]).is_err() == (failing == 4));
    if failing > 4 {
        assert!(rt; disk.sync().is_err() == (failing == 5));
    }
}

// What a crash leaves behind these calls.
fn left_after(
    rt: &impl Abort,
    alloc: Global,
    failing: u64,
    choice: Choice,
) -> Result<Vec<u8>, AllocError> {
    let mut disk = MemoryDisk::new(alloc, vec![in alloc; failing]?);
    write_twice(rt, &mut disk, failing);
    let left = disk.crash(choice)?;
    let bytes = left.bytes(NAME);
    drop(left);
    bytes
}

#[test]
fn a_crash_leaves_what_was_chosen(rt: HostRuntime) -> Result<(), Fail> {
    let written: &[u8] = &[7, 9, 10, 11];
    let cases: [(u64, Choice, &[u8]); 9] = [
        (4, Choice::Old, &[7, 8]),
        (4, Choice::New, &[7, 8]),
        (4, Choice::Noise, &[7, 1, 1, 1]),
        (5, Choice::Old, &[7, 8]),
        (5, Choice::New, written),
        (5, Choice::Noise, &[7, 1, 1, 1]),
        (6, Choice::Old, written),
        (6, Choice::New, written),
        (6, Choice::Noise, written),
    ];
    for (failing, choice, expected) in cases {
        let left = left_after(&rt, rt.alloc(), failing, choice)?;
        assert!(rt; left.as_slice() == expected);
    }
    Ok(())
}

// Two files by their names, where the sixth call fails; a write at the beginning of a file is in place.
fn expect_two_files<D: Disk>(rt: &impl Abort, disk: &mut D)
    requires names { (n : List ℕ) → D.admits n }
    requires place { (d : D) (n : List ℕ) → IfSome (D.file d n) (λ f. 0 ≤ length f) }
{
    let mut buf = [0; 4];
    assert!(rt; disk.open(NAME).is_ok());
    assert!(rt; disk.write_at(0, &[7, 8]).is_ok());
    assert!(rt; disk.open("other").is_ok());
    assert!(rt; disk.length() == Ok(0));
    assert!(rt; disk.read_at(0, &mut buf) == Ok(0));
    assert!(rt; disk.read_at(0, &mut buf) == Err(DiskFailed));
    assert!(rt; disk.open(NAME).is_ok());
    assert!(rt; disk.read_at(1, &mut buf) == Ok(1));
    assert!(rt; buf == [8, 0, 0, 0]);
    assert!(rt; disk.length() == Ok(2));
}

#[test]
fn files_have_names(rt: HostRuntime) -> Result<(), Fail> {
    let alloc = rt.alloc();
    let mut disk = MemoryDisk::new(alloc, vec![in alloc; 6]?);
    expect_two_files(&rt, &mut disk);
    assert_eq!(rt; disk.calls(), 9);
    drop(disk);
    Ok(())
}

// Writes to a new file of a disk that tells nothing of its bytes, and reads by another opening, which is refused until
// the first has opened the next file.
fn expect_file<D: Disk>(rt: &impl Abort, disk: &mut D, again: &mut D)
    requires names { (n : List ℕ) → D.admits n }
    requires place { (d : D) (n : List ℕ) (at : ℕ) → IfSome (D.file d n) (λ f. at ≤ length f) }
{
    let mut buf = [0; 4];
    assert!(rt; disk.open("no such folder/store").is_err());
    assert!(rt; disk.open(REAL_NAME).is_ok());
    assert!(rt; disk.length() == Ok(0));
    assert!(rt; disk.write_at(0, &[7, 8, 9]).is_ok());
    assert!(rt; disk.sync().is_ok());
    assert!(rt; disk.write_at(1, &[10]).is_ok());
    assert!(rt; disk.sync().is_ok());

    assert!(rt; again.open(REAL_NAME).is_err());
    assert!(rt; disk.open(NEXT_NAME).is_ok());
    assert!(rt; again.open(REAL_NAME).is_ok());
    assert!(rt; again.length() == Ok(3));
    assert!(rt; again.read_at(1, &mut buf) == Ok(2));
    assert!(rt; buf == [10, 9, 0, 0]);
    assert!(rt; again.read_at(3, &mut buf) == Ok(0));
}

#[test]
fn a_real_file(rt: HostRuntime) -> Result<(), Fail> {
    expect_file(&rt, &mut StdDisk::new(&rt), &mut StdDisk::new(&rt));
    fs::remove_file(&rt, REAL_NAME)?;
    fs::remove_file(&rt, NEXT_NAME)?;
    Ok(())
}
