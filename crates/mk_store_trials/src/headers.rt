//! Every opening of a short file, with a header of two bytes or of one in the place of a market's.

ghost use Rattle.std.specs.Prelude.{ℕ, ◌<◌, ◌≤◌, List, length, IsTrue, IfSome};

use mk_disk::{Choice, Disk, MemoryDisk};
use mk_journal::{End, open_store};
use std::alloc::{AllocError, Global};
use std::process::Abort;
use std::test::Fail;

const NAME: &str = "store";

// how many files there are of at most five bytes from 0 to 3
const FILES: usize = 1365;

// more calls than an opening makes
const CALLS: u64 = 10;

// A header, and at how many calls of a second opening this one is stopped.
#[derive(Clone, Copy)]
struct Plan {
    header: &'static [u8],
    again: u64,
}

// A file, and whether an opening of it finds no record.
#[derive(Drop)]
struct Known {
    file: Vec<u8>,
    is_empty: bool,
}

// What a crash leaves by each choice.
#[derive(Drop)]
struct Left {
    old: Vec<u8>,
    new: Vec<u8>,
    noise: Vec<u8>,
}

// The file of a number, the shorter ones first.
fn file_of(alloc: Global, number: usize) -> Result<Vec<u8>, AllocError> {
    let mut file = Vec::new(alloc);
    let mut rest = number;
    for _ in 0..5 {
        if rest > 0 {
            file.push(((rest - 1) % 4) as u8)?;
            rest = (rest - 1) / 4;
        }
    }
    Ok(file)
}

// The file has no header yet, by the three cases; a header has a closed gate behind it here.
fn is_new(file: &[u8], header: &[u8]) -> bool {
    if file.len() <= 1 {
        return true;
    }
    let is_short = file.len() <= header.len().saturating_add(1);
    let is_whole = file.len() == header.len().saturating_add(1);
    let stands = file[1..file.len() - 1]
        .iter()
        .zip(header.iter())
        .all(|(a, b)| *a == *b);
    (is_short && file[0] == 0) || (is_whole && stands && file[0] != 1)
}

// Makes the file durable.
fn put<D: Disk>(rt: &impl Abort, disk: &mut D, file: &[u8])
    requires names { (n : List ℕ) → D.admits n }
    requires place { (d : D) (n : List ℕ) → IfSome (D.file d n) (λ f. 0 ≤ length f) }
    ensures { IsTrue (D.is_open disk.new) }
{
    assert!(rt; disk.open(NAME).is_ok());
    if !file.is_empty() {
        assert!(rt; disk.write_at(0, file).is_ok());
        assert!(rt; disk.sync().is_ok());
    }
}

// The number of a call that fails, so many behind others; none behind them is a call that is never made.
fn number_of(others: u64, behind: u64) -> u64 {
    if behind == 0 {
        0
    } else {
        others.saturating_add(behind)
    }
}

// What is left of a file after an opening of which a call fails, perhaps another such one, and a crash.
fn left_by(
    rt: &impl Abort,
    alloc: Global,
    file: &[u8],
    header: &[u8],
    stops: [u64; 2],
    choice: Choice,
) -> Result<Vec<u8>, AllocError>
    requires { 0 < length header.now }
{
    // the calls that make the file
    let made = if file.is_empty() { 1u64 } else { 3 };
    let first = number_of(made, stops[0]);
    let second = number_of(made.saturating_add(stops[0]), stops[1]);
    let mut disk = MemoryDisk::new(alloc, [first, second].to_vec(alloc)?);
    put(rt, &mut disk, file);
    open_once(alloc, &mut disk, header);
    if stops[1] > 0 {
        open_once(alloc, &mut disk, header);
    }
    let left = disk.crash(choice)?;
    let bytes = left.bytes(NAME);
    drop(left);
    bytes
}

// Opens the store, whatever fails.
fn open_once<D: Disk>(alloc: Global, disk: &mut D, header: &[u8])
    requires is_open { IsTrue (D.is_open disk.old) }
    requires header { 0 < length header.now }
    ensures { IsTrue (D.is_open disk.new) }
{
    let found = open_store(alloc, disk, header);
    drop(found);
}

// What a crash leaves by each choice.
fn left_of(
    rt: &impl Abort,
    alloc: Global,
    file: &[u8],
    header: &[u8],
    stops: [u64; 2],
) -> Result<Left, AllocError>
    requires { 0 < length header.now }
{
    let old = left_by(rt, alloc, file, header, stops, Choice::Old)?;
    let new = left_by(rt, alloc, file, header, stops, Choice::New)?;
    let noise = left_by(rt, alloc, file, header, stops, Choice::Noise)?;
    Ok(Left { old, new, noise })
}

// The byte at a place, and 9 past the end.
fn byte_at(bytes: &[u8], i: usize) -> u8 {
    if i < bytes.len() { bytes[i] } else { 9 }
}

// A crash may leave the file: a place may have any byte where one was written, which noise shows as the byte 1.
fn may_be(file: &[u8], left: &Left) -> bool {
    let longest = left.noise.len().max(left.new.len());
    if file.len() < left.old.len() || file.len() > longest {
        return false;
    }
    for (i, byte) in file.iter().enumerate() {
        let old = byte_at(&left.old, i);
        let is_torn = byte_at(&left.noise, i) == 1 || byte_at(&left.new, i) != old;
        if !is_torn && *byte != old {
            return false;
        }
    }
    true
}

// Whether an opening of the file finds no record; one that is refused leaves it as it is.
fn opens_empty(
    rt: &impl Abort,
    alloc: Global,
    file: &[u8],
    header: &[u8],
) -> Result<bool, AllocError>
    requires { 0 < length header.now }
{
    let mut disk = MemoryDisk::new(alloc, Vec::new(alloc));
    put(rt, &mut disk, file);
    let found = open_store(alloc, &mut disk, header);
    let left = disk.bytes(NAME);
    drop(disk);
    let left = left?;
    assert!(rt; found.is_ok() || left.as_slice() == file);
    let is_empty = match &found {
        Ok(found) => found.records.is_empty() && found.end != End::Malformed,
        Err(_) => false,
    };
    drop(found);
    drop(left);
    Ok(is_empty)
}

// All files of at most five bytes from 0 to 3.
fn known_of(rt: &impl Abort, alloc: Global, header: &[u8]) -> Result<Vec<Known>, AllocError>
    requires { 0 < length header.now }
{
    let mut known = Vec::new(alloc);
    for number in 0..FILES {
        let file = file_of(alloc, number)?;
        let is_empty = opens_empty(rt, alloc, &file, header)?;
        known.push(Known { file, is_empty })?;
    }
    Ok(known)
}

// Each image of a moment is a file whose opening finds no record.
fn expect_images(rt: &impl Abort, known: &[Known], left: &Left) -> u64 {
    let mut images = 0u64;
    for image in known {
        if may_be(&image.file, left) {
            assert!(rt; image.is_empty);
            images = images.saturating_add(1);
        }
    }
    images
}

// An opening of a file stops at each of its calls, and the next one too; gives how many images were tried.
fn expect_moments(
    rt: &impl Abort,
    alloc: Global,
    known: &[Known],
    file: &[u8],
    plan: Plan,
) -> Result<u64, AllocError>
    requires { 0 < length plan.header.now }
{
    let mut images = 0u64;
    for first in 0..=CALLS {
        for second in 0..=plan.again {
            let left = left_of(rt, alloc, file, plan.header, [first, second])?;
            images = images.saturating_add(expect_images(rt, known, &left));
            drop(left);
        }
    }
    Ok(images)
}

// Over each file without a header; every other that begins with a closed gate is refused. Gives how many were tried.
fn expect_all(
    rt: &impl Abort,
    alloc: Global,
    known: &[Known],
    plan: Plan,
) -> Result<u64, AllocError>
    requires { 0 < length plan.header.now }
{
    let mut files = 0u64;
    for it in known {
        if is_new(&it.file, plan.header) {
            assert!(rt; it.is_empty);
            let images = expect_moments(rt, alloc, known, &it.file, plan)?;
            assert!(rt; images > 0);
            files = files.saturating_add(1);
        } else {
            assert!(rt; byte_at(&it.file, 0) == 1 || !it.is_empty);
        }
    }
    Ok(files)
}

// Five files of at most one byte, 84 that begin with 0, and 8 with the header behind another closed gate.
#[test]
fn each_moment_of_an_opening_leaves_no_record(rt: HostRuntime) -> Result<(), Fail> {
    let plan = Plan {
        header: &[2, 3, 0],
        again: 0,
    };
    let known = known_of(&rt, rt.alloc(), plan.header)?;
    let files = expect_all(&rt, rt.alloc(), &known, plan);
    drop(known);
    assert_eq!(rt; files?, 97);
    Ok(())
}

// Five files, 20 and 8; two calls fail.
#[test]
fn each_moment_of_two_openings_leaves_no_record(rt: HostRuntime) -> Result<(), Fail> {
    let plan = Plan {
        header: &[2, 0],
        again: CALLS,
    };
    let known = known_of(&rt, rt.alloc(), plan.header)?;
    let files = expect_all(&rt, rt.alloc(), &known, plan);
    drop(known);
    assert_eq!(rt; files?, 33);
    Ok(())
}
