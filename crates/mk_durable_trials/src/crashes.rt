//! A coin's market whose run is stopped at each call of its disk, and crashed.

ghost use Rattle.std.specs.Prelude.{◌≤◌};

use mk_disk::{Choice, MemoryDisk};
use mk_durable::keep;
use mk_fixtures::COIN;
use mk_io::{MemorySink, NamedFile, QuietInputs, Status};
use std::alloc::{AllocError, Global};
use std::process::Abort;
use std::test::Fail;

/// Two changes.
const COMMANDS: &[u8] = b"user alice\ndeposit alice 1\n";

const OUTPUT: &[u8] = b"ready 1 100\nresumed 0\nuser alice at 1\ndeposit alice 1 at 2\n";

/// What is written of a store with so many changes, where nothing is asked.
const RESUMED: [&[u8]; 3] = [
    b"ready 1 100\nresumed 0\n",
    b"ready 1 100\nresumed 1\n",
    b"ready 1 100\nresumed 2\n",
];

const CHOICES: [Choice; 3] = [Choice::Old, Choice::New, Choice::Noise];

/// How the commands are read, and how many calls of the disk their run makes.
#[derive(Clone, Copy)]
struct Plan {
    /// How many bytes a read gives: with one, each line is answered before the next is there.
    piece: usize,
    calls: u64,
}

/// What came of a run over a store.
#[derive(Drop)]
struct Ran {
    status: Status,
    written: Vec<u8>,
}

/// Runs the coin over the store of this disk.
fn run(
    alloc: Global,
    disk: &mut MemoryDisk,
    commands: &[u8],
    piece: usize,
) -> Result<Ran, AllocError>
    requires { 1 ≤ piece }
{
    let file = NamedFile {
        name: String::from_str(alloc, "coin.toml")?,
        bytes: COIN.as_bytes().to_vec(alloc)?,
    };
    let files = vec![in alloc; file]?;
    let mut inputs = QuietInputs::new(files, commands.to_vec(alloc)?, piece);
    let mut out = MemorySink::new(vec![in alloc; 0u8; 256]?, 64, Vec::new(alloc));
    let status = keep(alloc, "coin.toml", "store", &mut inputs, &mut out, disk);
    let written = out.written().to_vec(alloc);
    drop(inputs);
    drop(out);
    Ok(Ran {
        status,
        written: written?,
    })
}

/// How many replies stand whole behind the first two lines.
fn replies_in(written: &[u8]) -> u64 {
    let mut lines = 0u64;
    for byte in written {
        if *byte == b'\n' {
            lines = lines.saturating_add(1);
        }
    }
    lines.saturating_sub(2)
}

/// How many changes a store gave back, by what was written where nothing was asked.
fn resumed_in(written: &[u8]) -> Option<u64> {
    for (number, lines) in RESUMED.iter().enumerate() {
        if written == *lines {
            return Some(number as u64);
        }
    }
    None
}

/// Opens the store, once more where the call that was to fail came only now.
fn run_at_last(alloc: Global, disk: &mut MemoryDisk, piece: usize) -> Result<Ran, AllocError>
    requires { 1 ≤ piece }
{
    let ran = run(alloc, disk, b"", piece)?;
    if ran.status == Status::DiskFault {
        drop(ran);
        return run(alloc, disk, b"", piece);
    }
    Ok(ran)
}

/// The run of both changes ended well, or its disk failed; a front of its output was written.
fn expect_run(rt: &impl Abort, ran: &Ran) {
    assert!(rt; OUTPUT.starts_with(&ran.written));
    match ran.status {
        Status::Done => assert!(rt; ran.written.len() == OUTPUT.len()),
        status => assert!(rt; status == Status::DiskFault),
    }
}

/// The store gives the first changes back: each that was told, and both or none where they were
/// read together.
fn expect_resumed(rt: &impl Abort, ran: &Ran, told: u64, plan: Plan) {
    assert!(rt; ran.status == Status::Done);
    let resumed = resumed_in(&ran.written);
    assert!(rt; resumed.is_some());
    if let Some(number) = resumed {
        assert!(rt; told <= number);
        assert!(rt; plan.piece == 1 || number != 1);
    }
}

/// A run stops at the first of the failing calls and crashes; the next opening stops at the second
/// and crashes again; then the store is opened. Says whether the opening before ended.
fn crash_pair(
    rt: &impl Abort,
    alloc: Global,
    failing: [u64; 2],
    plan: Plan,
    left: Choice,
    again: Choice,
) -> Result<bool, AllocError>
    requires { 1 ≤ plan.piece }
{
    let mut disk = MemoryDisk::new(alloc, failing.to_vec(alloc)?);
    let first = run(alloc, &mut disk, COMMANDS, plan.piece)?;
    expect_run(rt, &first);
    let mut disk = disk.crash(left)?;
    let second = run(alloc, &mut disk, b"", plan.piece)?;
    let ended = second.status == Status::Done;
    let mut disk = disk.crash(again)?;
    let last = run_at_last(alloc, &mut disk, plan.piece)?;
    expect_resumed(rt, &last, replies_in(&first.written), plan);
    drop(disk);
    drop(first);
    drop(second);
    drop(last);
    Ok(ended)
}

/// A run stops at call `first` and crashes; the next opening stops at each of its calls in turn and
/// crashes again; then the store is opened. Gives how many images were opened.
fn crash_twice(
    rt: &impl Abort,
    alloc: Global,
    first: u64,
    plan: Plan,
    left: Choice,
) -> Result<u64, AllocError>
    requires { 1 ≤ plan.piece }
{
    let mut images = 0u64;
    // A call of number 0 is never made.
    let stop = if first > plan.calls { 0 } else { first };
    let made = first.min(plan.calls);
    for second in 1..=11 {
        let mut ended = false;
        for again in CHOICES {
            let failing = [stop, made.saturating_add(second)];
            ended = crash_pair(rt, alloc, failing, plan, left, again)?;
            images = images.saturating_add(1);
        }
        if ended {
            return Ok(images);
        }
    }
    Ok(images)
}

/// Stops a run at each of its calls, and at none, and crashes by each choice. Gives how many images
/// were opened.
fn crash_everywhere(rt: &impl Abort, alloc: Global, plan: Plan) -> Result<u64, AllocError>
    requires { 1 ≤ plan.piece }
{
    let mut images = 0u64;
    for first in 1..=plan.calls.saturating_add(1) {
        for left in CHOICES {
            images = images.saturating_add(crash_twice(rt, alloc, first, plan, left)?);
        }
    }
    Ok(images)
}

/// Stops unless so many images are opened, and each holds every change that was told.
fn expect_images(
    rt: &impl Abort,
    alloc: Global,
    piece: usize,
    calls: u64,
    images: u64,
) -> Result<(), Fail>
    requires { 1 ≤ piece }
{
    let opened = crash_everywhere(rt, alloc, Plan { piece, calls })?;
    assert_eq!(rt; opened, images);
    Ok(())
}

// One call opens the file, three load its front, six write a header, and four keep each of two
// changes: 18. How many images there are follows from these, as the trials of stores reckon it.
#[test]
fn each_crash_leaves_every_told_change(rt: HostRuntime) -> Result<(), Fail> {
    expect_images(&rt, rt.alloc(), 1, 18, 1395)
}

// Both changes are kept by four calls.
#[test]
fn each_crash_leaves_both_changes_or_none(rt: HostRuntime) -> Result<(), Fail> {
    expect_images(&rt, rt.alloc(), 64, 14, 1179)
}
