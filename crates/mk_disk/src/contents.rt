//! The bytes of a file in memory, replayed from what happened.

ghost use Rattle.std.specs.Prelude.{◌≡◌, ◌+◌, ◌≤◌, min, length, replicate, IfOk, OnOk, ℕ};
ghost use Rattle.mk_disk.specs.Disk.{overwritten};
ghost use Rattle.mk_disk.specs.inner.Contents.{IsContents};
ghost use Rattle.mk_disk.specs.Memory.{FileState, rested, chosen, faulted, written, after_event, file_after};

use crate::event::{Choice, Event};
use std::alloc::{AllocError, Global};

/// What a read gives, what is durable, and what is written with the byte 1 in place of each byte since.
#[derive(Drop)]
pub struct Contents {
    pub seen: Vec<u8>,
    pub durable: Vec<u8>,
    pub noise: Vec<u8>,
}

/// The bytes of the file of a name after these events.
pub fn contents_after(alloc: Global, events: &[Event], name: &str) -> Result<Contents, AllocError>
    ensures { IfOk result (IsContents (file_after name.now events.now)) }
{
    let mut contents = at_rest(alloc, Vec::new(alloc))?;
    for event in events {
        contents = after(alloc, contents, event, name)?;
    }
    Ok(contents)
}

// The bytes of the file of a name after one event more.
fn after(
    alloc: Global,
    contents: Contents,
    event: &Event,
    name: &str,
) -> Result<Contents, AllocError>
    ensures { (s : FileState) → IsContents s contents → IfOk result (IsContents (after_event name.now event.now s)) }
{
    match event {
        Event::Write(of, at, bytes) => {
            if of.as_str() == name {
                write(alloc, contents, *at, bytes)
            } else {
                Ok(contents)
            }
        }
        Event::Fault(of, at, len) => {
            if of.as_str() == name {
                fault(alloc, contents, *at, *len)
            } else {
                Ok(contents)
            }
        }
        Event::Sync(of) => {
            if of.as_str() == name {
                at_rest(alloc, contents.seen)
            } else {
                Ok(contents)
            }
        }
        Event::Crash(choice) => at_rest(alloc, choose(contents, *choice)),
    }
}

// All these bytes are durable.
fn at_rest(alloc: Global, bytes: Vec<u8>) -> Result<Contents, AllocError>
    ensures { IfOk result (IsContents (rested bytes.items)) }
{
    let durable = bytes.to_vec(alloc)?;
    let noise = bytes.to_vec(alloc)?;
    Ok(Contents {
        seen: bytes,
        durable,
        noise,
    })
}

// What a crash leaves.
fn choose(contents: Contents, choice: Choice) -> Vec<u8>
    ensures { (s : FileState) → IsContents s contents → result.items ≡ chosen choice s }
{
    match choice {
        Choice::Old => contents.durable,
        Choice::New => contents.seen,
        Choice::Noise => contents.noise,
    }
}

// A write that begins within the file.
fn write(alloc: Global, contents: Contents, at: u64, bytes: &[u8]) -> Result<Contents, AllocError>
    ensures { (s : FileState) → IsContents s contents
        → IfOk result (IsContents (written (min at (length s.seen)) bytes.now s)) }
{
    let place = (at as usize).min(contents.seen.len());
    let ones = vec![in alloc; 1; bytes.len()]?;
    let noise = overwrite(alloc, &contents.noise, place, &ones)?;
    let seen = overwrite(alloc, &contents.seen, place, bytes)?;
    Ok(Contents {
        seen,
        durable: contents.durable,
        noise,
    })
}

// A write that failed.
fn fault(alloc: Global, contents: Contents, at: u64, len: usize) -> Result<Contents, AllocError>
    ensures { (s : FileState) → IsContents s contents
        → IfOk result (IsContents (faulted (min at (length s.seen)) len s)) }
{
    let place = (at as usize).min(contents.seen.len());
    let ones = vec![in alloc; 1; len]?;
    let noise = overwrite(alloc, &contents.noise, place, &ones)?;
    Ok(Contents {
        seen: contents.seen,
        durable: contents.durable,
        noise,
    })
}

/// The file with these bytes over those from a place on, which is its end where the place is behind
/// that.
pub fn overwrite_within(
    alloc: Global,
    file: &[u8],
    at: u64,
    bytes: &[u8],
) -> Result<Vec<u8>, AllocError>
    ensures { IfOk result (λ v. v.items ≡ overwritten (min at (length file.now)) bytes.now file.now) }
{
    let place = (at as usize).min(file.len());
    overwrite(alloc, file, place, bytes)
}

// The file with these bytes over those from a place on.
fn overwrite(alloc: Global, file: &[u8], at: usize, bytes: &[u8]) -> Result<Vec<u8>, AllocError>
    ensures { IfOk result (λ v. v.items ≡ overwritten at bytes.now file.now) }
{
    let place = at.min(file.len());
    let mut next = file[..place].to_vec(alloc)?;
    next.extend_from_slice(bytes)?;
    if bytes.len() < file.len() - place {
        next.extend_from_slice(&file[place + bytes.len()..])?;
    }
    Ok(next)
}
