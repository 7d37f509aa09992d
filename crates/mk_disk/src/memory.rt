//! A disk in memory, whose calls can be made to fail and which can crash.

ghost use Rattle.std.specs.Prelude.{◌≡◌, ◌⊎◌, ℕ, ◌+◌, ◌-◌, ◌<◌, ◌≤◌, All, vec_len, List, [], ◌∷◌};
ghost use Rattle.std.specs.Prelude.{◌++◌, length, string_bytes, Some, None, is_some, IfOk, OnOk};
ghost use Rattle.std.specs.Prelude.{OnErr};
ghost use Rattle.mk_disk.specs.Disk.{Fills};
ghost use Rattle.mk_disk.specs.Memory.{FileState, rested, chosen, after_event, wrote, faulted_in};
ghost use Rattle.mk_disk.specs.Memory.{synced, file_after, IsImage, WasImage, counted, failed};
ghost use Rattle.mk_disk.specs.Memory.{starved, uncalled, IsFailing, IsCalled, Happened};
ghost use Rattle.mk_disk.specs.Memory.{opened_name, seen_of, room_of, prepared};
ghost use Rattle.mk_disk.specs.inner.MemoryLaws.{seen_image, now_counts, now_only};

use crate::calls::Calls;
use crate::contents::{contents_after, overwrite_within};
use crate::disk::{Disk, DiskFailed};
use crate::event::{Choice, Event};
use std::alloc::{AllocError, Global};
use std::marker::Model;

/// A disk in memory, at first without files.
///
/// It keeps all that happened to its files, and each content follows from that. Its calls are
/// numbered from 1, through crashes too. Those with the given numbers fail, and else a call fails for
/// want of memory alone, which is counted. Memory is wanting in an opening, in a write, and in a sync
/// that has no room; a length and a read want none. An opening and a write leave room for two events
/// more: a sync then succeeds unless it is to fail, and a write that is to fail is among the events,
/// so that a crash leaves any bytes in its range.
#[derive(Drop)]
pub struct MemoryDisk {
    alloc: Global,
    events: Vec<Event>,
    opened: Option<String>,
    calls: Calls,
    // copies of the open file's name
    spare: Vec<String>,
    // what a read of the open file gives
    seen: Vec<u8>,
}

const PREPARED: usize = 2;

impl Model for MemoryDisk {
    ghost use Rattle.std.specs.Prelude.{◌≡◌, ◌-◌, [], All, option_map, unwrap_or, string_bytes};
    ghost use Rattle.std.specs.Prelude.{vec_len, vec_capacity};
    ghost use Rattle.mk_disk.specs.Memory.{MemoryState, file_after};

    ghost Value = { MemoryState };

    ghost view = { λ d. record {
      events = d.events.items;
      opened = option_map (λ s. string_bytes s) d.opened;
      calls = d.calls;
      names = vec_len d.spare;
      places = vec_capacity d.events - vec_len d.events;
    } };

    ghost invariant = { λ d.
        All (λ s. string_bytes s ≡ unwrap_or (option_map (λ o. string_bytes o) d.opened) [])
        d.spare.items
        × (d.seen.items ≡ (file_after (unwrap_or (option_map (λ o. string_bytes o) d.opened) [])
        d.events.items).seen) };
}

impl MemoryDisk {
    /// A disk without files, on which the calls with these numbers fail.
    pub fn new(alloc: Global, failing: Vec<u64>) -> MemoryDisk
        ensures { result ≡ record {
          events = [];
          opened = None;
          calls = uncalled failing.items;
          names = 0;
          places = 0;
        } }
    {
        MemoryDisk {
            alloc,
            events: Vec::new(alloc),
            opened: None,
            calls: Calls::new(failing),
            spare: Vec::new(alloc),
            seen: Vec::new(alloc),
        }
    }

    /// Crashes: of each file one image is left, by this choice, and no file is open.
    pub fn crash(self, choice: Choice) -> Result<MemoryDisk, AllocError>
        ensures left { IfOk result (λ disk. (n : List ℕ) → file_after n disk.events ≡ rested (chosen choice (file_after n self.events))) }
        ensures image { IfOk result (λ disk. (n : List ℕ) → IsImage self.events n (seen_of disk n)) }
        ensures closed { IfOk result (λ disk. disk.opened ≡ None) }
        ensures calls { IfOk result (λ disk. disk.calls ≡ self.calls) }
    {
        let MemoryDisk {
            alloc,
            mut events,
            calls,
            ..
        } = self;
        events.push(Event::Crash(choice))?;
        let seen = contents_after(alloc, &events, "")?.seen;
        Ok(MemoryDisk {
            alloc,
            events,
            opened: None,
            calls,
            spare: Vec::new(alloc),
            seen,
        })
    }

    /// How many calls there were.
    pub fn calls(&self) -> u64
        ensures { result ≡ self.now.calls.count }
    {
        self.calls.count()
    }

    /// The bytes that a read of the file of a name gives.
    pub fn bytes(&self, name: &str) -> Result<Vec<u8>, AllocError>
        ensures { IfOk result (λ v. v.items ≡ seen_of self.now name.now) }
    {
        Ok(contents_after(self.alloc, &self.events, name)?.seen)
    }

    // One event more, which a read of the open file does not show.
    fn note(&mut self, event: Event) -> Result<(), AllocError>
        requires { (s : FileState) → (after_event (opened_name self.old) event s).seen ≡ s.seen }
        ensures ok { OnOk result (self.new ≡ record self.old
            { events = self.new.events; places = self.new.places }) }
        ensures added { OnOk result (self.new.events ≡ self.old.events ++ event ∷ []) }
        ensures err { OnErr result (self.new ≡ record self.old { places = self.new.places }) }
        ensures places { self.old.places ≤ self.new.places + 1 }
        ensures wants { OnErr result (self.old.places ≡ 0) }
    {
        Ok(self.events.push(event)?)
    }

    // A copy of the open file's name, for which memory is wanting only where none is spare.
    fn take_name(&mut self) -> Result<String, AllocError>
        ensures name { IfOk result (λ name. string_bytes name ≡ opened_name self.old) }
        ensures kept { self.new ≡ record self.old { names = self.old.names - 1 } }
        ensures wants { OnErr result (self.old.names ≡ 0) }
    {
        match self.spare.pop() {
            Some(name) => Ok(name),
            None => self.open_name(),
        }
    }

    // Room for a write and the events that are prepared behind it.
    fn prepare(&mut self) -> Result<(), AllocError>
        ensures same { self.new ≡ record self.old
            { names = self.new.names; places = self.new.places } }
        ensures names { self.old.names ≤ self.new.names }
        ensures places { self.old.places ≤ self.new.places }
        ensures enough_names { OnOk result (prepared ≤ self.new.names) }
        ensures enough_places { OnOk result (prepared + 1 ≤ self.new.places) }
    {
        if self.spare.len() < PREPARED {
            let name = self.open_name()?;
            self.spare = copies(self.alloc, name.as_str())?;
        }
        self.events.reserve(PREPARED + 1)
    }

    // The file of a name is the open one.
    fn reopen(&mut self, name: &str) -> Result<(), AllocError>
        ensures ok { OnOk result (self.new ≡ record self.old
            { opened = Some name.now; names = self.new.names; places = self.new.places }) }
        ensures prepared { OnOk result (prepared ≤ room_of self.new) }
        ensures err { OnErr result (self.new ≡ record self.old { places = self.new.places }) }
        ensures places { self.old.places ≤ self.new.places }
    {
        let opened = String::from_str(self.alloc, name)?;
        let spare = copies(self.alloc, name)?;
        let seen = self.bytes(name)?;
        self.events.reserve(PREPARED)?;
        self.opened = Some(opened);
        self.spare = spare;
        self.seen = seen;
        Ok(())
    }

    // The name of the open file.
    fn open_name(&self) -> Result<String, AllocError>
        ensures { IfOk result (λ name. string_bytes name ≡ opened_name self.now) }
    {
        match &self.opened {
            None => Ok(String::new(self.alloc)),
            Some(name) => String::from_str(self.alloc, name.as_str()),
        }
    }

    fn note_write(&mut self, at: u64, bytes: &[u8]) -> Result<(), AllocError>
        ensures ok { OnOk result (self.new ≡ record self.old
            { events = self.new.events; names = self.new.names; places = self.new.places }) }
        ensures happened { OnOk result (Happened self.old.events self.new.events (wrote (opened_name self.old) at bytes.now)) }
        ensures prepared { OnOk result (prepared ≤ room_of self.new) }
        ensures err { OnErr result (self.new ≡ record self.old
            { names = self.new.names; places = self.new.places }) }
        ensures room { room_of self.old ≤ room_of self.new + 1 }
    {
        self.prepare()?;
        let name = self.open_name()?;
        let seen = overwrite_within(self.alloc, &self.seen, at, bytes)?;
        let bytes = bytes.to_vec(self.alloc)?;
        self.events.push(Event::Write(name, at, bytes))?;
        self.seen = seen;
        Ok(())
    }

    fn note_fault(&mut self, at: u64, len: usize) -> Result<(), AllocError>
        ensures ok { OnOk result (self.new ≡ record self.old
            { events = self.new.events; names = self.new.names; places = self.new.places }) }
        ensures happened { OnOk result (Happened self.old.events self.new.events (faulted_in (opened_name self.old) at len)) }
        ensures err { OnErr result (self.new ≡ record self.old
            { names = self.new.names; places = self.new.places }) }
        ensures room { room_of self.old ≤ room_of self.new + 1 }
        ensures wants { OnErr result (room_of self.old ≡ 0) }
    {
        let name = self.take_name()?;
        self.note(Event::Fault(name, at, len))
    }

    // A write of so many bytes fails as it was to, and may leave any bytes in its range. Without memory for the note
    // nothing reached the file.
    fn fail_write(&mut self, at: u64, len: usize)
        ensures opened { self.new.opened ≡ self.old.opened }
        ensures later { self.old.calls.faults ≤ self.new.calls.faults }
        ensures failed { (Happened self.old.events self.new.events (faulted_in (opened_name self.old) at len) × (self.new.calls ≡ failed self.old.calls))
            ⊎ ((self.new.events ≡ self.old.events) × (self.new.calls ≡ starved self.old.calls)) }
        ensures noted { 0 < room_of self.old
            → Happened self.old.events self.new.events (faulted_in (opened_name self.old) at len) }
        ensures room { room_of self.old ≤ room_of self.new + 1 }
    {
        match self.note_fault(at, len) {
            Ok(()) => self.calls.fail(),
            Err(_) => self.calls.starve(),
        }
    }

    fn note_sync(&mut self) -> Result<(), AllocError>
        ensures ok { OnOk result (self.new ≡ record self.old
            { events = self.new.events; names = self.new.names; places = self.new.places }) }
        ensures happened { OnOk result (Happened self.old.events self.new.events (synced (opened_name self.old))) }
        ensures err { OnErr result (self.new ≡ record self.old
            { names = self.new.names; places = self.new.places }) }
        ensures room { room_of self.old ≤ room_of self.new + 1 }
        ensures wants { OnErr result (room_of self.old ≡ 0) }
    {
        let name = self.take_name()?;
        self.note(Event::Sync(name))
    }
}

impl Disk for MemoryDisk {
    ghost admits = { λ _. Unit {0} };

    ghost is_open = { λ d. is_some d.opened };

    ghost open_name = { opened_name };

    ghost file = { λ d n. Some (seen_of d n) };

    ghost may_leave = { λ d n c. IsImage d.events n c };

    ghost moment = { λ d. length d.events };

    ghost left_since = { λ d n t c. WasImage d.events n t c };

    ghost faults = { λ d. d.calls.faults };

    ghost is_image = { λ d n f is. seen_image d.events n f is };

    ghost counts_now = { λ d n t c since image. now_counts d.events n t c since image };

    ghost only_now = { λ d n c was. now_only d.events n c was };

    fn open(&mut self, name: &str) -> Result<(), DiskFailed>
        ensures called { IsCalled self.old.calls self.new.calls result }
        ensures opened { OnOk result (self.new.opened ≡ Some name.now) }
        ensures not_opened { OnErr result (self.new.opened ≡ self.old.opened) }
        ensures events { self.new.events ≡ self.old.events }
        ensures prepared { OnOk result (prepared ≤ room_of self.new) }
        ensures room { OnErr result (room_of self.old ≤ room_of self.new) }
    {
        if self.calls.begin() {
            self.calls.fail();
            return Err(DiskFailed);
        }
        match self.reopen(name) {
            Ok(()) => Ok(()),
            Err(_) => {
                self.calls.starve();
                Err(DiskFailed)
            }
        }
    }

    fn length(&mut self) -> Result<u64, DiskFailed>
        ensures called { IsCalled self.old.calls self.new.calls result }
        ensures amount { IfOk result (λ len. len ≡ length (seen_of self.old (opened_name self.old))) }
        ensures same { self.new ≡ record self.old { calls = self.new.calls } }
        ensures wants { OnErr result (IsFailing self.old.calls) }
    {
        if self.calls.begin() {
            self.calls.fail();
            return Err(DiskFailed);
        }
        Ok(self.seen.len() as u64)
    }

    fn read_at(&mut self, at: u64, buf: &mut [u8]) -> Result<usize, DiskFailed>
        ensures called { IsCalled self.old.calls self.new.calls result }
        ensures bound { IfOk result (λ count. count ≤ length buf.new) }
        ensures reads { IfOk result (λ count. Fills (seen_of self.old (opened_name self.old)) at count buf.new) }
        ensures same { self.new ≡ record self.old { calls = self.new.calls } }
        ensures wants { OnErr result (IsFailing self.old.calls) }
    {
        if self.calls.begin() {
            self.calls.fail();
            return Err(DiskFailed);
        }
        Ok(copy_from(&self.seen, at as usize, buf))
    }

    fn write_at(&mut self, at: u64, bytes: &[u8]) -> Result<(), DiskFailed>
        ensures called { IsCalled self.old.calls self.new.calls result }
        ensures written { OnOk result (Happened self.old.events self.new.events (wrote (opened_name self.old) at bytes.now)) }
        ensures failed { OnErr result (Happened self.old.events self.new.events (faulted_in (opened_name self.old) at (length bytes.now))
            ⊎ ((self.new.events ≡ self.old.events) × (self.new.calls ≡ starved (counted self.old.calls)))) }
        ensures opened { self.new.opened ≡ self.old.opened }
        ensures noted { IsFailing self.old.calls → 0 < room_of self.old
            → Happened self.old.events self.new.events
            (faulted_in (opened_name self.old) at (length bytes.now)) }
        ensures prepared { OnOk result (prepared ≤ room_of self.new) }
        ensures room { room_of self.old ≤ room_of self.new + 1 }
    {
        if self.calls.begin() {
            self.fail_write(at, bytes.len());
            return Err(DiskFailed);
        }
        match self.note_write(at, bytes) {
            Ok(()) => Ok(()),
            Err(_) => {
                self.calls.starve();
                Err(DiskFailed)
            }
        }
    }

    fn sync(&mut self) -> Result<(), DiskFailed>
        ensures called { IsCalled self.old.calls self.new.calls result }
        ensures synced { OnOk result (Happened self.old.events self.new.events (synced (opened_name self.old))) }
        ensures unchanged { OnErr result (self.new.events ≡ self.old.events) }
        ensures opened { self.new.opened ≡ self.old.opened }
        ensures wants { OnErr result (IsFailing self.old.calls ⊎ (room_of self.old ≡ 0)) }
        ensures room { room_of self.old ≤ room_of self.new + 1 }
    {
        if self.calls.begin() {
            self.calls.fail();
            return Err(DiskFailed);
        }
        match self.note_sync() {
            Ok(()) => Ok(()),
            Err(_) => {
                self.calls.starve();
                Err(DiskFailed)
            }
        }
    }
}

// As many copies of a name as are prepared.
fn copies(alloc: Global, name: &str) -> Result<Vec<String>, AllocError>
    ensures enough { IfOk result (λ names. vec_len names ≡ prepared) }
    ensures same { IfOk result (λ names. All (λ copy. string_bytes copy ≡ name.now) names.items) }
{
    let first = String::from_str(alloc, name)?;
    let second = String::from_str(alloc, name)?;
    let mut names = Vec::new(alloc);
    names.push(first)?;
    names.push(second)?;
    Ok(names)
}

// Copies the bytes of a file from a place on, as many as have room and are there, and says how many.
fn copy_from(file: &[u8], at: usize, buf: &mut [u8]) -> usize
    ensures bound { result ≤ length buf.new }
    ensures fills { Fills file.now at result buf.new }
{
    let from = at.min(file.len());
    let count = buf.len().min(file.len() - from);
    buf[..count].copy_from_slice(&file[from..from + count]);
    count
}
