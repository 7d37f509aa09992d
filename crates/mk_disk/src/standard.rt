//! The files of the operating system as a disk.

ghost use Rattle.std.specs.Prelude.{◌≡◌, ◌≤◌, [], None, is_some, unwrap_or, length, string_bytes, IfOk};
ghost use Rattle.mk_disk.specs.Disk.{Rose};

use crate::disk::{Disk, DiskFailed};
use std::alloc::Global;
use std::fs;
use std::fs::{File, OpenFile, OpenOptions};
use std::io::{self, Read, Seek, SeekFrom, Write};
use std::marker::Model;
use std::path::Path;
use std::rt::Files;

/// The files of the operating system, of which one is open. Nothing is told of their bytes.
///
/// `open` locks the file, and fails where another opening holds it; the lock ends with this opening. `open` asks the
/// system to sync the file's folder too, so that a new file's name is kept, and `sync` to sync its bytes and length.
#[derive(Drop)]
pub struct StdDisk<'a, R: Files<File = File> + AllocGlobal> {
    rt: &'a R,
    opened: Option<Opened<R::File>>,
    faults: u64,
}

// A file and its name.
#[derive(Drop)]
struct Opened<F> {
    name: String,
    file: F,
}

// seen as the name of the open file and the number of faults
impl<'a, R: Files<File = File> + AllocGlobal> Model for StdDisk<'a, R> {
    ghost use Rattle.std.specs.Prelude.{option_map, string_bytes};
    ghost use Rattle.mk_disk.specs.Standard.{StandardState};

    ghost Value = { StandardState };

    ghost view = { λ d. record { opened = option_map (λ o. string_bytes o.name) d.opened; faults = d.faults } };
}

impl<'a, R: Files<File = File> + AllocGlobal> StdDisk<'a, R> {
    /// No file is open.
    pub fn new(rt: &'a R) -> StdDisk<'a, R>
        ensures { result ≡ record { opened = None; faults = 0 } }
    {
        StdDisk {
            rt,
            opened: None,
            faults: 0,
        }
    }

    // Counts a fault.
    fn fail(&mut self) -> DiskFailed
        ensures opened { self.new.opened ≡ self.old.opened }
        ensures later { self.old.faults ≤ self.new.faults }
        ensures rose { Rose self.old.faults self.new.faults }
    {
        self.faults = self.faults.saturating_add(1);
        DiskFailed
    }
}

impl<'a, R: Files<File = File> + AllocGlobal> Disk for StdDisk<'a, R> {
    ghost admits = { λ _. Unit {0} };

    ghost is_open = { λ d. is_some d.opened };

    ghost open_name = { λ d. unwrap_or d.opened [] };

    ghost file = { λ _ _. None };

    ghost may_leave = { λ _ _ _. Unit {0} };

    ghost moment = { λ _. 0 };

    ghost left_since = { λ _ _ _ _. Unit {0} };

    ghost faults = { λ d. d.faults };

    ghost is_image = { λ _ _ _ _. tt };

    ghost counts_now = { λ _ _ _ _ _ _. tt };

    ghost only_now = { λ _ _ _ _. tt };

    fn open(&mut self, name: &str) -> Result<(), DiskFailed> {
        match open_file(self.rt, name) {
            Ok(opened) => {
                self.opened = Some(opened);
                Ok(())
            }
            Err(_) => Err(self.fail()),
        }
    }

    fn length(&mut self) -> Result<u64, DiskFailed> {
        if let Some(opened) = &self.opened {
            if let Ok(data) = opened.file.metadata() {
                return Ok(data.len());
            }
        }
        Err(self.fail())
    }

    fn read_at(&mut self, at: u64, buf: &mut [u8]) -> Result<usize, DiskFailed> {
        if let Some(opened) = &mut self.opened {
            if let Ok(count) = read_from(&mut opened.file, at, buf) {
                return Ok(count);
            }
        }
        Err(self.fail())
    }

    fn write_at(&mut self, at: u64, bytes: &[u8]) -> Result<(), DiskFailed> {
        if let Some(opened) = &mut self.opened {
            if write_from(&mut opened.file, at, bytes).is_ok() {
                return Ok(());
            }
        }
        Err(self.fail())
    }

    fn sync(&mut self) -> Result<(), DiskFailed> {
        if let Some(opened) = &self.opened {
            if opened.file.sync_data().is_ok() {
                return Ok(());
            }
        }
        Err(self.fail())
    }
}

// Opens and locks a file, an empty one where there is none, and syncs its folder.
fn open_file<R: Files<File = File> + AllocGlobal>(rt: &R, name: &str) -> io::Result<Opened<R::File>>
    ensures { IfOk result (λ opened. string_bytes opened.name ≡ name.now) }
{
    let mut how = OpenOptions::new();
    how.read(true);
    how.write(true);
    how.create(true);
    let file = how.open(rt, name)?;
    if file.try_lock().is_err() {
        return Err(io::ErrorKind::WouldBlock.into());
    }
    let folder = match Path::new(name).parent() {
        Some(folder) if folder.as_str() != "" => folder.as_str(),
        _ => ".",
    };
    fs::open(rt, folder)?.sync_all()?;
    Ok(Opened {
        name: String::from_str(rt.alloc(), name)?,
        file,
    })
}

// Reads from a place on until the room is full or the file ends.
fn read_from<F: Read + Seek>(file: &mut F, at: u64, buf: &mut [u8]) -> io::Result<usize>
    ensures { IfOk result (λ count. count ≤ length buf.new) }
{
    file.seek(SeekFrom::Start(at))?;
    let mut count = 0;
    while count < buf.len() {
        let more = file.read(&mut buf[count..])?;
        if more == 0 {
            break;
        }
        count += more;
    }
    Ok(count)
}

// Writes all bytes from a place on.
fn write_from<F: Write + Seek>(file: &mut F, at: u64, bytes: &[u8]) -> io::Result<()> {
    file.seek(SeekFrom::Start(at))?;
    let mut done = 0;
    while done < bytes.len() {
        let more = file.write(&bytes[done..])?;
        if more == 0 {
            return Err(io::ErrorKind::WriteZero.into());
        }
        done += more;
    }
    Ok(())
}
