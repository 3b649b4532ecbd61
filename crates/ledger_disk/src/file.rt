//! A disk over a real file, which is locked as long as it is used.

ghost use Rattle.std.specs.Prelude.{◌≡◌, ◌+◌, ◌-◌, ◌^◌, ◌≤◌, false, None, Some, min, IfOk};
ghost use Rattle.std.specs.String.{string_bytes};
ghost use Rattle.ledger_bytes.specs.Causes.{count_after};
ghost use Rattle.ledger_disk.specs.Adapter.{told_of};
ghost use Rattle.ledger_disk.specs.Disk.{CountsFault, KeepsLength};

use crate::Disk;
use ledger_bytes::{Failed, NoMemory};
use std::alloc::Global;
use std::fs::{File, OpenOptions};
use std::io;
use std::os::fd::AsRawFd;
use std::os::unix::fs::{FileExt, OpenOptionsExt};
use std::path::Path;
use std::rt::Files;

// The most bytes that a disk has.
const MOST_BYTES: u64 = 1 << 62;

// The first descriptor that is no standard stream.
const FIRST_FREE: i32 = 3;

// The rights of a file that is made: its owner may read and write it, and nobody else may do anything.
const OWNER_ALONE: u32 = 0o600;

/// A disk over a real file, which it opens or makes at its first call. It then locks the file (`flock`) until the disk is
/// dropped, and syncs the file's folder, so that the file's name stands for good from that call's Ok on. The call fails
/// where another program holds the lock, where the file system has no locks, and where the file would have the
/// descriptor of a standard stream, since one was closed. The disk keeps the length from then on: where the file gives
/// fewer bytes than that, the read fails. It tells nothing of what the file holds.
#[derive(Drop)]
pub struct FileDisk<R: Files<File = File> + Drop> {
    files: R,
    path: String,
    file: Option<File>,
    length: u64,
    faults: u64,
    ghost bounded: { length ≤ 2 ^ 62 },
}

impl<R: Files<File = File> + Drop> FileDisk<R> {
    /// A disk over the file at this path. Nothing is opened yet.
    pub fn at(files: R, alloc: Global, path: &str) -> Result<FileDisk<R>, NoMemory>
        ensures told { IfOk result (λ disk. told_of disk.file disk.length ≡ None) }
        ensures faults { IfOk result (λ disk. disk.faults ≡ 0) }
        ensures path { IfOk result (λ disk. string_bytes disk.path ≡ path.now) }
    {
        Ok(FileDisk {
            files,
            path: String::from_str(alloc, path)?,
            file: None,
            length: 0,
            faults: 0,
        })
    }

    // The length, once the file is open.
    fn ready(&mut self) -> Result<u64, Failed>
        ensures value { IfOk result (λ n. told_of self.new.file self.new.length ≡ Some n) }
        ensures bounded { IfOk result (λ n. n ≤ 2 ^ 62) }
        ensures length { KeepsLength
            (told_of self.old.file self.old.length) (told_of self.new.file self.new.length) }
        ensures faults { CountsFault result self.old.faults self.new.faults }
    {
        if self.file.is_some() {
            return Ok(self.length);
        }
        match open(&self.files, self.path.as_str()) {
            Ok((file, length)) => {
                self.file = Some(file);
                self.length = length;
                Ok(length)
            }
            Err(_) => Err(self.fail()),
        }
    }

    // Counts a failure.
    fn fail(&mut self) -> Failed
        ensures same { told_of self.new.file self.new.length
            ≡ told_of self.old.file self.old.length }
        ensures faults { self.new.faults ≡ count_after self.old.faults }
    {
        self.faults = self.faults.saturating_add(1);
        Failed
    }
}

// The file at this path, which is made where there is none, and its length. Its name stands for good afterwards. The
// folder is synced also where the file was there, since a run that made it may have stopped before it synced it.
fn open<R: Files<File = File>>(files: &R, path: &str) -> io::Result<(File, u64)>
    ensures { IfOk result (λ opened. opened.1 ≤ 2 ^ 62) }
{
    let file = OpenOptions::new()
        .read(true)
        .write(true)
        .create(true)
        .mode(OWNER_ALONE)
        .open(files, path)?;
    // A descriptor below 3 is that of a standard stream which was closed: what is written there would land in the file.
    if file.as_raw_fd() < FIRST_FREE {
        return Err(io::ErrorKind::InvalidData.into());
    }
    file.try_lock()?;
    let length = file.metadata()?.len();
    if length > MOST_BYTES {
        return Err(io::ErrorKind::InvalidData.into());
    }
    sync_folder(files, path)?;
    Ok((file, length))
}

// Makes the names in a file's folder stand for good.
fn sync_folder<R: Files<File = File>>(files: &R, path: &str) -> io::Result<()> {
    let folder = File::open(files, folder_of(path))?;
    folder.sync_all()
}

// The folder of a file.
fn folder_of(path: &str) -> &str {
    match Path::new(path).parent() {
        Some(folder) if !folder.as_str().is_empty() => folder.as_str(),
        _ => ".",
    }
}

fn pull(file: &Option<File>, at: u64, into: &mut [u8]) -> io::Result<()> {
    match file {
        Some(file) => file.read_exact_at(into, at),
        None => Err(io::ErrorKind::NotFound.into()),
    }
}

fn put(file: &Option<File>, at: u64, piece: &[u8]) -> io::Result<()> {
    match file {
        Some(file) => file.write_all_at(piece, at),
        None => Err(io::ErrorKind::NotFound.into()),
    }
}

fn shorten(file: &Option<File>, to: u64) -> io::Result<()> {
    match file {
        Some(file) => file.set_len(to),
        None => Err(io::ErrorKind::NotFound.into()),
    }
}

fn flush(file: &Option<File>) -> io::Result<()> {
    match file {
        Some(file) => file.sync_data(),
        None => Err(io::ErrorKind::NotFound.into()),
    }
}

// The length that a call which failed left, within what it may leave. Where the file tells none, it is taken as kept.
fn length_left(file: &Option<File>, kept: u64, least: u64, greatest: u64) -> u64
    requires low { least ≤ kept }
    requires high { kept ≤ greatest }
    ensures low { least ≤ result }
    ensures high { result ≤ greatest }
{
    match file {
        Some(file) => match file.metadata() {
            Ok(told) => told.len().max(least).min(greatest),
            Err(_) => kept,
        },
        None => kept,
    }
}

impl<R: Files<File = File> + Drop> Disk for FileDisk<R> {
    ghost use Rattle.ledger_disk.specs.Adapter.{untold_state, told_bounded};
    ghost use Rattle.ledger_disk.specs.Bounds.{not_told};

    ghost tells = { false };

    ghost state = { λ d. record { bytes = untold_state; told = told_of d.file d.length; faults = d.faults } };

    ghost bounded = { λ d n is. told_bounded d.file d.length n is d.bounded };

    ghost length_is = { λ _ told. not_told told };

    ghost seen_may_be_left = { λ _ told. not_told told };

    fn len(&mut self) -> Result<u64, Failed> {
        self.ready()
    }

    fn read(&mut self, at: u64, into: &mut [u8]) -> Result<usize, Failed> {
        let length = self.ready()?;
        if at >= length {
            return Ok(0);
        }
        let n = (into.len() as u64).min(length - at) as usize;
        match pull(&self.file, at, &mut into[..n]) {
            Ok(()) => Ok(n),
            Err(_) => Err(self.fail()),
        }
    }

    fn write(&mut self, at: u64, piece: &[u8]) -> Result<(), Failed> {
        let length = self.ready()?;
        let size = piece.len() as u64;
        if at > length || size > MOST_BYTES - at {
            return Err(self.fail());
        }
        let end = length.max(at + size);
        match put(&self.file, at, piece) {
            Ok(()) => {
                self.length = end;
                Ok(())
            }
            Err(_) => {
                self.length = length_left(&self.file, length, length, end);
                Err(self.fail())
            }
        }
    }

    fn cut(&mut self, to: u64) -> Result<(), Failed> {
        let length = self.ready()?;
        if to > length {
            return Err(self.fail());
        }
        match shorten(&self.file, to) {
            Ok(()) => {
                self.length = to;
                Ok(())
            }
            Err(_) => {
                self.length = length_left(&self.file, length, to, length);
                Err(self.fail())
            }
        }
    }

    fn sync(&mut self) -> Result<(), Failed> {
        self.ready()?;
        match flush(&self.file) {
            Ok(()) => Ok(()),
            Err(_) => Err(self.fail()),
        }
    }

    fn faults(&self) -> u64 {
        self.faults
    }
}
