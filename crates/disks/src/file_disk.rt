//! A file of the system.

ghost use Rattle.std.specs.Prelude.{◌≡◌, ◌≤◌, false, [], length, IfOk, OnOk, OnErr};
ghost use Rattle.os_io.specs.Streams.{Counts};

use crate::disk::Disk;
use os_io::{Failed, count_fault};
use std::fs::{self, OpenOptions, TryLockError};
use std::io::{self, ErrorKind};
use std::os::unix::fs::FileExt;
use std::path::Path;

/// A file of the system, with a count of its faults. It tells nothing of what it holds: what the system and its disks keep is
/// outside every contract. It is held by one owner at a time, by the advisory lock of the whole file.
#[derive(Drop)]
pub struct FileDisk {
    file: fs::File,
    faults: u64,
}

/// The folder of the file with this name.
fn folder_of(name: &str) -> &str {
    match Path::new(name).parent() {
        Some(folder) if !folder.as_str().is_empty() => folder.as_str(),
        _ => ".",
    }
}

/// Takes the lock of a file, or fails where another has it.
fn lock(file: &fs::File) -> io::Result<()> {
    match file.try_lock() {
        Ok(()) => Ok(()),
        Err(TryLockError::WouldBlock) => Err(ErrorKind::ResourceBusy.into()),
        Err(TryLockError::Error(error)) => Err(error),
    }
}

/// Reads some bytes from a place on. None before the end is an error, where the buffer has room.
fn read_some(file: &fs::File, at: u64, buf: &mut [u8]) -> io::Result<usize>
    ensures { IfOk result (λ n. n ≤ length buf.old) }
{
    let n = file.read_at(buf, at)?;
    if n == 0 && !buf.is_empty() && at < file.metadata()?.len() {
        return Err(ErrorKind::UnexpectedEof.into());
    }
    Ok(n)
}

impl FileDisk {
    /// Opens the file with this name to read and to write it, and makes it where there is none. A new file's name is at rest, so
    /// a crash leaves the file too. It fails where somebody else has the file open in this way.
    pub fn open<R: fs::Files<File = fs::File>>(system: &R, name: &str) -> io::Result<FileDisk>
        ensures { IfOk result (λ d. ⟦<FileDisk as Disk>⟧.faults d ≡ 0) }
    {
        FileDisk::open_or_make(system, name, true)
    }

    /// The same, but it fails where there is no such file, and makes none.
    pub fn find<R: fs::Files<File = fs::File>>(system: &R, name: &str) -> io::Result<FileDisk>
        ensures { IfOk result (λ d. ⟦<FileDisk as Disk>⟧.faults d ≡ 0) }
    {
        FileDisk::open_or_make(system, name, false)
    }

    fn open_or_make<R: fs::Files<File = fs::File>>(
        system: &R,
        name: &str,
        makes: bool,
    ) -> io::Result<FileDisk>
        ensures { IfOk result (λ d. ⟦<FileDisk as Disk>⟧.faults d ≡ 0) }
    {
        let file = OpenOptions::new()
            .read(true)
            .write(true)
            .create(makes)
            .open(system, name)?;
        lock(&file)?;
        // A file's name stands in its folder, which is brought to rest by itself.
        fs::File::open(system, folder_of(name))?.sync_all()?;
        Ok(FileDisk { file, faults: 0 })
    }

    /// How often a call has failed.
    pub fn faults(&self) -> u64
        ensures { result ≡ ⟦<FileDisk as Disk>⟧.faults self.now }
    {
        self.faults
    }
}

/// A call's answer, whose fault is counted.
fn counted<T>(faults: &mut u64, answer: io::Result<T>) -> Result<T, Failed>
    ensures cause { Counts result faults.old faults.new }
    ensures value { IfOk result (λ v. IfOk answer (λ w. w ≡ v)) }
    ensures ok { OnOk result (OnErr answer ⊥) }
{
    match answer {
        Ok(value) => Ok(value),
        Err(_) => Err(count_fault(faults)),
    }
}

impl Disk for FileDisk {
    ghost told = { λ _. false };

    ghost seen = { λ _. [] };

    ghost may_leave = { λ _ _. Unit {0} };

    ghost moment = { λ _. 0 };

    ghost left_since = { λ _ _ _. Unit {0} };

    ghost faults = { λ d. d.faults };

    ghost as_it_reads = { λ _ _. tt };

    ghost counts_now = { λ _ _ _ _ _. tt };

    ghost only_now = { λ _ _ _. tt };

    fn len(&mut self) -> Result<u64, Failed> {
        match counted(&mut self.faults, self.file.metadata()) {
            Ok(metadata) => Ok(metadata.len()),
            Err(failed) => Err(failed),
        }
    }

    fn read_at(&mut self, at: u64, buf: &mut [u8]) -> Result<usize, Failed> {
        let answer = read_some(&self.file, at, buf);
        counted(&mut self.faults, answer)
    }

    fn write_at(&mut self, at: u64, bytes: &[u8]) -> Result<(), Failed> {
        let answer = self.file.write_all_at(bytes, at);
        counted(&mut self.faults, answer)
    }

    fn cut(&mut self, len: u64) -> Result<(), Failed> {
        let answer = self.file.set_len(len);
        counted(&mut self.faults, answer)
    }

    fn sync(&mut self) -> Result<(), Failed> {
        let answer = self.file.sync_data();
        counted(&mut self.faults, answer)
    }
}
