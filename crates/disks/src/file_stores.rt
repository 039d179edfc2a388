//! The system's files as disks.

ghost use Rattle.std.specs.Prelude.{◌≡◌, None};
ghost use Rattle.os_io.specs.Files.{CountsFiles};

use crate::file_disk::FileDisk;
use crate::stores::Stores;
use os_io::{FileFault, count_fault};
use std::fs;
use std::io::{self, ErrorKind};

/// The system's files, with a count of those that couldn't be opened. It tells nothing of what they hold.
#[derive(Drop)]
pub struct FileStores<R> {
    system: R,
    faults: u64,
}

/// What was opened, or why it wasn't; one that couldn't be opened is counted.
fn counted(faults: &mut u64, opened: io::Result<FileDisk>) -> Result<FileDisk, FileFault>
    ensures { CountsFiles result faults.old faults.new }
{
    match opened {
        Ok(disk) => Ok(disk),
        Err(error) if error.kind() == ErrorKind::OutOfMemory => Err(FileFault::Memory),
        Err(_) => {
            count_fault(faults);
            Err(FileFault::Failed)
        }
    }
}

impl<R: fs::Files<File = fs::File> + Drop> FileStores<R> {
    /// Files of this system, as `&rt`.
    pub fn new(system: R) -> FileStores<R>
        ensures { ⟦<FileStores<R> as Stores>⟧.faults result ≡ 0 }
    {
        FileStores { system, faults: 0 }
    }
}

impl<R: fs::Files<File = fs::File> + Drop> Stores for FileStores<R> {
    type Store = FileDisk;

    ghost held = { λ _ _. None };

    ghost back = { λ _. None };

    ghost opened = { λ _. None };

    ghost faults = { λ s. s.faults };

    fn open_store(&mut self, name: &str) -> Result<FileDisk, FileFault> {
        let opened = FileDisk::open(&self.system, name);
        counted(&mut self.faults, opened)
    }

    fn find_store(&mut self, name: &str) -> Result<FileDisk, FileFault> {
        let opened = FileDisk::find(&self.system, name);
        counted(&mut self.faults, opened)
    }

    fn done_store(&mut self, _store: FileDisk) {}
}
