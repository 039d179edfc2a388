//! The files of the system, read by name.
ghost use Rattle.std.specs.Prelude.{◌≡◌};
ghost use Rattle.os_io.specs.Files.{Untold};

use crate::faults::count_fault;
use crate::files::{FileFault, Files};
use crate::text::Text;
use std::alloc::Global;
use std::fs;
use std::io::{self, ErrorKind, Read};

/// The disk's files, or others of std, with a count of its faults. It tells nothing of what they hold.
#[derive(Drop)]
pub struct DiskFiles<R> {
    system: R,
    faults: u64,
}

impl<R: fs::Files + Drop> DiskFiles<R> {
    /// Reads files of this system, as `&rt`.
    pub fn new(system: R) -> DiskFiles<R>
        ensures { ⟦<DiskFiles<R> as Files>⟧.faults result ≡ 0 }
    {
        DiskFiles { system, faults: 0 }
    }

    /// How often a file couldn't be read.
    pub fn faults(&self) -> u64
        ensures { result ≡ ⟦<DiskFiles<R> as Files>⟧.faults self.now }
    {
        self.faults
    }
}

/// The first `most` bytes of the file with this name.
fn first_bytes<R: fs::Files>(
    alloc: Global,
    system: &R,
    name: &str,
    most: u64,
) -> io::Result<Vec<u8>> {
    let file = fs::File::open(system, name)?;
    let mut bytes = Vec::new(alloc);
    file.take(most).read_to_end(&mut bytes)?;
    Ok(bytes)
}

impl<R: fs::Files + Drop> Files for DiskFiles<R> {
    ghost held = { λ _ _. Untold };

    ghost faults = { λ s. s.faults };

    fn read_all(&mut self, alloc: Global, name: &str, most: u64) -> Result<Text, FileFault> {
        match first_bytes(alloc, &self.system, name, most) {
            Ok(bytes) => Ok(Text::from_vec(bytes)),
            Err(error) if error.kind() == ErrorKind::OutOfMemory => Err(FileFault::Memory),
            Err(_) => {
                count_fault(&mut self.faults);
                Err(FileFault::Failed)
            }
        }
    }

    fn is_there(&self, name: &str) -> bool {
        match fs::exists(&self.system, name) {
            Ok(there) => there,
            Err(_) => false,
        }
    }
}
