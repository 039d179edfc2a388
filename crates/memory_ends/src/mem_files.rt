//! Files in memory.
ghost use Rattle.std.specs.Prelude.{◌≡◌, ◌≢◌, ℕ, List, take, OnOk, OnErr, IfOk};
ghost use Rattle.std.specs.Option.{option_copied};
ghost use Rattle.os_io.specs.Files.{Holds, NoFile};
ghost use Rattle.memory_ends.specs.MemFiles.{bytes_of, held_as};
ghost use Rattle.memory_ends.specs.Memory.{IsFresh};

use crate::parts::Script;
use os_io::{FileFault, Files, Memory, Text, count_fault};
use std::alloc::Global;

/// A file in memory.
#[derive(Drop)]
pub(crate) struct MemFile {
    name: Text,
    bytes: Text,
}

/// Files in memory. It counts its calls from 1, and the calls of given numbers fail, as does each for a name that
/// isn't there.
#[derive(Drop)]
pub struct MemFiles {
    script: Script,
    files: Vec<MemFile>,
    faults: u64,
}

impl MemFiles {
    /// No files yet. The reads whose numbers are in `fails` fail.
    pub fn new(alloc: Global, fails: &[u64]) -> Result<MemFiles, Memory>
        ensures held { IfOk result (λ s. (name : List ℕ) → ⟦<MemFiles as Files>⟧.held s name ≡ NoFile) }
        ensures faults { IfOk result (λ s. ⟦<MemFiles as Files>⟧.faults s ≡ 0) }
        ensures fails { IfOk result (λ s. IsFresh s.script fails.now) }
    {
        Ok(MemFiles {
            script: Script::new(alloc, fails)?,
            files: Vec::new(alloc),
            faults: 0,
        })
    }

    /// Puts a file there, in place of one with this name.
    pub fn put(&mut self, alloc: Global, name: &str, bytes: &[u8]) -> Result<(), Memory>
        ensures there { OnOk result (⟦<MemFiles as Files>⟧.held self.new name.now ≡ Holds bytes.now) }
        ensures others { OnOk result ((other : List ℕ) → other ≢ name.now → ⟦<MemFiles as Files>⟧.held self.new other ≡ ⟦<MemFiles as Files>⟧.held self.old other) }
        ensures err { OnErr result (⟦<MemFiles as Files>⟧.held self.new ≡ ⟦<MemFiles as Files>⟧.held self.old) }
        ensures faults { ⟦<MemFiles as Files>⟧.faults self.new ≡ ⟦<MemFiles as Files>⟧.faults self.old }
    {
        let name = Text::from_slice(alloc, name.as_bytes())?;
        let bytes = Text::from_slice(alloc, bytes)?;
        self.files.insert(0, MemFile { name, bytes })?;
        Ok(())
    }

    /// How often a file couldn't be read.
    pub fn faults(&self) -> u64
        ensures { result ≡ ⟦<MemFiles as Files>⟧.faults self.now }
    {
        self.faults
    }
}

/// The bytes of the first file with this name.
fn find<'a>(files: &'a [MemFile], name: &str) -> Option<&'a [u8]>
    ensures { option_copied result ≡ bytes_of files.now name.now }
{
    for file in files {
        if file.name.as_slice() == name.as_bytes() {
            return Some(file.bytes.as_slice());
        }
    }
    None
}

/// The first `most` bytes.
fn first(bytes: &[u8], most: u64) -> &[u8]
    ensures { result.now ≡ take most bytes.now }
{
    let most = usize::try_from(most).unwrap_or(usize::MAX);
    &bytes[..most.min(bytes.len())]
}

impl Files for MemFiles {
    ghost held = { λ s name. held_as (bytes_of s.files.items name) };

    ghost faults = { λ s. s.faults };

    fn read_all(&mut self, alloc: Global, name: &str, most: u64) -> Result<Text, FileFault> {
        if self.script.fails() {
            count_fault(&mut self.faults);
            return Err(FileFault::Failed);
        }
        match find(&self.files, name) {
            Some(bytes) => {
                Text::from_slice(alloc, first(bytes, most)).map_err(|_| FileFault::Memory)
            }
            None => {
                count_fault(&mut self.faults);
                Err(FileFault::Failed)
            }
        }
    }

    // To see a file isn't a call that is counted, and never fails.
    fn is_there(&self, name: &str) -> bool {
        match find(&self.files, name) {
            Some(_) => true,
            None => false,
        }
    }
}
