//! A disk in memory, by its name.

ghost use Rattle.std.specs.Prelude.{◌≡◌, ℕ, List, [], true, refl, Some, IfOk};
ghost use Rattle.std.proofs.Common.{inl};
ghost use Rattle.std.specs.Option.{option_copied};
ghost use Rattle.memory_disks.specs.Memory.{disk_bytes};
ghost use Rattle.os_io.specs.Files.{CountsFiles};
ghost use Rattle.memory_disks.specs.MemStores.{disk_of, held_by, names_opened, bytes_kept, last_kept};
ghost use Rattle.memory_disks.specs.Past.{only_bytes};
ghost use Rattle.disks.specs.Stores.{IsHeld, NamesOpened};

use crate::mem_disk::MemDisk;
use disks::{Disk, Stores};
use os_io::{Failed, FileFault, Memory, Text, count_fault};
use std::alloc::Global;

/// A place for a disk among those given back, on the one that was given back before it. A disk brings its place along, so giving it
/// back takes no memory.
#[derive(Drop)]
pub(crate) struct Kept {
    disk: MemDisk,
    under: Option<Box<Kept>>,
}

/// A disk in memory that can be given back.
#[derive(Drop)]
pub struct MemStore {
    place: Box<Kept>,
}

/// It is the disk in memory.
impl Disk for MemStore {
    ghost told = { λ _. true };

    ghost seen = { λ s. ⟦<MemDisk as Disk>⟧.seen (disk_of s) };

    ghost may_leave = { λ s. ⟦<MemDisk as Disk>⟧.may_leave (disk_of s) };

    ghost moment = { λ s. ⟦<MemDisk as Disk>⟧.moment (disk_of s) };

    ghost left_since = { λ s. ⟦<MemDisk as Disk>⟧.left_since (disk_of s) };

    ghost faults = { λ s. ⟦<MemDisk as Disk>⟧.faults (disk_of s) };

    ghost as_it_reads = { λ _ _. refl };

    ghost counts_now = { λ _ _ _ _ now. inl now };

    ghost only_now = { λ s c left. only_bytes (disk_of s).past.items (disk_bytes (disk_of s)) c left };

    fn len(&mut self) -> Result<u64, Failed> {
        self.place.disk.len()
    }

    fn read_at(&mut self, at: u64, buf: &mut [u8]) -> Result<usize, Failed> {
        self.place.disk.read_at(at, buf)
    }

    fn write_at(&mut self, at: u64, bytes: &[u8]) -> Result<(), Failed> {
        self.place.disk.write_at(at, bytes)
    }

    fn cut(&mut self, len: u64) -> Result<(), Failed> {
        self.place.disk.cut(len)
    }

    fn sync(&mut self) -> Result<(), Failed> {
        self.place.disk.sync()
    }
}

/// One disk in memory, of one name, which can be opened once.
#[derive(Drop)]
pub struct MemStores {
    name: Text,
    /// The disk, until it is opened.
    home: Option<MemStore>,
    back: Option<Box<Kept>>,
    faults: u64,
}

impl MemStores {
    /// A disk with a name.
    pub fn new(alloc: Global, name: &str, disk: MemDisk) -> Result<MemStores, Memory>
        ensures held { IfOk result (λ s. ⟦<MemStores as Stores>⟧.held s name.now ≡ Some (disk_bytes disk)) }
        ensures back { IfOk result (λ s. ⟦<MemStores as Stores>⟧.back s ≡ Some []) }
        ensures opened { IfOk result (λ s. ⟦<MemStores as Stores>⟧.opened s ≡ Some []) }
        ensures faults { IfOk result (λ s. ⟦<MemStores as Stores>⟧.faults s ≡ 0) }
    {
        let place = Box::new(alloc, Kept { disk, under: None })?;
        Ok(MemStores {
            name: Text::from_slice(alloc, name.as_bytes())?,
            home: Some(MemStore { place }),
            back: None,
            faults: 0,
        })
    }

    /// Lends the disk, where it has this name and wasn't opened yet.
    fn lend(&mut self, name: &str) -> Result<MemStore, FileFault>
        ensures opened { IfOk result (λ s. IsHeld (held_by self.old.name self.old.home name.now) true (disk_bytes (disk_of s))) }
        ensures names { NamesOpened result (Some (names_opened self.old.name self.old.home)) (Some (names_opened self.new.name self.new.home)) name.now }
        ensures back { self.new.back ≡ self.old.back }
        ensures others { (other : List ℕ) → (other ≡ name.now → ⊥) → held_by self.new.name self.new.home other ≡ held_by self.old.name self.old.home other }
        ensures counted { CountsFiles result self.old.faults self.new.faults }
    {
        if self.name.as_slice() == name.as_bytes() {
            if let Some(store) = self.home.take() {
                return Ok(store);
            }
        }
        count_fault(&mut self.faults);
        Err(FileFault::Failed)
    }

    /// What the one has that was given back last, if there is one.
    pub fn last_back(&self) -> Option<&[u8]>
        ensures { option_copied result ≡ last_kept self.now.back }
    {
        match &self.back {
            Some(place) => Some(place.disk.as_slice()),
            None => None,
        }
    }
}

impl Stores for MemStores {
    type Store = MemStore;

    ghost held = { λ s name. held_by s.name s.home name };

    ghost back = { λ s. Some (bytes_kept s.back) };

    ghost opened = { λ s. Some (names_opened s.name s.home) };

    ghost faults = { λ s. s.faults };

    fn open_store(&mut self, name: &str) -> Result<MemStore, FileFault> {
        self.lend(name)
    }

    fn find_store(&mut self, name: &str) -> Result<MemStore, FileFault> {
        self.lend(name)
    }

    fn done_store(&mut self, store: MemStore) {
        let mut place = store.place;
        place.under = self.back.take();
        self.back = Some(place);
    }
}
