//! Two disks with names.

ghost use Rattle.std.specs.Prelude.{None};

use disks::Stores;
use memory_disks::MemDisk;
use os_io::{FileFault, count_fault};
use std::alloc::Global;

/// A disk of a name, if there is one, until it is opened.
#[derive(Drop)]
struct Place {
    disk: Option<MemDisk>,
    is_open: bool,
}

/// Opens a disk once. Where there is none, one is made, if it may be.
fn take(alloc: Global, place: &mut Place, makes: bool) -> Option<MemDisk> {
    if place.is_open {
        return None;
    }
    match place.disk.take() {
        Some(disk) => {
            place.is_open = true;
            Some(disk)
        }
        None => {
            if !makes {
                return None;
            }
            place.is_open = true;
            MemDisk::new(alloc, &[], &[], u64::MAX).ok()
        }
    }
}

/// The disks of the names `old` and `new`, and those that were given back. It tells nothing of what they hold.
#[derive(Drop)]
pub(crate) struct Shelf {
    alloc: Global,
    old: Place,
    new: Place,
    pub first_back: Option<MemDisk>,
    pub second_back: Option<MemDisk>,
    faults: u64,
}

impl Shelf {
    pub(crate) fn new(alloc: Global, old: Option<MemDisk>, new: Option<MemDisk>) -> Shelf {
        Shelf {
            alloc,
            old: Place {
                disk: old,
                is_open: false,
            },
            new: Place {
                disk: new,
                is_open: false,
            },
            first_back: None,
            second_back: None,
            faults: 0,
        }
    }
}

impl Stores for Shelf {
    type Store = MemDisk;

    ghost held = { λ _ _. None };

    ghost back = { λ _. None };

    ghost opened = { λ _. None };

    ghost faults = { λ s. s.faults };

    fn open_store(&mut self, name: &str) -> Result<MemDisk, FileFault> {
        let taken = match name {
            "old" => take(self.alloc, &mut self.old, true),
            "new" => take(self.alloc, &mut self.new, true),
            _ => None,
        };
        if let Some(disk) = taken {
            return Ok(disk);
        }
        count_fault(&mut self.faults);
        Err(FileFault::Failed)
    }

    fn find_store(&mut self, name: &str) -> Result<MemDisk, FileFault> {
        let taken = match name {
            "old" => take(self.alloc, &mut self.old, false),
            "new" => take(self.alloc, &mut self.new, false),
            _ => None,
        };
        if let Some(disk) = taken {
            return Ok(disk);
        }
        count_fault(&mut self.faults);
        Err(FileFault::Failed)
    }

    fn done_store(&mut self, store: MemDisk) {
        if self.first_back.is_none() {
            self.first_back = Some(store);
        } else {
            self.second_back = Some(store);
        }
    }
}
