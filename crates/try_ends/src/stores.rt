//! A disk in memory, by its name.

use crate::telling::{Fault, Lines, opened, text_of};
use disks::{Disk, Stores};
use memory_disks::{MemDisk, MemStores};
use os_io::Memory;
use std::alloc::Global;

/// What the one has that was given back last.
fn last_of(stores: &MemStores) -> &str {
    match stores.last_back() {
        Some(bytes) => text_of(bytes),
        None => "nothing",
    }
}

/// Opens a disk that can be opened once, and gives it back.
fn open_once(alloc: Global) -> Result<String, Fault> {
    let disk = MemDisk::new(alloc, b"seven bytes", &[], u64::MAX)?;
    let mut stores = MemStores::new(alloc, "journal", disk)?;
    let other = opened(stores.open_store("other").is_ok());
    let other_found = opened(stores.find_store("other").is_ok());
    let first = last_of(&stores).to_string(alloc)?;
    let mut store = stores.open_store("journal")?;
    let again = opened(stores.open_store("journal").is_ok());
    let again_found = opened(stores.find_store("journal").is_ok());
    store.write_at(0, b"SE")?;
    stores.done_store(store);
    let last = last_of(&stores);
    Ok(format!(in alloc;
        "another name is {other}, and sought {other_found}; {first} is back; meanwhile {again}, and sought {again_found}; {last} is back"
    )?)
}

/// Tells what was seen of a disk in memory.
pub(crate) fn tell(alloc: Global, lines: &mut Lines) -> Result<(), Memory> {
    lines.tell("a disk in memory", open_once(alloc))
}
