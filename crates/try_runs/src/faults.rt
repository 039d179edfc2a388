//! Lists of failing calls: what a run of the program comes to where the first call of a kind fails, where the second one does, and so on
//! until none of them fails (`docs/rules/commands.md`, `http.md`, `conversations.md`).

mod calls;
mod listing;
mod world;

use cases::{Tables, compare, gather};
use listing::Listing;
pub(crate) use listing::put_group;
use os_io::DiskFiles;
use std::sync::Wait;
use std::thread::Threads;
use std::time::Clock;
use std::{fs, io};
use world::World;

/// Compares the answers of each of these tables.
pub(crate) fn try_tables<R: Threads + Wait + Clock + Sync + fs::Files + Print + AllocGlobal>(
    rt: &R,
    tables: &mut Tables<'_, R>,
) -> io::Result<()> {
    let alloc = rt.alloc();
    let mut files = DiskFiles::new(rt);
    let world = World::new(rt, DiskFiles::new(rt));
    let rows = gather(alloc, "lists.txt", &mut files)?;
    let answers = Listing::new(world).answers(alloc, rows.as_slice())?;
    compare(tables, "lists.txt", answers)
}
