//! Runs: what the program answers and writes, and where one of its outside calls fails.

mod ends;
mod running;

use cases::{Tables, compare, gather};
use os_io::DiskFiles;
use running::{Kind, World};
use std::sync::Wait;
use std::thread::Threads;
use std::time::Clock;
use std::{fs, io};

/// The tables, and what each gives in a case.
const TABLES: [(&str, Kind); 4] = [
    ("runs.txt", Kind::Runs),
    ("words.txt", Kind::Words),
    ("reads.txt", Kind::EveryRead),
    ("links.txt", Kind::Linked),
];

/// Compares the answers of each of these tables.
pub(crate) fn try_tables<R: Threads + Wait + Clock + Sync + fs::Files + Print + AllocGlobal>(
    rt: &R,
    tables: &mut Tables<'_, R>,
) -> io::Result<()> {
    let alloc = rt.alloc();
    let mut files = DiskFiles::new(rt);
    let mut world = World::new(rt, DiskFiles::new(rt));
    for (name, kind) in TABLES {
        let rows = gather(alloc, name, &mut files)?;
        let answers = world.answers(alloc, kind, rows.as_slice())?;
        compare(tables, name, answers)?;
    }
    Ok(())
}
