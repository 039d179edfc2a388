//! Journals in the program: what sessions over one answer, and what its file has then; what they come to where the power goes at a call of
//! the disk; and what a journal is written again as (`docs/rules/journal.md`, `commands.md`).

mod replies;
mod running;
mod shelf;

use cases::{Tables, compare, gather};
use os_io::DiskFiles;
use running::{Keeper, Kind};
use std::sync::Wait;
use std::thread::Threads;
use std::time::Clock;
use std::{fs, io};

/// The tables, and what each gives in a case.
const TABLES: [(&str, Kind); 3] = [
    ("journals.txt", Kind::Session),
    ("stops.txt", Kind::Stops),
    ("copies.txt", Kind::Copy),
];

/// Compares the answers of each of these tables.
pub(crate) fn try_tables<R: Threads + Wait + Clock + Sync + fs::Files + Print + AllocGlobal>(
    rt: &R,
    tables: &mut Tables<'_, R>,
) -> io::Result<()> {
    let alloc = rt.alloc();
    let mut files = DiskFiles::new(rt);
    let mut keeper = Keeper::new(rt);
    for (name, kind) in TABLES {
        let rows = gather(alloc, name, &mut files)?;
        let answers = keeper.answers(alloc, kind, rows.as_slice())?;
        compare(tables, name, answers)?;
    }
    Ok(())
}
