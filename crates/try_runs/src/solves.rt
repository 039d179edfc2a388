//! Jobs in files, solved with the safe limit of turns and without: the result document that is written of each, and what the checker says
//! of it (`docs/rules/search.md`, `docs/rules/results.md`); and small programs, whose status and values are those that another exact
//! solver gives (`tools/peer_programs.py`).

mod examples;
mod jobs;

use cases::{Tables, compare, gather};
use examples::Examples;
use jobs::{answer_job, answer_program};
use os_io::DiskFiles;
use std::sync::Wait;
use std::thread::Threads;
use std::time::Clock;
use std::{fs, io};

/// Compares the answers of each of these tables.
pub(crate) fn try_tables<R: Threads + Wait + Clock + Sync + fs::Files + Print + AllocGlobal>(
    rt: &R,
    tables: &mut Tables<'_, R>,
) -> io::Result<()> {
    let alloc = rt.alloc();
    let mut files = DiskFiles::new(rt);
    for (name, is_safe) in [("solves.txt", false), ("safe.txt", true)] {
        let mut answers = Vec::new(alloc);
        for row in &gather(alloc, name, &mut files)? {
            answers.push(answer_job(rt, alloc, row.as_slice(), is_safe)?)?;
        }
        compare(tables, name, answers)?;
    }
    let mut answers = Vec::new(alloc);
    for row in &gather(alloc, "peers.txt", &mut files)? {
        answers.push(answer_program(rt, alloc, row.as_slice())?)?;
    }
    compare(tables, "peers.txt", answers)?;
    let mut examples = Examples::new(rt, DiskFiles::new(rt));
    let mut answers = Vec::new(alloc);
    for row in &gather(alloc, "examples.txt", &mut files)? {
        answers.push(examples.answer(alloc, row.as_slice())?)?;
    }
    compare(tables, "examples.txt", answers)
}
