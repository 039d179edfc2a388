//! Calls of a client that a server answers, told as texts.

use super::links::{asked_text, called_text};
use job_solver::{SolvedJobs, Solver};
use job_table::Table;
use memory_ends::{MemLink, UnreadClock};
use os_io::{Memory, Text};
use os_server::serve_one;
use std::alloc::Global;

/// The room for what a server writes.
const ROOM: usize = 4000;

/// What a server over this table of jobs writes to a request.
fn served(alloc: Global, jobs: &mut Table<SolvedJobs>, request: &[u8]) -> Result<Text, Memory> {
    let link = MemLink::new(alloc, request, request.len(), ROOM, &[])?;
    let (_, link) = serve_one(alloc, link, jobs, &Solver::new(&UnreadClock));
    Text::from_slice(alloc, link.as_slice())
}

/// What a call answers whose request a server over this table answers. The call has a name and two parts, with `|` between.
fn met(alloc: Global, jobs: &mut Table<SolvedJobs>, call: &[u8]) -> Result<Text, Memory> {
    let mut parts = call.split(|b| *b == b'|');
    let name = parts.next().unwrap_or(b"");
    let first = parts.next().unwrap_or(b"");
    let second = parts.next().unwrap_or(b"");
    let request = asked_text(alloc, name, first, second)?;
    let response = served(alloc, jobs, request.as_slice())?;
    called_text(alloc, name, response.as_slice())
}

/// What these calls answer, one after another, whose requests a server over one table of jobs answers.
pub(crate) fn met_text(alloc: Global, calls: &[Vec<u8>]) -> Result<Text, Memory> {
    let mut jobs: Table<SolvedJobs> = Table::new(alloc, 1);
    let mut text = Text::new(alloc);
    for call in calls {
        if !text.is_empty() {
            text.extend(b" | ")?;
        }
        let answer = met(alloc, &mut jobs, call.as_slice())?;
        text.extend(answer.as_slice())?;
    }
    Ok(text)
}
