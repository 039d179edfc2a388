//! Connections in memory, served and told as texts.

use super::conditions::Conditions;
use super::mover::CountingMover;
use cases::count_left;
use job_solver::Solver;
use memory_ends::{MemLink, MemSink, MemSource, UnreadClock};
use os_io::{Memory, Text};
use os_server::{Served, serve_ends, serve_one};
use std::alloc::Global;

/// The most bytes that another connection may leave.
const MOST: usize = 5_000;

/// How many bytes one read gives, of an input or of a link.
#[derive(Clone, Copy)]
enum Way {
    Ends(usize),
    Link(usize),
}

fn name_of(end: Served) -> &'static str {
    match end {
        Served::Ended => "Ended",
        Served::CutShort => "CutShort",
        Served::ReadFault => "ReadFault",
        Served::WriteFault => "WriteFault",
        Served::Memory => "Memory",
    }
}

/// How a connection ended, how often reads and writes failed, how many bytes are left and how many were handed on, and the
/// bytes written, or those of them that are to be told.
fn told(
    alloc: Global,
    conditions: Conditions,
    end: Served,
    faults: (u64, u64),
    left: u64,
    sent: usize,
    written: &[u8],
) -> Result<Text, Memory> {
    let name = name_of(end);
    let (reads, writes) = faults;
    let front = format!(in alloc;
        "{name}, faults {reads} {writes}, left {left}, handed on {sent}: "
    )?;
    let mut text = Text::from_slice(alloc, front.as_str().as_bytes())?;
    let until = written.len().min(conditions.until as usize);
    let from = until.min(conditions.from as usize);
    text.extend(&written[from..until])?;
    Ok(text)
}

/// Serves bytes in this way, and tells it.
fn served(
    alloc: Global,
    conditions: Conditions,
    bytes: &[u8],
    way: Way,
    mover: &mut CountingMover,
) -> Result<Text, Memory> {
    let room = conditions.room as usize;
    match way {
        Way::Ends(piece) => {
            let mut input = MemSource::new(alloc, bytes, piece, &[conditions.read])?;
            let mut output = MemSink::new(alloc, room, &[conditions.write])?;
            let end = serve_ends(
                alloc,
                &mut input,
                &mut output,
                mover,
                &Solver::new(&UnreadClock),
            );
            let faults = (input.faults(), output.faults());
            let left = count_left(&mut input, bytes.len()).saturating_add(conditions.taken);
            let sent = output.handed_on().len();
            told(
                alloc,
                conditions,
                end,
                faults,
                left,
                sent,
                output.as_slice(),
            )
        }
        Way::Link(piece) => {
            let link = MemLink::new(alloc, bytes, piece, room, &[conditions.link])?;
            let (end, mut link) = serve_one(alloc, link, mover, &Solver::new(&UnreadClock));
            let faults = (link.read_faults(), link.write_faults());
            let left = count_left(&mut link, bytes.len());
            let sent = link.handed_on().len();
            told(alloc, conditions, end, faults, left, sent, link.as_slice())
        }
    }
}

/// The same over a table of its own.
fn served_alone(
    alloc: Global,
    conditions: Conditions,
    bytes: &[u8],
    way: Way,
) -> Result<Text, Memory> {
    let mut mover = CountingMover::new(alloc, conditions.lacks);
    served(alloc, conditions, bytes, way, &mut mover)
}

/// The way that conditions ask for.
fn way_of(conditions: Conditions) -> Way {
    let piece = conditions.piece as usize;
    if conditions.is_link {
        Way::Link(piece)
    } else {
        Way::Ends(piece)
    }
}

/// How a connection is served where nothing fails: in one piece, byte by byte, and byte by byte over a link. Where these tell
/// other things, one of them.
fn told_of_plain(alloc: Global, conditions: Conditions, bytes: &[u8]) -> Result<Text, Memory> {
    let whole = served_alone(alloc, conditions, bytes, Way::Ends(bytes.len()))?;
    for way in [Way::Ends(1), Way::Link(1)] {
        let slow = served_alone(alloc, conditions, bytes, way)?;
        if slow.as_slice() != whole.as_slice() {
            return Ok(slow);
        }
    }
    Ok(whole)
}

/// How a connection is served under these conditions, over a table of its own. Where reads fail in turn and a later one tells
/// another thing, that.
pub(crate) fn told_of_conversation(
    alloc: Global,
    conditions: Conditions,
    bytes: &[u8],
) -> Result<Text, Memory> {
    if conditions.plain {
        return told_of_plain(alloc, conditions, bytes);
    }
    let way = way_of(conditions);
    let first = served_alone(alloc, conditions, bytes, way)?;
    for read in conditions.read..conditions.last_read {
        let later = conditions.with_read(read.saturating_add(1));
        let text = served_alone(alloc, later, bytes, way)?;
        if text.as_slice() != first.as_slice() {
            return Ok(text);
        }
    }
    Ok(first)
}

/// How a connection is served, and how another one beside it.
pub(crate) fn told_of_other(
    alloc: Global,
    conditions: Conditions,
    bytes: &[u8],
    mut mover: CountingMover,
) -> Result<Text, Memory> {
    let way = way_of(conditions);
    let mut text = served(alloc, conditions, bytes, way, &mut mover)?;
    mover.serve_other(0);
    text.extend(b" | ")?;
    let Some(other) = &mut mover.other else {
        return Ok(text);
    };
    let Some(end) = other.end else {
        return Ok(text);
    };
    let faults = (other.input.faults(), other.output.faults());
    let left = count_left(&mut other.input, MOST);
    let sent = other.output.handed_on().len();
    let bytes = other.output.as_slice();
    let beside = told(alloc, Conditions::read(b""), end, faults, left, sent, bytes)?;
    text.extend(beside.as_slice())?;
    Ok(text)
}
