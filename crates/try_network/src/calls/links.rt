//! Calls over links in memory, told as texts.

use super::replies::{put, put_number};
use cases::count_left;
use memory_ends::MemLink;
use open_links::OpenLink;
use os_client::{
    CallFault, call_get_job_id, call_kill, call_knock, call_retrieve, call_send, call_solve,
};
use os_io::{Memory, Text};
use std::alloc::{AllocError, Global};

/// The room for what is written.
const ROOM: usize = 2000;

/// Makes the call of this name with these parts; a call of one part has the second.
fn make(
    alloc: Global,
    link: &mut OpenLink<MemLink>,
    name: &[u8],
    first: &[u8],
    second: &[u8],
) -> Result<Text, CallFault> {
    match name {
        b"solve" => call_solve(alloc, link, first, second),
        b"getJobID" => call_get_job_id(alloc, link, second),
        b"send" => {
            let yes = call_send(alloc, link, first, second)?;
            let said: &[u8] = if yes { b"yes" } else { b"no" };
            Ok(Text::from_slice(alloc, said)?)
        }
        b"retrieve" => call_retrieve(alloc, link, second),
        b"knock" => call_knock(alloc, link, first, second),
        b"kill" => call_kill(alloc, link, second),
        _ => Ok(Text::from_slice(alloc, b"no call")?),
    }
}

/// The same over this link, which is open, and the link then.
fn made(
    alloc: Global,
    link: MemLink,
    name: &[u8],
    first: &[u8],
    second: &[u8],
) -> (Result<Text, CallFault>, MemLink) {
    let mut link = OpenLink::new(link);
    let outcome = make(alloc, &mut link, name, first, second);
    (outcome, link.into_link())
}

/// What a call answers.
fn outcome_text(alloc: Global, outcome: Result<Text, CallFault>) -> Result<Text, Memory> {
    let mut text = Text::new(alloc);
    match outcome {
        Ok(said) => {
            text.extend(b"returns ")?;
            put(&mut text, said.as_slice())?;
        }
        Err(CallFault::ReadFault) => text.extend(b"ReadFault")?,
        Err(CallFault::WriteFault) => text.extend(b"WriteFault")?,
        Err(CallFault::Memory) => return Err(AllocError),
        Err(CallFault::Refused { code, text: said }) => {
            text.extend(b"fault ")?;
            put(&mut text, code.as_slice())?;
            put(&mut text, said.as_slice())?;
        }
        Err(CallFault::Http { status }) => {
            text.extend(b"http ")?;
            put_number(alloc, &mut text, u64::from(status))?;
        }
        Err(CallFault::NoReply { bytes }) => {
            text.extend(b"no reply ")?;
            put(&mut text, bytes.as_slice())?;
        }
    }
    Ok(text)
}

/// What the call of this name answers over a link that gives these bytes in pieces, and how many bytes are left.
fn told(alloc: Global, name: &[u8], bytes: &[u8], piece: usize) -> Result<Text, Memory> {
    let link = MemLink::new(alloc, bytes, piece, ROOM, &[])?;
    let (outcome, mut link) = made(alloc, link, name, b"", b"");
    let mut text = outcome_text(alloc, outcome)?;
    text.extend(b", left ")?;
    put_number(alloc, &mut text, count_left(&mut link, bytes.len()))?;
    Ok(text)
}

/// The same, whole and byte by byte; where that says another thing, that.
pub(crate) fn called_text(alloc: Global, name: &[u8], bytes: &[u8]) -> Result<Text, Memory> {
    let whole = told(alloc, name, bytes, bytes.len())?;
    let slow = told(alloc, name, bytes, 1)?;
    if slow.as_slice() != whole.as_slice() {
        return Ok(slow);
    }
    Ok(whole)
}

/// The request that the call of this name with these parts hands on.
pub(crate) fn asked_text(
    alloc: Global,
    name: &[u8],
    first: &[u8],
    second: &[u8],
) -> Result<Text, Memory> {
    let link = MemLink::new(alloc, b"", 1, ROOM, &[])?;
    let (outcome, link) = made(alloc, link, name, first, second);
    match outcome {
        Err(CallFault::NoReply { .. }) => Text::from_slice(alloc, link.handed_on()),
        Err(CallFault::Memory) => Err(AllocError),
        _ => Text::from_slice(alloc, b"answered"),
    }
}

/// What the call of this name answers over a link that gives these bytes, each at a read, has so much room, and of whose
/// calls that one fails; and its faults, how many bytes were written and how many are left.
pub(crate) fn failing_text(
    alloc: Global,
    call: u64,
    room: u64,
    name: &[u8],
    bytes: &[u8],
) -> Result<Text, Memory> {
    let room = usize::try_from(room).unwrap_or(0);
    let link = MemLink::new(alloc, bytes, 1, room, &[call])?;
    let (outcome, mut link) = made(alloc, link, name, b"", b"");
    let mut text = outcome_text(alloc, outcome)?;
    text.extend(b", faults ")?;
    put_number(alloc, &mut text, link.read_faults())?;
    text.extend(b" ")?;
    put_number(alloc, &mut text, link.write_faults())?;
    text.extend(b", written ")?;
    put_number(alloc, &mut text, link.as_slice().len() as u64)?;
    text.extend(b", left ")?;
    put_number(alloc, &mut text, count_left(&mut link, bytes.len()))?;
    Ok(text)
}
