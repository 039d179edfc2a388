//! Single messages, told as texts.

use http_link::{Incoming, LinkFault, Refusal, read_request_into, write_answer};
use memory_ends::{MemSink, MemSource};
use os_io::{Failed, MemBody, Memory, Text};
use std::alloc::Global;

/// The room for a response.
const ROOM: usize = 1000;

fn name_of(refusal: Refusal) -> &'static str {
    match refusal {
        Refusal::BadRequest => "BadRequest",
        Refusal::MethodNotAllowed => "MethodNotAllowed",
        Refusal::LengthRequired => "LengthRequired",
        Refusal::ContentTooLarge => "ContentTooLarge",
        Refusal::HeadTooLarge => "HeadTooLarge",
        Refusal::NotImplemented => "NotImplemented",
        Refusal::ServiceUnavailable => "ServiceUnavailable",
    }
}

/// What comes on a source of these bytes, of which one read gives a piece.
fn told(alloc: Global, bytes: &[u8], piece: usize) -> Result<Text, Memory> {
    let mut source = MemSource::new(alloc, bytes, piece, &[])?;
    let mut body = MemBody::new(alloc);
    match read_request_into(alloc, &mut source, &mut body) {
        Ok(Incoming::Whole(head)) => {
            let len = body.finish()?.len();
            let end = if head.close { " close" } else { "" };
            let text = format!(in alloc; "body {len}{end}")?;
            Text::from_slice(alloc, text.as_str().as_bytes())
        }
        Ok(Incoming::Refused(refusal)) => {
            let mut text = Text::from_slice(alloc, b"refused ")?;
            text.extend(name_of(refusal).as_bytes())?;
            Ok(text)
        }
        Ok(Incoming::Cut) => Text::from_slice(alloc, b"cut"),
        Ok(Incoming::Ended) => Text::from_slice(alloc, b"ended"),
        Err(LinkFault::ReadFault) => Text::from_slice(alloc, b"ReadFault"),
        Err(LinkFault::Memory) => Text::from_slice(alloc, b"Memory"),
    }
}

/// What comes on a source of these bytes, whole and in these pieces; where some say another thing, that.
pub(crate) fn told_in_pieces(
    alloc: Global,
    bytes: &[u8],
    pieces: &[usize],
) -> Result<Text, Memory> {
    let whole = told(alloc, bytes, bytes.len())?;
    for piece in pieces {
        let slow = told(alloc, bytes, *piece)?;
        if slow.as_slice() != whole.as_slice() {
            return Ok(slow);
        }
    }
    Ok(whole)
}

/// How the answer with this body is written where that write fails, and what was written.
pub(crate) fn told_of_response(alloc: Global, body: &[u8], write: u64) -> Result<Text, Memory> {
    let mut sink = MemSink::new(alloc, ROOM, &[write])?;
    let mut text = match write_answer(&mut sink, body) {
        Ok(()) => Text::from_slice(alloc, b"Ok: ")?,
        Err(Failed) => Text::from_slice(alloc, b"Failed: ")?,
    };
    text.extend(sink.as_slice())?;
    Ok(text)
}
