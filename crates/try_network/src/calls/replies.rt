//! Replies, told as texts.

use http_link::{Came, LinkFault, read_response};
use memory_ends::MemSource;
use os_io::{Memory, Text};
use std::alloc::{AllocError, Global};

/// Appends a text in brackets.
pub(crate) fn put(text: &mut Text, said: &[u8]) -> Result<(), Memory> {
    text.extend(b"[")?;
    text.extend(said)?;
    text.extend(b"]")
}

/// Appends a number.
pub(crate) fn put_number(alloc: Global, text: &mut Text, number: u64) -> Result<(), Memory> {
    let digits = format!(in alloc; "{number}")?;
    text.extend(digits.as_str().as_bytes())
}

/// Which reply is read of these bytes, of which one read gives a piece, and of how many of them.
fn told(alloc: Global, bytes: &[u8], piece: usize) -> Result<Text, Memory> {
    let mut source = MemSource::new(alloc, bytes, piece, &[])?;
    let Came { bytes: read, reply } = match read_response(alloc, &mut source) {
        Ok(came) => came,
        Err(LinkFault::ReadFault) => return Text::from_slice(alloc, b"ReadFault"),
        Err(LinkFault::Memory) => return Err(AllocError),
    };
    let mut text = Text::new(alloc);
    match reply {
        Some(reply) => {
            put_number(alloc, &mut text, u64::from(reply.status))?;
            text.extend(b" ")?;
            if reply.body.len() < 100 {
                put(&mut text, reply.body.as_slice())?;
            } else {
                put_number(alloc, &mut text, reply.body.len() as u64)?;
            }
        }
        None => text.extend(b"none")?,
    }
    text.extend(b" of ")?;
    put_number(alloc, &mut text, read.len() as u64)?;
    Ok(text)
}

/// Which reply is read of these bytes, in a few pieces; where some say another thing, that.
pub(crate) fn reply_text(alloc: Global, bytes: &[u8]) -> Result<Text, Memory> {
    let whole = told(alloc, bytes, bytes.len())?;
    for piece in [100, 3000] {
        let slow = told(alloc, bytes, piece)?;
        if slow.as_slice() != whole.as_slice() {
            return Ok(slow);
        }
    }
    Ok(whole)
}
