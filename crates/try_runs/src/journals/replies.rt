//! The requests of a session, and what its replies return.

use crate::words::behind;
use os_io::{Memory, Text};
use std::alloc::Global;

/// The request of a call with this in its body.
fn put_request(requests: &mut Text, alloc: Global, body: &[u8]) -> Result<(), Memory> {
    let length = body.len().saturating_add(34);
    requests.extend(b"POST /os HTTP/1.1\r\nHost: a\r\nContent-Length: ")?;
    requests.extend(format!(in alloc; "{length}")?.as_str().as_bytes())?;
    requests.extend(b"\r\n\r\n<Envelope><Body>")?;
    requests.extend(body)?;
    requests.extend(b"</Body></Envelope>")
}

/// The requests of calls, given what is in their bodies with `|` between; none where there are no bytes.
pub(crate) fn requests_of(alloc: Global, bodies: &[u8]) -> Result<Text, Memory> {
    let mut requests = Text::new(alloc);
    if !bodies.is_empty() {
        for body in bodies.split(|b| *b == b'|') {
            put_request(&mut requests, alloc, body)?;
        }
    }
    Ok(requests)
}

/// What stands between two texts and what stands from the second one on, where both stand there.
fn between<'b>(bytes: &'b [u8], front: &[u8], end: &[u8]) -> Option<(&'b [u8], &'b [u8])> {
    for from in 0..bytes.len() {
        if let Some(rest) = behind(&bytes[from..], front) {
            for to in 0..rest.len() {
                if rest[to..].starts_with(end) {
                    return Some((&rest[..to], &rest[to..]));
                }
            }
        }
    }
    None
}

/// What stands in the elements of a document that is returned, with a space between each two.
fn put_content(text: &mut Text, returned: &[u8]) -> Result<(), Memory> {
    let mut is_first = true;
    for piece in returned.split(|b| *b == b'&') {
        let content = match behind(piece, b"lt;") {
            Some(_) => b"".as_slice(),
            None => behind(piece, b"gt;").unwrap_or(piece),
        };
        if !content.is_empty() {
            if !is_first {
                text.push(b' ')?;
            }
            is_first = false;
            text.extend(content)?;
        }
    }
    Ok(())
}

/// What the replies return, and the texts of faults, with a comma between each two.
pub(crate) fn put_returned(text: &mut Text, output: &[u8]) -> Result<(), Memory> {
    let mut rest = output;
    for at in 0..output.len() {
        let Some((body, more)) = between(rest, b"<soap:Body>", b"</soap:Body>") else {
            break;
        };
        if at > 0 {
            text.push(b',')?;
        }
        text.push(b' ')?;
        if let Some((returned, _)) = between(body, b"Return>", b"</") {
            put_content(text, returned)?;
        } else if let Some((fault, _)) = between(body, b"<faultstring>", b"</") {
            text.extend(fault)?;
        } else {
            text.push(b'?')?;
        }
        rest = more;
    }
    Ok(())
}
