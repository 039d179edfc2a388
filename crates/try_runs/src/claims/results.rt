//! Result documents, written from what a case says.

use os_io::{Memory, Text};
use std::alloc::Global;

/// The beginning of a document whose solution has this status.
fn put_front(text: &mut Text, status: &[u8]) -> Result<(), Memory> {
    text.extend(
        b"<osrl><general><generalStatus type=\"normal\"/></general><job><status>finished</status></job><optimization><solution><status type=\"",
    )?;
    text.extend(status)?;
    text.extend(b"\"/><otherSolutionResults>")
}

fn put_end(text: &mut Text) -> Result<(), Memory> {
    text.extend(b"</otherSolutionResults></solution></optimization></osrl>")
}

fn put_item(text: &mut Text, item: &[u8]) -> Result<(), Memory> {
    text.extend(b"<item>")?;
    text.extend(item)?;
    text.extend(b"</item>")
}

/// A result: its name, and then its items.
fn put_result(text: &mut Text, named: &[u8]) -> Result<(), Memory> {
    let mut pieces = named.split(|b| *b == b'|');
    text.extend(b"<otherSolutionResult name=\"os_cert.")?;
    text.extend(pieces.next().unwrap_or(b""))?;
    text.extend(b"\">")?;
    for item in pieces {
        put_item(text, item)?;
    }
    text.extend(b"</otherSolutionResult>")
}

/// A document whose solution has this status and these results.
pub(crate) fn result_of(alloc: Global, status: &[u8], results: &[Vec<u8>]) -> Result<Text, Memory> {
    let mut text = Text::new(alloc);
    put_front(&mut text, status)?;
    for named in results {
        put_result(&mut text, named.as_slice())?;
    }
    put_end(&mut text)?;
    Ok(text)
}

/// A document that claims that there is no point, by a tree of so many equal nodes.
pub(crate) fn repeated_tree(alloc: Global, node: &[u8], times: u64) -> Result<Text, Memory> {
    let mut text = Text::new(alloc);
    put_front(&mut text, b"infeasible")?;
    text.extend(b"<otherSolutionResult name=\"os_cert.tree\">")?;
    for _ in 0..times {
        put_item(&mut text, node)?;
    }
    text.extend(b"</otherSolutionResult>")?;
    put_end(&mut text)?;
    Ok(text)
}
