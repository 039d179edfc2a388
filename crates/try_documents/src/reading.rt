//! Documents read in pieces, and answers as texts.

use doc_tree::{Reader, Tree, TreeFault, read};
use os_io::{Memory, Text};
use std::alloc::Global;
use tree_writing::write;

/// What stands before each written element.
const DECLARATION: &[u8] = b"<?xml version=\"1.0\" encoding=\"UTF-8\"?>";

/// The answer to a document in two pieces. What refuses the first refuses the second and the end too.
pub(crate) fn in_two(
    alloc: Global,
    front: &[u8],
    back: &[u8],
    limit: u64,
) -> Result<Tree, TreeFault> {
    let mut reader = Reader::new(alloc, limit);
    if let Err(fault) = reader.feed(front) {
        if reader.feed(back) != Err(fault) {
            return Err(TreeFault::Memory);
        }
        return match reader.finish() {
            Err(again) if again == fault => Err(fault),
            _ => Err(TreeFault::Memory),
        };
    }
    let fed = reader.feed(back);
    let end = reader.finish();
    fed?;
    end
}

/// The answer to a document that comes byte by byte.
fn byte_by_byte(alloc: Global, text: &[u8], limit: u64) -> Result<Tree, TreeFault> {
    let mut reader = Reader::new(alloc, limit);
    for at in 0..text.len() {
        let _ = reader.feed(&text[at..at + 1]);
    }
    reader.finish()
}

/// The text of a tree, without the declaration.
fn tree_text(alloc: Global, tree: &Tree) -> Result<Text, Memory> {
    let written = write(alloc, tree)?;
    match written.as_slice().strip_prefix(DECLARATION) {
        Some(element) => Text::from_slice(alloc, element),
        None => Ok(written),
    }
}

/// What an answer says.
pub(crate) fn answer_text(alloc: Global, answer: Result<Tree, TreeFault>) -> Result<Text, Memory> {
    let text = match answer {
        Ok(tree) => return tree_text(alloc, &tree),
        Err(TreeFault::Malformed { at }) => format!(in alloc; "Malformed at {at}")?,
        Err(TreeFault::Doctype { at }) => format!(in alloc; "Doctype at {at}")?,
        Err(TreeFault::Deep { at }) => format!(in alloc; "Deep at {at}")?,
        Err(TreeFault::Encoding) => format!(in alloc; "Encoding")?,
        Err(TreeFault::Long) => format!(in alloc; "Long")?,
        Err(TreeFault::Memory) => format!(in alloc; "Memory")?,
    };
    Text::from_slice(alloc, text.as_str().as_bytes())
}

/// What a whole document says.
pub(crate) fn told_whole(alloc: Global, text: &[u8], limit: u64) -> Result<Text, Memory> {
    answer_text(alloc, read(alloc, text, limit))
}

/// What a document says, whole and in any pieces; where some say another thing, that.
pub(crate) fn told_in_pieces(alloc: Global, text: &[u8], limit: u64) -> Result<Text, Memory> {
    let whole = told_whole(alloc, text, limit)?;
    let slow = answer_text(alloc, byte_by_byte(alloc, text, limit))?;
    if slow.as_slice() != whole.as_slice() {
        return Ok(slow);
    }
    for at in 0..=text.len() {
        let two = answer_text(alloc, in_two(alloc, &text[..at], &text[at..], limit))?;
        if two.as_slice() != whole.as_slice() {
            return Ok(two);
        }
    }
    Ok(whole)
}
