//! XML documents: the tree that each is read as, or why and where it is refused (XML 1.0, Namespaces in XML 1.0; `docs/rules/trees.md`).
//! Each is read whole, byte by byte, and in two pieces at every place. A tree is told by its written text, without the declaration.

use crate::reading::{answer_text, in_two, told_in_pieces, told_whole};
use cases::{Answers, number_of, repeated};
use doc_tree::TreeFault;
use os_io::{Memory, Text};
use std::alloc::Global;
use tree_writing::{escape, escape_value};

/// The most bytes of a document where no case says another number.
const MOST: u64 = 4_194_304;

/// Given a document, in any pieces.
#[derive(Drop)]
pub(crate) struct InPieces;

impl Answers for InPieces {
    fn answer(&mut self, alloc: Global, given: &[Vec<u8>]) -> Result<Text, Memory> {
        match given {
            [text] => told_in_pieces(alloc, text.as_slice(), MOST),
            _ => Text::from_slice(alloc, b"one field"),
        }
    }
}

/// Given the most bytes of a document, and the document, in any pieces.
#[derive(Drop)]
pub(crate) struct Limited;

impl Answers for Limited {
    fn answer(&mut self, alloc: Global, given: &[Vec<u8>]) -> Result<Text, Memory> {
        match given {
            [limit, text] => told_in_pieces(alloc, text.as_slice(), number_of(limit.as_slice())),
            _ => Text::from_slice(alloc, b"two fields"),
        }
    }
}

/// Given a document, of which each beginning ends too early.
#[derive(Drop)]
pub(crate) struct Beginnings;

impl Answers for Beginnings {
    fn answer(&mut self, alloc: Global, given: &[Vec<u8>]) -> Result<Text, Memory> {
        match given {
            [text] => {
                for k in 0..text.len() {
                    let at = k as u64;
                    let answer = in_two(alloc, &text.as_slice()[..k], b"", MOST);
                    if answer.as_ref().err() != Some(&TreeFault::Malformed { at }) {
                        return answer_text(alloc, answer);
                    }
                }
                told_whole(alloc, text.as_slice(), MOST)
            }
            _ => Text::from_slice(alloc, b"one field"),
        }
    }
}

/// Given what a document begins with, a text, how often it comes, and the second piece.
#[derive(Drop)]
pub(crate) struct Repeated;

impl Answers for Repeated {
    fn answer(&mut self, alloc: Global, given: &[Vec<u8>]) -> Result<Text, Memory> {
        match given {
            [front, part, times, back] => {
                let times = number_of(times.as_slice());
                let text = repeated(alloc, front.as_slice(), part.as_slice(), times, b"")?;
                let answer = in_two(alloc, text.as_slice(), back.as_slice(), MOST);
                answer_text(alloc, answer)
            }
            _ => Text::from_slice(alloc, b"four fields"),
        }
    }
}

/// Given `text` or `value`, and what is escaped as such.
#[derive(Drop)]
pub(crate) struct Escaped;

impl Answers for Escaped {
    fn answer(&mut self, alloc: Global, given: &[Vec<u8>]) -> Result<Text, Memory> {
        let mut text = Text::new(alloc);
        match given {
            [kind, bytes] => match kind.as_slice() {
                b"text" => escape(bytes.as_slice(), &mut text)?,
                _ => escape_value(bytes.as_slice(), &mut text)?,
            },
            _ => text.extend(b"two fields")?,
        }
        Ok(text)
    }
}
