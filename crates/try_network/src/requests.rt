//! Requests that are read and responses that are written: what comes on a source, and how an answer is written (RFC
//! 9112, and the order of the checks in `docs/rules/http.md`).

mod messages;

use cases::{Answers, number_of, repeated};
use messages::{told_in_pieces, told_of_response};
use os_io::{Memory, Text};
use std::alloc::Global;

/// Given the bytes of a source, in any pieces.
#[derive(Drop)]
pub(crate) struct Requests;

impl Answers for Requests {
    fn answer(&mut self, alloc: Global, given: &[Vec<u8>]) -> Result<Text, Memory> {
        match given {
            [bytes] => told_in_pieces(alloc, bytes.as_slice(), &[0, 1, 9, 100]),
            _ => Text::from_slice(alloc, b"one field"),
        }
    }
}

/// Given what a source begins with, a text, how often it comes, and the end.
#[derive(Drop)]
pub(crate) struct Heads;

impl Answers for Heads {
    fn answer(&mut self, alloc: Global, given: &[Vec<u8>]) -> Result<Text, Memory> {
        match given {
            [front, part, times, back] => {
                let times = number_of(times.as_slice());
                let (front, part, back) = (front.as_slice(), part.as_slice(), back.as_slice());
                let bytes = repeated(alloc, front, part, times, back)?;
                told_in_pieces(alloc, bytes.as_slice(), &[9, 100])
            }
            _ => Text::from_slice(alloc, b"four fields"),
        }
    }
}

/// Given a body, and which write of its answer fails.
#[derive(Drop)]
pub(crate) struct Responses;

impl Answers for Responses {
    fn answer(&mut self, alloc: Global, given: &[Vec<u8>]) -> Result<Text, Memory> {
        match given {
            [body, write] => {
                told_of_response(alloc, body.as_slice(), number_of(write.as_slice()))
            }
            _ => Text::from_slice(alloc, b"two fields"),
        }
    }
}
