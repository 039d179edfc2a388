//! Conversations: what is answered on a connection, also where another one is served between its moves of the same
//! table of jobs (`docs/rules/conversations.md`, `jobs.md` and `http.md`).

mod conditions;
mod mover;
mod served;

use cases::{Answers, number_of, repeated};
use conditions::Conditions;
use mover::CountingMover;
use os_io::{Memory, Text};
use served::{told_of_conversation, told_of_other};
use std::alloc::Global;

/// Given conditions, and the bytes that come, which may be what they begin with, a part, how often it comes, and their end.
#[derive(Drop)]
pub(crate) struct Conversations;

impl Answers for Conversations {
    fn answer(&mut self, alloc: Global, given: &[Vec<u8>]) -> Result<Text, Memory> {
        match given {
            [conditions, bytes] => {
                let conditions = Conditions::read(conditions.as_slice());
                told_of_conversation(alloc, conditions, bytes.as_slice())
            }
            [conditions, front, part, times, back] => {
                let conditions = Conditions::read(conditions.as_slice());
                let times = number_of(times.as_slice());
                let (front, part, back) = (front.as_slice(), part.as_slice(), back.as_slice());
                let bytes = repeated(alloc, front, part, times, back)?;
                told_of_conversation(alloc, conditions, bytes.as_slice())
            }
            _ => Text::from_slice(alloc, b"two fields or five"),
        }
    }
}

/// Given conditions and the bytes of a connection, before which of its moves another connection is served, or 0 for behind its
/// end, and the bytes of that one.
#[derive(Drop)]
pub(crate) struct Meetings;

impl Answers for Meetings {
    fn answer(&mut self, alloc: Global, given: &[Vec<u8>]) -> Result<Text, Memory> {
        match given {
            [conditions, bytes, number, others] => {
                let conditions = Conditions::read(conditions.as_slice());
                let number = number_of(number.as_slice());
                let mut mover = CountingMover::new(alloc, conditions.lacks);
                mover.meet(alloc, number, others.as_slice())?;
                told_of_other(alloc, conditions, bytes.as_slice(), mover)
            }
            _ => Text::from_slice(alloc, b"four fields"),
        }
    }
}
