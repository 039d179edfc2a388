//! Answers that are written.

ghost use Rattle.os_io.specs.Streams.{SameInput};
ghost use Rattle.command_answers.specs.Outputs.{IsTold};

use crate::status::WRITE_FAULT;
use os_io::{Failed, Sink, Text, send_all};

/// A text that is to be written, and the status of the run that writes it.
#[derive(Drop)]
pub struct StatusText {
    pub status: u8,
    pub text: Text,
}

/// Writes an answer's text and hands it on, and says with which status the run ends: the answer's, or 4 where a write or the
/// flush failed. Takes no memory.
pub fn send_answer<O: Sink>(output: &mut O, answer: &StatusText) -> u8
    ensures told { IsTold answer.now.status answer.now.text result (O.tells output.old) (O.tells output.new) }
    ensures input { SameInput (O.tells output.old) (O.tells output.new) }
{
    match send_all(output, answer.text.as_slice()) {
        Ok(()) => answer.status,
        Err(Failed) => WRITE_FAULT,
    }
}
