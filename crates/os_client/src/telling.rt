//! What is written of what a call answered.

ghost use Rattle.std.specs.Prelude.{◌≡◌, ℕ, ◌+◌, ◌/◌, ◌%◌, ◌++◌, OnErr, OnOk, IfOk};
ghost use Rattle.os_io.specs.Streams.{SameInput};
ghost use Rattle.os_client.specs.Outputs as written;
ghost use Rattle.os_client.specs.Telling.{TellsLine, TellsOf};

use crate::fault::CallFault;
use command_answers::status::{DONE, NEGATIVE, NO_MEMORY, NO_REPLY, READ_FAULT, WRITE_FAULT};
use command_answers::{StatusText, send_answer};
use os_io::{Memory, Sink, Text};
use six_calls::CallKind;
use std::alloc::Global;

/// The status of a run that writes the text that a call returns.
fn returned_status(kind: CallKind, text: &[u8]) -> u8
    ensures { result ≡ written.returned_status kind text.now }
{
    if kind.name() == b"send".as_slice() && text == b"false".as_slice() {
        NEGATIVE
    } else {
        DONE
    }
}

/// The line that tells a fault.
fn fault_line(alloc: Global, code: &[u8], text: &[u8]) -> Result<Text, Memory>
    ensures { IfOk result (λ line. line ≡ written.fault_line code.now text.now) }
{
    let mut line = Text::from_slice(alloc, b"fault ")?;
    line.extend(code)?;
    line.extend(b" ")?;
    line.extend(text)?;
    line.extend(b"\n")?;
    Ok(line)
}

/// The last digit of a number.
fn digit(number: u16) -> u8
    ensures { result ≡ 48 + number % 10 }
{
    b'0' + (number % 10) as u8
}

/// The line that tells a status of HTTP.
fn http_line(alloc: Global, status: u16) -> Result<Text, Memory>
    ensures { IfOk result (λ line. line ≡ written.http_line status) }
{
    let digits = [digit(status / 100), digit(status / 10), digit(status)];
    let mut line = Text::from_slice(alloc, b"http ")?;
    line.extend(&digits)?;
    line.extend(b"\n")?;
    Ok(line)
}

/// Writes a line that says no, if there was memory for it, and says how the run ends.
fn send_line<O: Sink>(output: &mut O, line: Result<Text, Memory>) -> u8
    ensures told { TellsLine line result (O.tells output.old) (O.tells output.new) }
    ensures input { SameInput (O.tells output.old) (O.tells output.new) }
{
    match line {
        Ok(text) => {
            let answer = StatusText {
                status: NEGATIVE,
                text,
            };
            send_answer(output, &answer)
        }
        Err(_) => NO_MEMORY,
    }
}

/// Writes what is due to what a call answered, and says how the run ends.
pub(crate) fn tell<O: Sink>(
    alloc: Global,
    output: &mut O,
    kind: CallKind,
    outcome: Result<Text, CallFault>,
) -> u8
    ensures told { TellsOf kind outcome result (O.tells output.old) (O.tells output.new) }
    ensures input { SameInput (O.tells output.old) (O.tells output.new) }
{
    match outcome {
        Ok(text) => {
            let status = returned_status(kind, text.as_slice());
            send_answer(output, &StatusText { status, text })
        }
        Err(CallFault::Refused { code, text }) => {
            let line = fault_line(alloc, code.as_slice(), text.as_slice());
            send_line(output, line)
        }
        Err(CallFault::Http { status }) => send_line(output, http_line(alloc, status)),
        Err(CallFault::NoReply { bytes }) => {
            let answer = StatusText {
                status: NO_REPLY,
                text: bytes,
            };
            send_answer(output, &answer)
        }
        Err(CallFault::ReadFault) => READ_FAULT,
        Err(CallFault::WriteFault) => WRITE_FAULT,
        Err(CallFault::Memory) => NO_MEMORY,
    }
}
