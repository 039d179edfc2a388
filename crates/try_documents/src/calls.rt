//! Calls in SOAP envelopes, and what answers them (SOAP 1.1; `docs/rules/calls.md`).

use cases::{Answers, number_of, repeated};
use os_io::{Memory, Text};
use soap_calls::{
    Answer, NotReply, Part, SoapCall, SoapFault, read_call, read_reply, write_call, write_fault,
    write_reply,
};
use std::alloc::{AllocError, Global};

/// Given what is asked, and texts.
#[derive(Drop)]
pub(crate) struct Soap;

/// Appends a word and a text in brackets.
fn put(text: &mut Text, word: &[u8], said: &[u8]) -> Result<(), Memory> {
    text.extend(word)?;
    text.extend(b" [")?;
    text.extend(said)?;
    text.extend(b"]")
}

/// A call with its parts.
fn call_text(alloc: Global, call: &SoapCall) -> Result<Text, Memory> {
    let mut text = Text::from_slice(alloc, call.kind.name())?;
    if call.kind.has(Part::Osil) {
        put(&mut text, b" osil", call.parts.osil.as_slice())?;
    }
    if call.kind.has(Part::Ospl) {
        put(&mut text, b" ospl", call.parts.ospl.as_slice())?;
    }
    put(&mut text, b" osol", call.parts.osol.as_slice())?;
    Ok(text)
}

/// A refusal, with the name or the part that it is about.
fn fault_text(alloc: Global, fault: &SoapFault) -> Result<Text, Memory> {
    match fault {
        SoapFault::Envelope => Text::from_slice(alloc, b"no envelope"),
        SoapFault::Call { name } => {
            let mut text = Text::new(alloc);
            put(&mut text, b"call", name.as_slice())?;
            Ok(text)
        }
        SoapFault::Part { part } => {
            let mut text = Text::new(alloc);
            put(&mut text, b"part", part.name())?;
            Ok(text)
        }
        SoapFault::Memory => Err(AllocError),
    }
}

/// What is called, or the refusal.
fn called(alloc: Global, bytes: &[u8]) -> Result<Text, Memory> {
    match read_call(alloc, bytes) {
        Ok(call) => call_text(alloc, &call),
        Err(fault) => fault_text(alloc, &fault),
    }
}

/// The envelope that a call is written as.
fn written(alloc: Global, bytes: &[u8]) -> Result<Text, Memory> {
    match read_call(alloc, bytes) {
        Ok(call) => write_call(alloc, &call),
        Err(fault) => fault_text(alloc, &fault),
    }
}

/// What is answered to the call of this name.
fn answered(alloc: Global, name: &[u8], bytes: &[u8]) -> Result<Text, Memory> {
    let mut text = Text::new(alloc);
    match read_reply(alloc, name, bytes) {
        Ok(Answer::Return(value)) => put(&mut text, b"return", value.as_slice())?,
        Ok(Answer::Fault { code, text: said }) => {
            put(&mut text, b"fault", code.as_slice())?;
            put(&mut text, b"", said.as_slice())?;
        }
        Err(NotReply::Form) => text.extend(b"no reply")?,
        Err(NotReply::Memory) => return Err(AllocError),
    }
    Ok(text)
}

/// A text with so many spaces behind it.
fn padded(alloc: Global, spaces: &[u8], bytes: &[u8]) -> Result<Text, Memory> {
    repeated(alloc, bytes, b" ", number_of(spaces), b"")
}

impl Answers for Soap {
    fn answer(&mut self, alloc: Global, given: &[Vec<u8>]) -> Result<Text, Memory> {
        match given {
            [asked, bytes] => match asked.as_slice() {
                b"call" => called(alloc, bytes.as_slice()),
                b"write" => written(alloc, bytes.as_slice()),
                _ => Text::from_slice(alloc, b"not asked"),
            },
            [asked, first, second] => match asked.as_slice() {
                b"answer" => answered(alloc, first.as_slice(), second.as_slice()),
                b"reply" => write_reply(alloc, first.as_slice(), second.as_slice()),
                b"fault" => write_fault(alloc, first.as_slice(), second.as_slice()),
                b"long" => called(
                    alloc,
                    padded(alloc, first.as_slice(), second.as_slice())?.as_slice(),
                ),
                b"long answer" => answered(
                    alloc,
                    b"kill",
                    padded(alloc, first.as_slice(), second.as_slice())?.as_slice(),
                ),
                _ => Text::from_slice(alloc, b"not asked"),
            },
            _ => Text::from_slice(alloc, b"two fields or three"),
        }
    }
}
