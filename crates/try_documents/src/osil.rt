//! OSiL documents.

use crate::shown::instance_text;
use cases::Documents;
use instance::Instance;
use os_io::{Memory, Text};
use osil_grammar::{Decoder, EncodeFault, OsilFault, decode, encode, refusal_text};
use std::alloc::{AllocError, Global};

/// The most bytes of a document that is also read byte by byte.
const MOST: usize = 100_000;

/// The instance of a document that comes byte by byte.
fn byte_by_byte(alloc: Global, document: &[u8]) -> Result<Instance, OsilFault> {
    let mut decoder = Decoder::new(alloc);
    for at in 0..document.len() {
        decoder.feed(&document[at..at + 1])?;
    }
    decoder.finish()
}

/// What is read, or the text of the refusal.
fn told(alloc: Global, read: &Result<Instance, OsilFault>) -> Result<Text, Memory> {
    match read {
        Ok(instance) => instance_text(alloc, instance),
        Err(fault) => refusal_text(alloc, fault),
    }
}

/// Whether a document is read alike byte by byte.
fn is_read_alike(alloc: Global, document: &[u8], read: &Result<Instance, OsilFault>) -> bool {
    if document.len() > MOST {
        return true;
    }
    match (
        told(alloc, read),
        told(alloc, &byte_by_byte(alloc, document)),
    ) {
        (Ok(whole), Ok(pieces)) => whole.as_slice() == pieces.as_slice(),
        _ => false,
    }
}

/// OSiL documents.
#[derive(Drop)]
pub(crate) struct Osil;

impl Documents for Osil {
    type Said = Instance;

    /// The text of the refusal, unless there was no memory for it. It stands here since an `OsilFault` holds a `&'static`, with which
    /// a call by way of these traits isn't proved.
    type Fault = Result<Text, Memory>;

    fn decode(&self, alloc: Global, document: &[u8]) -> Result<Instance, Result<Text, Memory>> {
        let read = decode(alloc, document);
        if !is_read_alike(alloc, document, &read) {
            return Err(Text::from_slice(alloc, b"otherwise in pieces"));
        }
        match read {
            Ok(instance) => Ok(instance),
            Err(fault) => Err(refusal_text(alloc, &fault)),
        }
    }

    fn refuse(&self, alloc: Global, fault: &Result<Text, Memory>) -> Result<Text, Memory> {
        match fault {
            Ok(text) => Text::from_slice(alloc, text.as_slice()),
            Err(AllocError) => Err(AllocError),
        }
    }

    fn tell(&self, alloc: Global, instance: &Instance) -> Result<Text, Memory> {
        instance_text(alloc, instance)
    }

    fn encode(&self, alloc: Global, instance: &Instance) -> Result<Text, Memory> {
        match encode(alloc, instance) {
            Ok(text) => Ok(text),
            Err(EncodeFault::NotDecimal) => Text::from_slice(alloc, b"NotDecimal"),
            Err(EncodeFault::Long) => Text::from_slice(alloc, b"Long"),
            Err(EncodeFault::Memory) => Err(AllocError),
        }
    }
}
