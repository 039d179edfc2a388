//! Cases for documents that are read and written.

use crate::shared::{number_of, repeated};
use crate::table::Answers;
use itoa::Buffer;
use os_io::{Memory, Text};
use std::alloc::Global;

/// What reads and writes documents of one kind.
pub trait Documents {
    /// What a document says.
    type Said: Drop;

    /// Why one is refused.
    type Fault: Drop;

    /// What a document says, or why it is refused.
    fn decode(&self, alloc: Global, document: &[u8]) -> Result<Self::Said, Self::Fault>;

    /// The text of a refusal.
    fn refuse(&self, alloc: Global, fault: &Self::Fault) -> Result<Text, Memory>;

    /// What was read, in words.
    fn tell(&self, alloc: Global, said: &Self::Said) -> Result<Text, Memory>;

    /// The text that it is written as, or why there is none.
    fn encode(&self, alloc: Global, said: &Self::Said) -> Result<Text, Memory>;
}

/// Answers cases for documents of one kind: given `decode`, `encode` or `length` and a document, or anything, a number of
/// spaces and a document that they stand behind.
#[derive(Drop)]
pub struct DocumentCases<D>(pub D);

impl<D: Documents> DocumentCases<D> {
    /// What is read of a document, or the text of its refusal.
    fn told(&self, alloc: Global, document: &[u8]) -> Result<Text, Memory> {
        match self.0.decode(alloc, document) {
            Ok(said) => self.0.tell(alloc, &said),
            Err(fault) => self.0.refuse(alloc, &fault),
        }
    }

    /// The text that what is read of a document is written as, or why there is none.
    fn written(&self, alloc: Global, document: &[u8]) -> Result<Text, Memory> {
        match self.0.decode(alloc, document) {
            Ok(said) => self.0.encode(alloc, &said),
            Err(fault) => self.0.refuse(alloc, &fault),
        }
    }

    /// The same, if what is read of that text is written as itself.
    fn written_twice(&self, alloc: Global, document: &[u8]) -> Result<Text, Memory> {
        let text = self.written(alloc, document)?;
        if !text.as_slice().starts_with(b"<") {
            return Ok(text);
        }
        let again = self.written(alloc, text.as_slice())?;
        if again.as_slice() == text.as_slice() {
            Ok(text)
        } else {
            Text::from_slice(alloc, b"another text")
        }
    }

    /// How many bytes the text has that a document is written as.
    fn length_of(&self, alloc: Global, document: &[u8]) -> Result<Text, Memory> {
        let text = self.written(alloc, document)?;
        if !text.as_slice().starts_with(b"<") {
            return Ok(text);
        }
        Text::from_slice(alloc, Buffer::new().format(text.len()).as_bytes())
    }
}

impl<D: Documents> Answers for DocumentCases<D> {
    fn answer(&mut self, alloc: Global, given: &[Vec<u8>]) -> Result<Text, Memory> {
        match given {
            [asked, document] => match asked.as_slice() {
                b"decode" => self.told(alloc, document.as_slice()),
                b"encode" => self.written_twice(alloc, document.as_slice()),
                b"length" => self.length_of(alloc, document.as_slice()),
                _ => Text::from_slice(alloc, b"not asked"),
            },
            [_, spaces, document] => {
                let spaces = number_of(spaces.as_slice());
                let document = repeated(alloc, document.as_slice(), b" ", spaces, b"")?;
                self.told(alloc, document.as_slice())
            }
            _ => Text::from_slice(alloc, b"two fields or three"),
        }
    }
}
