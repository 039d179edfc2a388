//! Lines that say what was seen.

use os_io::{Failed, FileFault, Memory, Source};
use std::alloc::{AllocError, Global};
use std::io;

/// Room for what one read gives.
const ROOM: usize = 16;

/// Why nothing was seen of a subject.
#[derive(Drop)]
pub(crate) enum Fault {
    /// A call of an end failed.
    Failed,
    /// A call of std failed.
    System,
    /// There was no memory.
    Memory,
}

impl Fault {
    fn name(&self) -> &'static str {
        match self {
            Fault::Failed => "a call failed",
            Fault::System => "the system failed",
            Fault::Memory => "no memory",
        }
    }
}

impl From<Failed> for Fault {
    fn from(_failed: Failed) -> Fault {
        Fault::Failed
    }
}

impl From<FileFault> for Fault {
    fn from(fault: FileFault) -> Fault {
        match fault {
            FileFault::Failed => Fault::Failed,
            FileFault::Memory => Fault::Memory,
        }
    }
}

impl From<io::Error> for Fault {
    fn from(_error: io::Error) -> Fault {
        Fault::System
    }
}

impl From<AllocError> for Fault {
    fn from(_lost: AllocError) -> Fault {
        Fault::Memory
    }
}

/// The lines so far.
#[derive(Drop)]
pub(crate) struct Lines {
    text: String,
}

impl Lines {
    pub(crate) fn new(alloc: Global) -> Lines {
        Lines {
            text: String::new(alloc),
        }
    }

    /// Adds a subject's line.
    pub(crate) fn tell(
        &mut self,
        subject: &str,
        seen: Result<String, Fault>,
    ) -> Result<(), Memory> {
        let seen = match &seen {
            Ok(seen) => seen.as_str(),
            Err(fault) => fault.name(),
        };
        self.text.push_str(subject)?;
        self.text.push_str(": ")?;
        self.text.push_str(seen)?;
        self.text.push_str("\n")
    }

    pub(crate) fn as_bytes(&self) -> &[u8] {
        self.text.as_bytes()
    }
}

/// Bytes as a text.
pub(crate) fn text_of(bytes: &[u8]) -> &str {
    str::from_utf8(bytes).unwrap_or("no text")
}

/// What one read gives.
pub(crate) fn read_of<S: Source>(alloc: Global, source: &mut S) -> Result<String, Memory> {
    let mut bytes = [0; ROOM];
    let given = match source.read(&mut bytes) {
        Ok(0) => "the end",
        Ok(n) => text_of(&bytes[..n]),
        Err(Failed) => "a fault",
    };
    given.to_string(alloc)
}

/// What came of an opening.
pub(crate) fn opened(is_opened: bool) -> &'static str {
    if is_opened { "opened" } else { "not opened" }
}
