//! The calls of the outside, and what a run is given.

/// A kind of call of the outside.
#[derive(Clone, Copy, PartialEq, Eq)]
pub(crate) enum Kind {
    /// A read of a file.
    File,
    /// A read of the input.
    Read,
    /// A write or a flush of the output.
    Write,
    /// A call of the listener.
    Net,
    /// A read, a write or a flush of a link.
    Link,
}

impl Kind {
    /// The kind with this name.
    pub(crate) fn named(name: &[u8]) -> Option<Kind> {
        match name {
            b"file" => Some(Kind::File),
            b"read" => Some(Kind::Read),
            b"write" => Some(Kind::Write),
            b"net" => Some(Kind::Net),
            b"link" => Some(Kind::Link),
            _ => None,
        }
    }
}

/// The one call that fails, counted from 1 among those of its kind; none where it is 0.
#[derive(Clone, Copy)]
pub(crate) struct Fails {
    pub kind: Kind,
    pub at: u64,
}

impl Fails {
    /// Its number where it is of this kind, and else 0.
    pub(crate) fn of(self, kind: Kind) -> u64 {
        if self.kind == kind { self.at } else { 0 }
    }
}

/// What a run is given: words with `|` between, an input, and the bytes that links give, with `|` between; none where there are no
/// bytes.
#[derive(Clone, Copy)]
pub(crate) struct Given<'g> {
    pub words: &'g [u8],
    pub input: &'g [u8],
    pub links: &'g [u8],
}
