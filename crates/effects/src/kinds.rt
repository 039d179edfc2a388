//! What a move of the table changes.

/// A document, which is missing for want of memory.
#[derive(Clone, Copy, Debug)]
pub enum Document<'a> {
    Missing,
    Kept { text: &'a [u8] },
}

/// What a move of the table changes, or with which number its numbers begin. A job is named by its number; texts are
/// borrowed.
#[derive(Clone, Copy, Debug)]
pub enum Effect<'a> {
    /// A new job, with its number alone.
    Issue,
    /// Its texts.
    Send {
        number: u64,
        osil: &'a [u8],
        osol: &'a [u8],
    },
    /// A new job with its texts.
    Enter {
        osil: &'a [u8],
        osol: &'a [u8],
    },
    /// Its document.
    Finish {
        number: u64,
        document: Document<'a>,
    },
    /// It was killed before it ran.
    Killed {
        number: u64,
    },
    /// It was asked to stop while it ran.
    Marked {
        number: u64,
    },
    /// Its record was given up.
    GivenUp {
        number: u64,
    },
    /// No number was given yet, and the first will be this one.
    Begin {
        first: u64,
    },
}
