//! Why a journal wasn't written again.

use crate::scanning::OpenFault;
use thiserror::Error;

/// Why a journal wasn't written again.
#[derive(Clone, Copy, PartialEq, Eq, Debug, Drop, Error)]
pub enum CompactFault {
    /// The old one wasn't opened or read, or there was no memory.
    #[error("the old journal: {0}")]
    Old(OpenFault),
    /// The new one wasn't written.
    #[error("the new journal was not written")]
    NewFault,
    /// The new one has more than one byte.
    #[error("the new journal is taken")]
    Taken,
    /// A record is too long for a journal, or the new one would be.
    #[error("a record is too long, or the new journal would be")]
    Long,
}
