//! Refusals of texts of numbers.

use thiserror::Error;

/// Why a text is no number here, or a number has no text.
#[derive(Clone, Copy, PartialEq, Eq, Debug, Drop, Error)]
pub enum DecimalFault {
    /// The text isn't of the grammar. `at` is the length of its longest prefix that begins some text of the grammar,
    /// counted without the white space at both ends.
    #[error("not a number at {at}")]
    NotNumber { at: usize },
    /// The number passes the width.
    #[error("the number is too wide")]
    Wide,
    /// No decimal that fits has this value.
    #[error("no decimal has this value")]
    NotDecimal,
    /// There was no memory.
    #[error("there was no memory")]
    Memory,
}
