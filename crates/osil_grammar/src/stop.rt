//! Why a mark isn't taken.

use crate::fault::Refusal;

/// How a mark is refused. `at` is the ordinal of the element.
#[derive(Drop)]
pub(crate) struct Refused {
    pub(crate) refusal: Refusal,
    pub(crate) at: u64,
}

/// Why a mark isn't taken: it is refused so, or there was no memory.
pub(crate) type Stop = tag_tests::Stop<Refused>;
