//! How much is read.

/// A document has at most so many bytes, and so has the body of a request.
pub const MOST_BYTES: u64 = 4_194_304;

/// The body of a response has at most so many bytes: a document, each of whose bytes may be written as a reference of six.
pub const MOST_REPLY: u64 = 25_165_824;
