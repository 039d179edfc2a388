//! How a server is set up.

use server_threads::ServeLimits;

/// How a server is set up.
#[derive(Clone, Copy, PartialEq, Eq, Drop)]
pub struct Setup {
    /// For how many seconds a read or a write of a link waits for its peer at most; one that would wait longer fails.
    pub patience: u16,
    /// The number that the table of jobs gives first, from 1 to 2^62.
    pub first: u64,
    /// How much is served.
    pub limits: ServeLimits,
}
