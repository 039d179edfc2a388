//! The level that a search is at.
use certificate::{Certs, Rounds};

/// What a search has at hand beside its walk: the goal that is asked, from 0; what showed those before it; the rounding cuts that
/// were derived; and how many nodes the levels before have.
#[derive(Drop)]
pub struct Level {
    pub goal: u32,
    pub certs: Certs,
    pub rounds: Rounds,
    pub before: usize,
}
