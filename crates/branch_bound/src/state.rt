//! The state of a search.
use crate::level::Level;
use crate::relaxation::Relaxation;
use crate::walk::Walk;
use std::sync::ledger::Ledger;

/// A search under way: memory for its runs with what they are given, the level that it is at, and the walk through that level's cases.
pub struct SearchState<L: Ledger> {
    pub relaxation: Relaxation<L>,
    pub level: Level,
    pub walk: Walk,
}
