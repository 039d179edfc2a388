//! The limits of a search.

use crate::gap::Gap;

/// How many nodes a search may have, how many turns in all its runs, and how many rounding cuts it may derive; whether its open cases
/// are closed where it is given up, so that it has a bound; and how near a best point has to be to the bound of the open cases for
/// the search to stop.
#[derive(Clone, Copy, PartialEq, Eq)]
pub struct Limits {
    pub nodes: u32,
    pub turns: u32,
    pub rounds: u32,
    pub bound: bool,
    pub gap: Option<Gap>,
}

impl Limits {
    /// Whether it matters what open cases carry.
    pub fn keeps(self) -> bool
        ensures { result ≡ keeps_carried self }
    {
        self.bound || self.gap.is_some()
    }

    ghost use Rattle.std.specs.Prelude.{◌≡◌};
    ghost use Rattle.branch_bound.specs.Bounds.{keeps_carried};
}
