//! Why a search ended before it knew the optimum.
ghost use Rattle.std.specs.Prelude.{◌≡◌};
ghost use Rattle.certificate.specs.Words.{step_text};

use fraction::Frac;
use std::alloc::AllocError;

/// What was being done where a number was found too wide.
#[derive(Clone, Copy, PartialEq, Eq, Debug)]
pub enum Step {
    /// A value of a basic column.
    Values,
    /// How far a column may move.
    Ratio,
    /// A number of the next dictionary.
    Pivot,
    /// A bound, or a sum at a point.
    Point,
    /// A direction, or a sum along it.
    Ray,
    /// A number of a rounding cut.
    Round,
    /// A sum of the closing check.
    Check,
}

/// Where a number was found too wide: the node, from 1, or 0 where it was no node's; the turn of the whole job; and what was being
/// done.
#[derive(Clone, Copy, PartialEq, Eq, Debug)]
pub struct Place {
    pub node: u32,
    pub turn: u64,
    pub step: Step,
}

/// Why a search stopped before its end.
#[derive(Clone, Copy, PartialEq, Eq, Debug)]
pub enum Cause {
    /// It was told to stop.
    Killed,
    /// It had begun so many nodes.
    NodeLimit(u32),
    /// It had taken so many turns.
    TurnLimit(u32),
    /// The best point was near enough to the bound.
    Gap,
    /// So many seconds were over.
    TimeLimit(Frac),
    /// A number passed the width of a fraction.
    Wide(Place),
    /// The certificate would have passed the length of a document.
    Length,
    /// There was no memory.
    Memory,
}

impl Step {
    /// Its name, in one word.
    pub fn name(self) -> &'static [u8]
        ensures { result.now ≡ step_text self }
    {
        match self {
            Step::Values => b"values",
            Step::Ratio => b"ratio",
            Step::Pivot => b"pivot",
            Step::Point => b"point",
            Step::Ray => b"ray",
            Step::Round => b"round",
            Step::Check => b"check",
        }
    }

    /// An equal step. It takes no memory and never fails.
    pub fn try_copy(&self) -> Result<Step, AllocError>
        ensures { result ≡ Ok self.now }
    {
        Ok(*self)
    }
}

impl Place {
    /// An equal place. It takes no memory and never fails.
    pub fn try_copy(&self) -> Result<Place, AllocError>
        ensures { result ≡ Ok self.now }
    {
        Ok(*self)
    }
}

impl Cause {
    /// An equal cause. It takes no memory and never fails.
    pub fn try_copy(&self) -> Result<Cause, AllocError>
        ensures { result ≡ Ok self.now }
    {
        Ok(*self)
    }
}
