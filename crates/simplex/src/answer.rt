//! What a run answers.

use certificate::Step;
use fraction::Frac;

/// How many turns were done since the search began, and how many may be.
#[derive(Clone, Copy, PartialEq, Eq)]
pub struct Turns {
    pub done: u64,
    pub most: u64,
}

/// How a run ends.
#[derive(Clone, Copy, PartialEq, Eq)]
pub enum LpEnd {
    /// No column helps: the point is best, and no point's minimising goal is below the bound, which is 0 under the goal
    /// zero.
    Best { bound: Frac },
    /// The column's lower end is above its upper one.
    Clash { col: u32 },
    /// No point is within all ends, which the multipliers show (Farkas).
    Empty,
    /// Along the direction the goal becomes better without end.
    Endless,
    /// As many turns were done as may be.
    TurnLimit,
    /// A number of this step doesn't fit.
    Wide(Step),
    /// A look said to stop.
    Stopped,
}

/// Where a column stands that isn't basic: at its lower or its upper end, or at 0 where it has neither.
#[derive(Clone, Copy, PartialEq, Eq)]
pub enum Side {
    Lower,
    Upper,
    Zero,
}
