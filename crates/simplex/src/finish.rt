//! How the turns of a run finish.
use certificate::Step;
use fraction::Frac;
use simplex_rules::Way;

/// A column that moves, or is to move.
#[derive(Clone, Copy, PartialEq, Eq)]
pub struct Move {
    pub col: u32,
    pub way: Way,
}

/// How the turns finish: at a basic column out of its ends that none can bring back, at a best point with its bound, at a
/// column that no end stops, or early.
#[derive(Clone, Copy, PartialEq, Eq)]
pub enum Finish {
    Empty(Move),
    Best(Frac),
    Endless(Move),
    TurnLimit,
    Wide(Step),
    Stopped,
}
