//! Why a claim isn't accepted.

use std::fmt;
use thiserror::Error;

/// Why a certificate or a direction of one level doesn't show what it should. Columns are the variables, the rows, and then
/// the rows that are added; nodes are numbered from 1 in their order.
#[derive(Clone, Copy, PartialEq, Eq, Debug, Drop, Error)]
pub enum Unshown {
    /// The list of nodes ends before this one, or has ended; or the node is a split of no whole variable or at no number
    /// that has a next one, a zero of a variable that may not be 0, or a bound, on a grid or not, where no value is claimed.
    Tree { node: u32 },
    /// There is no such column, or it isn't after the one before; or its multiplier is 0 or has no finite end on its side.
    Sign { node: u32, col: u32 },
    /// The sum of the columns has another value at this variable than it should.
    Form { node: u32, col: u32 },
    /// The goal doesn't go in the node's steps at this variable: its cost isn't a whole multiple of the step, or isn't 0 where the
    /// variable isn't whole; or, past all variables, the step isn't above 0.
    Step { node: u32, col: u32 },
    /// The sum of the ends doesn't reach what it should, or the ends don't exclude each other.
    Sum { node: u32 },
    /// The direction has another number of movements than there are variables, and the column is the lesser of both
    /// numbers; or this is the first column that it moves to an end, not by a whole number where it must be whole, or from a
    /// value that isn't between its own ends where it may be 0; or, past all columns, it doesn't make the goal better.
    Direction { col: u32 },
    /// A sum doesn't fit: at this node, or at 0 of the direction or of the end of the level's row.
    Wide { node: u32 },
}

/// Why a claim is refused.
#[derive(Clone, Copy, PartialEq, Eq, Debug, Drop, Error)]
pub enum Refused {
    /// The point has another number of values than there are variables, and the column is the lesser of both numbers; or
    /// this is the first column that is out of its ends, neither 0 nor between its own ends where it may be 0, or not whole
    /// where it must be.
    NotFeasible { col: u32 },
    /// A sum of the point or of a value doesn't fit.
    WidePoint,
    /// There isn't one value for each goal, or one isn't the point's objective.
    Value,
    /// The pair of this round with this column isn't legal, or this is the first variable whose sum isn't as a round's must
    /// be; or there are several goals (round 1, column 0). Rounds are numbered from 1.
    Round { round: u32, col: u32 },
    /// A sum of this round doesn't fit.
    WideRound { round: u32 },
    /// An optimal claim has another number of certificates than there are goals, or an unbounded one not fewer.
    Levels { found: usize },
    /// This level's certificate or direction doesn't show what it should. Levels are numbered from 1.
    Level { level: u32, why: Unshown },
    /// Nothing is claimed.
    NoClaim,
}

impl fmt::Display for Unshown {
    ghost use Rattle.std.specs.Prelude.{Some};
    ghost use Rattle.cert_checker.specs.Words.{unshown_words};

    ghost output = { λ u. Some (unshown_words u) };

    fn fmt<W: fmt::Write>(&self, f: &mut fmt::Formatter<W>) -> fmt::Result {
        match self {
            Unshown::Tree { node } => write!(f, "Tree {node}"),
            Unshown::Sign { node, col } => write!(f, "Sign {node} {col}"),
            Unshown::Form { node, col } => write!(f, "Form {node} {col}"),
            Unshown::Step { node, col } => write!(f, "Step {node} {col}"),
            Unshown::Sum { node } => write!(f, "Sum {node}"),
            Unshown::Direction { col } => write!(f, "Direction {col}"),
            Unshown::Wide { node } => write!(f, "Wide {node}"),
        }
    }
}

/// A level, which is told from the second on.
#[derive(Clone, Copy, Drop)]
struct Level {
    level: u32,
}

impl fmt::Display for Level {
    ghost use Rattle.std.specs.Prelude.{Some};
    ghost use Rattle.cert_checker.specs.Words.{level_words};

    ghost output = { λ l. Some (level_words l.level) };

    fn fmt<W: fmt::Write>(&self, f: &mut fmt::Formatter<W>) -> fmt::Result {
        if self.level == 1 {
            return Ok(());
        }
        write!(f, "Level {} ", self.level)
    }
}

impl fmt::Display for Refused {
    ghost use Rattle.std.specs.Prelude.{Some};
    ghost use Rattle.cert_checker.specs.Words.{refused_words};

    ghost output = { λ r. Some (refused_words r) };

    fn fmt<W: fmt::Write>(&self, f: &mut fmt::Formatter<W>) -> fmt::Result {
        match self {
            Refused::NotFeasible { col } => write!(f, "NotFeasible {col}"),
            Refused::WidePoint => write!(f, "Wide {}", 0u32),
            Refused::Value => write!(f, "Value"),
            Refused::Round { round, col } => write!(f, "Round {round} {col}"),
            Refused::WideRound { round } => write!(f, "WideRound {round}"),
            Refused::Levels { found } => write!(f, "Levels {found}"),
            Refused::Level { level, why } => {
                let level = Level { level: *level };
                write!(f, "{level}{why}")
            }
            Refused::NoClaim => write!(f, "NoClaim"),
        }
    }
}
