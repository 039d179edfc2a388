//! The nodes of trees of cases, and certificates, which are rounding cuts and such nodes.
ghost use Rattle.std.specs.Prelude.{◌≡◌, [], IfOk};

use crate::lists::Mults;
use fraction::Frac;
use items::{Items, TryCopy};
use std::alloc::{AllocError, Global};

/// A node of a tree of cases.
#[derive(Debug)]
pub enum Node {
    /// Two cases, whose nodes follow: the variable is at most `k`, or at least `k + 1`.
    Split { col: u32, k: i128 },
    /// Two cases, whose nodes follow: the variable is 0, or between its own ends.
    Zero { col: u32 },
    /// The column's lower end is above its upper one.
    Clash { col: u32 },
    /// By these multipliers no point is feasible.
    Farkas(Mults),
    /// By these multipliers no point is better than the claimed value.
    Bound(Mults),
    /// The same, where the goal's values go in such steps and the sum is rounded up to the next of them.
    Grid { step: Frac, mults: Mults },
    /// As `Farkas`, where the multipliers of variables are left out, which those of the rows decide.
    FarkasRows(Mults),
    /// As `Bound`, where they are left out.
    BoundRows(Mults),
    /// As `Grid`, where they are left out.
    GridRows { step: Frac, mults: Mults },
}

impl Drop for Node {
    // By hand, as for all types here that have lists, so that letting one go is a call. What is derived would be taken apart wherever one is let go.
    fn drop(self) {
        match self {
            Node::Split { col: _, k: _ } => {}
            Node::Zero { col: _ } => {}
            Node::Clash { col: _ } => {}
            Node::Farkas(_) => {}
            Node::Bound(_) => {}
            Node::Grid { step: _, mults: _ } => {}
            Node::FarkasRows(_) => {}
            Node::BoundRows(_) => {}
            Node::GridRows { step: _, mults: _ } => {}
        }
    }
}

impl TryCopy for Node {
    fn try_copy(&self, alloc: Global) -> Result<Node, AllocError> {
        match self {
            Node::Split { col, k } => Ok(Node::Split { col: *col, k: *k }),
            Node::Zero { col } => Ok(Node::Zero { col: *col }),
            Node::Clash { col } => Ok(Node::Clash { col: *col }),
            Node::Farkas(mults) => Ok(Node::Farkas(mults.try_copy(alloc)?)),
            Node::Bound(mults) => Ok(Node::Bound(mults.try_copy(alloc)?)),
            Node::Grid { step, mults } => Ok(Node::Grid {
                step: *step,
                mults: mults.try_copy(alloc)?,
            }),
            Node::FarkasRows(mults) => Ok(Node::FarkasRows(mults.try_copy(alloc)?)),
            Node::BoundRows(mults) => Ok(Node::BoundRows(mults.try_copy(alloc)?)),
            Node::GridRows { step, mults } => {
                let mults = mults.try_copy(alloc)?;
                Ok(Node::GridRows { step: *step, mults })
            }
        }
    }
}

/// The nodes of a tree of cases in preorder, numbered from 1.
pub type Nodes = Items<Node>;

/// A rounding cut, by multipliers of the columns before it.
#[derive(Debug)]
pub enum Round {
    /// By these multipliers.
    Whole(Mults),
    /// The same, where the multipliers of variables are left out, which those of the rows decide.
    OfRows(Mults),
}

impl Drop for Round {
    fn drop(self) {
        match self {
            Round::Whole(_) => {}
            Round::OfRows(_) => {}
        }
    }
}

impl TryCopy for Round {
    fn try_copy(&self, alloc: Global) -> Result<Round, AllocError> {
        match self {
            Round::Whole(mults) => Ok(Round::Whole(mults.try_copy(alloc)?)),
            Round::OfRows(mults) => Ok(Round::OfRows(mults.try_copy(alloc)?)),
        }
    }
}

/// Rounding cuts in order, each over the rows of those before it.
pub type Rounds = Items<Round>;

/// A certificate: rounding cuts, each one more row, and the nodes of a tree of cases over all rows.
#[derive(Debug)]
pub struct Cert {
    pub rounds: Rounds,
    pub nodes: Nodes,
}

/// A certificate for each level, in order.
pub type Certs = Items<Cert>;

impl Drop for Cert {
    fn drop(self) {
        let Cert {
            rounds: _,
            nodes: _,
        } = self;
    }
}

impl Cert {
    /// The certificate without rounds and without nodes.
    pub fn new(alloc: Global) -> Cert
        ensures { result ≡ record { rounds = []; nodes = [] } }
    {
        Cert {
            rounds: Items::new(alloc),
            nodes: Items::new(alloc),
        }
    }
}

impl TryCopy for Cert {
    fn try_copy(&self, alloc: Global) -> Result<Cert, AllocError> {
        let rounds = self.rounds.try_copy_each(alloc)?;
        let nodes = self.nodes.try_copy_each(alloc)?;
        Ok(Cert { rounds, nodes })
    }
}
