//! What a run is given beside an instance.
ghost use Rattle.std.specs.Prelude.{◌≡◌, ◌<◌, ◌++◌, [], ◌∷◌, length, map, slice_index_or, slice_set, IfOk, OnOk, OnErr};

use crate::ends::Ends;
use fraction::Entry;
use instance::Var;
use items::Items;
use std::alloc::{AllocError, Global};
use std::marker::Model;

/// A row beside those of an instance: a sum of variables by its entries, between two ends. Its entries are of its own row, at
/// ascending columns, none 0.
#[derive(Drop)]
pub struct Added {
    pub ends: Ends,
    pub entries: Items<Entry>,
}

/// What a run is given beside an instance: the ends of its variables in place of their own, as a case of a search has them; rows
/// beside its own, those of rounding cuts or of goals that are reached; and which of its goals is asked, from 0.
#[derive(Drop)]
pub struct Cuts {
    ends: Vec<Ends>,
    rows: Items<Added>,
    goal: u32,
}

impl Model for Cuts {
    ghost use Rattle.simplex.specs.Cuts.{Cutting};

    ghost Value = { Cutting };

    ghost view = { λ c. record { ends = c.ends.items; rows = c.rows; goal = c.goal } };
}

impl Cuts {
    ghost use Rattle.simplex.specs.Cuts.{own_ends};

    /// The variables' own ends, no row, and the first goal.
    pub fn of(alloc: Global, vars: &[Var]) -> Result<Cuts, AllocError>
        ensures { IfOk result (λ cuts. cuts ≡ record { ends = map own_ends vars.now; rows = []; goal = 0 }) }
    {
        let mut ends = Vec::with_capacity(alloc, vars.len())?;
        for var in vars {
            ends.push(Ends {
                lb: var.lb,
                ub: var.ub,
            })?;
        }
        Ok(Cuts {
            ends,
            rows: Items::new(alloc),
            goal: 0,
        })
    }

    /// The ends of the variables.
    pub fn as_slice(&self) -> &[Ends]
        ensures { result.now ≡ self.now.ends }
    {
        self.ends.as_slice()
    }

    /// How many variables they are of.
    pub fn len(&self) -> usize
        ensures { result ≡ length self.now.ends }
    {
        self.ends.len()
    }

    /// The ends of a variable.
    pub fn at(&self, j: u32) -> Ends
        requires { j < length self.now.ends }
        ensures { result ≡ slice_index_or self.now.ends j result }
    {
        self.ends[j as usize]
    }

    /// Gives a variable other ends.
    pub fn set(&mut self, j: u32, ends: Ends)
        requires { j < length self.old.ends }
        ensures { self.new ≡ record self.old { ends = slice_set self.old.ends j ends } }
    {
        self.ends[j as usize] = ends;
    }

    /// Adds a row past those that there are. Where there is no memory, they stay as they were.
    pub fn add(&mut self, row: Added) -> Result<(), AllocError>
        ensures ok { OnOk result (self.new ≡ record self.old { rows = self.old.rows ++ row ∷ [] }) }
        ensures err { OnErr result (self.new ≡ self.old) }
    {
        self.rows.push(row)
    }

    /// Asks this goal.
    pub fn ask(&mut self, goal: u32)
        ensures { self.new ≡ record self.old { goal = goal } }
    {
        self.goal = goal;
    }

    /// The rows beside the instance's.
    pub fn rows(&self) -> &[Added]
        ensures { result.now ≡ self.now.rows }
    {
        self.rows.as_slice()
    }

    /// The goal that is asked.
    pub fn goal(&self) -> u32
        ensures { result ≡ self.now.goal }
    {
        self.goal
    }
}
