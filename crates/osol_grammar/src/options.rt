//! What a job asks for beside its instance.

use crate::gaps::Gap;
use crate::limit::Limit;
use crate::values::{Values, is_said, with_value};
use fraction::Frac;
use os_io::{Memory, Text};
use std::alloc::Global;

/// The job's name, if it has one, for how many seconds it may be searched, if that is limited, the values of the point that the search
/// begins with, if any, how near its best point has to be to the bound for the search to stop, if that is enough, and how much may be
/// done for it: so many nodes of the tree of cases, 1 to 1,000,000, so many turns of the simplex method, 1 to 100,000,000, and so many
/// rows that rounds add, 0 to 100. The values of its result are told with names where `names` is 1, and without them where it is 0; its
/// certificate is told with multipliers of rows alone where `form` is 1 and the checker accepts it so, else whole; and where `bound` is
/// 1, and not where it is 0, a search that is given up has a bound.
#[derive(Drop)]
pub struct Options {
    pub job: Option<Text>,
    pub seconds: Option<Frac>,
    pub first: Option<Values>,
    pub gap: Option<Gap>,
    pub nodes: u32,
    pub turns: u32,
    pub rounds: u32,
    pub names: u32,
    pub form: u32,
    pub bound: u32,
}

impl Options {
    ghost use Rattle.std.specs.Prelude.{◌≡◌, ◌↔◌, IsTrue, OnOk};
    ghost use Rattle.osol_grammar.specs.FirstValues as values_said;
    ghost use Rattle.osol_grammar.specs.Options as said;
    ghost use Rattle.osol_grammar.specs.Meaning.{IsNoOptions};

    /// No options: no job's name, no time, no first values, no gap, 10,000 nodes, 1,000,000 turns, no rounds, no names, the whole form, and
    /// no bound.
    pub fn none() -> Options
        ensures { IsNoOptions result }
    {
        Options {
            job: None,
            seconds: None,
            first: None,
            gap: None,
            nodes: Limit::Nodes.row().default,
            turns: Limit::Turns.row().default,
            rounds: Limit::Rounds.row().default,
            names: Limit::Names.row().default,
            form: Limit::Form.row().default,
            bound: Limit::Bound.row().default,
        }
    }

    /// The amount of a limit.
    pub(crate) fn amount(&self, limit: Limit) -> u32
        ensures { result ≡ said.amount self.now limit }
    {
        match limit {
            Limit::Nodes => self.nodes,
            Limit::Turns => self.turns,
            Limit::Rounds => self.rounds,
            Limit::Names => self.names,
            Limit::Form => self.form,
            Limit::Bound => self.bound,
        }
    }

    /// Whether a first value of this index is said.
    pub(crate) fn has_first(&self, index: usize) -> bool
        ensures { IsTrue result ↔ values_said.HasFirst self.now.first index }
    {
        match &self.first {
            Some(values) => is_said(values.as_slice(), index),
            None => false,
        }
    }

    /// Says a first value.
    pub(crate) fn set_first(
        &mut self,
        alloc: Global,
        index: usize,
        value: Frac,
    ) -> Result<(), Memory>
        ensures { OnOk result (self.new ≡ said.with_first self.old index value) }
    {
        let values = match self.first.take() {
            Some(values) => values,
            None => Values::new(alloc),
        };
        self.first = Some(with_value(values, index, value)?);
        Ok(())
    }

    /// Sets a limit.
    pub(crate) fn set(&mut self, limit: Limit, amount: u32)
        ensures { self.new ≡ said.with_amount self.old limit amount }
    {
        match limit {
            Limit::Nodes => self.nodes = amount,
            Limit::Turns => self.turns = amount,
            Limit::Rounds => self.rounds = amount,
            Limit::Names => self.names = amount,
            Limit::Form => self.form = amount,
            Limit::Bound => self.bound = amount,
        }
    }
}
