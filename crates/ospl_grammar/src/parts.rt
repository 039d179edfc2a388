//! The parts of statistics that are being read.

ghost use Rattle.std.specs.Prelude.{◌≡◌, OnOk};
ghost use Rattle.ospl_grammar.specs.Parts as parts;

use crate::process::{JobState, JobStates, Process, StatedJob};
use items::Items;
use os_io::{Memory, Text};
use std::alloc::Global;

/// What the parts of statistics have said so far, and whether they can't be whole any more; of the latest job its name and
/// its state.
pub(crate) struct Parts {
    pub fails: bool,
    pub busy: Option<bool>,
    pub current: Option<u32>,
    pub total: Option<u64>,
    pub listed: bool,
    pub jobs: JobStates,
    pub id: Option<Text>,
    pub state: Option<JobState>,
}

impl Drop for Parts {
    fn drop(self) {
        let Parts {
            fails: _,
            busy: _,
            current: _,
            total: _,
            listed: _,
            jobs: _,
            id: _,
            state: _,
        } = self;
    }
}

/// Whether what is said once was said before, or isn't said now.
fn misses<T: Copy>(before: Option<T>, now: Option<T>) -> bool
    ensures { result ≡ parts.misses before now }
{
    before.is_some() || now.is_none()
}

impl Parts {
    /// None has begun.
    pub(crate) fn none(alloc: Global) -> Self
        ensures { result ≡ parts.no_parts }
    {
        Parts {
            fails: false,
            busy: None,
            current: None,
            total: None,
            listed: false,
            jobs: Items::new(alloc),
            id: None,
            state: None,
        }
    }

    /// Adds whether a job runs, if that is said.
    pub(crate) fn add_busy(&mut self, busy: Option<bool>)
        ensures { self.new ≡ parts.with_busy self.old busy }
    {
        self.fails = self.fails || misses(self.busy, busy);
        self.busy = busy;
    }

    /// Adds how many jobs wait or run, if that is said.
    pub(crate) fn add_current(&mut self, current: Option<u32>)
        ensures { self.new ≡ parts.with_current self.old current }
    {
        self.fails = self.fails || misses(self.current, current);
        self.current = current;
    }

    /// Adds how many numbers were given, if that is said.
    pub(crate) fn add_total(&mut self, total: Option<u64>)
        ensures { self.new ≡ parts.with_total self.old total }
    {
        self.fails = self.fails || misses(self.total, total);
        self.total = total;
    }

    /// Begins the list of jobs.
    pub(crate) fn begin_list(&mut self)
        ensures { self.new ≡ parts.with_list self.old }
    {
        self.fails = self.fails || self.listed;
        self.listed = true;
    }

    /// Adds the state of the latest job, if one is said.
    pub(crate) fn add_state(&mut self, state: Option<JobState>)
        ensures { self.new ≡ parts.with_state self.old state }
    {
        self.fails = self.fails || misses(self.state, state);
        self.state = state;
    }

    /// Adds the latest job, if it has a name and a state.
    pub(crate) fn add_job(&mut self) -> Result<(), Memory>
        ensures { OnOk result (self.new ≡ parts.with_job self.old) }
    {
        match (self.id.take(), self.state.take()) {
            (Some(id), Some(state)) => self.jobs.push(StatedJob { id, state }),
            _ => {
                self.fails = true;
                Ok(())
            }
        }
    }

    /// The statistics, if they are whole.
    pub(crate) fn whole(self) -> Option<Process>
        ensures { result ≡ parts.whole self }
    {
        let Parts {
            fails,
            busy,
            current,
            total,
            listed,
            jobs,
            id: _,
            state: _,
        } = self;
        if fails || !listed {
            return None;
        }
        match (busy, current, total) {
            (Some(busy), Some(current), Some(total)) => Some(Process::Statistics {
                busy,
                current,
                total,
                jobs,
            }),
            _ => None,
        }
    }
}
