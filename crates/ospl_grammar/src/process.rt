//! Processes: what a process document says.

use items::Items;
use os_io::Text;

/// How far a job has come.
#[derive(Clone, Copy, PartialEq, Eq, Drop)]
pub enum JobState {
    /// It has its number alone.
    Issued,
    /// It was sent, and nobody runs it yet.
    Waiting,
    /// Somebody runs it.
    Running,
    /// It was run.
    Finished,
    /// It was killed before it ran.
    Killed,
}

/// A job by the text that names it, and how far it has come.
#[derive(Drop)]
pub struct StatedJob {
    pub id: Text,
    pub state: JobState,
}

/// Jobs in their order.
pub type JobStates = Items<StatedJob>;

/// What a process document says: what is asked, or how far all jobs have come.
#[derive(Drop)]
pub enum Process {
    /// What is asked, by its action.
    Ask {
        action: Text,
    },
    /// Whether a job runs, how many wait or run, how many numbers were given, at most 9,223,372,036,854,775,807, and jobs.
    Statistics {
        busy: bool,
        current: u32,
        total: u64,
        jobs: JobStates,
    },
}
