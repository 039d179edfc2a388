//! Who serves.
use job_runs::Runner;
use job_table::Verdicts;

/// Who runs jobs for a connection and wakes workers; the conversation itself is `serve_one`'s.
pub trait Server<V: Verdicts>: Runner<V> {
    ghost use Rattle.std.specs.Prelude.{Bool};

    /// What a ring may answer: whether somebody was woken.
    ghost wakes: { Bool → Type 0 };

    /// Tells that a job waits. True where somebody took that over, and will claim one in time; else whoever tells it claims one
    /// as a worker would.
    fn wake(&self) -> bool
        ensures { wakes result };
}
