//! What serves a link: whoever has the conversation on it, for those that accept links and give each a thread.
//!
//! A [`Service`] is handed a link that is open, one who makes moves of the table of jobs and a bell of workers, and gives the link back when
//! the conversation is over.
#![tactic(auto)]

ghost use Rattle.std.specs.Prelude.{List};
ghost use Rattle.job_table.specs.History.{MoveEntry};

use job_runs::Runner;
use job_table::{Mover, Verdicts};
use open_links::OpenLink;
use os_io::{Close, Stream};
use std::alloc::Global;
use std::sync::Wait;
use workers::Bell;

/// What serves links and runs jobs.
pub trait Service<V: Verdicts>: Runner<V> {
    ghost use Rattle.std.specs.Prelude.{List, Bool};
    ghost use Rattle.job_table.specs.History.{MoveEntry};
    ghost use Rattle.os_io.specs.Streams.{Tells};

    /// What one conversation may be: how a bell answers that is rung, what the link told before it, the moves that were made for it, what
    /// the link told after it, and whether it ended for want of memory.
    ghost talked: { (Bool → Type 0) → Tells → List MoveEntry → Tells → Bool → Type 0 };

    /// Serves an open link from its first byte to its last, by moves of one seat, and gives it back. Where work is left for a worker
    /// it rings. The answer is whether it ended for want of memory.
    fn serve<L: Close, C: Mover<V>, R: Wait, B: Bell>(
        &self,
        rt: &R,
        alloc: Global,
        bell: &B,
        link: OpenLink<L>,
        mover: &mut C,
    ) -> (bool, OpenLink<L>)
        ensures { (own : List MoveEntry) × C.did mover.old mover.new own × talked B.rang (⟦<OpenLink<L> as Stream>⟧.tells link) own (⟦<OpenLink<L> as Stream>⟧.tells result.1) result.0 };
}
