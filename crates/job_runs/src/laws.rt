//! What holds of runs in every history of moves from a table on whose numbers rise.
ghost use Rattle.job_runs.specs.Laws.{RunsAreKept};

use crate::runner::Runner;
use job_table::{Verdicts, first_finish_is_kept};

/// Law: a run that follows the claim or the enter that gave its job has its finish kept, where its effect is stored.
pub fn finishes_are_kept<V: Verdicts, R: Runner<V>>()
    ensures { RunsAreKept R.ran V.right }
{
    first_finish_is_kept::<V>();
}
