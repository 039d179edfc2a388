//! What holds of every history of moves from a table on whose numbers rise, as an empty one's do. Its moves were made, or their effects
//! weren't stored.

ghost use Rattle.job_table.specs.Laws.{GivenJobsRun, NumbersAreGivenOnce, FirstFinishIsKept, RetrievedDocumentsAreRight};

use crate::entries::Verdicts;

/// Law: a job that a claim or an enter gave runs, with the texts that were given, until a finish names it.
pub fn given_jobs_run<V: Verdicts>()
    ensures { GivenJobsRun V.right }
{}

/// Law: no job is given to be run twice: neither two claims nor a claim and an enter give the same number.
pub fn numbers_are_given_once<V: Verdicts>()
    ensures { NumbersAreGivenOnce V.right }
{}

/// Law: the first finish of a job that was given is kept, where it says that the job was asked to stop only after a look that
/// said so.
pub fn first_finish_is_kept<V: Verdicts>()
    ensures { FirstFinishIsKept V.right }
{}

/// Law: each document that is retrieved came with a finish, and is right for the texts that a send or an enter brought under its
/// number, or that the job had when it waited in the table at first; where it says that the job was asked to stop, a kill of the job
/// stands before that finish. Or the table had it at first. Nobody runs a job in that table.
pub fn documents_are_right<V: Verdicts>()
    ensures { RetrievedDocumentsAreRight V.right }
{}
