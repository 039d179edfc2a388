//! A job that is entered and run at once.
ghost use Rattle.std.specs.Prelude.{◌≡◌, List, None, IfSome, IfNone};
ghost use Rattle.job_table.specs.History.{MoveEntry};
ghost use Rattle.job_table.specs.Steps.{added_reply};
ghost use Rattle.job_table.specs.Kept.{said_in};
ghost use Rattle.job_runs.specs.Runs.{IsJobRun};
ghost use Rattle.job_runs.specs.Solves.{Solves, BeginsToSolve, RunsAndShows};

use crate::runner::Runner;
use crate::work::run_given;
use effects::NotStored;
use job_table::{IssueFault, Job, Mover, Reply, Retrieved, Twin, Verdicts};
use std::alloc::Global;

/// Enters a job with these texts, runs it, finishes it and retrieves it. The answer is what is then shown of the job, or that there
/// is no room for one, or no number, or no memory for the job or for its document; or that the effect of the enter or of the finish
/// wasn't stored, and then nothing more is done.
pub fn solve<V: Verdicts, C: Mover<V>, R: Runner<V>>(
    alloc: Global,
    mover: &mut C,
    runner: &R,
    osil: Twin,
    osol: Twin,
) -> Result<Result<Retrieved, IssueFault>, NotStored>
    ensures ok { IfSome (said_in (added_reply Reply.Retrieved) result) (λ reply. (own : List MoveEntry) × C.did mover.old mover.new own × Solves R.ran osil osol reply own) }
    ensures err { IfNone (said_in (added_reply Reply.Retrieved) result) ((own : List MoveEntry) × C.did mover.old mover.new own × BeginsToSolve R.ran osil osol own) }
{
    match mover.enter(osil, osol) {
        Ok(Ok(job)) => run_and_show(alloc, mover, runner, job),
        Ok(Err(fault)) => Ok(Err(fault)),
        Err(fault) => Err(fault),
    }
}

/// Runs a job that was entered, finishes it and retrieves it.
fn run_and_show<V: Verdicts, C: Mover<V>, R: Runner<V>>(
    alloc: Global,
    mover: &mut C,
    runner: &R,
    job: Job,
) -> Result<Result<Retrieved, IssueFault>, NotStored>
    ensures ok { IfSome (said_in (added_reply Reply.Retrieved) result) (λ reply. (own : List MoveEntry) × C.did mover.old mover.new own × RunsAndShows R.ran job reply own) }
    ensures err { IfNone (said_in (added_reply Reply.Retrieved) result) ((run : List MoveEntry) × C.did mover.old mover.new run × IsJobRun R.ran job None run) }
{
    let number = job.number;
    match run_given(alloc, mover, runner, job) {
        Ok(()) => match mover.retrieve(number) {
            Ok(shown) => Ok(Ok(shown)),
            Err(_) => Ok(Err(IssueFault::Memory)),
        },
        Err(fault) => Err(fault),
    }
}
