//! A job that was given is run and finished.
ghost use Rattle.std.specs.Prelude.{◌≡◌, ◌<◌, ◌-◌, ◌^◌, List, Bool, [], ◌∷◌, IsTrue, ◌↔◌, Some, None, IsSome, Option};
ghost use Rattle.effects.specs.Stores.{fault_of};
ghost use Rattle.job_table.specs.History.{MoveEntry, entry_of_move};
ghost use Rattle.job_table.specs.Looks.{looks};
ghost use Rattle.job_runs.specs.Runs.{AreLooks, IsJobRun, Works};

use crate::runner::Runner;
use effects::NotStored;
use job_table::{Job, Mover, MoverWatch, SharedText, Verdicts};
use std::alloc::Global;
use std::marker::PhantomData;

/// Runs a job that was given, with looks at whether it is asked to stop.
fn run_watched<V: Verdicts, C: Mover<V>, R: Runner<V>>(
    alloc: Global,
    mover: &mut C,
    runner: &R,
    job: &Job,
) -> (Option<SharedText>, bool)
    ensures ran { (answers : List Bool) × C.did mover.old mover.new (looks job.now.number answers) × AreLooks result.1 answers × R.ran job.now.osil job.now.osol answers result.0 }
    ensures right { V.right job.now.osil job.now.osol result.1 result.0 }
{
    let mut watch = MoverWatch {
        mover,
        number: job.number,
        stops: 0,
        verdicts: PhantomData,
    };
    let document = runner.run(alloc, job.osil.as_slice(), job.osol.as_slice(), &mut watch);
    let asked = watch.stops > 0;
    let MoverWatch {
        mover: _mover,
        number: _,
        stops: _,
        verdicts: _,
    } = watch;
    (document, asked)
}

/// Runs a job that a claim or an enter gave, and finishes it. The answer is whether the effect of the finish was stored, where it has
/// one.
pub fn run_given<V: Verdicts, C: Mover<V>, R: Runner<V>>(
    alloc: Global,
    mover: &mut C,
    runner: &R,
    job: Job,
) -> Result<(), NotStored>
    ensures { (run : List MoveEntry) × C.did mover.old mover.new run × IsJobRun R.ran job (fault_of result) run }
{
    let (document, asked) = run_watched(alloc, mover, runner, &job);
    match mover.finish(job, asked, document) {
        Ok(_) => Ok(()),
        Err(fault) => Err(fault),
    }
}

/// Claims a job that waits, runs it and finishes it. False exactly where the claim gave none. It takes no memory but what a run
/// takes.
pub fn work_one<V: Verdicts, C: Mover<V>, R: Runner<V>>(
    alloc: Global,
    mover: &mut C,
    runner: &R,
    worker: bool,
) -> bool
    ensures { (given : Option Job) × (entries : List MoveEntry) × C.did mover.old mover.new entries × Works R.ran worker given entries × (IsTrue result ↔ IsSome given) }
{
    match mover.claim(worker) {
        Some(job) => {
            // Nobody waits for the answer of this run, stored or not.
            let _stored = run_given(alloc, mover, runner, job);
            true
        }
        None => false,
    }
}
