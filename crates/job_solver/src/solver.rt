//! What runs jobs, and which documents are right.
ghost use Rattle.std.specs.Prelude.{◌≡◌};

use job_runs::Runner;
use job_table::{SharedText, Verdicts};
use os_io::Watch;
use os_server::Server;
use solve_run::run_job;
use std::alloc::Global;
use std::time::Clock;

/// Jobs whose documents answer their texts as `solve_run` says.
pub struct SolvedJobs;

impl Verdicts for SolvedJobs {
    ghost use Rattle.solve_run.specs.JobAnswers.{Right};

    ghost right = { Right };
}

/// Runs jobs by `solve_run`, for as long as their options say by this clock, and wakes nobody: whoever serves is alone.
#[derive(Clone, Copy)]
pub struct Solver<'c, T: Clock> {
    clock: &'c T,
}

impl<'c, T: Clock> Solver<'c, T> {
    /// One with this clock.
    pub fn new(clock: &'c T) -> Solver<'c, T> {
        Solver { clock }
    }
}

impl<'c, T: Clock> Runner<SolvedJobs> for Solver<'c, T> {
    ghost use Rattle.job_solver.specs.Runs.{MakesDocument};

    ghost ran = { MakesDocument };

    fn run<W: Watch>(
        &self,
        alloc: Global,
        osil: &[u8],
        osol: &[u8],
        watch: &mut W,
    ) -> Option<SharedText> {
        match run_job(alloc, osil, osol, self.clock, watch) {
            Ok(text) => match SharedText::new(alloc, text) {
                Ok(document) => Some(document),
                Err(_) => None,
            },
            Err(_) => None,
        }
    }
}

impl<'c, T: Clock> Server<SolvedJobs> for Solver<'c, T> {
    ghost use Rattle.job_solver.specs.Runs.{WakesNobody};

    ghost wakes = { WakesNobody };

    fn wake(&self) -> bool {
        false
    }
}
