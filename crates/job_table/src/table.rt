//! The table.

ghost use Rattle.std.specs.Prelude.{◌≡◌, ◌≤◌, List, ℕ, Some, None, true, IfOk, IfErr, OnErr, IsSome};
ghost use Rattle.job_table.specs.Jobs.{Register, beginning, phase_of};
ghost use Rattle.effects.specs.Stores.{PutsIf};
ghost use Rattle.job_table.specs.Kept.{KeptBy, with_texts};
ghost use Rattle.job_table.specs.Plans.{planned};
ghost use Rattle.job_table.specs.Steps.{most_first, May, Step, Follows, fits, has_document, wants_memory, row_of_move, outcome, added_reply, kills, is_marked};

use crate::entries::{
    Finishing, IssueFault, Killing, Reply, Retrieved, Statistics, TableMove, Verdicts,
};
use crate::job::{Job, Phase, is_marked, state_of};
use crate::jobs::Jobs;
use crate::texts::{SharedText, Twin};
use effects::{Effect, NoStore, NotStored, Store};
use os_io::Memory;
use std::alloc::Global;
use std::marker::{Model, PhantomData};

/// The table of jobs. Contracts see the number with which its numbers begin, the jobs that are held, in order of issue, how many
/// numbers were given, and how many workers are enlisted. What finds no memory leaves the table as it was.
#[derive(Drop)]
pub struct Table<V: Verdicts> {
    pub(crate) alloc: Global,
    pub(crate) jobs: Jobs,
    pub(crate) verdicts: PhantomData<V>,
}

impl<V: Verdicts> Model for Table<V> {
    ghost use Rattle.job_table.specs.Jobs.{Register};

    ghost Value = { Register };

    ghost view = { λ t. t.jobs };
}

/// The job with a new number and these texts, where there is one.
fn given(
    added: Result<u64, IssueFault>,
    osil: SharedText,
    osol: SharedText,
) -> Result<Job, IssueFault>
    ensures { result ≡ with_texts osil osol added }
{
    match added {
        Ok(number) => Ok(Job { number, osil, osol }),
        Err(fault) => Err(fault),
    }
}

impl<V: Verdicts> Table<V> {
    /// The empty table whose numbers begin with this one.
    pub fn new(alloc: Global, first: u64) -> Table<V>
        requires some { 1 ≤ first }
        requires within { first ≤ most_first }
        ensures { result ≡ beginning first }
    {
        Table {
            alloc,
            jobs: Jobs::new(alloc, first),
            verdicts: PhantomData,
        }
    }

    /// How many numbers were given. It is no move, and no history has it.
    pub fn issued(&self) -> u64
        ensures { result ≡ self.now.issued }
    {
        self.jobs.issued()
    }

    /// A new job, with its number alone. The answer is the number.
    pub fn issue(&mut self) -> Result<u64, IssueFault>
        ensures { Follows TableMove.Issue self.old (added_reply Reply.Issued result) self.new }
    {
        match self.issue_kept(&mut NoStore) {
            Ok(added) => added,
            Err(_) => unreachable!(),
        }
    }

    /// The same, once its effect is stored. Where there is no memory, nothing was put.
    pub(crate) fn issue_kept<S: Store>(
        &mut self,
        store: &mut S,
    ) -> Result<Result<u64, IssueFault>, NotStored>
        ensures made { IfOk result (λ added. Follows TableMove.Issue self.old (added_reply Reply.Issued added) self.new) }
        ensures kept { IfOk result (λ added. KeptBy S.keeps S.passes S.too_long S.broken S.faults (planned TableMove.Issue self.old) store.old (added_reply Reply.Issued added) store.new) }
        ensures refused { IfErr result (λ fault. (self.new ≡ self.old) × PutsIf S.keeps S.passes S.too_long S.broken S.faults (planned TableMove.Issue self.old) store.old (Some fault) store.new) }
    {
        self.jobs.add_kept(Phase::Issued, &Effect::Issue, store)
    }

    /// Sends texts to a job that has its number alone; true where they were taken. It takes no memory.
    pub fn send(&mut self, number: u64, osil: Twin, osol: Twin) -> bool
        ensures { row_of_move (TableMove.Send number osil osol) self.old ≡ outcome (Reply.Sent result) self.new }
    {
        if !self.jobs.is_new(number) {
            return false;
        }
        self.jobs.put(number, Phase::Waiting { osil, osol });
        true
    }

    /// A new job with its texts, which the mover runs at once.
    pub fn enter(&mut self, osil: Twin, osol: Twin) -> Result<Job, IssueFault>
        ensures { Follows (TableMove.Enter osil osol) self.old (added_reply (λ job. Reply.Gave (Some job)) result) self.new }
    {
        match self.enter_kept(osil, osol, &mut NoStore) {
            Ok(entered) => entered,
            Err(_) => unreachable!(),
        }
    }

    /// The same, once its effect is stored. Where there is no memory, nothing was put.
    pub(crate) fn enter_kept<S: Store>(
        &mut self,
        osil: Twin,
        osol: Twin,
        store: &mut S,
    ) -> Result<Result<Job, IssueFault>, NotStored>
        ensures made { IfOk result (λ added. Follows (TableMove.Enter osil osol) self.old (added_reply (λ job. Reply.Gave (Some job)) added) self.new) }
        ensures kept { IfOk result (λ added. KeptBy S.keeps S.passes S.too_long S.broken S.faults (planned (TableMove.Enter osil osol) self.old) store.old (added_reply (λ job. Reply.Gave (Some job)) added) store.new) }
        ensures refused { IfErr result (λ fault. (self.new ≡ self.old) × PutsIf S.keeps S.passes S.too_long S.broken S.faults (planned (TableMove.Enter osil osol) self.old) store.old (Some fault) store.new) }
    {
        let (kept_osil, osil) = osil.split();
        let (kept_osol, osol) = osol.split();
        let phase = Phase::Running {
            osil: kept_osil,
            osol: kept_osol,
            marked: false,
        };
        let entered = Effect::Enter {
            osil: osil.as_slice(),
            osol: osol.as_slice(),
        };
        match self.jobs.add_kept(phase, &entered, store) {
            Ok(added) => Ok(given(added, osil, osol)),
            Err(fault) => Err(fault),
        }
    }

    /// The first job that waits, which the mover runs from then on. None where no job waits, or where the mover is no worker
    /// and a worker is enlisted. It takes no memory.
    pub fn claim(&mut self, worker: bool) -> Option<Job>
        ensures { row_of_move (TableMove.Claim worker) self.old ≡ outcome (Reply.Gave result) self.new }
    {
        if !worker && self.jobs.workers() > 0 {
            return None;
        }
        self.jobs.start()
    }

    /// Whether a job runs and was asked to stop. It takes no memory.
    pub fn look(&self, number: u64) -> bool
        ensures { row_of_move (TableMove.Look number) self.now ≡ outcome (Reply.Marked result) self.now }
    {
        match self.jobs.phase(number) {
            Some(phase) => is_marked(phase),
            None => false,
        }
    }

    /// Keeps the document of a job that runs with these texts, which may say that the job was asked to stop only where it was.
    /// `None` stands for want of memory. It takes no memory, and lets go of what isn't kept.
    pub fn finish(&mut self, job: Job, asked: bool, document: Option<SharedText>) -> Finishing
        requires { V.right job.osil job.osol asked document }
        ensures { row_of_move (TableMove.Finish job asked document) self.old ≡ outcome (Reply.Finish result) self.new }
    {
        match self.jobs.unkept(&job, asked) {
            Some(end) => end,
            None => {
                self.jobs.put(job.number, Phase::Finished(document));
                Finishing::Kept
            }
        }
    }

    /// Kills a job that doesn't run yet, asks one that runs to stop, and gives up the record of one that is over. The answer
    /// tells what stands afterwards. It takes no memory.
    pub fn kill(&mut self, number: u64) -> Killing
        ensures { row_of_move (TableMove.Kill number) self.old ≡ outcome (Reply.Killing result) self.new }
    {
        self.jobs.stop(number);
        let state = match self.jobs.phase(number) {
            Some(phase) => Some(state_of(phase)),
            None => None,
        };
        Killing {
            busy: self.jobs.running() > 0,
            current: self.jobs.current(),
            total: self.jobs.issued(),
            state,
        }
    }

    /// How far a job has come, with a further owner of its document, which alone needs memory.
    pub fn retrieve(&self, number: u64) -> Result<Retrieved, Memory>
        ensures ok { IfOk result (λ shown. row_of_move (TableMove.Retrieve number) self.now ≡ outcome (Reply.Retrieved shown) self.now) }
        ensures err { OnErr result (has_document (phase_of number self.now.jobs) ≡ true) }
    {
        match self.jobs.phase(number) {
            None => Ok(Retrieved::Unknown),
            Some(Phase::Issued) => Ok(Retrieved::Issued),
            Some(Phase::Waiting { .. }) => Ok(Retrieved::Waiting),
            Some(Phase::Running { .. }) => Ok(Retrieved::Running),
            Some(Phase::Killed) => Ok(Retrieved::Killed),
            Some(Phase::Finished(None)) => Ok(Retrieved::Finished(None)),
            Some(Phase::Finished(Some(document))) => match document.share() {
                Ok(owner) => Ok(Retrieved::Finished(Some(owner))),
                Err(lost) => Err(lost),
            },
        }
    }

    /// How far all jobs have come. It goes over the jobs that are held.
    pub fn knock(&self) -> Result<Statistics, Memory>
        ensures { IfOk result (λ told. row_of_move TableMove.Knock self.now ≡ outcome (Reply.Statistics told) self.now) }
    {
        match self.jobs.states(self.alloc) {
            Ok(jobs) => Ok(Statistics {
                busy: self.jobs.running() > 0,
                current: self.jobs.current(),
                total: self.jobs.issued(),
                jobs,
            }),
            Err(lost) => Err(lost),
        }
    }

    /// One more worker, up to 4,294,967,295. It takes no memory.
    pub fn enlist(&mut self)
        ensures { row_of_move TableMove.Enlist self.old ≡ outcome Reply.Done self.new }
    {
        self.jobs.enlist();
    }

    /// One worker less, down to none. It takes no memory.
    pub fn leave(&mut self)
        ensures { row_of_move TableMove.Leave self.old ≡ outcome Reply.Done self.new }
    {
        self.jobs.leave();
    }
}
