//! The jobs that are held, by number, with what is counted of them.

ghost use Rattle.std.specs.Prelude.{◌≡◌, ℕ, List, Option, ◌+◌, ◌-◌, ◌<◌, ◌≤◌, ◌^◌, length, Some, None, true, false, IfOk, IfSome, OnOk, OnErr, IfErr, IfNone, IsSome, IsSomeAnd, min, if◌then◌else◌, [], ◌∷◌, ◌++◌};
ghost use Rattle.std.specs.Option.{option_copied};
ghost use Rattle.job_table.specs.declared.entries.Reply.{Reply};
ghost use Rattle.job_table.specs.declared.entries.Finishing.TheVariants.{Kept};
ghost use Rattle.job_table.specs.declared.job.Phase.{Phase};
ghost use Rattle.job_table.specs.declared.job.Phase.TheVariants.{Issued, Running, Finished};
ghost use Rattle.job_table.specs.Jobs.{Register, beginning, next_number, Rise, Rises, phase_of, with_phase, without, state_of, is_waiting, is_running, marked, states, waiting_jobs, running_jobs, first_waiting, IsFirstWaiting, Below};
ghost use Rattle.effects.specs.Records.{Deed, deed_of};
ghost use Rattle.effects.specs.Stores.{Puts, PutsIf, fault_of};
ghost use Rattle.job_table.specs.Kept.{KeptBy};
ghost use Rattle.job_table.specs.Plans.{has_room, finished_of};
ghost use Rattle.job_table.specs.Remade.{first_marked, settled};
ghost use Rattle.job_table.specs.Steps.{most_jobs, last_number, most_first, with_new, moved, forgotten, adds, added_reply, LeadsBy, claims, kills, outcome, sends, finishes, is_marked};

use crate::entries::{Finishing, IssueFault, NumberedStates};
use crate::job::{Job, Phase, is_running, is_waiting, state_of};
use crate::phases::Phases;
use crate::waiting::{make_room, renew};
use effects::{Effect, LAST_NUMBER, MOST_JOBS, NoStore, NotStored, Store};
use os_io::Memory;
use std::alloc::Global;
use std::collections::VecDeque;
use std::marker::Model;

/// The jobs that are held. Contracts see the number with which numbers begin, the jobs in order of issue, how many numbers were
/// given, and how many workers are enlisted.
#[derive(Drop)]
pub(crate) struct Jobs {
    phases: Phases,
    /// The numbers of those that wait, in order, with room for all that are held.
    waiting: VecDeque<u64>,
    /// How many run.
    running: u32,
    /// The number of the first job.
    first: u64,
    issued: u64,
    workers: u32,
}

impl Model for Jobs {
    ghost use Rattle.std.specs.Prelude.{◌+◌};
    ghost use Rattle.std.specs.VecDeque.{deque_capacity};
    ghost use Rattle.job_table.specs.Jobs.{Register};
    ghost use Rattle.job_table.specs.WaitingJobs.{IsKeptBeside};

    ghost Value = { Register };

    ghost view = { λ j. record { first = j.first; jobs = j.phases; issued = j.issued; workers = j.workers } };

    ghost invariant = { λ j. IsKeptBeside j.phases j.first (j.first + j.issued) j.waiting.items (deque_capacity j.waiting) j.running };
}

/// How many run, where one job ran or not, and runs or not.
fn recount(running: u32, ran: bool, runs: bool) -> u32
    requires some { ran ≡ true → 0 < running }
    requires few { running < 2 ^ 32 - 1 }
    ensures { result + (if ran then 1 else 0) ≡ running + (if runs then 1 else 0) }
{
    match (ran, runs) {
        (true, false) => running - 1,
        (false, true) => running + 1,
        (true, true) => running,
        (false, false) => running,
    }
}

impl Jobs {
    pub(crate) fn new(alloc: Global, first: u64) -> Jobs
        requires some { 1 ≤ first }
        requires within { first ≤ most_first }
        ensures { result ≡ beginning first }
    {
        Jobs {
            phases: Phases::new(alloc),
            waiting: VecDeque::new(alloc),
            running: 0,
            first,
            issued: 0,
            workers: 0,
        }
    }

    /// The number with which numbers begin.
    pub(crate) fn first(&self) -> u64
        ensures { result ≡ self.now.first }
    {
        self.first
    }

    /// How many numbers were given.
    pub(crate) fn issued(&self) -> u64
        ensures { result ≡ self.now.issued }
    {
        self.issued
    }

    /// Numbers begin with another one, where none was given.
    pub(crate) fn begin(&mut self, first: u64)
        requires none { self.old.issued ≡ 0 }
        requires some { 1 ≤ first }
        requires within { first ≤ most_first }
        ensures { self.new ≡ record self.old { first = first } }
    {
        self.first = first;
    }

    /// How many workers are enlisted.
    pub(crate) fn workers(&self) -> u32
        ensures { result ≡ self.now.workers }
    {
        self.workers
    }

    /// How many jobs run.
    pub(crate) fn running(&self) -> u32
        ensures { result ≡ running_jobs self.now.jobs }
    {
        self.running
    }

    /// How many jobs wait or run.
    pub(crate) fn current(&self) -> u32
        ensures { result ≡ waiting_jobs self.now.jobs + running_jobs self.now.jobs }
    {
        self.waiting.len() as u32 + self.running
    }

    /// The phase of a job.
    pub(crate) fn phase(&self, number: u64) -> Option<&Phase>
        ensures { option_copied result ≡ phase_of number self.now.jobs }
    {
        self.phases.get(number)
    }

    /// Whether a job has its number alone.
    pub(crate) fn is_new(&self, number: u64) -> bool
        ensures new { result ≡ true → phase_of number self.now.jobs ≡ Some Issued }
        ensures other { result ≡ false → (osil osol : List ℕ) → sends number osil osol (phase_of number self.now.jobs) self.now ≡ outcome (Reply.Sent false) self.now }
    {
        matches!(self.phase(number), Some(Phase::Issued))
    }

    /// How a finish of a job ends that keeps no document, where it does.
    pub(crate) fn unkept(&self, job: &Job, asked: bool) -> Option<Finishing>
        ensures end { IfSome result (λ end. (document : Option (List ℕ)) → finishes job.now asked document (phase_of job.now.number self.now.jobs) self.now ≡ outcome (Reply.Finish end) self.now) }
        ensures held { IfNone result (IsSome (phase_of job.now.number self.now.jobs)) }
        ensures none { IfNone result ((document : Option (List ℕ)) → finishes job.now asked document (phase_of job.now.number self.now.jobs) self.now ≡ outcome (Reply.Finish Kept) (moved job.now.number (Finished document) self.now)) }
        ensures unplanned { IfSome result (λ _. (d : Deed) → finished_of job.now asked (phase_of job.now.number self.now.jobs) d ≡ None) }
        ensures planned { IfNone result ((d : Deed) → finished_of job.now asked (phase_of job.now.number self.now.jobs) d ≡ Some d) }
    {
        match self.phase(job.number) {
            Some(
                Phase::Running {
                    osil: kept_osil,
                    osol: kept_osol,
                    marked,
                },
            ) => {
                if job.osil.as_slice() != kept_osil.as_slice()
                    || job.osol.as_slice() != kept_osol.as_slice()
                {
                    Some(Finishing::Other)
                } else if asked && !*marked {
                    Some(Finishing::Unmarked)
                } else {
                    None
                }
            }
            Some(phase) => Some(Finishing::Stale {
                state: Some(state_of(phase)),
            }),
            None => Some(Finishing::Stale { state: None }),
        }
    }

    /// The number of the first job that waits.
    fn first_waiting(&self) -> Option<u64>
        ensures some { IfSome result (λ number. IsFirstWaiting number self.now.jobs) }
        ensures none { IfNone result (first_waiting self.now.jobs ≡ None) }
    {
        match self.waiting.front() {
            Some(number) => Some(*number),
            None => None,
        }
    }

    /// The states of all, in order of issue.
    pub(crate) fn states(&self, alloc: Global) -> Result<NumberedStates, Memory>
        ensures { IfOk result (λ all. all ≡ states self.now.jobs) }
    {
        self.phases.states(alloc)
    }

    /// Whether there is room for a new job, and a number is left.
    pub(crate) fn has_room(&self) -> bool
        ensures { result ≡ has_room self.now }
    {
        self.phases.len() < MOST_JOBS && self.first + self.issued <= LAST_NUMBER
    }

    /// A new job, which has the next number.
    pub(crate) fn add(&mut self, phase: Phase) -> Result<u64, IssueFault>
        ensures number { IfOk result (λ number. number ≡ next_number self.old) }
        ensures added { (said : Reply) → LeadsBy (adds phase said self.old) self.old (added_reply (λ _. said) result) self.new }
    {
        match self.add_kept(phase, &Effect::Issue, &mut NoStore) {
            Ok(added) => added,
            Err(_) => unreachable!(),
        }
    }

    /// A new job, which has the next number, once an effect is stored. The memory for it is taken before: where there is none,
    /// nothing is put.
    pub(crate) fn add_kept<S: Store>(
        &mut self,
        phase: Phase,
        effect: &Effect,
        store: &mut S,
    ) -> Result<Result<u64, IssueFault>, NotStored>
        ensures number { IfOk result (λ added. IfOk added (λ number. number ≡ next_number self.old)) }
        ensures added { IfOk result (λ added. (said : Reply) → LeadsBy (adds phase said self.old) self.old (added_reply (λ _. said) added) self.new) }
        ensures kept { IfOk result (λ added. KeptBy S.keeps S.passes S.too_long S.broken S.faults (if has_room self.old then Some (deed_of effect.now) else None) store.old (added_reply (λ _. Reply.Done) added) store.new) }
        ensures refused { IfErr result (λ fault. (self.new ≡ self.old) × PutsIf S.keeps S.passes S.too_long S.broken S.faults (if has_room self.old then Some (deed_of effect.now) else None) store.old (Some fault) store.new) }
    {
        let held = self.phases.len();
        if held >= MOST_JOBS {
            return Ok(Err(IssueFault::Full));
        }
        let number = self.first + self.issued;
        if number > LAST_NUMBER {
            return Ok(Err(IssueFault::Spent));
        }
        match make_room(&mut self.waiting, held + 1) {
            Ok(()) => {}
            Err(_) => return Ok(Err(IssueFault::Memory)),
        }
        let waits = is_waiting(&phase);
        let runs = is_running(&phase);
        match self.phases.append(number, phase, effect, store) {
            Ok(Ok(())) => {}
            Ok(Err(fault)) => return Err(fault),
            Err(_) => return Ok(Err(IssueFault::Memory)),
        }
        renew(&mut self.waiting, number, false, waits);
        self.issued += 1;
        self.running = recount(self.running, false, runs);
        Ok(Ok(number))
    }

    /// Puts a job that is held into another phase, and gives the one before. It takes no memory.
    pub(crate) fn put(&mut self, number: u64, phase: Phase) -> Phase
        requires { IsSome (phase_of number self.old.jobs) }
        ensures moved { self.new ≡ moved number phase self.old }
        ensures before { phase_of number self.old.jobs ≡ Some result }
    {
        let waits = is_waiting(&phase);
        let runs = is_running(&phase);
        let before = self.phases.replace(number, phase);
        renew(&mut self.waiting, number, is_waiting(&before), waits);
        self.running = recount(self.running, is_running(&before), runs);
        before
    }

    /// Gives up a job that neither waits nor runs.
    pub(crate) fn forget(&mut self, number: u64)
        requires { IsSomeAnd (phase_of number self.old.jobs) (λ phase. (is_waiting phase ≡ false) × (is_running phase ≡ false)) }
        ensures { self.new ≡ forgotten number self.old }
    {
        self.phases.take_away(number);
    }

    /// The first job that waits, which runs from then on.
    pub(crate) fn start(&mut self) -> Option<Job>
        ensures { claims (first_waiting self.old.jobs) self.old ≡ outcome (Reply.Gave result) self.new }
    {
        match self.first_waiting() {
            Some(number) => Some(self.run(number)),
            None => None,
        }
    }

    /// Runs the first job that waits, which has this number.
    fn run(&mut self, number: u64) -> Job
        requires { IsFirstWaiting number self.old.jobs }
        ensures given { first_waiting self.old.jobs ≡ Some result }
        ensures runs { self.new ≡ moved result.number (Running result.osil result.osol false) self.old }
    {
        let (osil, osol) = self.put(number, Phase::Issued).into_twins();
        let (kept_osil, osil) = osil.split();
        let (kept_osol, osol) = osol.split();
        self.put(
            number,
            Phase::Running {
                osil: kept_osil,
                osol: kept_osol,
                marked: false,
            },
        );
        Job { number, osil, osol }
    }

    /// Kills a job that doesn't run yet, marks one that runs, and gives up one that is over.
    pub(crate) fn stop(&mut self, number: u64)
        ensures { self.new ≡ kills number (phase_of number self.old.jobs) self.old }
    {
        match self.phase(number) {
            Some(Phase::Issued | Phase::Waiting { .. }) => {
                self.put(number, Phase::Killed);
            }
            Some(Phase::Running { .. }) => self.mark(number),
            Some(Phase::Finished(_) | Phase::Killed) => self.forget(number),
            None => {}
        }
    }

    /// Asks a job that is held to stop: one that has its texts runs.
    pub(crate) fn mark(&mut self, number: u64)
        requires { IsSome (phase_of number self.old.jobs) }
        ensures { (phase : Phase) → phase_of number self.old.jobs ≡ Some phase → self.new ≡ moved number (marked phase) self.old }
    {
        let phase = self.put(number, Phase::Issued);
        self.put(number, phase.into_marked());
    }

    /// The number of the first job that runs and was asked to stop.
    fn marked(&self) -> Option<u64>
        ensures some { IfSome result (λ number. is_marked (phase_of number self.now.jobs) ≡ true) }
        ensures none { IfNone result (settled self.now ≡ self.now) }
    {
        self.phases.first_marked()
    }

    /// Law: the numbers rise.
    pub(crate) fn rise(&self)
        ensures { Rises self.now }
    {
        // The prover learns what a field keeps at a call that is given the field.
        let _ = self.waiting.len();
    }

    /// Kills each job that runs and was asked to stop.
    pub(crate) fn settle(&mut self)
        ensures { self.new ≡ settled self.old }
    {
        while self.kill_marked() {}
    }

    /// Kills the first job that runs and was asked to stop; false where there is none.
    fn kill_marked(&mut self) -> bool
        ensures still { settled self.new ≡ settled self.old }
        ensures fewer { result ≡ true → running_jobs self.new.jobs + 1 ≡ running_jobs self.old.jobs }
        ensures none { result ≡ false → settled self.new ≡ self.new }
    {
        match self.marked() {
            Some(number) => {
                self.put(number, Phase::Killed);
                true
            }
            None => false,
        }
    }

    /// One more worker.
    pub(crate) fn enlist(&mut self)
        ensures { self.new ≡ record self.old { workers = min (self.old.workers + 1) (2 ^ 32 - 1) } }
    {
        self.workers = self.workers.saturating_add(1);
    }

    /// One worker less.
    pub(crate) fn leave(&mut self)
        ensures { self.new ≡ record self.old { workers = self.old.workers - 1 } }
    {
        self.workers = self.workers.saturating_sub(1);
    }
}
