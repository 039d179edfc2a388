//! Effects, made again in a table.

ghost use Rattle.std.specs.Prelude.{◌≡◌, nat_lt, Some, None, is_some, true, false, if◌then◌else◌, IfOk};
ghost use Rattle.std.specs.Option.{option_copied};
ghost use Rattle.effects.specs.Records as deeds;
ghost use Rattle.effects.specs.Records.{paper_of, deed_of};
ghost use Rattle.effects.specs.Fold.{nothing, osil_in, stage_of};
ghost use Rattle.job_table.specs.Jobs.{phase_of, is_waiting, Rises, NobodyRuns};
ghost use Rattle.job_table.specs.Plans.{ledger_of};
ghost use Rattle.job_table.specs.Remade.{takes_document, takes_kill, takes_mark, takes_farewell, Remakes, TriesAgain, osil_of, table_of};

use crate::entries::{IssueFault, Verdicts};
use crate::job::Phase;
use crate::jobs::Jobs;
use crate::plans::takes_texts;
use crate::table::Table;
use crate::texts::{SharedText, Twin};
use effects::{Document, Effect, MOST_FIRST, Replay};
use os_io::{Memory, Text};
use std::alloc::{AllocError, Global};
use std::marker::{Model, PhantomData};

/// A text of these bytes, with two owners.
fn twin(alloc: Global, bytes: &[u8]) -> Result<Twin, Memory>
    ensures { IfOk result (λ text. text ≡ bytes.now) }
{
    match Text::from_slice(alloc, bytes) {
        Ok(text) => Twin::new(alloc, text),
        Err(lost) => Err(lost),
    }
}

/// The texts of a job that waits.
fn waiting(alloc: Global, osil: &[u8], osol: &[u8]) -> Result<Phase, Memory>
    ensures { IfOk result (λ phase. phase ≡ Phase.Waiting osil.now osol.now) }
{
    match twin(alloc, osil) {
        Ok(osil) => match twin(alloc, osol) {
            Ok(osol) => Ok(Phase::Waiting { osil, osol }),
            Err(lost) => Err(lost),
        },
        Err(lost) => Err(lost),
    }
}

/// The document of a job that is finished.
fn finished(alloc: Global, document: &Document) -> Result<Phase, Memory>
    ensures { IfOk result (λ phase. phase ≡ Phase.Finished (paper_of document.now)) }
{
    match document {
        Document::Missing => Ok(Phase::Finished(None)),
        Document::Kept { text } => match Text::from_slice(alloc, text) {
            Ok(text) => match SharedText::new(alloc, text) {
                Ok(text) => Ok(Phase::Finished(Some(text))),
                Err(lost) => Err(lost),
            },
            Err(lost) => Err(lost),
        },
    }
}

/// Whether a job in that phase takes a document.
fn takes_document(phase: Option<&Phase>) -> bool
    ensures { result ≡ takes_document (option_copied phase.entry) }
{
    matches!(phase, Some(Phase::Waiting { .. } | Phase::Running { .. }))
}

/// Whether a job in that phase is killed before it runs.
fn takes_kill(phase: Option<&Phase>) -> bool
    ensures { result ≡ takes_kill (option_copied phase.entry) }
{
    match phase {
        Some(Phase::Issued | Phase::Waiting { .. }) => true,
        Some(Phase::Running { marked, .. }) => !*marked,
        Some(Phase::Finished(_) | Phase::Killed) | None => false,
    }
}

/// Whether a job in that phase is asked to stop.
fn takes_mark(phase: Option<&Phase>) -> bool
    ensures { result ≡ takes_mark (option_copied phase.entry) }
{
    match phase {
        Some(Phase::Waiting { .. }) => true,
        Some(Phase::Running { marked, .. }) => !*marked,
        Some(Phase::Issued | Phase::Finished(_) | Phase::Killed) | None => false,
    }
}

/// Whether a job in that phase is given up.
fn takes_farewell(phase: Option<&Phase>) -> bool
    ensures { result ≡ takes_farewell (option_copied phase.entry) }
{
    match phase {
        Some(Phase::Running { marked, .. }) => *marked,
        Some(Phase::Finished(_) | Phase::Killed) => true,
        Some(Phase::Issued | Phase::Waiting { .. }) | None => false,
    }
}

/// The text of the instance of a job in that phase that takes a document.
fn osil_of(phase: Option<&Phase>) -> Option<&[u8]>
    ensures { option_copied result ≡ osil_of (option_copied phase.entry) }
{
    match phase {
        Some(Phase::Waiting { osil, .. }) => Some(osil.as_slice()),
        Some(Phase::Running { osil, .. }) => Some(osil.as_slice()),
        Some(Phase::Issued | Phase::Finished(_) | Phase::Killed) | None => None,
    }
}

/// Whether a job is there.
fn is_there(phase: Option<&Phase>) -> bool
    ensures { result ≡ is_some (option_copied phase.entry) }
{
    match phase {
        Some(_) => true,
        None => false,
    }
}

impl Jobs {
    /// A new job with its number alone, again.
    fn issue_again(&mut self) -> Result<bool, Memory>
        ensures { TriesAgain deeds.Issue self.old result self.new }
    {
        match self.add(Phase::Issued) {
            Ok(_) => Ok(true),
            Err(IssueFault::Full) => Ok(false),
            Err(IssueFault::Spent) => Ok(false),
            Err(IssueFault::Memory) => Err(AllocError),
        }
    }

    /// A new job with its texts, again.
    fn enter_again(&mut self, alloc: Global, osil: &[u8], osol: &[u8]) -> Result<bool, Memory>
        ensures { TriesAgain (deeds.Enter osil.now osol.now) self.old result self.new }
    {
        match waiting(alloc, osil, osol) {
            Ok(phase) => match self.add(phase) {
                Ok(_) => Ok(true),
                Err(IssueFault::Full) => Ok(false),
                Err(IssueFault::Spent) => Ok(false),
                Err(IssueFault::Memory) => Err(AllocError),
            },
            Err(lost) => Err(lost),
        }
    }

    /// Texts, again.
    fn send_again(
        &mut self,
        alloc: Global,
        number: u64,
        osil: &[u8],
        osol: &[u8],
    ) -> Result<bool, Memory>
        ensures { TriesAgain (deeds.Send number osil.now osol.now) self.old result self.new }
    {
        if !takes_texts(self.phase(number)) {
            return Ok(false);
        }
        match waiting(alloc, osil, osol) {
            Ok(phase) => {
                self.put(number, phase);
                Ok(true)
            }
            Err(lost) => Err(lost),
        }
    }

    /// A document, again.
    fn finish_again(
        &mut self,
        alloc: Global,
        number: u64,
        document: &Document,
    ) -> Result<bool, Memory>
        ensures { TriesAgain (deeds.Finish number (paper_of document.now)) self.old result self.new }
    {
        if !takes_document(self.phase(number)) {
            return Ok(false);
        }
        match finished(alloc, document) {
            Ok(phase) => {
                self.put(number, phase);
                Ok(true)
            }
            Err(lost) => Err(lost),
        }
    }

    /// A kill of a job that wasn't run, again.
    fn kill_again(&mut self, number: u64) -> bool
        ensures { Remakes (deeds.Killed number) self.old result self.new }
    {
        if !takes_kill(self.phase(number)) {
            return false;
        }
        self.put(number, Phase::Killed);
        true
    }

    /// A mark, again.
    fn mark_again(&mut self, number: u64) -> bool
        ensures { Remakes (deeds.Marked number) self.old result self.new }
    {
        if !takes_mark(self.phase(number)) {
            return false;
        }
        self.mark(number);
        true
    }

    /// A job's record is given up, again.
    fn give_up_again(&mut self, number: u64) -> bool
        ensures { Remakes (deeds.GivenUp number) self.old result self.new }
    {
        if !takes_farewell(self.phase(number)) {
            return false;
        }
        self.put(number, Phase::Killed);
        self.forget(number);
        true
    }

    /// Numbers begin with another one, where none was given.
    fn begin_again(&mut self, first: u64) -> bool
        ensures { Remakes (deeds.Begin first) self.old result self.new }
    {
        if self.issued() == 0 && 1 <= first && first <= MOST_FIRST {
            self.begin(first);
            true
        } else {
            false
        }
    }

    /// An effect, again.
    fn make_again(&mut self, alloc: Global, effect: &Effect) -> Result<bool, Memory>
        ensures { TriesAgain (deed_of effect.now) self.old result self.new }
    {
        match effect {
            Effect::Issue => self.issue_again(),
            Effect::Send { number, osil, osol } => self.send_again(alloc, *number, osil, osol),
            Effect::Enter { osil, osol } => self.enter_again(alloc, osil, osol),
            Effect::Finish { number, document } => self.finish_again(alloc, *number, document),
            Effect::Killed { number } => Ok(self.kill_again(*number)),
            Effect::Marked { number } => Ok(self.mark_again(*number)),
            Effect::GivenUp { number } => Ok(self.give_up_again(*number)),
            Effect::Begin { first } => Ok(self.begin_again(*first)),
        }
    }
}

/// A table that effects are made in again. Contracts see what they left. Nobody runs its jobs: one that has its texts waits,
/// also where it ran before, and one that was asked to stop while it ran keeps its texts until no effect is left.
#[derive(Drop)]
pub struct Remade<V: Verdicts> {
    alloc: Global,
    jobs: Jobs,
    verdicts: PhantomData<V>,
}

impl<V: Verdicts> Model for Remade<V> {
    ghost use Rattle.effects.specs.Fold.{Ledger};
    ghost use Rattle.job_table.specs.Plans.{ledger_of};
    ghost use Rattle.job_table.specs.Remade.{IsRemade};

    ghost Value = { Ledger };

    ghost view = { λ t. ledger_of t.jobs };

    ghost invariant = { λ t. IsRemade t.jobs };
}

impl<V: Verdicts> Remade<V> {
    /// One in which none was made yet.
    pub fn new(alloc: Global) -> Remade<V>
        ensures { result ≡ nothing }
    {
        Remade {
            alloc,
            jobs: Jobs::new(alloc, 1),
            verdicts: PhantomData,
        }
    }

    /// The number with which numbers begin.
    pub fn first(&self) -> u64
        ensures { result ≡ self.now.first }
    {
        self.jobs.first()
    }

    /// Whether a number was given.
    pub fn has_given(&self) -> bool
        ensures { result ≡ nat_lt 0 self.now.issued }
    {
        self.jobs.issued() > 0
    }

    /// The table that goes on from what they left: a job that was asked to stop is killed. Nobody runs one.
    pub fn into_table(self) -> Table<V>
        ensures goes_on { result ≡ table_of self }
        ensures rises { Rises result }
        ensures nobody { NobodyRuns result }
    {
        let Remade {
            alloc,
            mut jobs,
            verdicts,
        } = self;
        jobs.settle();
        jobs.rise();
        Table {
            alloc,
            jobs,
            verdicts,
        }
    }
}

impl<V: Verdicts> Replay for Remade<V> {
    ghost holds = { λ t. t };

    fn apply(&mut self, effect: &Effect) -> Result<bool, Memory> {
        self.jobs.make_again(self.alloc, effect)
    }

    fn osil(&self, number: u64) -> Option<&[u8]> {
        osil_of(self.jobs.phase(number))
    }

    fn has_job(&self, number: u64) -> bool {
        is_there(self.jobs.phase(number))
    }
}
