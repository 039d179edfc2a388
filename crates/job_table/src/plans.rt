//! What a move would change, before it is made.

ghost use Rattle.std.specs.Prelude.{◌≡◌, Some, None, if◌then◌else◌};
ghost use Rattle.std.specs.Option.{option_map, option_copied};
ghost use Rattle.effects.specs.Records.{deed_of, paper_of};
ghost use Rattle.effects.specs.Stores.{PutsIf, fault_of};
ghost use Rattle.job_table.specs.Plans.{planned, has_room, takes_texts, killed_of, PlansSo};
ghost use Rattle.job_table.specs.Jobs.{phase_of};

use crate::entries::{TableMove, Verdicts};
use crate::job::{Job, Phase};
use crate::table::Table;
use crate::texts::{SharedText, Twin};
use effects::{Document, Effect, NotStored, Store};

/// The document of a finish.
fn document_of(document: &Option<SharedText>) -> Document<'_>
    ensures { paper_of result ≡ document.now }
{
    match document {
        Some(text) => Document::Kept {
            text: text.as_slice(),
        },
        None => Document::Missing,
    }
}

/// What a kill of a job in that phase changes.
fn killing_of<'a>(number: u64, phase: Option<&Phase>) -> Option<Effect<'a>>
    ensures { option_map deed_of result ≡ killed_of number (option_copied phase.entry) }
{
    match phase {
        Some(Phase::Issued | Phase::Waiting { .. }) => Some(Effect::Killed { number }),
        Some(Phase::Running { marked, .. }) => {
            if *marked {
                return None;
            }
            Some(Effect::Marked { number })
        }
        Some(Phase::Finished(_) | Phase::Killed) => Some(Effect::GivenUp { number }),
        None => None,
    }
}

/// Whether a job in that phase takes texts.
pub(crate) fn takes_texts(phase: Option<&Phase>) -> bool
    ensures { result ≡ takes_texts (option_copied phase.entry) }
{
    matches!(phase, Some(Phase::Issued))
}

/// An effect, where there is one.
fn only_if(is: bool, effect: Effect<'_>) -> Option<Effect<'_>>
    ensures { option_map deed_of result ≡ (if is then Some (deed_of effect.entry) else None) }
{
    if is { Some(effect) } else { None }
}

/// Puts an effect, where there is one.
pub(crate) fn put_if<S: Store>(store: &mut S, effect: Option<Effect<'_>>) -> Result<(), NotStored>
    ensures { PutsIf S.keeps S.passes S.too_long S.broken S.faults (option_map deed_of effect.entry) store.old (fault_of result) store.new }
{
    match effect {
        Some(effect) => store.put(&effect),
        None => Ok(()),
    }
}

impl<V: Verdicts> Table<V> {
    /// The effect of a send.
    pub(crate) fn plan_send<'a>(
        &self,
        number: u64,
        osil: &'a Twin,
        osol: &'a Twin,
    ) -> Option<Effect<'a>>
        ensures { option_map deed_of result ≡ planned (TableMove.Send number osil.now osol.now) self.now }
    {
        let (osil, osol) = (osil.as_slice(), osol.as_slice());
        let sent = Effect::Send { number, osil, osol };
        only_if(takes_texts(self.jobs.phase(number)), sent)
    }

    /// The effect of a finish.
    pub(crate) fn plan_finish<'a>(
        &self,
        job: &Job,
        asked: bool,
        document: &'a Option<SharedText>,
    ) -> Option<Effect<'a>>
        ensures { option_map deed_of result ≡ planned (TableMove.Finish job.now asked document.now) self.now }
    {
        let (number, document) = (job.number, document_of(document));
        match self.jobs.unkept(job, asked) {
            Some(_) => None,
            None => Some(Effect::Finish { number, document }),
        }
    }

    /// The effect of a kill.
    pub(crate) fn plan_kill<'a>(&self, number: u64) -> Option<Effect<'a>>
        ensures { option_map deed_of result ≡ planned (TableMove.Kill number) self.now }
    {
        killing_of(number, self.jobs.phase(number))
    }

    /// The effect that a move has in this table, where it has one. It takes no memory, and changes nothing.
    pub fn plan<'a>(&self, table_move: &'a TableMove) -> Option<Effect<'a>>
        ensures { option_map deed_of result ≡ planned table_move.now self.now }
    {
        match table_move {
            TableMove::Issue => only_if(self.jobs.has_room(), Effect::Issue),
            TableMove::Send { number, osil, osol } => self.plan_send(*number, osil, osol),
            TableMove::Enter { osil, osol } => {
                let (osil, osol) = (osil.as_slice(), osol.as_slice());
                only_if(self.jobs.has_room(), Effect::Enter { osil, osol })
            }
            TableMove::Finish {
                job,
                asked,
                document,
            } => self.plan_finish(job, *asked, document),
            TableMove::Kill { number } => self.plan_kill(*number),
            TableMove::Claim { .. } | TableMove::Look { .. } | TableMove::Retrieve { .. } => None,
            TableMove::Knock | TableMove::Enlist | TableMove::Leave => None,
        }
    }
}

/// Law: where numbers rise, the effect of each move leads from what effects see of the table to what they see of it after the
/// move; a move without one changes nothing of that.
pub fn plans_are_so()
    ensures { PlansSo }
{}
