//! What holds of every history of jobs that are solved.
ghost use Rattle.std.specs.Prelude.{ℕ, ◌≤◌, Bool, Some, List, length};
ghost use Rattle.effects.specs.Records.{Deed, most_text};
ghost use Rattle.job_journal.specs.Journal.{FileStandsFor};
ghost use Rattle.job_journal.specs.Opening.{IsDamaged};
ghost use Rattle.solve_run.specs.JobAnswers.{Right};
ghost use Rattle.job_solver.specs.ProvedDocuments.{ShownAreProved};
ghost use Rattle.job_solver.specs.Sieves.{Sifts};
ghost use Rattle.job_solver.specs.StoredDocuments.{ShownAreProvedFrom};
ghost use Rattle.job_solver.specs.StoredEffects.{AreSoundDeeds, PutsStaySound};

use crate::solver::SolvedJobs;
use job_table::{documents_are_right, plans_are_so};
use solve_run::{claims_are_accepted, result_documents_are_read_back};

/// Law: each document that is shown in a history of solved jobs, from an empty table on, is proved by what stands before it: a finish
/// that was kept brought it, and before that finish stand the send or the enter that brought its texts, and, where it says that the
/// job was asked to stop, a kill of the job.
pub fn shown_documents_are_proved()
    ensures { ShownAreProved }
{
    documents_are_right::<SolvedJobs>();
    claims_are_accepted();
}

/// Law: the same in a history from a table on that a journal gave, in which no job runs: what is shown is proved so, or the table had it
/// at first. A job that waited there has its texts from there.
pub fn shown_documents_are_proved_from_tables()
    ensures { ShownAreProvedFrom }
{
    documents_are_right::<SolvedJobs>();
    claims_are_accepted();
}

/// Law: a document that is right is accepted when a journal is opened, whatever it says, and isn't longer than a text of a journal's
/// record may be. So no document that this service stores makes its journal damaged.
pub fn right_documents_are_accepted()
    ensures accepted { (osil osol : List ℕ) (asked : Bool) (document : List ℕ) → Right osil osol asked (Some document) → Sifts osil document }
    ensures short { (osil osol : List ℕ) (asked : Bool) (document : List ℕ) → Right osil osol asked (Some document) → length document ≤ most_text }
{
    result_documents_are_read_back();
    claims_are_accepted();
}

/// Law: what moves of solved jobs put behind the effects from which their table goes on is possible there and accepted, and no text of
/// it is too long, where no text that was sent is; and so is the effect of one move more. A file that stands for such effects isn't
/// damaged: the service opens again what it wrote.
pub fn puts_stay_sound()
    ensures sound { PutsStaySound }
    ensures undamaged { (deeds : List Deed) (file : List ℕ) (place : ℕ) → AreSoundDeeds deeds → FileStandsFor deeds file → IsDamaged Sifts file place → ⊥ }
{
    right_documents_are_accepted();
    plans_are_so();
}
