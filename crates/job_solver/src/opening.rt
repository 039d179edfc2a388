//! The table that a journal keeps.
ghost use Rattle.std.specs.Prelude.{◌≡◌, ◌⊎◌, ◌≤◌, true, false, List, IfOk, IfErr};
ghost use Rattle.disks.specs.Disks.{LeavesOnly};
ghost use Rattle.effects.specs.Fold.{nothing};
ghost use Rattle.effects.specs.Records.{AllFit, Deed};
ghost use Rattle.job_table.specs.Steps.{most_first};
ghost use Rattle.job_table.specs.Jobs.{Rises, NobodyRuns};
ghost use Rattle.job_journal.specs.Journal.{FileRests, FileStandsFor};
ghost use Rattle.job_journal.specs.Opening.{Calm, CountsBack, CountsOpening, DamagedIn, FoldsTo};
ghost use Rattle.job_solver.specs.Openings.{NumbersBeginWith, BegunWith, TableGoesOn, IsOfFile, IsOfNumber, IsTableOf, StandsOrBegins};
ghost use Rattle.job_solver.specs.Sieves.{Sifts};

use crate::sieve::DocumentSieve;
use crate::solver::SolvedJobs;
use disks::Disk;
use effects::{Effect, NotStored, Replay};
use job_journal::{Journal, OpenFault, open_journal};
use job_table::{Remade, Table};
use std::alloc::Global;

/// Where no number was given yet, numbers begin with this one, and the journal has that too, unless they do already or there is no
/// room for that in the journal.
fn begin_with<D: Disk>(
    journal: &mut Journal<D>,
    table: &mut Remade<SolvedJobs>,
    first: u64,
) -> Result<(), OpenFault>
    requires some { 1 ≤ first }
    requires within { first ≤ most_first }
    requires sound { journal.old.broken ≡ false }
    ensures begun { IfOk result (λ _. BegunWith D.seen D.may_leave D.told first journal.old.disk journal.old.end table.old journal.new.disk journal.new.end table.new) }
    ensures begins { IfOk result (λ _. NumbersBeginWith first journal.new.end table.new.first table.new.issued) }
    ensures sound { IfOk result (λ _. journal.new.broken ≡ false) }
    ensures any_moment { (deeds : List Deed) → D.told journal.old.disk ≡ true → FileRests D.seen D.may_leave journal.old.disk journal.old.end deeds
        → FoldsTo Sifts nothing deeds table.old → LeavesOnly D.moment D.left_since journal.old.disk journal.new.disk (StandsOrBegins first deeds) }
    ensures err { IfErr result IsOfNumber }
    ensures cause { CountsOpening result (D.faults journal.old.disk) (D.faults journal.new.disk) }
{
    if table.has_given() || table.first() == first {
        return Ok(());
    }
    let begin = Effect::Begin { first };
    match journal.put(&begin) {
        Ok(()) => match table.apply(&begin) {
            Ok(_) => Ok(()),
            Err(_) => Err(OpenFault::Memory),
        },
        Err(NotStored::Disk) => Err(OpenFault::WriteFault),
        Err(NotStored::Broken) => Ok(()),
        Err(NotStored::Long) => Ok(()),
    }
}

/// Opens the journal of a table of jobs that are solved: the table goes on from what the journal keeps. Numbers begin with this one
/// where none was given yet. Where it isn't opened, the disk is given back.
pub fn open_jobs<D: Disk>(
    alloc: Global,
    disk: D,
    first: u64,
) -> Result<(Table<SolvedJobs>, Journal<D>), (OpenFault, D)>
    requires some { 1 ≤ first }
    requires within { first ≤ most_first }
    ensures sound { IfOk result (λ r. (r.1.broken ≡ false) × Rises r.0 × NobodyRuns r.0) }

    // Numbers begin with this one where none was given yet, unless the journal has no room to say so.
    ensures begins { IfOk result (λ r. NumbersBeginWith first r.1.end r.0.first r.0.issued) }

    // The table goes on from effects, and each of its documents is accepted, also where the disk doesn't tell what it holds.
    ensures goes_on { IfOk result (λ r. (deeds : List Deed) × TableGoesOn deeds r.0) }

    // These are the effects that the file stood for.
    ensures opened { IfOk result (λ r. D.told disk ≡ true → IsTableOf D.seen D.may_leave (D.seen disk) first r.0 r.1.disk r.1.end) }

    // A crash at any moment leaves what it might have left before, the effects that the file stood for, or, where that is
    // possible behind them, these and the number.
    ensures any_moment { IfOk result (λ r. (deeds : List Deed) → D.told disk ≡ true → AllFit deeds → FileStandsFor deeds (D.seen disk)
        → LeavesOnly D.moment D.left_since disk r.1.disk (λ c. D.may_leave disk c ⊎ StandsOrBegins first deeds c)) }
    ensures any_moment_err { IfErr result (λ f. (deeds : List Deed) → D.told disk ≡ true → AllFit deeds → FileStandsFor deeds (D.seen disk)
        → LeavesOnly D.moment D.left_since disk f.1 (λ c. D.may_leave disk c ⊎ StandsOrBegins first deeds c)) }

    // A file that wasn't read or is damaged is left as it is.
    ensures left { IfErr result (λ f. IsOfFile f.0 → Calm D.told D.seen D.may_leave D.moment D.left_since disk f.1) }

    // Damaged comes only where the file is, and a fault of reading or writing exactly where one was counted.
    ensures damaged { IfErr result (λ f. D.told disk ≡ true → DamagedIn Sifts (D.seen disk) f.0) }
    ensures cause { CountsBack (λ r. D.faults r.1.disk) D.faults result (D.faults disk) }
{
    let mut table = Remade::new(alloc);
    let mut sieve = DocumentSieve::new(alloc);
    match open_journal(alloc, disk, &mut table, &mut sieve) {
        Ok(mut journal) => match begin_with(&mut journal, &mut table, first) {
            Ok(()) => {
                let table = table.into_table();
                Ok((table, journal))
            }
            Err(fault) => Err((fault, journal.into_disk())),
        },
        Err(back) => Err(back),
    }
}
