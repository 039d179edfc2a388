//! A file that is opened.

ghost use Rattle.std.specs.Prelude.{◌≡◌, ◌⊎◌, ◌<◌, ◌≤◌, ◌∷◌, [], List, ℕ, true, false, length, IfOk, IfErr, OnOk};
ghost use Rattle.disks.specs.Disks.{LeavesOnly, Only};
ghost use Rattle.effects.specs.Records.{Deed, AllFit};
ghost use Rattle.effects.specs.Fold.{Ledger, nothing};
ghost use Rattle.job_journal.specs.Journal.{FileStandsFor, FileRests};
ghost use Rattle.job_journal.specs.Ahead.{StandsAhead};
ghost use Rattle.job_journal.specs.Opening.{Calm, CountsOpening, CountsBack, FoldsTo, LeavesFile, WasMade, IsUnfound, IsOpened, DamagedIn, IsDamaged};

use crate::contents::settle;
use crate::journal::{Journal, ROOM};
use crate::pieces::Ahead;
use crate::repairs::{begin, cut_behind};
use crate::scanning::{OpenFault, Sieve, scan};
use disks::Disk;
use effects::Replay;
use std::alloc::Global;

/// Brings the file to rest, and goes to its front.
fn approach<D: Disk>(alloc: Global, disk: &mut D) -> Result<Ahead, OpenFault>
    ensures front { IfOk result (λ ahead. (ahead.place ≡ 0) × (D.told disk.old ≡ true → StandsAhead (D.seen disk.old) ahead)) }
    ensures durable { OnOk result (D.told disk.old ≡ true → Only (D.seen disk.old) (D.may_leave disk.new)) }
    ensures calm { Calm D.told D.seen D.may_leave D.moment D.left_since disk.old disk.new }
    ensures err { IfErr result IsUnfound }
    ensures cause { CountsOpening result (D.faults disk.old) (D.faults disk.new) }
{
    match settle(disk) {
        Ok(()) => Ahead::at_front(alloc, disk),
        Err(_) => Err(OpenFault::WriteFault),
    }
}

/// Reads a file, makes its effects again and repairs its end; gives the place of the gate that ends it.
fn prepare<D: Disk, R: Replay, S: Sieve>(
    alloc: Global,
    disk: &mut D,
    table: &mut R,
    sieve: &mut S,
) -> Result<u64, OpenFault>
    requires { R.holds table.old ≡ nothing }
    ensures opened { IfOk result (λ end. D.told disk.old ≡ true → IsOpened S.accepted D.seen D.may_leave (D.seen disk.old) disk.new end (R.holds table.new)) }
    ensures made { IfOk result (λ _. WasMade S.accepted (R.holds table.new)) }
    ensures damaged { IfErr result (λ f. D.told disk.old ≡ true → DamagedIn S.accepted (D.seen disk.old) f) }
    ensures left { IfErr result (λ f. LeavesFile f → Calm D.told D.seen D.may_leave D.moment D.left_since disk.old disk.new) }
    ensures begun { OnOk result (D.told disk.old ≡ true → length (D.seen disk.old) ≤ 1 → D.seen disk.new ≡ 0 ∷ []) }
    ensures any_moment { (deeds : List Deed) → D.told disk.old ≡ true → AllFit deeds → FileStandsFor deeds (D.seen disk.old)
        → LeavesOnly D.moment D.left_since disk.old disk.new (λ c. D.may_leave disk.old c ⊎ FileStandsFor deeds c) }
    ensures told { D.told disk.new ≡ D.told disk.old }
    ensures cause { CountsOpening result (D.faults disk.old) (D.faults disk.new) }
{
    match approach(alloc, disk) {
        Ok(mut ahead) => {
            if ahead.is_within(1) {
                return match begin(disk) {
                    Ok(()) => Ok(0),
                    Err(_) => Err(OpenFault::WriteFault),
                };
            }
            match scan(disk, &mut ahead, table, sieve) {
                Ok(end) => match cut_behind(disk, end) {
                    Ok(()) => Ok(end),
                    Err(_) => Err(OpenFault::WriteFault),
                },
                Err(fault) => Err(fault),
            }
        }
        Err(fault) => Err(fault),
    }
}

/// Opens a file that a crash may have left: makes its effects again in an empty table, and cuts what follows the first gate that
/// isn't 1.
pub fn open_journal<D: Disk, R: Replay, S: Sieve>(
    alloc: Global,
    disk: D,
    table: &mut R,
    sieve: &mut S,
) -> Result<Journal<D>, (OpenFault, D)>
    requires { R.holds table.old ≡ nothing }

    // No put has failed yet.
    ensures unbroken { IfOk result (λ j. j.broken ≡ false) }
    ensures told { IfOk result (λ j. D.told j.disk ≡ D.told disk) }

    // The file stood for effects, which made the table, and is at rest with them.
    ensures opened { IfOk result (λ j. D.told disk ≡ true → IsOpened S.accepted D.seen D.may_leave (D.seen disk) j.disk j.end (R.holds table.new)) }

    // Each effect that made the table was possible and accepted after those before, also where the disk doesn't tell what it holds.
    ensures made { IfOk result (λ _. WasMade S.accepted (R.holds table.new)) }

    // Where it stood for these, the table is theirs, and the file at rest has them.
    ensures same { IfOk result (λ j. (deeds : List Deed) → D.told disk ≡ true → AllFit deeds → FileStandsFor deeds (D.seen disk)
        → FoldsTo S.accepted nothing deeds (R.holds table.new) × FileRests D.seen D.may_leave j.disk j.end deeds) }

    // Damaged comes only where the file is, and never where it stands for effects that are possible and accepted.
    ensures damaged { IfErr result (λ f. D.told disk ≡ true → DamagedIn S.accepted (D.seen disk) f.0) }
    ensures undamaged { IfErr result (λ f. (deeds : List Deed) (ledger : Ledger) → D.told disk ≡ true → AllFit deeds → FoldsTo S.accepted nothing deeds ledger → FileStandsFor deeds (D.seen disk) → IsUnfound f.0) }

    ensures sound { IfOk result (λ j. (place : ℕ) → D.told disk ≡ true → IsDamaged S.accepted (D.seen disk) place → ⊥) }

    // A file that wasn't opened stays as it was, unless a write failed, or a cut or a sync.
    ensures left { IfErr result (λ f. LeavesFile f.0 → Calm D.told D.seen D.may_leave D.moment D.left_since disk f.1) }

    // One of at most one byte is a closed gate then.
    ensures begun { IfOk result (λ j. D.told disk ≡ true → length (D.seen disk) ≤ 1 → D.seen j.disk ≡ 0 ∷ []) }

    // A fault of reading or writing is answered exactly where one was counted.
    ensures cause { CountsBack (λ j. D.faults j.disk) D.faults result (D.faults disk) }

    // A crash at any moment leaves what it might have left before, or the same effects.
    ensures any_moment { IfOk result (λ j. (deeds : List Deed) → D.told disk ≡ true → AllFit deeds → FileStandsFor deeds (D.seen disk)
        → LeavesOnly D.moment D.left_since disk j.disk (λ c. D.may_leave disk c ⊎ FileStandsFor deeds c)) }
    ensures any_moment_err { IfErr result (λ f. (deeds : List Deed) → D.told disk ≡ true → AllFit deeds → FileStandsFor deeds (D.seen disk)
        → LeavesOnly D.moment D.left_since disk f.1 (λ c. D.may_leave disk c ⊎ FileStandsFor deeds c)) }
{
    let mut disk = disk;
    match Vec::with_capacity(alloc, ROOM) {
        Ok(buffer) => match prepare(alloc, &mut disk, table, sieve) {
            Ok(end) => Ok(Journal {
                disk,
                buffer,
                end,
                broken: false,
            }),
            Err(fault) => Err((fault, disk)),
        },
        Err(_) => Err((OpenFault::Memory, disk)),
    }
}
