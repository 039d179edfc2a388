//! The end of a file, repaired.

ghost use Rattle.std.specs.Prelude.{◌≡◌, ◌<◌, ◌≤◌, ◌+◌, ◌-◌, ◌^◌, ◌∷◌, [], List, ℕ, true, length, OnOk};
ghost use Rattle.os_io.specs.Streams.{Counts};
ghost use Rattle.disks.specs.Disks.{LeavesOnly, Only};
ghost use Rattle.effects.specs.Records.{Deed, records, EndsBehindGate};
ghost use Rattle.job_journal.specs.Journal.{FileRests, FileStandsFor};

use disks::Disk;
use os_io::Failed;

/// Begins a file of at most one byte anew.
pub(crate) fn begin<D: Disk>(disk: &mut D) -> Result<(), Failed>
    ensures begun { OnOk result (D.told disk.old ≡ true → length (D.seen disk.old) ≤ 1 → FileRests D.seen D.may_leave disk.new 0 []) }
    ensures closed { OnOk result (D.told disk.old ≡ true → length (D.seen disk.old) ≤ 1 → D.seen disk.new ≡ 0 ∷ []) }
    ensures any_moment { D.told disk.old ≡ true → length (D.seen disk.old) ≤ 1 → Only (D.seen disk.old) (D.may_leave disk.old) → LeavesOnly D.moment D.left_since disk.old disk.new (FileStandsFor []) }
    ensures told { D.told disk.new ≡ D.told disk.old }
    ensures cause { Counts result (D.faults disk.old) (D.faults disk.new) }
{
    disk.write_at(0, &[0])?;
    disk.sync()?;
    Ok(())
}

/// Cuts what follows the gate at that place.
pub(crate) fn cut_behind<D: Disk>(disk: &mut D, end: u64) -> Result<(), Failed>
    requires small { end < 2 ^ 64 - 1 }
    requires within { D.told disk.old ≡ true → end + 1 ≤ length (D.seen disk.old) }
    ensures cut { OnOk result ((deeds : List Deed) → D.told disk.old ≡ true → EndsBehindGate deeds (D.seen disk.old) → end ≡ length (records deeds) → FileRests D.seen D.may_leave disk.new end deeds) }
    ensures any_moment { (deeds : List Deed) → D.told disk.old ≡ true → EndsBehindGate deeds (D.seen disk.old) → end ≡ length (records deeds) → Only (D.seen disk.old) (D.may_leave disk.old)
        → LeavesOnly D.moment D.left_since disk.old disk.new (FileStandsFor deeds) }
    ensures told { D.told disk.new ≡ D.told disk.old }
    ensures cause { Counts result (D.faults disk.old) (D.faults disk.new) }
{
    disk.cut(end + 1)?;
    disk.sync()?;
    Ok(())
}
