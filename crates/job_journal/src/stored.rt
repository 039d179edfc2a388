//! The two writes to a disk, each with a sync behind it, that store a record.

ghost use Rattle.std.specs.Prelude.{◌≡◌, ◌<◌, ◌≤◌, ◌+◌, ◌-◌, ◌^◌, ◌++◌, ◌∷◌, [], List, ℕ, true, length, OnOk};
ghost use Rattle.os_io.specs.Streams.{Counts};
ghost use Rattle.disks.specs.Disks.{IsWrittenAt, LeavesOnly, Only};
ghost use Rattle.effects.specs.Records.{Deed, body, records};
ghost use Rattle.job_journal.specs.Journal.{FileRests, IsBeforeOrAfter, MayTear};

use disks::Disk;
use os_io::Failed;

/// Writes these bytes at this place, and syncs. A crash at any moment of it leaves what one would have left before, with any bytes in the
/// range.
fn write_through<D: Disk>(disk: &mut D, at: u64, bytes: &[u8]) -> Result<(), Failed>
    requires { D.told disk.old ≡ true → at ≤ length (D.seen disk.old) }
    ensures written { OnOk result (D.told disk.old ≡ true → IsWrittenAt (D.seen disk.old) at bytes.now (D.seen disk.new)) }
    ensures durable { OnOk result (D.told disk.old ≡ true → Only (D.seen disk.new) (D.may_leave disk.new)) }
    ensures any_moment { D.told disk.old ≡ true → LeavesOnly D.moment D.left_since disk.old disk.new (MayTear at (length bytes.now) (D.may_leave disk.old)) }
    ensures told { D.told disk.new ≡ D.told disk.old }
    ensures cause { Counts result (D.faults disk.old) (D.faults disk.new) }
{
    disk.write_at(at, bytes)?;
    disk.sync()?;
    Ok(())
}

/// Stores a record, given from its kind on with a closed gate behind it, at the gate that ends the file.
pub(crate) fn store<D: Disk>(disk: &mut D, end: u64, bytes: &[u8]) -> Result<(), Failed>
    requires small { end < 2 ^ 64 - 1 }
    requires within { D.told disk.old ≡ true → end + 1 ≤ length (D.seen disk.old) }

    // At Ok the record is at rest, and from then on each crash leaves a file that has it.
    ensures stored { OnOk result ((deeds : List Deed) (d : Deed) → D.told disk.old ≡ true → bytes.now ≡ body d ++ 0 ∷ [] → FileRests D.seen D.may_leave disk.old end deeds
        → FileRests D.seen D.may_leave disk.new (end + length bytes.now) (deeds ++ d ∷ [])) }

    // It ends with a closed gate.
    ensures closed { OnOk result ((deeds : List Deed) (d : Deed) → D.told disk.old ≡ true → bytes.now ≡ body d ++ 0 ∷ [] → FileRests D.seen D.may_leave disk.old end deeds → D.seen disk.new ≡ records (deeds ++ d ∷ []) ++ 0 ∷ []) }

    // A crash at any moment of the call leaves the effects from before it, with the new one or without.
    ensures any_moment { (deeds : List Deed) (d : Deed) → D.told disk.old ≡ true → bytes.now ≡ body d ++ 0 ∷ [] → FileRests D.seen D.may_leave disk.old end deeds
        → LeavesOnly D.moment D.left_since disk.old disk.new (IsBeforeOrAfter deeds d) }
    ensures told { D.told disk.new ≡ D.told disk.old }
    ensures cause { Counts result (D.faults disk.old) (D.faults disk.new) }
{
    write_through(disk, end + 1, bytes)?;
    write_through(disk, end, &[1])?;
    Ok(())
}
