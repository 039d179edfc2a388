//! The calls of a disk that change nothing.

ghost use Rattle.std.specs.Prelude.{◌≡◌, ◌≤◌, true, length, IfOk, OnOk};
ghost use Rattle.os_io.specs.Streams.{Counts};
ghost use Rattle.job_journal.specs.Opening.{Calm};
ghost use Rattle.disks.specs.Disks.{GivesAt, Only};

use disks::Disk;
use os_io::Failed;

/// The number of bytes.
pub(crate) fn length_of<D: Disk>(disk: &mut D) -> Result<u64, Failed>
    ensures value { IfOk result (λ n. D.told disk.old ≡ true → n ≡ length (D.seen disk.old)) }
    ensures calm { Calm D.told D.seen D.may_leave D.moment D.left_since disk.old disk.new }
    ensures cause { Counts result (D.faults disk.old) (D.faults disk.new) }
{
    disk.len()
}

/// Reads some bytes from a place on.
pub(crate) fn piece_at<D: Disk>(disk: &mut D, at: u64, piece: &mut [u8]) -> Result<usize, Failed>
    ensures within { IfOk result (λ n. n ≤ length piece.old) }
    ensures read { IfOk result (λ n. D.told disk.old ≡ true → GivesAt at (D.seen disk.old) piece.new n) }
    ensures calm { Calm D.told D.seen D.may_leave D.moment D.left_since disk.old disk.new }
    ensures cause { Counts result (D.faults disk.old) (D.faults disk.new) }
{
    disk.read_at(at, piece)
}

/// Brings to rest what was written.
pub(crate) fn settle<D: Disk>(disk: &mut D) -> Result<(), Failed>
    ensures durable { OnOk result (D.told disk.old ≡ true → Only (D.seen disk.new) (D.may_leave disk.new)) }
    ensures calm { Calm D.told D.seen D.may_leave D.moment D.left_since disk.old disk.new }
    ensures cause { Counts result (D.faults disk.old) (D.faults disk.new) }
{
    disk.sync()
}
