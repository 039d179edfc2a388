//! Counts of faults.
ghost use Rattle.os_io.specs.Streams.{HasRisen};

use crate::streams::Failed;

/// Raises a count of faults that isn't at its greatest, and gives what a call that failed answers.
pub fn count_fault(faults: &mut u64) -> Failed
    ensures { HasRisen faults.old faults.new }
{
    *faults = faults.saturating_add(1);
    Failed
}
