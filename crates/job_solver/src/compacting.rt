//! A journal of jobs that are solved, written again.

ghost use Rattle.job_solver.specs.Compactions.{Compacts};

use crate::sieve::DocumentSieve;
use crate::solver::SolvedJobs;
use disks::Disk;
use job_journal::{CompactFault, compact};
use job_table::Remade;
use std::alloc::Global;

/// Writes the journal of a table of jobs that are solved again, into a file of at most one byte, without what jobs had that are gone:
/// opened by [`open_jobs`](crate::open_jobs), it gives the same table. Both disks are given back.
pub fn compact_jobs<D: Disk, E: Disk>(
    alloc: Global,
    old: D,
    new: E,
) -> (Result<(), CompactFault>, D, E)
    ensures compacts { Compacts D.Disk E.Disk result.0 old new result.1 result.2 }
{
    let mut table = Remade::<SolvedJobs>::new(alloc);
    let mut sieve = DocumentSieve::new(alloc);
    compact(alloc, old, new, &mut table, &mut sieve)
}
