//! What is not exceeded, whatever is done with a table of jobs.

/// The most jobs that are held.
pub const MOST_JOBS: usize = 10_000;

/// The last number of a job.
pub const LAST_NUMBER: u64 = (1 << 63) - 1;

/// The greatest number with which numbers may begin.
pub const MOST_FIRST: u64 = 1 << 62;
