//! Reports: what a result document says.

use certificate::Claim;
use os_io::Text;

/// How far a job is (Optimization Services, job statistics).
#[derive(Clone, Copy, PartialEq, Eq)]
pub enum JobStatus {
    /// No such job is known.
    Unknown,
    /// It has a number, and nothing was sent for it.
    Issued,
    /// Its documents have come.
    Waiting,
    /// It is being solved.
    Running,
    /// It was taken back before it was solved.
    Killed,
    /// It has a result.
    Finished,
}

/// What a result document says: whether of an error, of which job, a message, how far the job is, and what is claimed of
/// the instance.
pub struct Report {
    pub error: bool,
    pub job: Option<Text>,
    pub message: Option<Text>,
    pub status: JobStatus,
    pub claim: Option<Claim>,
}

impl Drop for Report {
    fn drop(self) {
        let Report {
            error: _,
            job: _,
            message: _,
            status: _,
            claim: _,
        } = self;
    }
}
