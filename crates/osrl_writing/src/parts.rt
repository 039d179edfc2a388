//! The parts of a claim's certificate, and the words of a result document.

ghost use Rattle.std.specs.Prelude.{◌≡◌};
ghost use Rattle.osrl_writing.specs.Words as named;

use crate::report::JobStatus;
use crate::words::Worded;
use certificate::Step;

/// A part of a certificate. Its name is that of a result.
#[derive(Clone, Copy, PartialEq, Eq)]
pub enum Part {
    Point,
    Value,
    Ray,
    Cause,
    Bound,
    Rounds,
    Tree,
}

/// What a solution's status claims.
#[derive(Clone, Copy, PartialEq, Eq)]
pub enum Claiming {
    Optimal,
    Infeasible,
    Unbounded,
    BestSoFar,
    Unsure,
}

/// The name of a part's result.
pub fn part_name(part: Part) -> &'static [u8]
    ensures { result.now ≡ named.part_name part }
{
    match part {
        Part::Point => b"os_cert.point",
        Part::Value => b"os_cert.value",
        Part::Ray => b"os_cert.ray",
        Part::Cause => b"os_cert.cause",
        Part::Bound => b"os_cert.bound",
        Part::Rounds => b"os_cert.rounds",
        Part::Tree => b"os_cert.tree",
    }
}

impl Worded for Claiming {
    ghost use Rattle.osrl_writing.specs.Words.{claiming_text};

    ghost text = { claiming_text };

    fn word(self) -> &'static [u8] {
        match self {
            Claiming::Optimal => b"optimal",
            Claiming::Infeasible => b"infeasible",
            Claiming::Unbounded => b"unbounded",
            Claiming::BestSoFar => b"bestSoFar",
            Claiming::Unsure => b"unsure",
        }
    }
}

impl Worded for JobStatus {
    ghost use Rattle.osrl_writing.specs.Words.{status_text};

    ghost text = { status_text };

    fn word(self) -> &'static [u8] {
        match self {
            JobStatus::Unknown => b"unknown",
            JobStatus::Issued => b"issued",
            JobStatus::Waiting => b"waiting",
            JobStatus::Running => b"running",
            JobStatus::Killed => b"killed",
            JobStatus::Finished => b"finished",
        }
    }
}

impl Worded for Step {
    ghost use Rattle.certificate.specs.Words.{step_text};

    ghost text = { step_text };

    fn word(self) -> &'static [u8] {
        self.name()
    }
}
