//! Result documents of what is shown of jobs.
ghost use Rattle.std.specs.Prelude.{◌≡◌, IfOk};
ghost use Rattle.osrl_writing.specs.Writing.{report_text};
ghost use Rattle.soap_calls.specs.Writing.{reply_text};
ghost use Rattle.os_server.specs.Answers.{state_report, unknown_report, shown_text};

use certificate::{Cause, Claim};
use job_table::Retrieved;
use os_io::{Memory, Text};
use osrl_writing::{JobStatus, Report, encode};
use soap_calls::write_reply;
use std::alloc::Global;

/// The text of a report about a job that isn't held.
fn unknown_text(alloc: Global) -> Result<Text, Memory>
    ensures { IfOk result (λ text. text ≡ report_text unknown_report) }
{
    let message = Text::from_slice(alloc, b"unknown job")?;
    let report = Report {
        error: true,
        job: None,
        message: Some(message),
        status: JobStatus::Unknown,
        claim: None,
    };
    encode(alloc, &report)
}

/// The text of a report about how far a job is.
fn state_text(alloc: Global, status: JobStatus, claim: Option<Claim>) -> Result<Text, Memory>
    ensures { IfOk result (λ text. text ≡ report_text (state_report status claim)) }
{
    let report = Report {
        error: false,
        job: None,
        message: None,
        status,
        claim,
    };
    encode(alloc, &report)
}

/// The text of a report about a job that is shown without a document of its own.
fn report_of(alloc: Global, shown: &Retrieved) -> Result<Text, Memory>
    ensures { IfOk result (λ text. shown_text shown.now ≡ text) }
{
    match shown {
        Retrieved::Unknown => unknown_text(alloc),
        Retrieved::Issued => state_text(alloc, JobStatus::Issued, None),
        Retrieved::Waiting => state_text(alloc, JobStatus::Waiting, None),
        Retrieved::Running => state_text(alloc, JobStatus::Running, None),
        Retrieved::Finished(Some(document)) => Text::from_slice(alloc, document.as_slice()),
        Retrieved::Finished(None) => {
            let claim = Claim::Unsure {
                cause: Cause::Memory,
                bound: None,
            };
            state_text(alloc, JobStatus::Finished, Some(claim))
        }
        Retrieved::Killed => state_text(alloc, JobStatus::Killed, None),
    }
}

/// The reply to the call of this name that returns the result document of what is shown of a job. A document of the job's own is
/// written from where it is kept.
pub(crate) fn reply_of_shown(alloc: Global, name: &[u8], shown: &Retrieved) -> Result<Text, Memory>
    ensures { IfOk result (λ text. text ≡ reply_text name.now (shown_text shown.now)) }
{
    if let Retrieved::Finished(Some(document)) = shown {
        return write_reply(alloc, name, document.as_slice());
    }
    let text = report_of(alloc, shown)?;
    write_reply(alloc, name, text.as_slice())
}
