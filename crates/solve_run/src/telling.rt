//! The documents of reports.
ghost use Rattle.std.specs.Prelude.{◌≡◌, ℕ, Option, None, Some, List, length, IfOk};
ghost use Rattle.instance.specs.Parts.{IsValid};
ghost use Rattle.certificate.specs.declared.causes.Cause.TheVariants as causes;
ghost use Rattle.certificate.specs.declared.claims.Claim.{Claim as OneClaim};
ghost use Rattle.osrl_grammar.specs.Back.{CauseComesBack};
ghost use Rattle.osrl_writing.specs.declared.report.Report.{Report as TheReport};
ghost use Rattle.osrl_writing.specs.Writing.{report_text};
ghost use Rattle.certificate.specs.GivenUp.{given_up, without_bound};
ghost use Rattle.solve_run.specs.Judging.{IsShownClaim, HasFewRounds};
ghost use Rattle.solve_run.specs.Closings as specs;
ghost use Rattle.solve_run.specs.Runs.{IsClaimTold, IsTextOf, IsNamedTextOf, IsNotedTextOf, IsFittedDocument, IsMemoryDocument, IsErrorDocument, HasCauses};

use crate::closing::{checked, claim_report, formed, judge};
use crate::document::Document;
use certificate::{Cause, Claim};
use instance::Instance;
use os_io::{MOST_BYTES, Memory, Text};
use osrl_writing::{JobStatus, NameLists, Report, encode, encode_named};
use std::alloc::Global;

/// A finished job's report of an error.
fn error_report(job: Option<Text>, message: Text) -> Report
    ensures { result ≡ specs.error_report job message }
{
    Report {
        error: true,
        job,
        message: Some(message),
        status: JobStatus::Finished,
        claim: None,
    }
}

/// The document that claims nothing for want of memory.
pub fn memory_document(alloc: Global, job: Option<Text>) -> Result<Document, Memory>
    ensures { IfOk result (IsMemoryDocument job) }
{
    let cause = Cause::Memory;
    let report = claim_report(job, Claim::Unsure { cause, bound: None });
    Ok(Document {
        text: encode(alloc, &report)?,
        is_error: false,
    })
}

/// The document of a report, or for want of memory of one that claims nothing of the same job.
fn document_or_memory(alloc: Global, mut report: Report) -> Result<Document, Memory>
    ensures { IfOk result (IsTextOf report) }
{
    match encode(alloc, &report) {
        Ok(text) => Ok(Document {
            text,
            is_error: report.error,
        }),
        Err(_) => memory_document(alloc, report.job.take()),
    }
}

/// The document of a report with these names, or for want of memory of one that claims nothing of the same job.
fn named_or_memory(alloc: Global, names: &NameLists, mut report: Report) -> Result<Document, Memory>
    ensures { IfOk result (IsNamedTextOf names.now report) }
{
    match encode_named(alloc, names, &report) {
        Ok(text) => Ok(Document {
            text,
            is_error: report.error,
        }),
        Err(_) => memory_document(alloc, report.job.take()),
    }
}

/// The document of a report of an error, for whose message there may have been no memory.
pub fn refusal(
    alloc: Global,
    job: Option<Text>,
    message: Result<Text, Memory>,
) -> Result<Document, Memory>
    ensures { IfOk result (IsErrorDocument job message) }
{
    let Ok(message) = message else {
        return memory_document(alloc, job);
    };
    document_or_memory(alloc, error_report(job, message))
}

/// The report whose claim is given up for its length.
fn shortened(mut report: Report) -> Report
    ensures { (job : Option (List ℕ)) (c : OneClaim) → report ≡ specs.claim_report job c → result ≡ specs.claim_report job (given_up c causes.Length) }
{
    if let Some(claim) = report.claim.take() {
        report.claim = Some(claim.give_up(Cause::Length));
    }
    report
}

/// The report whose claim has no bound.
fn without_bound(mut report: Report) -> Report
    ensures { (job : Option (List ℕ)) (c : OneClaim) → report ≡ specs.claim_report job c → result ≡ specs.claim_report job (without_bound c) }
{
    if let Some(claim) = report.claim.take() {
        report.claim = Some(claim.without_bound());
    }
    report
}

/// The report without its message where its document, which has so many bytes, is longer than one may be.
fn unless_long(mut report: Report, bytes: usize) -> Report
    ensures { (m : List ℕ) (plain : TheReport) → report ≡ specs.with_message m plain → plain.message ≡ None → bytes ≡ length (report_text report) → result ≡ specs.noted (Some m) plain }
{
    if bytes as u64 > MOST_BYTES {
        report.message = None;
    }
    report
}

/// The document of a report that has no message, with these names and with this message, if there is one. It is told without
/// the message where its document with it, without names, would be longer than one may be.
fn noted_or_memory(
    alloc: Global,
    names: &NameLists,
    note: Option<Text>,
    mut report: Report,
) -> Result<Document, Memory>
    requires { report.message ≡ None }
    ensures { IfOk result (IsNotedTextOf names.now note report) }
{
    let Some(message) = note else {
        return named_or_memory(alloc, names, report);
    };
    report.message = Some(message);
    let Ok(text) = encode(alloc, &report) else {
        return memory_document(alloc, report.job.take());
    };
    named_or_memory(alloc, names, unless_long(report, text.len()))
}

/// The document of a report with a claim whose own document is too long, with these names and with this message, if there is one. The
/// claim is told without its bound, or is given up where its document would be too long so too.
fn lessened(
    alloc: Global,
    names: &NameLists,
    note: Option<Text>,
    report: Report,
) -> Result<Document, Memory>
    requires { (job : Option (List ℕ)) × (c : OneClaim) × (report ≡ specs.claim_report job c) }
    ensures { (job : Option (List ℕ)) (c : OneClaim) → report ≡ specs.claim_report job c → (specs.IsShort job c → ⊥) → IfOk result (IsFittedDocument names.now note job c) }
{
    let mut report = without_bound(report);
    let Ok(text) = encode(alloc, &report) else {
        return memory_document(alloc, report.job.take());
    };
    if text.len() as u64 > MOST_BYTES {
        return noted_or_memory(alloc, names, note, shortened(report));
    }
    noted_or_memory(alloc, names, note, report)
}

/// The document of a report with a claim, with these names and with this message, if there is one. Where its document without both
/// would be longer than one may be, the claim is told without its bound, or given up.
pub fn fitted(
    alloc: Global,
    names: &NameLists,
    note: Option<Text>,
    job: Option<Text>,
    claim: Claim,
) -> Result<Document, Memory>
    ensures { IfOk result (IsFittedDocument names.now note job claim) }
{
    let mut report = claim_report(job, claim);
    let Ok(text) = encode(alloc, &report) else {
        return memory_document(alloc, report.job.take());
    };
    if text.len() as u64 > MOST_BYTES {
        return lessened(alloc, names, note, report);
    }
    if names.is_none() && note.is_none() {
        return Ok(Document {
            text,
            is_error: false,
        });
    }
    noted_or_memory(alloc, names, note, report)
}

/// Reads the numbers of a cause, each of which is one of its type.
fn read_cause(cause: Cause)
    ensures { CauseComesBack cause }
{
    match cause {
        Cause::NodeLimit(_nodes) => {}
        Cause::TurnLimit(_turns) => {}
        Cause::TimeLimit(_seconds) => {}
        Cause::Wide(_place) => {}
        _ => {}
    }
}

/// Reads the numbers of a claim's cause, if it has one.
fn read_causes(claim: &Claim)
    ensures { HasCauses claim.now }
{
    match claim {
        Claim::BestSoFar { cause, .. } => read_cause(*cause),
        Claim::Unsure { cause, .. } => read_cause(*cause),
        _ => {}
    }
}

/// The document that tells what a search found after so many turns, once it is checked, formed and fitted, with these names and with
/// this message, if there is one.
pub fn found_document(
    alloc: Global,
    instance: &Instance,
    names: &NameLists,
    note: Option<Text>,
    job: Option<Text>,
    form: u32,
    found: Claim,
    turns: u64,
) -> Result<Document, Memory>
    requires valid { IsValid instance.now }
    requires shown { IsShownClaim instance.now found }
    requires few { HasFewRounds found }
    ensures { IfOk result (IsClaimTold instance.now names.now note job form turns found) }
{
    read_causes(&found);
    let Ok(verdict) = judge(alloc, instance, &found) else {
        return memory_document(alloc, job);
    };
    match formed(alloc, instance, &job, checked(found, turns, verdict), form) {
        Ok(claim) => fitted(alloc, names, note, job, claim),
        Err(_) => memory_document(alloc, job),
    }
}
