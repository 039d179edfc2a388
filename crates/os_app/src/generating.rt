//! Solves an instance that is generated, and checks its document.
ghost use Rattle.std.specs.Prelude.{◌≡◌, ◌≤◌, IfOk};
ghost use Rattle.os_app.specs.Summaries.{IsDecided, IsSummaryAbout, IsSummaryOf, wanted_memory};

use crate::checking::check_status;
use crate::solving::solve;
use certificate::{Cause, Claim};
use command_answers::StatusText;
use document_checker::{CheckFault, check_docs};
use generator::{line_of, make};
use os_io::Memory;
use osil_grammar::encode;
use osrl_grammar::decode;
use std::alloc::{AllocError, Global};
use std::time::Clock;

/// Whether the search stopped for want of memory.
fn wants_memory(claim: &Claim) -> bool
    ensures { result ≡ wanted_memory claim.now }
{
    matches!(
        claim,
        Claim::BestSoFar {
            cause: Cause::Memory,
            ..
        } | Claim::Unsure {
            cause: Cause::Memory,
            ..
        }
    )
}

/// Whether the checker accepts what a document claims.
fn is_accepted(alloc: Global, osil: &[u8], osrl: &[u8]) -> Result<bool, Memory>
    ensures { IfOk result (IsDecided osil.now osrl.now) }
{
    match check_docs(alloc, osil, osrl) {
        Ok(_) => Ok(true),
        Err(CheckFault::Memory) => Err(AllocError),
        Err(_) => Ok(false),
    }
}

/// The line about the generated instance of `n` variables, whose result document this is, and its status. A document that answers
/// it is a report with a claim, so where it says none, there was no memory.
fn summary_about(alloc: Global, n: u32, osil: &[u8], osrl: &[u8]) -> Result<StatusText, Memory>
    ensures { IfOk result (λ a. IsSummaryAbout n osil.now osrl.now a.status a.text) }
{
    let Ok(report) = decode(alloc, osrl) else {
        return Err(AllocError);
    };
    let Some(claim) = &report.claim else {
        return Err(AllocError);
    };
    if wants_memory(claim) {
        return Err(AllocError);
    }
    let is_accepted = is_accepted(alloc, osil, osrl)?;
    let text = line_of(alloc, n, claim, is_accepted)?;
    Ok(StatusText {
        status: check_status(is_accepted),
        text,
    })
}

/// The generated instance of `n` variables, solved without options, and checked, in a line. Its text is written unless there is no
/// memory (`generator`).
pub(crate) fn generate<T: Clock>(clock: &T, alloc: Global, n: u32) -> Result<StatusText, Memory>
    requires least { 1 ≤ n }
    requires most { n ≤ 1000 }
    ensures { IfOk result (λ a. IsSummaryOf n a.status a.text) }
{
    let instance = make(alloc, n)?;
    let Ok(osil) = encode(alloc, &instance) else {
        return Err(AllocError);
    };
    let document = solve(clock, alloc, osil.as_slice(), b"", &None)?;
    summary_about(alloc, n, osil.as_slice(), document.text.as_slice())
}
