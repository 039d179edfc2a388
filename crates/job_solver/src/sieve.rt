//! Which documents of a journal are accepted when it is opened.
ghost use Rattle.std.specs.Prelude.{◌≡◌, true, ◌↔◌, IfOk};
ghost use Rattle.document_checker.specs.declared.fault.CheckFault.TheVariants.{Memory};
ghost use Rattle.job_solver.specs.Sieves.{is_sure, claims_something, TellsClaim};

use certificate::Claim;
use document_checker::{CheckFault, accepted_documents_are_not_refused, check_docs};
use job_journal::Sieve;
use os_io::Memory;
use osrl_grammar::{OsrlFault, decode, document_has_one_report, report_is_not_refused};
use osrl_writing::Report;
use std::alloc::{AllocError, Global};

/// Accepts a report that claims nothing, or is unsure and has no bound, and else what the checker accepts.
#[derive(Drop)]
pub struct DocumentSieve {
    alloc: Global,
}

impl DocumentSieve {
    /// One that takes its memory here.
    pub fn new(alloc: Global) -> DocumentSieve {
        DocumentSieve { alloc }
    }
}

/// Whether a claim says something of the instance.
fn is_sure(claim: &Claim) -> bool
    ensures { result ≡ is_sure claim.now }
{
    match claim {
        Claim::Optimal { .. } => true,
        Claim::Infeasible { .. } => true,
        Claim::Unbounded { .. } => true,
        Claim::BestSoFar { .. } => true,
        Claim::Unsure { bound: None, .. } => false,
        Claim::Unsure { .. } => true,
    }
}

/// Whether a report claims something.
fn claims_something(report: &Report) -> bool
    ensures { result ≡ claims_something report.now.claim }
{
    match &report.claim {
        Some(claim) => is_sure(claim),
        None => false,
    }
}

/// Whether a document is a report that claims something; none where it is no report.
fn claims(alloc: Global, document: &[u8]) -> Result<Option<bool>, Memory>
    ensures { IfOk result (TellsClaim document.now) }
{
    report_is_not_refused();
    match decode(alloc, document) {
        Ok(report) => Ok(Some(claims_something(&report))),
        Err(OsrlFault::Memory) => Err(AllocError),
        Err(_) => Ok(None),
    }
}

/// Whether there was no memory.
fn is_lost(fault: &CheckFault) -> bool
    ensures { (result ≡ true) ↔ (fault.now ≡ Memory) }
{
    matches!(fault, CheckFault::Memory)
}

impl Sieve for DocumentSieve {
    ghost use Rattle.job_solver.specs.Sieves.{Sifts};

    ghost accepted = { Sifts };

    fn accepts(&mut self, osil: &[u8], document: &[u8]) -> Result<bool, Memory> {
        document_has_one_report();
        accepted_documents_are_not_refused();
        match claims(self.alloc, document) {
            Err(lost) => Err(lost),
            Ok(None) => Ok(false),
            Ok(Some(false)) => Ok(true),
            Ok(Some(true)) => match check_docs(self.alloc, osil, document) {
                Ok(_) => Ok(true),
                Err(fault) => {
                    if is_lost(&fault) {
                        Err(AllocError)
                    } else {
                        Ok(false)
                    }
                }
            },
        }
    }
}
