//! Checks of documents.

ghost use Rattle.std.specs.Prelude.{◌≡◌, ◌⊎◌, Some, IfOk, IfErr};
ghost use Rattle.std.specs.List.{All};
ghost use Rattle.evidence.specs.Claim.{Accepts};
ghost use Rattle.instance.specs.Program.{problem};
ghost use Rattle.certificate.specs.Meanings as Means;
ghost use Rattle.certificate.specs.Nodes.{nodes_of, IsInRange};
ghost use Rattle.certificate.specs.declared.claims.Claim as carried;
ghost use Rattle.osil_grammar.specs.Reading.{IsInstanceText};
ghost use Rattle.osrl_grammar.specs.Reading.{IsReportText};
ghost use Rattle.document_checker.specs.declared.fault.CheckFault.TheVariants.{Memory};
ghost use Rattle.document_checker.specs.Documents.{kind, number_of, ClaimRefuses, ReportRefuses, NoInstance, NoReport, IsAcceptedText, DocsRefuse, ReportAccepts, IsShownIn, IsUnshownIn};

use crate::fault::CheckFault;
use cert_checker::{Refused, Scratch, check};
use certificate::{Claim, ProvedBound};
use fraction::Frac;
use instance::Instance;
use osil_grammar::OsilFault;
use osrl_grammar::{OsrlFault, read_claims_fit};
use osrl_writing::Report;
use std::alloc::Global;

/// What an accepted claim says of the instance.
#[derive(Clone, Copy, PartialEq, Eq)]
pub enum Kind {
    /// The point is optimal.
    Optimal,
    /// No point is feasible.
    Infeasible,
    /// Points become better without end.
    Unbounded,
    /// The point is feasible; where there is a bound, no feasible point's first objective is better than it.
    BestSoFar { bound: Option<Frac> },
    /// No feasible point's first objective is better than the bound.
    Unsure { bound: Frac },
}

/// The number of a bound, if there is one.
fn number_of(bound: &Option<ProvedBound>) -> Option<Frac>
    ensures { result ≡ number_of bound.now }
{
    match bound {
        Some(bound) => Some(bound.number),
        None => None,
    }
}

/// What is claimed, if anything is.
fn kind_of(claim: &Claim) -> Option<Kind>
    ensures { result ≡ kind claim.now }
{
    match claim {
        Claim::Optimal { .. } => Some(Kind::Optimal),
        Claim::Infeasible { .. } => Some(Kind::Infeasible),
        Claim::Unbounded { .. } => Some(Kind::Unbounded),
        Claim::BestSoFar { bound, .. } => Some(Kind::BestSoFar {
            bound: number_of(bound),
        }),
        Claim::Unsure { bound, .. } => match bound {
            Some(bound) => Some(Kind::Unsure {
                bound: bound.number,
            }),
            None => None,
        },
    }
}

/// Checks a claim in room that is taken for it.
fn check_claim(alloc: Global, instance: &Instance, claim: &Claim) -> Result<(), CheckFault>
    requires { All IsInRange (nodes_of claim.now) }
    ensures ok { IfOk result (λ _. Accepts (problem instance.now) (Means.claim claim.now)) }
    ensures err { IfErr result (λ f. ClaimRefuses (problem instance.now) (Some claim.now) f ⊎ (f ≡ Memory)) }
{
    let mut scratch = Scratch::for_claim(alloc, instance, claim)?;
    match check(instance, claim, &mut scratch) {
        Ok(()) => Ok(()),
        Err(refused) => Err(CheckFault::Claim(refused)),
    }
}

/// Checks the claim of a report, if it has one.
fn check_report(alloc: Global, instance: &Instance, report: &Report) -> Result<Kind, CheckFault>
    requires { (c : carried.Claim) → report.now.claim ≡ Some c → All IsInRange (nodes_of c) }
    ensures ok { IfOk result (ReportAccepts instance.now report.now) }
    ensures err { IfErr result (λ f. ReportRefuses instance.now report.now f ⊎ (f ≡ Memory)) }
{
    let Some(claim) = &report.claim else {
        return Err(CheckFault::Claim(Refused::NoClaim));
    };
    let Some(kind) = kind_of(claim) else {
        return Err(CheckFault::Claim(Refused::NoClaim));
    };
    check_claim(alloc, instance, claim)?;
    Ok(kind)
}

/// The instance of a document.
fn read_instance(alloc: Global, osil: &[u8]) -> Result<Instance, CheckFault>
    ensures ok { IfOk result (λ p. IsInstanceText osil.now p) }
    ensures err { IfErr result (λ f. NoInstance osil.now f ⊎ (f ≡ Memory)) }
{
    match osil_grammar::decode(alloc, osil) {
        Ok(instance) => Ok(instance),
        Err(OsilFault::Memory) => Err(CheckFault::Memory),
        Err(fault) => Err(CheckFault::Instance(fault)),
    }
}

/// The report of a document.
fn read_report(alloc: Global, osrl: &[u8]) -> Result<Report, CheckFault>
    ensures ok { IfOk result (λ r. IsReportText osrl.now r) }
    ensures err { IfErr result (λ f. NoReport osrl.now f ⊎ (f ≡ Memory)) }
{
    match osrl_grammar::decode(alloc, osrl) {
        Ok(report) => Ok(report),
        Err(OsrlFault::Memory) => Err(CheckFault::Memory),
        Err(fault) => Err(CheckFault::Result(fault)),
    }
}

/// The claim that a result document makes of an instance, where what it carries shows it. Else the first of the reasons why
/// not: the document is refused; it claims nothing; or [`cert_checker::check`] refuses its claim.
pub fn shown_claim(alloc: Global, instance: &Instance, osrl: &[u8]) -> Result<Claim, CheckFault>
    ensures ok { IfOk result (IsShownIn instance.now osrl.now) }
    ensures err { IfErr result (IsUnshownIn instance.now osrl.now) }
{
    let mut report = read_report(alloc, osrl)?;
    read_claims_fit();
    check_report(alloc, instance, &report)?;
    match report.claim.take() {
        Some(claim) => Ok(claim),
        None => Err(CheckFault::Claim(Refused::NoClaim)),
    }
}

/// What an instance's document and a result document say together: which claim of the second is shown of the first's
/// instance by what it carries. Else the first of the reasons why none is: the instance's document is refused; the result
/// document is; it claims nothing; or [`cert_checker::check`] refuses its claim.
pub fn check_docs(alloc: Global, osil: &[u8], osrl: &[u8]) -> Result<Kind, CheckFault>
    ensures ok { IfOk result (IsAcceptedText osil.now osrl.now) }
    ensures err { IfErr result (DocsRefuse osil.now osrl.now) }
{
    let instance = read_instance(alloc, osil)?;
    let report = read_report(alloc, osrl)?;
    read_claims_fit();
    check_report(alloc, &instance, &report)
}
