//! The check of a claim before it is told.
ghost use Rattle.std.specs.Prelude.{◌≡◌, ℕ, ◌<◌, ◌^◌, true, false, IfOk, IfSome};
ghost use Rattle.std.specs.List.{All};
ghost use Rattle.evidence.specs.Claim.{Accepts};
ghost use Rattle.instance.specs.Program.{problem};
ghost use Rattle.certificate.specs.Meanings as Means;
ghost use Rattle.certificate.specs.Nodes.{nodes_of, IsInRange};
ghost use Rattle.instance.specs.Parts.{IsValid};
ghost use Rattle.cert_checker.specs.Cuts.{HasRoom};
ghost use Rattle.solve_run.specs.declared.closing.Judged.TheVariants.{Width};
ghost use Rattle.solve_run.specs.Judging as specs;
ghost use Rattle.solve_run.specs.Closings.{IsFormed, IsShortOrNone, claim_report};

use crate::row_forms::claim_of_rows;
use cert_checker::{
    Refused, Scratch, Unshown, check, refused_is_not_accepted, shown_is_refused_for_width_alone,
};
use certificate::{Cause, Claim, Place, Step};
use instance::{Instance, problems_have_numbers};
use os_io::{MOST_BYTES, Memory, Text};
use osrl_writing::{JobStatus, Report, encode};
use std::alloc::Global;

/// The node at which a sum doesn't fit.
fn wide_node(refused: Refused) -> u32
    requires { (n : ℕ) × specs.IsWideAt refused n }
    ensures { specs.IsWideAt refused result }
{
    match refused {
        Refused::Level {
            why: Unshown::Wide { node },
            ..
        } => node,
        _ => unreachable!(),
    }
}

/// The node at which the first sum of a claim's check doesn't fit, if there is one. What a search has shown is refused for
/// nothing else.
fn judge_in(instance: &Instance, claim: &Claim, scratch: &mut Scratch) -> Option<u32>
    requires valid { IsValid instance.now }
    requires shown { specs.IsShownClaim instance.now claim.now }
    requires few { specs.HasFewRounds claim.now }
    requires is_final { specs.IsFinal claim.now }
    requires room { HasRoom instance.now claim.now scratch.old }
    ensures judged { specs.IsJudged instance.now claim.now (Width result) }
    ensures few { IfSome result (λ n. n < 2 ^ 32) }
{
    shown_is_refused_for_width_alone();
    problems_have_numbers();
    match check(instance, claim, scratch) {
        Ok(()) => None,
        Err(refused) => Some(wide_node(refused)),
    }
}

/// Whether a claim is one that is checked.
fn is_final(claim: &Claim) -> bool
    ensures yes { result ≡ true → specs.IsFinal claim.now }
    ensures no { result ≡ false → specs.IsFinal claim.now → ⊥ }
{
    match claim {
        Claim::BestSoFar { .. } | Claim::Unsure { .. } => false,
        _ => true,
    }
}

/// Whether a claim has a bound: one of a search that was given up.
fn is_bounded(claim: &Claim) -> bool
    ensures { result ≡ specs.is_bounded claim.now }
{
    match claim {
        Claim::BestSoFar { bound, .. } => bound.is_some(),
        Claim::Unsure { bound, .. } => bound.is_some(),
        _ => false,
    }
}

/// Whether a claim is accepted: one with a bound, or a final one in the form with multipliers of rows alone.
fn is_accepted(instance: &Instance, claim: &Claim, scratch: &mut Scratch) -> bool
    requires range { All IsInRange (nodes_of claim.now) }
    requires room { HasRoom instance.now claim.now scratch.old }
    ensures yes { result ≡ true → Accepts (problem instance.now) (Means.claim claim.now) }
    ensures no { result ≡ false → Accepts (problem instance.now) (Means.claim claim.now) → ⊥ }
{
    refused_is_not_accepted();
    problems_have_numbers();
    check(instance, claim, scratch).is_ok()
}

/// What was checked of a claim.
#[derive(Clone, Copy, PartialEq, Eq)]
pub enum Judged {
    /// It is accepted or isn't checked, or the first sum that doesn't fit is at this node.
    Width(Option<u32>),
    /// Whether it is accepted with its bound.
    Bound(bool),
}

/// Checks a claim that a search has shown, where it is final or has a bound.
pub fn judge(alloc: Global, instance: &Instance, claim: &Claim) -> Result<Judged, Memory>
    requires valid { IsValid instance.now }
    requires shown { specs.IsShownClaim instance.now claim.now }
    requires few { specs.HasFewRounds claim.now }
    ensures judged { IfOk result (specs.IsJudged instance.now claim.now) }
    ensures few { IfOk result specs.HasSmallNode }
{
    if is_bounded(claim) {
        let mut scratch = Scratch::for_claim(alloc, instance, claim)?;
        return Ok(Judged::Bound(is_accepted(instance, claim, &mut scratch)));
    }
    if !is_final(claim) {
        return Ok(Judged::Width(None));
    }
    let mut scratch = Scratch::for_claim(alloc, instance, claim)?;
    Ok(Judged::Width(judge_in(instance, claim, &mut scratch)))
}

/// The claim after its check. A bound that isn't accepted is left out.
pub fn checked(claim: Claim, turns: u64, verdict: Judged) -> Claim
    ensures { result ≡ specs.checked claim turns verdict }
{
    match verdict {
        Judged::Width(Some(node)) => {
            let place = Place {
                node,
                turn: turns,
                step: Step::Check,
            };
            claim.give_up(Cause::Wide(place))
        }
        Judged::Bound(false) => claim.without_bound(),
        Judged::Width(None) | Judged::Bound(true) => claim,
    }
}

/// A finished job's report with a claim.
pub fn claim_report(job: Option<Text>, claim: Claim) -> Report
    ensures { result ≡ claim_report job claim }
{
    Report {
        error: false,
        job,
        message: None,
        status: JobStatus::Finished,
        claim: Some(claim),
    }
}

/// A job's name once more.
fn copied(alloc: Global, job: &Option<Text>) -> Result<Option<Text>, Memory>
    ensures { IfOk result (λ copy. copy ≡ job.now) }
{
    match job {
        Some(name) => Ok(Some(Text::from_slice(alloc, name.as_slice())?)),
        None => Ok(None),
    }
}

/// The claim, where its document under this job's name isn't longer than one may be.
fn short_or_none(alloc: Global, job: &Option<Text>, claim: Claim) -> Result<Option<Claim>, Memory>
    ensures { IfOk result (IsShortOrNone job.now claim) }
{
    let name = copied(alloc, job)?;
    let mut report = claim_report(name, claim);
    let text = encode(alloc, &report)?;
    if text.len() as u64 > MOST_BYTES {
        return Ok(None);
    }
    Ok(report.claim.take())
}

/// A claim that a search has shown, in the form that is asked for: with multipliers of rows alone, by 1, where the checker accepts
/// it so and its document under this job's name isn't longer than one may be, and else as it is.
pub fn formed(
    alloc: Global,
    instance: &Instance,
    job: &Option<Text>,
    claim: Claim,
    form: u32,
) -> Result<Claim, Memory>
    requires valid { IsValid instance.now }
    requires shown { specs.IsShownClaim instance.now claim }
    requires few { specs.HasFewRounds claim }
    ensures { IfOk result (IsFormed instance.now job.now form claim) }
{
    if form != 1 || !is_final(&claim) {
        return Ok(claim);
    }
    let rows = claim_of_rows(alloc, instance.vars().len() as u32, &claim)?;
    let mut scratch = Scratch::for_claim(alloc, instance, &rows)?;
    if !is_accepted(instance, &rows, &mut scratch) {
        return Ok(claim);
    }
    match short_or_none(alloc, job, rows)? {
        Some(rows) => Ok(rows),
        None => Ok(claim),
    }
}
