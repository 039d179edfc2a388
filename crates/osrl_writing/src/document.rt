//! Writes reports.

ghost use Rattle.std.specs.Prelude.{◌≡◌, [], OnOk, IfOk, codes};
ghost use Rattle.tree_grammar.specs.Elements.{none, nodes_events};
ghost use Rattle.certificate.specs.declared.claims.Claim.TheVariants.{Optimal, Infeasible, Unbounded, BestSoFar, Unsure};
ghost use Rattle.document_tags.specs.Writing as nodes;
ghost use Rattle.osrl_writing.specs.Labels.{no_names};
ghost use Rattle.osrl_writing.specs.Writing as writing;
ghost use Rattle.osrl_writing.specs.Words as words;
ghost use Rattle.document_tags.specs.Telling.{Told, whole_element};

use crate::certificates::{
    tell_bound, tell_cause, tell_certs, tell_numbers, tell_point, tell_trees,
};
use crate::parts::{Claiming, Part};
use crate::report::{JobStatus, Report};
use crate::told_names::NameLists;
use crate::values::{tell_dual_values, tell_point_values};
use crate::words::Worded;
use certificate::{Cause, Cert, Claim, ProvedBound};
use document_tags::{close, leaf, leaf_with, open, open_with, told_text};
use element_tree::TreeBuilder;
use fraction::Frac;
use os_io::{MOST_BYTES, Memory, Text};
use std::alloc::Global;

/// Tells an element whose type is all that it says.
fn tell_typed(b: &mut TreeBuilder, name: &[u8], kind: &[u8]) -> Result<(), Memory>
    requires { b.old.attributes ≡ [] }
    ensures { OnOk result (Told b.old b.new (λ k. nodes_events (nodes.typed name.now kind.now none) k)) }
{
    leaf_with(b, name, b"type", kind, b"")
}

/// Tells a solution's status.
fn tell_status(b: &mut TreeBuilder, claiming: Claiming) -> Result<(), Memory>
    requires { b.old.attributes ≡ [] }
    ensures { OnOk result (Told b.old b.new (λ k. nodes_events (nodes.typed (codes "status") (words.claiming_text claiming) none) k)) }
{
    tell_typed(b, b"status", claiming.word())
}

/// Tells the solution of a claim that a point is optimal.
fn tell_optimal(
    alloc: Global,
    b: &mut TreeBuilder,
    names: &NameLists,
    point: &[Frac],
    values: &[Frac],
    certs: &[Cert],
) -> Result<(), Memory>
    requires { b.old.attributes ≡ [] }
    ensures { OnOk result (Told b.old b.new (nodes_events (writing.claim_nodes names.now (Optimal point.now values.now certs.now)))) }
{
    tell_status(b, Claiming::Optimal)?;
    tell_point_values(alloc, b, names.variables.as_slice(), point, values)?;
    tell_dual_values(alloc, b, names.rows.as_slice(), point.len(), values, certs)?;
    open(b, b"otherSolutionResults")?;
    tell_point(alloc, b, point, values)?;
    tell_certs(alloc, b, certs)?;
    close(b, b"otherSolutionResults")
}

/// Tells the solution of a claim that no point is feasible.
fn tell_infeasible(alloc: Global, b: &mut TreeBuilder, cert: &Cert) -> Result<(), Memory>
    requires { b.old.attributes ≡ [] }
    ensures { OnOk result (Told b.old b.new (nodes_events (writing.claim_nodes no_names (Infeasible cert.now)))) }
{
    tell_status(b, Claiming::Infeasible)?;
    open(b, b"otherSolutionResults")?;
    tell_trees(alloc, b, cert, &[])?;
    close(b, b"otherSolutionResults")
}

/// Tells the solution of a claim that points have no best value.
fn tell_unbounded(
    alloc: Global,
    b: &mut TreeBuilder,
    names: &NameLists,
    point: &[Frac],
    values: &[Frac],
    certs: &[Cert],
    ray: &[Frac],
) -> Result<(), Memory>
    requires { b.old.attributes ≡ [] }
    ensures { OnOk result (Told b.old b.new (nodes_events (writing.claim_nodes names.now (Unbounded point.now values.now certs.now ray.now)))) }
{
    tell_status(b, Claiming::Unbounded)?;
    tell_point_values(alloc, b, names.variables.as_slice(), point, values)?;
    open(b, b"otherSolutionResults")?;
    tell_point(alloc, b, point, values)?;
    tell_numbers(alloc, b, Part::Ray, ray)?;
    tell_certs(alloc, b, certs)?;
    close(b, b"otherSolutionResults")
}

/// Tells the solution of a claim of the best point so far.
fn tell_best_so_far(
    alloc: Global,
    b: &mut TreeBuilder,
    names: &NameLists,
    point: &[Frac],
    values: &[Frac],
    cause: Cause,
    bound: &Option<ProvedBound>,
) -> Result<(), Memory>
    requires { b.old.attributes ≡ [] }
    ensures { OnOk result (Told b.old b.new (nodes_events (writing.claim_nodes names.now (BestSoFar point.now values.now cause bound.now)))) }
{
    tell_status(b, Claiming::BestSoFar)?;
    tell_point_values(alloc, b, names.variables.as_slice(), point, values)?;
    open(b, b"otherSolutionResults")?;
    tell_point(alloc, b, point, values)?;
    tell_cause(alloc, b, cause)?;
    tell_bound(alloc, b, bound)?;
    close(b, b"otherSolutionResults")
}

/// Tells the solution of a claim of nothing but perhaps a bound.
fn tell_unsure(
    alloc: Global,
    b: &mut TreeBuilder,
    cause: Cause,
    bound: &Option<ProvedBound>,
) -> Result<(), Memory>
    requires { b.old.attributes ≡ [] }
    ensures { OnOk result (Told b.old b.new (nodes_events (writing.claim_nodes no_names (Unsure cause bound.now)))) }
{
    tell_status(b, Claiming::Unsure)?;
    open(b, b"otherSolutionResults")?;
    tell_cause(alloc, b, cause)?;
    tell_bound(alloc, b, bound)?;
    close(b, b"otherSolutionResults")
}

/// Tells a claim's solution.
fn tell_claim(
    alloc: Global,
    b: &mut TreeBuilder,
    names: &NameLists,
    claim: &Claim,
) -> Result<(), Memory>
    requires { b.old.attributes ≡ [] }
    ensures { OnOk result (Told b.old b.new (nodes_events (writing.claim_nodes names.now claim.now))) }
{
    match claim {
        Claim::Optimal {
            point,
            values,
            certs,
        } => tell_optimal(
            alloc,
            b,
            names,
            point.as_slice(),
            values.as_slice(),
            certs.as_slice(),
        ),
        Claim::Infeasible { cert } => tell_infeasible(alloc, b, cert),
        Claim::Unbounded {
            point,
            values,
            certs,
            ray,
        } => tell_unbounded(
            alloc,
            b,
            names,
            point.as_slice(),
            values.as_slice(),
            certs.as_slice(),
            ray.as_slice(),
        ),
        Claim::BestSoFar {
            point,
            values,
            cause,
            bound,
        } => tell_best_so_far(
            alloc,
            b,
            names,
            point.as_slice(),
            values.as_slice(),
            *cause,
            bound,
        ),
        Claim::Unsure { cause, bound } => tell_unsure(alloc, b, *cause, bound),
    }
}

/// Tells the part of the document that has the claim, if there is one.
fn tell_optimization(
    alloc: Global,
    b: &mut TreeBuilder,
    names: &NameLists,
    claim: &Option<Claim>,
) -> Result<(), Memory>
    requires { b.old.attributes ≡ [] }
    ensures { OnOk result (Told b.old b.new (nodes_events (writing.optimization names.now claim.now))) }
{
    let Some(claim) = claim else {
        return Ok(());
    };
    open(b, b"optimization")?;
    open(b, b"solution")?;
    tell_claim(alloc, b, names, claim)?;
    close(b, b"solution")?;
    close(b, b"optimization")
}

/// Tells a text in an element of this name, if there is one.
fn tell_text(b: &mut TreeBuilder, name: &[u8], text: &Option<Text>) -> Result<(), Memory>
    requires { b.old.attributes ≡ [] }
    ensures { OnOk result (Told b.old b.new (λ k. nodes_events (writing.leaf_of name.now text.now none) k)) }
{
    match text {
        Some(text) => leaf(b, name, text.as_slice()),
        None => Ok(()),
    }
}

/// The type of the general status.
fn general_type(error: bool) -> &'static [u8]
    ensures { result.now ≡ writing.general_type error }
{
    if error { b"error" } else { b"normal" }
}

/// Tells what is said of the job in general.
fn tell_general(b: &mut TreeBuilder, report: &Report) -> Result<(), Memory>
    requires { b.old.attributes ≡ [] }
    ensures { OnOk result (Told b.old b.new (nodes_events (writing.general_nodes report.now))) }
{
    tell_typed(b, b"generalStatus", general_type(report.error))?;
    tell_text(b, b"jobID", &report.job)?;
    tell_text(b, b"message", &report.message)
}

/// Tells how far the job is.
fn tell_job(b: &mut TreeBuilder, status: JobStatus) -> Result<(), Memory>
    requires { b.old.attributes ≡ [] }
    ensures { OnOk result (Told b.old b.new (λ k. nodes_events (writing.status_nodes status none) k)) }
{
    open(b, b"job")?;
    leaf(b, b"status", status.word())?;
    close(b, b"job")
}

/// Tells a whole report with these names.
fn tell_report(
    alloc: Global,
    b: &mut TreeBuilder,
    names: &NameLists,
    report: &Report,
) -> Result<(), Memory>
    requires { b.old.attributes ≡ [] }
    ensures { OnOk result (Told b.old b.new (whole_element (writing.named_element names.now report.now))) }
{
    open_with(b, b"osrl", b"xmlns", b"os.optimizationservices.org")?;
    open(b, b"general")?;
    tell_general(b, report)?;
    close(b, b"general")?;
    tell_job(b, report.status)?;
    tell_optimization(alloc, b, names, &report.claim)?;
    close(b, b"osrl")
}

/// The text of a report with these names, however long it is.
fn write_named(alloc: Global, names: &NameLists, report: &Report) -> Result<Text, Memory>
    ensures { IfOk result (λ text. text ≡ writing.named_text names.now report.now) }
{
    let mut b = TreeBuilder::new(alloc);
    tell_report(alloc, &mut b, names, report)?;
    told_text(alloc, b)
}

/// The text of a report: its document with the namespace of the result language, the general status, the job's text and
/// the message where there are, the job's status, and, where there is a claim, its solution: the status, the values that
/// are for people, and the certificate's parts.
pub fn encode(alloc: Global, report: &Report) -> Result<Text, Memory>
    ensures { IfOk result (λ text. text ≡ writing.report_text report.now) }
{
    write_named(alloc, &NameLists::none(alloc), report)
}

/// The text of a report, as [`encode`] writes it, with these names: the value of a variable has its name, and the dual value
/// of a row has the row's, as an attribute `name` behind `idx`. Where that would be longer than a document may be, the text is
/// that without names.
pub fn encode_named(alloc: Global, names: &NameLists, report: &Report) -> Result<Text, Memory>
    ensures { IfOk result (λ text. text ≡ writing.told_text names.now report.now) }
{
    let text = write_named(alloc, names, report)?;
    if text.len() as u64 <= MOST_BYTES {
        return Ok(text);
    }
    encode(alloc, report)
}
