//! Writes processes.

ghost use Rattle.std.specs.Prelude.{◌≡◌, [], ◌∷◌, OnOk, IfOk, codes};
ghost use Rattle.tree_grammar.specs.Elements.{none, nodes_events};
ghost use Rattle.document_tags.specs.Telling.{Told, whole_element};
ghost use Rattle.ospl_grammar.specs.declared.process.Process.TheVariants.{Ask, Statistics};
ghost use Rattle.document_tags.specs.Writing as nodes;
ghost use Rattle.ospl_grammar.specs.Words as words;
ghost use Rattle.ospl_grammar.specs.Writing as writing;

use crate::process::{Process, StatedJob};
use crate::words::{busy_word, state_word};
use document_tags::{close, leaf, leaf_with, open, open_with, told_text};
use element_tree::TreeBuilder;
use itoa::Buffer;
use os_io::{Memory, Text};
use std::alloc::Global;

/// Tells what is asked.
fn tell_ask(b: &mut TreeBuilder, action: &[u8]) -> Result<(), Memory>
    requires { b.old.attributes ≡ [] }
    ensures { OnOk result (Told b.old b.new (nodes_events (writing.process_nodes (Ask action.now)))) }
{
    open(b, b"processHeader")?;
    leaf_with(b, b"request", b"action", action, b"")?;
    close(b, b"processHeader")
}

/// Tells a job.
fn tell_job(b: &mut TreeBuilder, job: &StatedJob) -> Result<(), Memory>
    requires { b.old.attributes ≡ [] }
    ensures { OnOk result (Told b.old b.new (nodes_events (writing.jobs_nodes (job.now ∷ [])))) }
{
    open_with(b, b"job", b"jobID", job.id.as_slice())?;
    leaf(b, b"state", state_word(job.state))?;
    close(b, b"job")
}

/// Tells jobs.
fn tell_jobs(b: &mut TreeBuilder, jobs: &[StatedJob]) -> Result<(), Memory>
    requires { b.old.attributes ≡ [] }
    ensures { OnOk result (Told b.old b.new (nodes_events (writing.jobs_nodes jobs.now))) }
{
    for job in jobs {
        tell_job(b, job)?;
    }
    Ok(())
}

/// Tells a number in an element of this name.
fn tell_number(b: &mut TreeBuilder, name: &[u8], number: u64) -> Result<(), Memory>
    requires { b.old.attributes ≡ [] }
    ensures { OnOk result (Told b.old b.new (λ k. nodes_events (writing.number_leaf name.now number none) k)) }
{
    let mut digits = Buffer::new();
    leaf(b, name, digits.format(number).as_bytes())
}

/// Tells whether a job runs.
fn tell_busy(b: &mut TreeBuilder, busy: bool) -> Result<(), Memory>
    requires { b.old.attributes ≡ [] }
    ensures { OnOk result (Told b.old b.new (λ k. nodes_events (nodes.leaf (codes "currentState") (words.busy_text busy) none) k)) }
{
    leaf(b, b"currentState", busy_word(busy))
}

/// Tells how many jobs wait or run.
fn tell_current(b: &mut TreeBuilder, current: u32) -> Result<(), Memory>
    requires { b.old.attributes ≡ [] }
    ensures { OnOk result (Told b.old b.new (λ k. nodes_events (writing.number_leaf (codes "currentJobCount") current none) k)) }
{
    tell_number(b, b"currentJobCount", u64::from(current))
}

/// Tells statistics.
fn tell_statistics(
    b: &mut TreeBuilder,
    busy: bool,
    current: u32,
    total: u64,
    jobs: &[StatedJob],
) -> Result<(), Memory>
    requires { b.old.attributes ≡ [] }
    ensures { OnOk result (Told b.old b.new (nodes_events (writing.process_nodes (Statistics busy current total jobs.now)))) }
{
    open(b, b"processData")?;
    open(b, b"statistics")?;
    tell_busy(b, busy)?;
    tell_current(b, current)?;
    tell_number(b, b"totalJobsSoFar", total)?;
    open(b, b"jobs")?;
    tell_jobs(b, jobs)?;
    close(b, b"jobs")?;
    close(b, b"statistics")?;
    close(b, b"processData")
}

/// Tells what stands in the root.
fn tell_content(b: &mut TreeBuilder, process: &Process) -> Result<(), Memory>
    requires { b.old.attributes ≡ [] }
    ensures { OnOk result (Told b.old b.new (nodes_events (writing.process_nodes process.now))) }
{
    match process {
        Process::Ask { action } => tell_ask(b, action.as_slice()),
        Process::Statistics {
            busy,
            current,
            total,
            jobs,
        } => tell_statistics(b, *busy, *current, *total, jobs.as_slice()),
    }
}

/// Tells a whole document.
fn tell_process(b: &mut TreeBuilder, process: &Process) -> Result<(), Memory>
    requires { b.old.attributes ≡ [] }
    ensures { OnOk result (Told b.old b.new (whole_element (writing.process_element process.now))) }
{
    open_with(b, b"ospl", b"xmlns", b"os.optimizationservices.org")?;
    tell_content(b, process)?;
    close(b, b"ospl")
}

/// The text of a process: a document with the namespace of the process language, and the request, or the statistics with
/// their four parts.
pub fn encode(alloc: Global, process: &Process) -> Result<Text, Memory>
    ensures { IfOk result (λ text. text ≡ writing.process_text process.now) }
{
    let mut b = TreeBuilder::new(alloc);
    tell_process(&mut b, process)?;
    told_text(alloc, b)
}
