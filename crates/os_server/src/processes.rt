//! Process documents of the table's jobs.
ghost use Rattle.std.specs.Prelude.{◌≡◌, List, map, IfOk};
ghost use Rattle.job_table.specs.Ids.{id_text};
ghost use Rattle.os_server.specs.Answers.{told_state, stated, process_of, job_alone, process_after};
ghost use Rattle.ospl_grammar.specs.Writing.{process_text};

use items::Items;
use job_table::{Killing, State, Statistics, write_id};
use os_io::{Memory, Text};
use ospl_grammar::{JobState, JobStates, Process, StatedJob, encode};
use std::alloc::Global;

/// The text that names a job.
pub(crate) fn id_of(alloc: Global, number: u64) -> Result<Text, Memory>
    ensures { IfOk result (λ id. id ≡ id_text number) }
{
    let mut id = Text::new(alloc);
    write_id(number, &mut id)?;
    Ok(id)
}

/// How far a job has come, as a process document has it.
fn told_state(state: State) -> JobState
    ensures { result ≡ told_state state }
{
    match state {
        State::Issued => JobState::Issued,
        State::Waiting => JobState::Waiting,
        State::Running => JobState::Running,
        State::Finished => JobState::Finished,
        State::Killed => JobState::Killed,
    }
}

/// A job by the text that names it.
fn stated(alloc: Global, number: u64, state: State) -> Result<StatedJob, Memory>
    ensures { IfOk result (λ job. job ≡ stated (number, state)) }
{
    let id = id_of(alloc, number)?;
    Ok(StatedJob {
        id,
        state: told_state(state),
    })
}

/// Jobs by the texts that name them.
fn all_stated(alloc: Global, jobs: &[(u64, State)]) -> Result<JobStates, Memory>
    ensures { IfOk result (λ told. told ≡ map stated jobs.now) }
{
    let mut told = Vec::new(alloc);
    for job in jobs {
        let (number, state) = *job;
        told.push(stated(alloc, number, state)?)?;
    }
    Ok(Items::of(told))
}

/// The one job of that number, or none where it isn't held.
fn alone(alloc: Global, number: u64, state: Option<State>) -> Result<JobStates, Memory>
    ensures { IfOk result (λ told. told ≡ job_alone number state) }
{
    let mut told = Vec::new(alloc);
    if let Some(state) = state {
        told.push(stated(alloc, number, state)?)?;
    }
    Ok(Items::of(told))
}

/// The text of the process document of all jobs.
pub(crate) fn text_of_all(alloc: Global, told: &Statistics) -> Result<Text, Memory>
    ensures { IfOk result (λ text. text ≡ process_text (process_of told.now)) }
{
    let jobs = all_stated(alloc, told.jobs.as_slice())?;
    let process = Process::Statistics {
        busy: told.busy,
        current: told.current,
        total: told.total,
        jobs,
    };
    encode(alloc, &process)
}

/// The text of the process document that follows the kill of a job.
pub(crate) fn text_after_kill(alloc: Global, number: u64, told: &Killing) -> Result<Text, Memory>
    ensures { IfOk result (λ text. text ≡ process_text (process_after number told.now)) }
{
    let jobs = alone(alloc, number, told.state)?;
    let process = Process::Statistics {
        busy: told.busy,
        current: told.current,
        total: told.total,
        jobs,
    };
    encode(alloc, &process)
}
