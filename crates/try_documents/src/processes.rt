//! Process documents (`docs/rules/processes.md`).

use cases::{DocumentCases, Documents};
use itoa::Buffer;
use os_io::{Memory, Text};
use ospl_grammar::{JobState, OsplFault, Process, StatedJob, decode, encode, refusal_text};
use std::alloc::Global;

/// Process documents.
#[derive(Drop)]
pub(crate) struct Ospl;

/// A state.
fn state_name(state: JobState) -> &'static [u8] {
    match state {
        JobState::Issued => b"Issued",
        JobState::Waiting => b"Waiting",
        JobState::Running => b"Running",
        JobState::Finished => b"Finished",
        JobState::Killed => b"Killed",
    }
}

/// Appends jobs: each in brackets its name and its state.
fn put_jobs(text: &mut Text, jobs: &[StatedJob]) -> Result<(), Memory> {
    for job in jobs {
        text.extend(b" [")?;
        text.extend(job.id.as_slice())?;
        text.extend(b"] ")?;
        text.extend(state_name(job.state))?;
    }
    Ok(())
}

impl Documents for Ospl {
    type Said = Process;

    type Fault = OsplFault;

    fn decode(&self, alloc: Global, document: &[u8]) -> Result<Process, OsplFault> {
        decode(alloc, document)
    }

    fn refuse(&self, alloc: Global, fault: &OsplFault) -> Result<Text, Memory> {
        refusal_text(alloc, *fault)
    }

    fn tell(&self, alloc: Global, process: &Process) -> Result<Text, Memory> {
        let mut text = Text::new(alloc);
        match process {
            Process::Ask { action } => {
                text.extend(b"ask ")?;
                text.extend(action.as_slice())?;
            }
            Process::Statistics {
                busy,
                current,
                total,
                jobs,
            } => {
                text.extend(if *busy { b"busy " } else { b"idle " })?;
                text.extend(Buffer::new().format(*current).as_bytes())?;
                text.extend(b" of ")?;
                text.extend(Buffer::new().format(*total).as_bytes())?;
                put_jobs(&mut text, jobs.as_slice())?;
            }
        }
        Ok(text)
    }

    fn encode(&self, alloc: Global, process: &Process) -> Result<Text, Memory> {
        encode(alloc, process)
    }
}
