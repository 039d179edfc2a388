//! Result documents: what each is read as, or why it is refused (`docs/rules/results.md`).

use cases::Answers;
use os_io::{Memory, Text};
use osrl_grammar::{decode, refusal_text};
use osrl_writing::{Report, encode};
use std::alloc::Global;

/// Given a document that a report is written as.
#[derive(Drop)]
pub(crate) struct Written;

impl Answers for Written {
    fn answer(&mut self, alloc: Global, given: &[Vec<u8>]) -> Result<Text, Memory> {
        let [document] = given else {
            return Text::from_slice(alloc, b"one field");
        };
        match decode(alloc, document.as_slice()) {
            Ok(report) => {
                let text = encode(alloc, &report)?;
                if text.as_slice() == document.as_slice() {
                    Text::from_slice(alloc, b"written so")
                } else {
                    Ok(text)
                }
            }
            Err(fault) => refusal_text(alloc, fault),
        }
    }
}

/// Whether a document is read, or its refusal.
fn verdict(alloc: Global, document: &[u8]) -> Result<Text, Memory> {
    match decode(alloc, document) {
        Ok(_) => Text::from_slice(alloc, b"read"),
        Err(fault) => refusal_text(alloc, fault),
    }
}

/// Given a document.
#[derive(Drop)]
pub(crate) struct Document;

impl Answers for Document {
    fn answer(&mut self, alloc: Global, given: &[Vec<u8>]) -> Result<Text, Memory> {
        match given {
            [document] => verdict(alloc, document.as_slice()),
            _ => Text::from_slice(alloc, b"one field"),
        }
    }
}

/// Given the solution of a finished job.
#[derive(Drop)]
pub(crate) struct Solution;

impl Answers for Solution {
    fn answer(&mut self, alloc: Global, given: &[Vec<u8>]) -> Result<Text, Memory> {
        let [solution] = given else {
            return Text::from_slice(alloc, b"one field");
        };
        let mut text = Text::from_slice(
            alloc,
            b"<osrl><general><generalStatus type=\"normal\"/></general><job><status>finished</status></job><optimization><solution>",
        )?;
        text.extend(solution.as_slice())?;
        text.extend(b"</solution></optimization></osrl>")?;
        verdict(alloc, text.as_slice())
    }
}

/// What a report says in general.
fn general_part(alloc: Global, report: &Report) -> Result<Text, Memory> {
    let mut text = Text::new(alloc);
    text.extend(if report.error { b"error" } else { b"normal" })?;
    if let Some(job) = &report.job {
        text.extend(b", job ")?;
        text.extend(job.as_slice())?;
    }
    if let Some(message) = &report.message {
        text.extend(b", message ")?;
        text.extend(message.as_slice())?;
    }
    Ok(text)
}

/// Given a document, of which the general part is told.
#[derive(Drop)]
pub(crate) struct General;

impl Answers for General {
    fn answer(&mut self, alloc: Global, given: &[Vec<u8>]) -> Result<Text, Memory> {
        let [document] = given else {
            return Text::from_slice(alloc, b"one field");
        };
        match decode(alloc, document.as_slice()) {
            Ok(report) => general_part(alloc, &report),
            Err(fault) => refusal_text(alloc, fault),
        }
    }
}
