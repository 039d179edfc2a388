//! The examples, solved, beside the results that stand with them.

use super::jobs::{put_status, solve};
use cases::bytes_of;
use certificate::Claim;
use os_io::{Files, Memory, Text};
use osrl_grammar::decode;
use std::alloc::Global;
use std::sync::Wait;
use std::thread::Threads;
use std::time::Clock;

/// Given an example's name: the status of `solve`, that of `check` with its line, and whether what is claimed is what the stored
/// result claims.
#[derive(Drop)]
pub(crate) struct Examples<'r, R, F> {
    rt: &'r R,
    disk: F,
}

impl<'r, R: Threads + Wait + Clock + Sync, F: Files> Examples<'r, R, F> {
    pub(crate) fn new(rt: &'r R, disk: F) -> Self {
        Examples { rt, disk }
    }

    /// The bytes of an example's file, or none where it can't be read.
    fn bytes_of(&mut self, alloc: Global, name: &[u8], end: &[u8]) -> Result<Text, Memory> {
        let mut file = Text::from_slice(alloc, name)?;
        file.extend(end)?;
        bytes_of(alloc, &mut self.disk, file.as_slice())
    }
}

/// Whether two claims say the same, however they show it.
fn agree(claim: &Claim, stored: &Claim) -> bool {
    match (claim, stored) {
        (Claim::Optimal { values, .. }, Claim::Optimal { values: best, .. }) => {
            values.as_slice() == best.as_slice()
        }
        (Claim::BestSoFar { values, .. }, Claim::BestSoFar { values: best, .. }) => {
            values.as_slice() == best.as_slice()
        }
        (Claim::Infeasible { .. }, Claim::Infeasible { .. }) => true,
        (Claim::Unbounded { .. }, Claim::Unbounded { .. }) => true,
        _ => false,
    }
}

/// Whether two result documents claim the same.
fn claim_the_same(alloc: Global, osrl: &[u8], stored: &[u8]) -> bool {
    match (decode(alloc, osrl), decode(alloc, stored)) {
        (Ok(report), Ok(other)) => match (&report.claim, &other.claim) {
            (Some(claim), Some(stored)) => agree(claim, stored),
            _ => false,
        },
        _ => false,
    }
}

impl<'r, R: Threads + Wait + Clock + Sync, F: Files> Examples<'r, R, F> {
    /// The answer of one case.
    pub(crate) fn answer(&mut self, alloc: Global, given: &[Vec<u8>]) -> Result<Text, Memory> {
        let [name] = given else {
            return Text::from_slice(alloc, b"one field");
        };
        let osil = self.bytes_of(alloc, name.as_slice(), b".osil")?;
        let osrl = self.bytes_of(alloc, name.as_slice(), b".osrl")?;
        let solved = solve(self.rt, alloc, osil.as_slice(), b"", false)?;
        let mut text = Text::new(alloc);
        put_status(&mut text, solved.status)?;
        put_status(&mut text, solved.verdict)?;
        text.extend(solved.line.as_slice())?;
        if claim_the_same(alloc, solved.document.as_slice(), osrl.as_slice()) {
            text.extend(b"as stored")?;
        }
        Ok(text)
    }
}
