//! What a case gives, and how it is answered.

use super::results::{repeated_tree, result_of};
use cases::{Answers, bytes_of, number_of};
use document_checker::{answer_text, check_docs};
use os_io::{Files, Memory, Text};
use std::alloc::Global;

/// What two documents say together.
fn answer_about(alloc: Global, osil: &[u8], osrl: &[u8]) -> Result<Text, Memory> {
    answer_text(alloc, &check_docs(alloc, osil, osrl))
}

/// Given an instance's file, a status, and the results of a certificate: of each its name and its items, with `|` between.
#[derive(Drop)]
pub(crate) struct Claimed<F>(pub F);

impl<F: Files + Drop> Answers for Claimed<F> {
    fn answer(&mut self, alloc: Global, given: &[Vec<u8>]) -> Result<Text, Memory> {
        match given {
            [osil, status, results @ ..] => {
                let osil = bytes_of(alloc, &mut self.0, osil.as_slice())?;
                let osrl = result_of(alloc, status.as_slice(), results)?;
                answer_about(alloc, osil.as_slice(), osrl.as_slice())
            }
            _ => Text::from_slice(alloc, b"two fields at least"),
        }
    }
}

/// Given an instance's file and a result's.
#[derive(Drop)]
pub(crate) struct InFiles<F>(pub F);

impl<F: Files + Drop> Answers for InFiles<F> {
    fn answer(&mut self, alloc: Global, given: &[Vec<u8>]) -> Result<Text, Memory> {
        match given {
            [osil, osrl] => {
                let osil = bytes_of(alloc, &mut self.0, osil.as_slice())?;
                let osrl = bytes_of(alloc, &mut self.0, osrl.as_slice())?;
                answer_about(alloc, osil.as_slice(), osrl.as_slice())
            }
            _ => Text::from_slice(alloc, b"two fields"),
        }
    }
}

/// Given both documents themselves.
#[derive(Drop)]
pub(crate) struct InTexts;

impl Answers for InTexts {
    fn answer(&mut self, alloc: Global, given: &[Vec<u8>]) -> Result<Text, Memory> {
        match given {
            [osil, osrl] => answer_about(alloc, osil.as_slice(), osrl.as_slice()),
            _ => Text::from_slice(alloc, b"two fields"),
        }
    }
}

/// Given an instance's file, a node, and how often it stands in the tree of a claim that there is no point.
#[derive(Drop)]
pub(crate) struct Repeated<F>(pub F);

impl<F: Files + Drop> Answers for Repeated<F> {
    fn answer(&mut self, alloc: Global, given: &[Vec<u8>]) -> Result<Text, Memory> {
        match given {
            [osil, node, times] => {
                let osil = bytes_of(alloc, &mut self.0, osil.as_slice())?;
                let times = number_of(times.as_slice());
                let osrl = repeated_tree(alloc, node.as_slice(), times)?;
                answer_about(alloc, osil.as_slice(), osrl.as_slice())
            }
            _ => Text::from_slice(alloc, b"three fields"),
        }
    }
}
