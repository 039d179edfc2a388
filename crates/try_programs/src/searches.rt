//! Searches: what is claimed, with its certificate, after how many turns and looks (`docs/rules/search.md`), by hand: each case's run, split and
//! bound.

mod reading;
mod telling;

use branch_bound::{Searched, search};
use cases::Answers;
use certificate::Claim;
use items::TryCopy;
use memory_ends::MemWatch;
use os_io::{Memory, Text};
use reading::{Case, read_case};
use std::alloc::Global;
use tableaus::put_count;
use telling::put_claim;

/// Given the rows, their ends, the variables, the goals, their costs, and the limits with the looks that stop.
#[derive(Drop)]
pub(crate) struct Searches;

/// How many turns were done, and how many looks.
fn put_counts(text: &mut Text, turns: u64, looks: u64) -> Result<(), Memory> {
    text.extend(b" after ")?;
    put_count(text, turns)?;
    text.extend(b" with ")?;
    put_count(text, looks)?;
    text.extend(b" looks")
}

/// A claim, as a copy of it has it.
fn put_copied(alloc: Global, text: &mut Text, claim: &Claim) -> Result<(), Memory> {
    let copy = claim.try_copy(alloc)?;
    put_claim(text, &copy)
}

/// What a search claims, the turns done then, and the looks.
fn tell_found(alloc: Global, found: &Searched, looks: u64) -> Result<Text, Memory> {
    let mut text = Text::new(alloc);
    put_copied(alloc, &mut text, &found.claim)?;
    put_counts(&mut text, found.turns, looks)?;
    Ok(text)
}

/// What is claimed of a case, as a text.
fn tell(alloc: Global, case: Case) -> Result<Text, Memory> {
    let mut watch = MemWatch::new(alloc, case.stops.as_slice())?;
    let found = search(
        alloc,
        &case.instance,
        case.nodes,
        case.turns,
        case.rounds,
        &mut watch,
    );
    tell_found(alloc, &found, watch.looks())
}

impl Answers for Searches {
    fn answer(&mut self, alloc: Global, given: &[Vec<u8>]) -> Result<Text, Memory> {
        match read_case(alloc, given)? {
            Some(case) => tell(alloc, case),
            None => Text::from_slice(alloc, b"no case"),
        }
    }
}
