//! The table that effects are made in, and which documents are accepted.

use crate::telling::put_number;
use job_journal::Sieve;
use job_table::{State, Table, Verdicts};
use os_io::{Memory, Text};

/// Each document is right.
pub enum Any {}

impl Verdicts for Any {
    ghost right = { λ _ _ _ _. Unit {0} };
}

/// Refuses the document `no`, and no other.
#[derive(Drop)]
pub struct NoNo;

impl Sieve for NoNo {
    ghost use Rattle.std.specs.Prelude.{◌≢◌, ◌∷◌, []};

    ghost accepted = { λ _ document. document ≢ 110 ∷ 111 ∷ [] };

    fn accepts(&mut self, _osil: &[u8], document: &[u8]) -> Result<bool, Memory> {
        Ok(document != b"no".as_slice())
    }
}

/// A state as a word.
fn state_word(state: State) -> &'static [u8] {
    match state {
        State::Issued => b" issued",
        State::Waiting => b" waiting",
        State::Running => b" running",
        State::Finished => b" finished",
        State::Killed => b" killed",
    }
}

/// The numbers of jobs with their states, and how many numbers were given.
pub fn tell_jobs(table: &Table<Any>, text: &mut Text) -> Result<(), Memory> {
    let told = table.knock()?;
    for (number, state) in told.jobs.as_slice() {
        put_number(text, *number)?;
        text.extend(state_word(*state))?;
        text.extend(b", ")?;
    }
    put_number(text, told.total)?;
    text.extend(b" given")
}
