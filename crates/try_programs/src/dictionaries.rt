//! Dictionaries: programs, the columns that are exchanged, and what the dictionary then says, worked out by hand from the rules
//! (`docs/rules/dictionaries.md`; Chvátal, Linear Programming, 1983, chapter 2).

use cases::Answers;
use os_io::{Memory, Text};
use std::alloc::Global;
use tableaus::{read_exchanges, read_factor, read_numbers, read_tableau, tell_turned, tell_values};

/// Given the rows, the costs, the factor of the costs and the exchanges, and maybe a value for each column.
#[derive(Drop)]
pub(crate) struct Tableaus;

/// The answer of a program that was read.
fn answer_of(alloc: Global, given: &[Vec<u8>]) -> Result<Text, Memory> {
    let [rows, costs, factor, turns, values] = given else {
        return Text::from_slice(alloc, b"five fields");
    };
    let Some(instance) = read_tableau(alloc, rows.as_slice(), costs.as_slice())? else {
        return Text::from_slice(alloc, b"no program");
    };
    let Some(turns) = read_exchanges(alloc, turns.as_slice())? else {
        return Text::from_slice(alloc, b"no exchanges");
    };
    let factor = read_factor(factor.as_slice());
    if values.is_empty() {
        return tell_turned(alloc, &instance, factor, turns.as_slice());
    }
    match read_numbers(alloc, values.as_slice())? {
        Some(list) => tell_values(alloc, &instance, factor, turns.as_slice(), list.as_slice()),
        None => Text::from_slice(alloc, b"no values"),
    }
}

impl Answers for Tableaus {
    fn answer(&mut self, alloc: Global, given: &[Vec<u8>]) -> Result<Text, Memory> {
        answer_of(alloc, given)
    }
}
