//! Runs of linear programs: the end of each, the turns done, and the looks (`docs/rules/runs.md`; Bland 1977), by hand and by solving the
//! rows anew for each basis.

mod reading;
mod running;
mod telling;

use cases::Answers;
use os_io::{Memory, Text};
use reading::read_case;
use running::tell_run;
use std::alloc::Global;

/// Given the rows, their ends, those of the variables, cuts, the goal, the costs, and the turns with the looks that stop.
#[derive(Drop)]
pub(crate) struct Turns;

impl Answers for Turns {
    fn answer(&mut self, alloc: Global, given: &[Vec<u8>]) -> Result<Text, Memory> {
        match read_case(alloc, given)? {
            Some(case) => tell_run(alloc, case),
            None => Text::from_slice(alloc, b"no case"),
        }
    }
}
