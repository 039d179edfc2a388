//! Tables over the whole program: what its runs answer and write, by their words, their input, their files and their links; jobs in files,
//! solved and checked; runs in which each outside call fails, one after another; and journals. Besides these,
//! claims that the checker alone is asked about.
//!
//! The answers come from the rules (`docs/rules/`, and the README's table of statuses), by hand; those of the examples are the results that
//! stand beside them in `examples/`, of which the files here are copies (`tools/examples.sh`). The output is a line for each answer that is
//! another, and how many cases there are.
#![tactic(auto)]

mod claims;
mod faults;
mod journals;
mod runs;
mod solves;
mod words;

use cases::Tables;
use std::io;

fn main(rt: HostRuntime) -> io::Result<()> {
    let mut tables = Tables::new(&rt);
    runs::try_tables(&rt, &mut tables)?;
    solves::try_tables(&rt, &mut tables)?;
    faults::try_tables(&rt, &mut tables)?;
    journals::try_tables(&rt, &mut tables)?;
    claims::try_tables(&rt, &mut tables)?;
    tables.tell_count()
}
