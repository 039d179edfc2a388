//! Tables of linear and integer programs: their dictionaries, the runs of the simplex method, and the searches over whole variables.
//!
//! The answers come from the rules (`docs/rules/`). The output is a line for each answer that is another, and how many cases there are.
#![tactic(auto)]

mod dictionaries;
mod searches;
mod turns;

use cases::Tables;
use dictionaries::Tableaus;
use searches::Searches;
use std::io;
use turns::Turns;

fn main(rt: HostRuntime) -> io::Result<()> {
    let mut tables = Tables::new(&rt);
    tables.try_file("dictionaries.txt", &mut Tableaus)?;
    tables.try_file("turns.txt", &mut Turns)?;
    tables.try_file("searches.txt", &mut Searches)?;
    tables.tell_count()
}
