//! Exchanges of columns, to be timed: `bench/dictionaries.sh` runs it beside a peer over FLINT's fractions.
//!
//! The input has four lines: a program's rows, its costs, the exchanges, and how often they are made, each time from the
//! loaded program. The output is the goal's equation afterwards.
#![tactic(auto)]

use os_io::{Memory, Text};
use std::alloc::Global;
use std::io::{self, Write};
use tableaus::{read_column, read_exchanges, read_tableau, tell_goal};

fn answer(alloc: Global, lines: &[String]) -> Result<Text, Memory> {
    let [rows, costs, turns, rounds] = lines else {
        return Text::from_slice(alloc, b"four lines");
    };
    let Some(instance) = read_tableau(alloc, rows.as_bytes(), costs.as_bytes())? else {
        return Text::from_slice(alloc, b"no program");
    };
    let Some(turns) = read_exchanges(alloc, turns.as_bytes())? else {
        return Text::from_slice(alloc, b"no exchanges");
    };
    let rounds = read_column(rounds.as_bytes()).unwrap_or(1);
    tell_goal(alloc, &instance, 1, turns.as_slice(), rounds)
}

fn main(rt: HostRuntime) -> io::Result<()> {
    let mut lines = Vec::new(rt.alloc());
    for line in rt.lines(rt.alloc()) {
        lines.push(line?)?;
    }
    let text = answer(rt.alloc(), lines.as_slice())?;
    let mut output = rt.stdout();
    output.write_all(text.as_slice())?;
    println!(rt; "")
}
