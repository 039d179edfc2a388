//! Sums and products of fractions, to be timed: `bench/fractions.sh` runs it beside a peer in plain Rust.
//!
//! Each line of the input is a task, such as `middle sum 1000 10`: so many digits, so many operands on each side, and so
//! many rounds, in each of which each operand on the left meets each on the right. Its answer is one line with what was
//! asked, a sum over the results that the peer has to agree with, and how many were too wide.
#![tactic(auto)]

mod operands;
mod task;

use std::io;

/// Writes the answer to a line.
fn answer<R: Print + AllocGlobal>(rt: &R, line: &str) -> io::Result<()> {
    let Some(task) = task::read(line) else {
        return println!(rt; "not a task: {line}");
    };
    let total = task::run(rt.alloc(), task)?;
    println!(rt; "{line}: {} wide {}", total.sum, total.wide)
}

fn main(rt: HostRuntime) -> io::Result<()> {
    for line in rt.lines(rt.alloc()) {
        answer(&rt, line?.as_str())?;
    }
    Ok(())
}
