//! Jobs that are given up, to be timed: `bench/jobs.sh` runs it with each place of a table of many jobs and of few.
//!
//! The words are a place, how many jobs are held, and how many rounds are made. A round gives up the job at the place, `front`,
//! `spread` or `back` in order of issue, and has another one issued and killed. The output is how many were issued.
#![tactic(auto)]

use job_table::{Table, Verdicts};
use std::{env, io};

/// No document is judged.
#[derive(Drop)]
struct Unjudged;

impl Verdicts for Unjudged {
    ghost right = { λ _ _ _ _. Unit {0} };
}

/// Far enough from one job to the next that all places come in turn, and none near the one before.
const STRIDE: usize = 4_999;

/// The number of a job that is issued and killed, so that the next kill gives it up; 0 where there is no room for it.
fn over(table: &mut Table<Unjudged>) -> u64 {
    match table.issue() {
        Ok(number) => {
            table.kill(number);
            number
        }
        Err(_) => 0,
    }
}

/// Which of the numbers is given up in a round. At the front they stand in a ring, of which each round renews the oldest.
fn taken(place: &str, round: usize, held: usize) -> usize {
    match place {
        "front" => round.checked_rem(held).unwrap_or(0),
        "spread" => round.wrapping_mul(STRIDE).checked_rem(held).unwrap_or(0),
        _ => held.saturating_sub(1),
    }
}

/// Makes the rounds on a table that holds so many jobs.
fn rounds(table: &mut Table<Unjudged>, numbers: &mut [u64], place: &str, rounds: usize) {
    let held = numbers.len();
    for round in 0..rounds {
        if let Some(number) = numbers.get_mut(taken(place, round, held)) {
            table.kill(*number);
            *number = over(table);
        }
    }
}

fn main(rt: HostRuntime) -> io::Result<()> {
    let mut words = env::args(&rt)?;
    words.next();
    let (Some(place), Some(held), Some(many)) = (words.next(), words.next(), words.next()) else {
        return println!(rt; "a place, how many jobs and how many rounds");
    };
    let mut table: Table<Unjudged> = Table::new(rt.alloc(), 1);
    let mut numbers = Vec::new(rt.alloc());
    for _ in 0..held.parse().unwrap_or(0usize) {
        numbers.push(over(&mut table))?;
    }
    rounds(
        &mut table,
        numbers.as_mut_slice(),
        place.as_str(),
        many.parse().unwrap_or(0usize),
    );
    println!(rt; "{} issued", table.issued())
}
