//! Programs as texts: rows parted by `;`, entries by spaces, each `COLUMN:VALUE`, and a list of costs.
use decimal_text::{read_count, read_ratio};
use fraction::{End, Entry, Frac};
use instance::{Costs, Goal, Instance, Row, Sense, Var};
use os_io::Memory;
use std::alloc::Global;

pub fn read_factor(text: &[u8]) -> i8 {
    match text {
        b"1" => 1,
        b"-1" => -1,
        _ => 0,
    }
}

pub fn read_column(text: &[u8]) -> Option<u32> {
    let count = read_count(text).ok()?;
    u32::try_from(count).ok()
}

/// Fractions parted by spaces.
pub fn read_numbers(alloc: Global, text: &[u8]) -> Result<Option<Vec<Frac>>, Memory> {
    let mut numbers = Vec::new(alloc);
    for piece in text.split(|b| *b == b' ') {
        match read_ratio(piece) {
            Ok(value) => numbers.push(value)?,
            Err(_) => return Ok(None),
        }
    }
    Ok(Some(numbers))
}

fn read_entry(row: u32, text: &[u8]) -> Option<Entry> {
    let mut halves = text.split(|b| *b == b':');
    let col = read_column(halves.next()?)?;
    let value = read_ratio(halves.next()?).ok()?;
    Some(Entry { row, col, value })
}

/// Adds the entries of one row: whether they are some.
fn add_row(entries: &mut Vec<Entry>, row: u32, text: &[u8]) -> Result<bool, Memory> {
    for piece in text.split(|b| *b == b' ') {
        if !piece.is_empty() {
            match read_entry(row, piece) {
                Some(entry) => entries.push(entry)?,
                None => return Ok(false),
            }
        }
    }
    Ok(true)
}

/// The entries of all rows, and how many rows there are.
pub fn read_rows(alloc: Global, text: &[u8]) -> Result<Option<(Vec<Entry>, u32)>, Memory> {
    let mut entries = Vec::new(alloc);
    let mut count: u32 = 0;
    for row in text.split(|b| *b == b';') {
        if !add_row(&mut entries, count, row)? {
            return Ok(None);
        }
        count = count.saturating_add(1);
    }
    Ok(Some((entries, count)))
}

fn free_vars(alloc: Global, count: usize) -> Result<Vec<Var>, Memory> {
    let var = Var {
        lb: End::NegInf,
        ub: End::Inf,
        whole: false,
        zero: false,
    };
    let mut vars = Vec::new(alloc);
    for _ in 0..count {
        vars.push(var)?;
    }
    Ok(vars)
}

fn free_rows(alloc: Global, count: u32) -> Result<Vec<Row>, Memory> {
    let row = Row {
        lb: End::NegInf,
        ub: End::Inf,
    };
    let mut rows = Vec::new(alloc);
    for _ in 0..count {
        rows.push(row)?;
    }
    Ok(rows)
}

/// The list of one goal.
fn only(alloc: Global, goal: Goal) -> Result<Vec<Goal>, Memory> {
    let mut goals = Vec::new(alloc);
    goals.push(goal)?;
    Ok(goals)
}

/// The program of these rows and costs, if it is one.
pub fn read_tableau(alloc: Global, rows: &[u8], costs: &[u8]) -> Result<Option<Instance>, Memory> {
    let Some((entries, height)) = read_rows(alloc, rows)? else {
        return Ok(None);
    };
    let Some(costs) = read_numbers(alloc, costs)? else {
        return Ok(None);
    };
    let goal = Goal {
        sense: Sense::Min,
        constant: Frac::ZERO,
        costs: Costs::of(costs),
    };
    let vars = free_vars(alloc, goal.costs.len())?;
    let rows = free_rows(alloc, height)?;
    Ok(Instance::of(vars, rows, entries, only(alloc, goal)?))
}

/// A basic column that leaves, and one that enters.
#[derive(Clone, Copy)]
pub struct Exchange {
    pub basic: u32,
    pub nonbasic: u32,
}

fn read_exchange(text: &[u8]) -> Option<Exchange> {
    let mut halves = text.split(|b| *b == b' ');
    let basic = read_column(halves.next()?)?;
    let nonbasic = read_column(halves.next()?)?;
    Some(Exchange { basic, nonbasic })
}

/// Exchanges parted by `;`, none in the empty text.
pub fn read_exchanges(alloc: Global, text: &[u8]) -> Result<Option<Vec<Exchange>>, Memory> {
    let mut exchanges = Vec::new(alloc);
    if text.is_empty() {
        return Ok(Some(exchanges));
    }
    for piece in text.split(|b| *b == b';') {
        match read_exchange(piece) {
            Some(exchange) => exchanges.push(exchange)?,
            None => return Ok(None),
        }
    }
    Ok(Some(exchanges))
}
