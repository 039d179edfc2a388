//! Whole programs as texts: a tableau, the ends of its rows and variables, and the goal's sense with its constant.
use crate::reading::{read_numbers, read_rows};
use decimal_text::{read_count, read_ratio};
use fraction::{End, Frac};
use instance::{Costs, Goal, Instance, Row, Sense, Var};
use os_io::Memory;
use std::alloc::Global;

fn read_end(text: &[u8]) -> Option<End> {
    match text {
        b"INF" => Some(End::Inf),
        b"-INF" => Some(End::NegInf),
        _ => Some(End::At(read_ratio(text).ok()?)),
    }
}

/// Two ends, and after them `whole` where it must be, and `zero` where it may be 0 besides.
pub fn read_var(text: &[u8]) -> Option<Var> {
    let mut parts = text.split(|b| *b == b' ');
    let lb = read_end(parts.next()?)?;
    let ub = read_end(parts.next()?)?;
    let mut var = Var {
        lb,
        ub,
        whole: false,
        zero: false,
    };
    for word in parts {
        match word {
            b"whole" => var.whole = true,
            b"zero" => var.zero = true,
            _ => return None,
        }
    }
    Some(var)
}

/// Variables or rows parted by `;`, none in the empty text.
fn read_vars(alloc: Global, text: &[u8]) -> Result<Option<Vec<Var>>, Memory> {
    let mut list = Vec::new(alloc);
    if text.is_empty() {
        return Ok(Some(list));
    }
    for piece in text.split(|b| *b == b';') {
        match read_var(piece) {
            Some(var) => list.push(var)?,
            None => return Ok(None),
        }
    }
    Ok(Some(list))
}

/// The sense of a goal, and its constant. One that is left out, `zero`, is as a least one.
fn read_goal(text: &[u8]) -> Option<(Sense, Frac)> {
    let mut halves = text.split(|b| *b == b' ');
    let word = halves.next()?;
    let constant = read_ratio(halves.next()?).ok()?;
    match word {
        b"min" | b"zero" => Some((Sense::Min, constant)),
        b"max" => Some((Sense::Max, constant)),
        _ => None,
    }
}

/// Counts parted by spaces, none in the empty text.
pub fn read_counts(alloc: Global, text: &[u8]) -> Result<Option<Vec<u64>>, Memory> {
    let mut counts = Vec::new(alloc);
    if text.is_empty() {
        return Ok(Some(counts));
    }
    for piece in text.split(|b| *b == b' ') {
        match read_count(piece) {
            Ok(count) => counts.push(count)?,
            Err(_) => return Ok(None),
        }
    }
    Ok(Some(counts))
}

/// Goals parted by `;`, each with its costs.
fn read_goals(alloc: Global, goals: &[u8], costs: &[u8]) -> Result<Option<Vec<Goal>>, Memory> {
    let mut list = Vec::new(alloc);
    let mut pieces = costs.split(|b| *b == b';');
    for goal in goals.split(|b| *b == b';') {
        let Some((sense, constant)) = read_goal(goal) else {
            return Ok(None);
        };
        let Some(piece) = pieces.next() else {
            return Ok(None);
        };
        let Some(numbers) = read_numbers(alloc, piece)? else {
            return Ok(None);
        };
        list.push(Goal {
            sense,
            constant,
            costs: Costs::of(numbers),
        })?;
    }
    Ok(Some(list))
}

/// The rows that have these ends.
fn rows_of(alloc: Global, ends: &[Var]) -> Result<Vec<Row>, Memory> {
    let mut rows = Vec::new(alloc);
    for row in ends {
        rows.push(Row {
            lb: row.lb,
            ub: row.ub,
        })?;
    }
    Ok(rows)
}

/// The program of these rows, their ends, variables, goals and costs, if it is one.
pub fn read_program(
    alloc: Global,
    rows: &Vec<u8>,
    row_ends: &Vec<u8>,
    vars: &Vec<u8>,
    goals: &Vec<u8>,
    costs: &Vec<u8>,
) -> Result<Option<Instance>, Memory> {
    let Some(goals) = read_goals(alloc, goals.as_slice(), costs.as_slice())? else {
        return Ok(None);
    };
    let Some((entries, _)) = read_rows(alloc, rows.as_slice())? else {
        return Ok(None);
    };
    let Some(ends) = read_vars(alloc, row_ends.as_slice())? else {
        return Ok(None);
    };
    let Some(vars) = read_vars(alloc, vars.as_slice())? else {
        return Ok(None);
    };
    let rows = rows_of(alloc, ends.as_slice())?;
    Ok(Instance::of(vars, rows, entries, goals))
}
