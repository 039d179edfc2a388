//! Cases as texts.
ghost use Rattle.std.specs.Prelude.{◌≡◌, []};

use instance::Instance;
use os_io::Memory;
use simplex::{Cuts, Ends, Turns};
use std::alloc::Global;
use tableaus::{read_column, read_counts, read_program, read_var};

/// A linear program with cuts of its variables' ends, and how it is run.
#[derive(Drop)]
pub struct Case {
    pub instance: Instance,
    pub cuts: Cuts,
    pub zero_goal: bool,
    pub turns: Turns,
    pub stops: Vec<u64>,
    ghost rows: { cuts.rows ≡ [] },
    ghost goal: { cuts.goal ≡ 0 },
}

/// The ends of a variable.
fn read_ends(text: &[u8]) -> Option<Ends> {
    let var = read_var(text)?;
    Some(Ends {
        lb: var.lb,
        ub: var.ub,
    })
}

/// A variable and its ends at a node.
fn read_cut(text: &[u8]) -> Option<(u32, Ends)> {
    let at = text.iter().position(|b| *b == b' ')?;
    let (variable, ends) = text.split_at(at);
    let j = read_column(variable)?;
    Some((j, read_ends(ends.get(1..)?)?))
}

/// Puts a cut in place of a variable's ends: whether it is one.
fn cut_one(cuts: &mut Cuts, text: &[u8]) -> bool
    ensures rows { cuts.new.rows ≡ cuts.old.rows }
    ensures goal { cuts.new.goal ≡ cuts.old.goal }
{
    let Some((j, ends)) = read_cut(text) else {
        return false;
    };
    if (j as usize) >= cuts.len() {
        return false;
    }
    cuts.set(j, ends);
    true
}

/// Puts cuts in place of variables' ends: whether they are some.
fn cut(cuts: &mut Cuts, text: &[u8]) -> bool
    ensures rows { cuts.new.rows ≡ cuts.old.rows }
    ensures goal { cuts.new.goal ≡ cuts.old.goal }
{
    if text.is_empty() {
        return true;
    }
    for piece in text.split(|b| *b == b';') {
        if !cut_one(cuts, piece) {
            return false;
        }
    }
    true
}

/// The turns done and the most that may be, and the looks that stop.
fn read_terms(alloc: Global, text: &[u8]) -> Result<Option<(Turns, Vec<u64>)>, Memory> {
    let Some(counts) = read_counts(alloc, text)? else {
        return Ok(None);
    };
    match counts.as_slice() {
        [done, most, stops @ ..] => {
            let turns = Turns {
                done: *done,
                most: *most,
            };
            Ok(Some((turns, Vec::from_slice(alloc, stops)?)))
        }
        _ => Ok(None),
    }
}

/// A case's program, cuts and terms, if it is one.
pub fn read_case(alloc: Global, given: &[Vec<u8>]) -> Result<Option<Case>, Memory> {
    let [rows, row_ends, vars, changes, goal, costs, terms] = given else {
        return Ok(None);
    };
    let Some(instance) = read_program(alloc, rows, row_ends, vars, goal, costs)? else {
        return Ok(None);
    };
    let Some((turns, stops)) = read_terms(alloc, terms.as_slice())? else {
        return Ok(None);
    };
    let mut cuts = Cuts::of(alloc, instance.vars())?;
    if !cut(&mut cuts, changes.as_slice()) {
        return Ok(None);
    }
    Ok(Some(Case {
        instance,
        cuts,
        zero_goal: goal.as_slice().starts_with(b"zero"),
        turns,
        stops,
    }))
}
