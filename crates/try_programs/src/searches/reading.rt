//! Cases as texts.
use instance::Instance;
use os_io::Memory;
use std::alloc::Global;
use tableaus::{read_column, read_counts, read_program};

/// An instance, and how it is searched.
#[derive(Drop)]
pub struct Case {
    pub instance: Instance,
    pub nodes: u32,
    pub turns: u32,
    pub rounds: u32,
    pub stops: Vec<u64>,
}

/// A case's instance and limits, if it is one.
pub fn read_case(alloc: Global, given: &[Vec<u8>]) -> Result<Option<Case>, Memory> {
    let [
        rows,
        row_ends,
        vars,
        goals,
        costs,
        nodes,
        turns,
        rounds,
        stops,
    ] = given
    else {
        return Ok(None);
    };
    let Some(instance) = read_program(alloc, rows, row_ends, vars, goals, costs)? else {
        return Ok(None);
    };
    let Some(nodes) = read_column(nodes.as_slice()) else {
        return Ok(None);
    };
    let Some(turns) = read_column(turns.as_slice()) else {
        return Ok(None);
    };
    let Some(rounds) = read_column(rounds.as_slice()) else {
        return Ok(None);
    };
    let Some(stops) = read_counts(alloc, stops.as_slice())? else {
        return Ok(None);
    };
    Ok(Some(Case {
        instance,
        nodes,
        turns,
        rounds,
        stops,
    }))
}
