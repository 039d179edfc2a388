//! Two seats of one desk.

use crate::telling::{Fault, Lines};
use crate::threads::{moved, shared};
use desk::{Desk, StoredDesk};
use effects::NoStore;
use job_table::moves::{Enter, Issue, Knock};
use job_table::{IssueFault, Job, Table, Twin, Verdicts};
use os_io::{Memory, Text};
use std::alloc::Global;
use std::sync::Wait;

/// Any document is right.
pub(crate) struct AnyDocument;

impl Verdicts for AnyDocument {
    ghost right = { λ _ _ _ _. Unit {0} };
}

pub(crate) fn twin_of(alloc: Global, bytes: &[u8]) -> Result<Twin, Memory> {
    Twin::new(alloc, Text::from_slice(alloc, bytes)?)
}

fn enter(alloc: Global) -> Result<Enter, Memory> {
    Ok(Enter {
        osil: twin_of(alloc, b"osil")?,
        osol: twin_of(alloc, b"osol")?,
    })
}

/// The number of a job that was entered, or 0 where none was.
fn number_of(entered: Result<Job, IssueFault>) -> u64 {
    match entered {
        Ok(job) => job.number,
        Err(_) => 0,
    }
}

/// The first seat gets a number, and the second one enters a job.
fn see_one_history<R: Wait>(rt: &R, alloc: Global) -> Result<String, Fault> {
    let (desk, mut first) = Desk::<AnyDocument>::new(alloc, 5)?;
    let issued = desk.ask(rt, &mut first, Issue).unwrap_or(0);
    let desk = shared(desk);
    let mut second = moved(desk.split(&mut first));
    let new_job = enter(alloc)?;
    let entered = number_of(desk.ask(rt, &mut second, new_job));
    let told = desk.ask(rt, &mut first, Knock)?;
    let (current, total) = (told.current, told.total);
    desk.meet(&mut first, second);
    let numbers = desk.close(first).issued();
    Ok(format!(in alloc;
        "the first got {issued}, the second {entered}; a knock says {current} of {total}; closed behind {numbers} numbers"
    )?)
}

/// The same at a desk with a store beside its table.
fn keep_a_store<R: Wait>(rt: &R, alloc: Global) -> Result<String, Fault> {
    let table = Table::new(alloc, 5);
    let made = StoredDesk::<AnyDocument, NoStore>::of(alloc, table, NoStore);
    let (desk, mut first) = match made {
        Ok(made) => made,
        Err((lost, NoStore)) => return Err(Fault::from(lost)),
    };
    let issued = match desk.make(rt, &mut first, Issue) {
        Ok(issued) => issued.unwrap_or(0),
        Err(_) => 0,
    };
    let desk = shared(desk);
    let mut second = moved(desk.split(&mut first));
    let new_job = enter(alloc)?;
    let entered = match desk.make(rt, &mut second, new_job) {
        Ok(entered) => number_of(entered),
        Err(_) => 0,
    };
    desk.meet(&mut first, second);
    let (table, NoStore) = desk.close_stored(first);
    let numbers = table.issued();
    Ok(format!(in alloc;
        "the first got {issued}, the second {entered}; closed behind {numbers} numbers"
    )?)
}

/// Tells what was seen of two seats of a desk.
pub(crate) fn tell<R: Wait>(rt: &R, alloc: Global, lines: &mut Lines) -> Result<(), Memory> {
    lines.tell("two seats", see_one_history(rt, alloc))?;
    lines.tell("two seats over a store", keep_a_store(rt, alloc))
}
