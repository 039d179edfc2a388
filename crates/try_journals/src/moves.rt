//! Moves as texts, made in a table whose effects are kept before.

ghost use Rattle.job_table.specs.Steps.{May};

use crate::effects_of::answer_of;
use crate::jobs::Any;
use cases::number_of;
use effects::NotStored;
use job_journal::Journal;
use job_table::moves::{Claim, Enter, Finish, Issue, Kill, Knock, Move, Send};
use job_table::{Job, SharedText, Table, TableMove, Twin, Verdicts};
use memory_disks::MemDisk;
use os_io::{Memory, Text};
use std::alloc::{AllocError, Global};

fn shared(alloc: Global, bytes: &[u8]) -> Result<SharedText, Memory> {
    SharedText::new(alloc, Text::from_slice(alloc, bytes)?)
}

fn twin(alloc: Global, bytes: &[u8]) -> Result<Twin, Memory> {
    Twin::new(alloc, Text::from_slice(alloc, bytes)?)
}

/// The move that these words say; other words say a knock.
fn move_of(alloc: Global, text: &[u8]) -> Result<TableMove, Memory> {
    let mut words = text.split(|b| *b == b' ');
    let kind = words.next().unwrap_or(b"");
    let first = words.next().unwrap_or(b"");
    let second = words.next().unwrap_or(b"");
    let third = words.next().unwrap_or(b"");
    let fourth = words.next().unwrap_or(b"");
    let number = number_of(first);
    match kind {
        b"issue" => Ok(TableMove::Issue),
        b"send" => Ok(TableMove::Send {
            number,
            osil: twin(alloc, second)?,
            osol: twin(alloc, third)?,
        }),
        b"enter" => Ok(TableMove::Enter {
            osil: twin(alloc, first)?,
            osol: twin(alloc, second)?,
        }),
        b"claim" => Ok(TableMove::Claim { worker: false }),
        b"finish" => Ok(TableMove::Finish {
            job: Job {
                number,
                osil: shared(alloc, second)?,
                osol: shared(alloc, third)?,
            },
            asked: false,
            document: Some(shared(alloc, fourth)?),
        }),
        b"kill" => Ok(TableMove::Kill { number }),
        _ => Ok(TableMove::Knock),
    }
}

/// Makes a move behind the put of its effect: at an error that wasn't stored.
fn make<V: Verdicts, M: Move<V>>(
    table: &mut Table<V>,
    journal: &mut Journal<MemDisk>,
    step: M,
) -> Result<Result<(), NotStored>, Memory>
where
    M::Answer: Drop,
    requires { May V.right (M.table_move step) }
{
    match step.make_kept(table, journal) {
        Ok(answer) => {
            if M::is_made(&answer) {
                Ok(Ok(()))
            } else {
                Err(AllocError)
            }
        }
        Err(fault) => Ok(Err(fault)),
    }
}

/// Makes the move that is asked for.
fn make_asked(
    table: &mut Table<Any>,
    journal: &mut Journal<MemDisk>,
    table_move: TableMove,
) -> Result<Result<(), NotStored>, Memory> {
    match table_move {
        TableMove::Issue => make(table, journal, Issue),
        TableMove::Send { number, osil, osol } => make(table, journal, Send { number, osil, osol }),
        TableMove::Enter { osil, osol } => make(table, journal, Enter { osil, osol }),
        TableMove::Claim { worker } => make(table, journal, Claim { worker }),
        TableMove::Finish {
            job,
            asked,
            document,
        } => {
            let end = Finish {
                job,
                asked,
                document,
            };
            make(table, journal, end)
        }
        TableMove::Kill { number } => make(table, journal, Kill { number }),
        _ => make(table, journal, Knock),
    }
}

/// Makes moves in order, each behind the put of its effect, and tells what each put answers. Where it refuses, the table stays.
pub fn make_all(
    alloc: Global,
    table: &mut Table<Any>,
    journal: &mut Journal<MemDisk>,
    moves: &[u8],
    text: &mut Text,
) -> Result<(), Memory> {
    for words in moves.split(|b| *b == b';') {
        let table_move = move_of(alloc, words)?;
        let has_effect = table.plan(&table_move).is_some();
        let stored = make_asked(table, journal, table_move)?;
        if has_effect {
            text.extend(answer_of(stored))?;
        } else {
            text.extend(b"no effect, ")?;
        }
    }
    Ok(())
}
