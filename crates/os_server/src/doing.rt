//! What is asked is done by moves of the table.
ghost use Rattle.std.specs.Prelude.{List, IfOk, OnErr};
ghost use Rattle.job_table.specs.History.{MoveEntry};
ghost use Rattle.os_server.specs.Answers.{reply_of, Does, BeginsToDo};

use crate::order::{Order, number_for};
use effects::NotStored;
use job_runs::{Runner, solve};
use job_table::{IssueFault, Killing, Mover, Retrieved, Statistics, Twin, Verdicts};
use os_io::Memory;
use soap_calls::CallKind;
use std::alloc::{AllocError, Global};

/// The last reply of the table to what was asked.
#[derive(Drop)]
pub enum LastReply {
    /// The new job's number.
    Issued(u64),
    /// Too many jobs are held.
    Full,
    /// No number is left.
    Spent,
    /// Whether the texts were taken.
    Sent(bool),
    /// What stands after a kill.
    Killing(Killing),
    /// What is shown of a job.
    Retrieved(Retrieved),
    /// How far all jobs have come.
    Statistics(Statistics),
    /// The effect of a move wasn't stored.
    NotStored(NotStored),
}

/// Does what is asked, and gives the last reply.
pub(crate) fn do_order<V: Verdicts, C: Mover<V>, R: Runner<V>>(
    alloc: Global,
    mover: &mut C,
    runner: &R,
    order: Order,
) -> Result<LastReply, Memory>
    ensures ok { IfOk result (λ last. (own : List MoveEntry) × C.did mover.old mover.new own × Does R.ran order (reply_of last) own) }
    ensures err { OnErr result ((own : List MoveEntry) × C.did mover.old mover.new own × BeginsToDo R.ran order own) }
{
    let Order {
        kind,
        job,
        osil,
        osol,
    } = order;
    let number = number_for(job);
    match kind {
        CallKind::GetJobId => match mover.issue() {
            Ok(Ok(number)) => Ok(LastReply::Issued(number)),
            Ok(Err(IssueFault::Full)) => Ok(LastReply::Full),
            Ok(Err(IssueFault::Spent)) => Ok(LastReply::Spent),
            Ok(Err(IssueFault::Memory)) => Err(AllocError),
            Err(fault) => Ok(LastReply::NotStored(fault)),
        },
        CallKind::Solve => {
            let osil = Twin::new(alloc, osil)?;
            let osol = Twin::new(alloc, osol)?;
            match solve(alloc, mover, runner, osil, osol) {
                Ok(Ok(shown)) => Ok(LastReply::Retrieved(shown)),
                Ok(Err(IssueFault::Full)) => Ok(LastReply::Full),
                Ok(Err(IssueFault::Spent)) => Ok(LastReply::Spent),
                Ok(Err(IssueFault::Memory)) => Err(AllocError),
                Err(fault) => Ok(LastReply::NotStored(fault)),
            }
        }
        CallKind::Send => {
            let osil = Twin::new(alloc, osil)?;
            let osol = Twin::new(alloc, osol)?;
            match mover.send(number, osil, osol) {
                Ok(taken) => Ok(LastReply::Sent(taken)),
                Err(fault) => Ok(LastReply::NotStored(fault)),
            }
        }
        CallKind::Retrieve => match mover.retrieve(number) {
            Ok(shown) => Ok(LastReply::Retrieved(shown)),
            Err(lost) => Err(lost),
        },
        CallKind::Knock => match mover.knock() {
            Ok(told) => Ok(LastReply::Statistics(told)),
            Err(lost) => Err(lost),
        },
        CallKind::Kill => match mover.kill(number) {
            Ok(told) => Ok(LastReply::Killing(told)),
            Err(fault) => Ok(LastReply::NotStored(fault)),
        },
    }
}
