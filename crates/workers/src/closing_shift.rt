//! What waits is worked off before a desk is closed.

ghost use Rattle.std.specs.Prelude.{List};
ghost use Rattle.job_table.specs.History.{MoveEntry};
ghost use Rattle.desk.specs.SeatMoves.{desk_id, told_of, IsSeatOf};
ghost use Rattle.desk.specs.SeatHistory.{AskedBy};
ghost use Rattle.workers.specs.Shifts.{WorksThrough};

use crate::work::work_off;
use desk::{DeskOf, LentSeatOf, SeatOf, SlotContents};
use job_runs::Runner;
use job_table::{Mover, Verdicts};
use std::alloc::Global;
use std::sync::Wait;

/// Works one shift without sleeping, by moves of this seat: it enlists, claims and runs until a claim gives none, and leaves. Where
/// nobody else makes moves any more, no job waits behind it. One whose finish isn't stored stays running.
pub fn work_closing_shift<J: Verdicts, T: SlotContents<J>, R: Wait, U: Runner<J>>(
    rt: &R,
    alloc: Global,
    desk: &DeskOf<J, T>,
    seat: &mut SeatOf<T>,
    runner: &U,
)
    requires { IsSeatOf (desk_id desk.now) seat.old }
    ensures seat { IsSeatOf (desk_id desk.now) seat.new }
    ensures worked { (own : List MoveEntry) × AskedBy (T.legal (told_of desk.now)) seat.old.me.0 seat.new.me.0 own × WorksThrough U.ran own }
{
    let mut mover = LentSeatOf { rt, desk, seat };
    work_shift(rt, alloc, &mut mover, runner);
    let LentSeatOf {
        rt: _,
        desk: _,
        seat: _seat,
    } = mover;
}

/// The same, whoever makes the moves.
fn work_shift<V: Verdicts, C: Mover<V>, R: Wait, U: Runner<V>>(
    rt: &R,
    alloc: Global,
    mover: &mut C,
    runner: &U,
)
    ensures { (own : List MoveEntry) × C.did mover.old mover.new own × WorksThrough U.ran own }
{
    mover.enlist();
    work_off(rt, alloc, mover, runner);
    mover.leave();
}
