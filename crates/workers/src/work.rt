//! Jobs are claimed, run and finished.

ghost use Rattle.std.specs.Prelude.{◌≡◌, List, IsTrue, ◌↔◌, IsSome, Option};
ghost use Rattle.job_table.specs.declared.job.Job.{Job};
ghost use Rattle.job_table.specs.History.{MoveEntry};
ghost use Rattle.job_runs.specs.Runs.{Works};
ghost use Rattle.desk.specs.SeatMoves.{desk_id, told_of, IsSeatOf};
ghost use Rattle.desk.specs.SeatHistory.{AskedBy};
ghost use Rattle.workers.specs.Shifts.{WorksUntilNone, WorksThrough};
ghost use Rattle.workers.specs.Gates.{look_numbers};

use crate::gate::{Gate, Gated};
use crate::wake::WakeSignals;
use desk::{DeskOf, LentSeatOf, SeatOf, SlotContents};
use job_runs::Runner;
use job_table::{Mover, Verdicts};
use std::alloc::Global;
use std::marker::PhantomData;
use std::sync::Wait;

/// Claims one job that waits, runs it and finishes it, by moves of this seat. False exactly where the claim gave none.
pub fn work_one_by_seat<J: Verdicts, T: SlotContents<J>, R: Wait, U: Runner<J>, G: Gate>(
    rt: &R,
    alloc: Global,
    desk: &DeskOf<J, T>,
    seat: &mut SeatOf<T>,
    runner: &U,
    as_worker: bool,
    gate: &mut G,
) -> bool
    requires { IsSeatOf (desk_id desk.now) seat.old }
    ensures seat { IsSeatOf (desk_id desk.now) seat.new }
    ensures worked { (given : Option Job) × (own : List MoveEntry) × AskedBy (T.legal (told_of desk.now)) seat.old.me.0 seat.new.me.0 own × Works U.ran as_worker given own × (IsTrue result ↔ IsSome given) × G.passed gate.old gate.new (look_numbers 0 own) }
{
    let mover = LentSeatOf { rt, desk, seat };
    let mut gated = Gated {
        mover,
        gate,
        looks: 0,
        verdicts: PhantomData,
    };
    let worked = job_runs::work_one(alloc, &mut gated, runner, as_worker);
    let Gated {
        mover,
        gate: _gate,
        looks: _,
        verdicts: _,
    } = gated;
    let LentSeatOf {
        rt: _,
        desk: _,
        seat: _seat,
    } = mover;
    worked
}

/// Works as one of the desk's workers: it enlists, works until nothing waits, sleeps until a token comes, and leaves when the
/// channel is closed and nothing waits.
pub fn work_loop<J: Verdicts, T: SlotContents<J>, R: Wait, U: Runner<J>, G: Gate>(
    rt: &R,
    alloc: Global,
    desk: &DeskOf<J, T>,
    seat: &mut SeatOf<T>,
    signals: &WakeSignals,
    runner: &U,
    gate: &mut G,
)
    requires { IsSeatOf (desk_id desk.now) seat.old }
    ensures seat { IsSeatOf (desk_id desk.now) seat.new }
    ensures worked { (own : List MoveEntry) × AskedBy (T.legal (told_of desk.now)) seat.old.me.0 seat.new.me.0 own × WorksThrough U.ran own × G.passed gate.old gate.new (look_numbers 0 own) }
{
    let mover = LentSeatOf { rt, desk, seat };
    let mut gated = Gated {
        mover,
        gate,
        looks: 0,
        verdicts: PhantomData,
    };
    work_through(rt, alloc, &mut gated, signals, runner);
    let Gated {
        mover,
        gate: _gate,
        looks: _,
        verdicts: _,
    } = gated;
    let LentSeatOf {
        rt: _,
        desk: _,
        seat: _seat,
    } = mover;
}

/// The same, whoever makes the moves.
fn work_through<V: Verdicts, C: Mover<V>, R: Wait, U: Runner<V>>(
    rt: &R,
    alloc: Global,
    mover: &mut C,
    signals: &WakeSignals,
    runner: &U,
)
    ensures { (own : List MoveEntry) × C.did mover.old mover.new own × WorksThrough U.ran own }
{
    mover.enlist();
    work_and_sleep(rt, alloc, mover, signals, runner);
    mover.leave();
}

/// Works until nothing waits, and again after each token, until the channel is closed and nothing waits.
fn work_and_sleep<V: Verdicts, C: Mover<V>, R: Wait, U: Runner<V>>(
    rt: &R,
    alloc: Global,
    mover: &mut C,
    signals: &WakeSignals,
    runner: &U,
)
    ensures { (own : List MoveEntry) × C.did mover.old mover.new own × WorksUntilNone U.ran own }
{
    work_off(rt, alloc, mover, runner);
    for _ in rt.forever() {
        let woken = signals.wait(rt);
        work_off(rt, alloc, mover, runner);
        if !woken {
            return;
        }
    }
    unreachable!()
}

/// Works until nothing waits.
pub(crate) fn work_off<V: Verdicts, C: Mover<V>, R: Wait, U: Runner<V>>(
    rt: &R,
    alloc: Global,
    mover: &mut C,
    runner: &U,
)
    ensures { (own : List MoveEntry) × C.did mover.old mover.new own × WorksUntilNone U.ran own }
{
    for _ in rt.forever() {
        if !job_runs::work_one(alloc, mover, runner, true) {
            return;
        }
    }
    unreachable!()
}
