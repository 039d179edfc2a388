//! Workers, each in a thread of its own beside those of the links.

ghost use Rattle.std.specs.Prelude.{◌≡◌, ◌+◌, ◌<◌, ◌≤◌, [], ℕ, List};
ghost use Rattle.std.specs.VecDeque.{deque_len, deque_capacity};
ghost use Rattle.desk.specs.declared.view.Met.{Met};
ghost use Rattle.desk.specs.History.{StartsWith};
ghost use Rattle.desk.specs.SeatMoves.{desk_id, IsSeatOf};
ghost use Rattle.server_threads.specs.Talks.{Acts, AnyHistory, IsShift};
ghost use Rattle.server_threads.specs.Promises.{promise_of, Due};
ghost use Rattle.server_threads.specs.OpenLinks.{Hired, Staffed, HaveLeft, worked_so};

use crate::means::Means;
use crate::places::Started;
use crate::promise::ToWork;
use desk::{DeskOf, SeatOf, SlotContents};
use job_table::Verdicts;
use link_service::Service;
use std::alloc::Global;
use std::collections::VecDeque;
use std::marker::PhantomData;
use std::snapshot::Snapshot;
use std::sync::Wait;
use std::sync::atomic::AtomicU64;
use std::sync::atomic::Ordering::SeqCst;
use std::thread::{Scope, Threads};
use workers::{OpenGate, WakeSignals, work_loop};

/// The workers that are at work, in the order in which they came.
pub(crate) type Shifts<J, T, S> = VecDeque<Started<SeatOf<T>, ToWork<J, T, S>>>;

/// Works on this seat until the channel is closed and nothing waits. The worker that is missing does nothing.
fn work_by<J: Verdicts, T: SlotContents<J>, R: Wait, S: Service<J>>(
    rt: &R,
    alloc: Global,
    desk: &DeskOf<J, T>,
    signals: &WakeSignals,
    missing: &AtomicU64,
    service: &S,
    mut seat: SeatOf<T>,
    number: u64,
) -> SeatOf<T>
    requires { IsSeatOf (desk_id desk.now) seat }
    ensures { Acts AnyHistory (IsShift S.ran) seat result }
{
    if missing.load(SeqCst) == number {
        return seat;
    }
    work_loop(rt, alloc, desk, &mut seat, signals, service, &mut OpenGate);
    seat
}

/// Starts a worker. Where that can't be, it is missing, and its seat is here.
fn hire<
    's,
    E,
    J: Verdicts + Send + Sync,
    T: SlotContents<J> + Send + Sync,
    R: Threads + Wait + Sync,
    S: Service<J> + Sync,
>(
    means: &Means<'s, J, T, R, S>,
    scope: &'s Scope<'s, E>,
    seat: SeatOf<T>,
    number: u64,
) -> Started<SeatOf<T>, ToWork<J, T, S>>
    requires { IsSeatOf (desk_id means.now.desk.now) seat }
    ensures seat { (promise_of result).seat.value ≡ seat }
    ensures due { Due (worked_so AnyHistory S.ran) result }
{
    let Means {
        rt,
        alloc,
        desk,
        service,
        signals,
        missing,
        ..
    } = *means;
    let promise = ToWork {
        seat: Snapshot::of(&seat),
        service: PhantomData,
        verdicts: PhantomData,
    };
    let again = ToWork {
        seat: Snapshot::of(&seat),
        service: PhantomData,
        verdicts: PhantomData,
    };
    let work = move || -> SeatOf<T>
        requires { IsSeatOf (desk_id desk.now) seat }
        ensures { Acts AnyHistory (IsShift S.ran) seat result }
    { work_by(rt, alloc, desk, signals, missing, service, seat, number) };
    match scope.spawn_with(promise, work) {
        Ok(child) => Started::Thread(child),
        Err(refused) => {
            missing.store(number, SeqCst);
            Started::Here((refused.value)(), again)
        }
    }
}

/// Starts so many workers, each on a seat of its own.
pub(crate) fn start_workers<
    's,
    E,
    J: Verdicts + Send + Sync,
    T: SlotContents<J> + Send + Sync,
    R: Threads + Wait + Sync,
    S: Service<J> + Sync,
>(
    means: &Means<'s, J, T, R, S>,
    scope: &'s Scope<'s, E>,
    first: &mut SeatOf<T>,
    shifts: &mut Shifts<J, T, S>,
)
    requires seat { IsSeatOf (desk_id means.now.desk.now) first.old }
    requires first { first.old.me.0.number ≡ 0 }
    requires none { shifts.old.items ≡ [] }
    requires empty { deque_len shifts.old ≡ 0 }
    requires room { means.now.limits.workers ≤ deque_capacity shifts.old }
    ensures seat { IsSeatOf (desk_id means.now.desk.now) first.new }
    ensures hired { Hired AnyHistory S.ran (desk_id means.now.desk.now) first.old.me.0 first.new.me.0 means.now.limits.workers shifts.new.items }
{
    for number in 0..means.limits.workers {
        let seat = means.desk.split(first);
        let place = hire(means, scope, seat, u64::from(number));
        shifts.push_back_reserved(place);
    }
}

/// Joins the worker that came first, and takes its seat in.
fn join_first_worker<
    J: Verdicts + Send + Sync,
    T: SlotContents<J> + Send + Sync,
    R: Threads,
    S: Service<J>,
>(
    means: &Means<'_, J, T, R, S>,
    was: &Snapshot<SeatOf<T>>,
    first: &mut SeatOf<T>,
    shifts: &mut Shifts<J, T, S>,
)
    requires seat { IsSeatOf (desk_id means.now.desk.now) first.old }
    requires some { 0 < deque_len shifts.old }
    requires staffed { (met : List Met) × Staffed AnyHistory S.ran (desk_id means.now.desk.now) was.now.value.me.0 first.old.me.0 means.now.limits.workers met shifts.old.items }
    ensures seat { IsSeatOf (desk_id means.now.desk.now) first.new }
    ensures staffed { (met : List Met) → Staffed AnyHistory S.ran (desk_id means.now.desk.now) was.now.value.me.0 first.old.me.0 means.now.limits.workers met shifts.old.items → Staffed AnyHistory S.ran (desk_id means.now.desk.now) was.now.value.me.0 first.new.me.0 means.now.limits.workers met shifts.new.items }
    ensures seen { StartsWith first.new.me.0.seen first.old.me.0.seen }
    ensures one_fewer { deque_len shifts.new + 1 ≡ deque_len shifts.old }
{
    let Some(place) = shifts.pop_front() else {
        unreachable!()
    };
    let seat = place.join(means.rt);
    means.desk.meet(first, seat);
}

/// Joins all workers, the one that came first before the others.
pub(crate) fn join_workers<
    J: Verdicts + Send + Sync,
    T: SlotContents<J> + Send + Sync,
    R: Threads,
    S: Service<J>,
>(
    means: &Means<'_, J, T, R, S>,
    was: &Snapshot<SeatOf<T>>,
    first: &mut SeatOf<T>,
    mut shifts: Shifts<J, T, S>,
)
    requires seat { IsSeatOf (desk_id means.now.desk.now) first.old }
    requires staffed { (met : List Met) × Staffed AnyHistory S.ran (desk_id means.now.desk.now) was.now.value.me.0 first.old.me.0 means.now.limits.workers met shifts.items }
    ensures seat { IsSeatOf (desk_id means.now.desk.now) first.new }
    ensures left { (met : List Met) → Staffed AnyHistory S.ran (desk_id means.now.desk.now) was.now.value.me.0 first.old.me.0 means.now.limits.workers met shifts.items → HaveLeft S.ran was.now.value.me.0 first.new.me.0 means.now.limits.workers met }
    ensures seen { StartsWith first.new.me.0.seen first.old.me.0.seen }
{
    while shifts.len() > 0 {
        join_first_worker(means, was, first, &mut shifts);
    }
}
