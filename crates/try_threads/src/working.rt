//! Jobs that are killed while a worker runs them, and one whose time is over.

ghost use Rattle.desk.specs.SeatMoves.{desk_id, IsSeatOf};

use crate::names::state_name;
use crate::searches::{HALVES, JobTexts, greatest_limits, odd_sum};
use crate::waiting::wait_for;
use desk::{Desk, Seat};
use job_solver::{SolvedJobs, Solver};
use job_table::moves::{Issue, Kill, Knock, Retrieve, Send};
use job_table::{Retrieved, Statistics, Twin};
use os_io::{Memory, Text};
use std::alloc::{AllocError, Global};
use std::sync::Wait;
use std::sync::atomic::AtomicBool;
use std::sync::atomic::Ordering::SeqCst;
use std::thread::{Threads, join};
use std::time::Clock;
use workers::{Gate, OpenGate, work_one_by_seat};

/// The look that is held.
const HELD: u64 = 3;

/// A gate that holds one look until it is opened.
#[derive(Drop)]
struct HeldGate<'a, R> {
    clock: &'a R,
    is_reached: &'a AtomicBool,
    is_open: &'a AtomicBool,
}

impl<'a, R: Clock> Gate for HeldGate<'a, R> {
    ghost passed = { λ _ _ _. Unit {0} };

    fn pass(&mut self, look: u64) {
        if look == HELD {
            self.is_reached.store(true, SeqCst);
            wait_for(self.clock, self.is_open);
        }
    }

    ghost stays = { λ _. tt };

    ghost joins = { λ _ _ _ _ _ _ _. tt };
}

/// What a knock tells, in a line.
fn line_of_all(alloc: Global, told: &Statistics) -> Result<String, Memory> {
    let state = if told.busy { "busy" } else { "idle" };
    let current = told.current;
    let mut line = format!(in alloc; "knock: {state}, {current} current")?;
    for job in told.jobs.as_slice() {
        let (number, state) = (job.0, state_name(job.1));
        line.push_str(format!(in alloc; ", {number} {state}")?.as_str())?;
    }
    line.push_str("\n")?;
    Ok(line)
}

/// What a job is shown as, in a line.
fn line_of_shown(alloc: Global, shown: &Retrieved) -> Result<String, Memory> {
    match shown {
        Retrieved::Finished(Some(document)) => {
            let text = str::from_utf8(document.as_slice()).unwrap_or("");
            format!(in alloc; "retrieve: {text}\n")
        }
        _ => "another job\n".to_string(alloc),
    }
}

/// A job of these texts, which waits.
fn send<R: Wait>(
    rt: &R,
    alloc: Global,
    desk: &Desk<SolvedJobs>,
    seat: &mut Seat<SolvedJobs>,
    texts: JobTexts<'_>,
) -> Result<(), Memory>
    requires { IsSeatOf (desk_id desk.now) seat.old }
    ensures { IsSeatOf (desk_id desk.now) seat.new }
{
    let osil = Twin::new(alloc, Text::from_slice(alloc, texts.osil)?)?;
    let osol = Twin::new(alloc, Text::from_slice(alloc, texts.osol)?)?;
    let number = match desk.ask(rt, seat, Issue) {
        Ok(number) => number,
        Err(_) => return Err(AllocError),
    };
    desk.ask(rt, seat, Send { number, osil, osol });
    Ok(())
}

/// Runs the job that waits, through the gate.
fn work<R: Wait + Clock>(
    rt: &R,
    alloc: Global,
    desk: &Desk<SolvedJobs>,
    mut seat: Seat<SolvedJobs>,
    mut gate: HeldGate<'_, R>,
)
    requires { IsSeatOf (desk_id desk.now) seat }
{
    work_one_by_seat(
        rt,
        alloc,
        desk,
        &mut seat,
        &Solver::new(rt),
        true,
        &mut gate,
    );
}

/// A knock, and then a kill of the job.
fn knock_and_kill<R: Wait>(
    rt: &R,
    alloc: Global,
    desk: &Desk<SolvedJobs>,
    seat: &mut Seat<SolvedJobs>,
) -> Result<String, Memory>
    requires { IsSeatOf (desk_id desk.now) seat.old }
    ensures { IsSeatOf (desk_id desk.now) seat.new }
{
    let mut lines = line_of_all(alloc, &desk.ask(rt, seat, Knock)?)?;
    let state = desk
        .ask(rt, seat, Kill { number: 1 })
        .state
        .map_or("none", state_name);
    lines.push_str(format!(in alloc; "kill: {state}\n")?.as_str())?;
    Ok(lines)
}

/// Knocks and kills once the gate is reached, and then opens it.
fn kill_at_the_gate<R: Wait + Clock>(
    rt: &R,
    alloc: Global,
    desk: &Desk<SolvedJobs>,
    mut seat: Seat<SolvedJobs>,
    is_reached: &AtomicBool,
    is_open: &AtomicBool,
) -> (Seat<SolvedJobs>, Result<String, Memory>)
    requires { IsSeatOf (desk_id desk.now) seat }
    ensures { IsSeatOf (desk_id desk.now) result.0 }
{
    wait_for(rt, is_reached);
    let lines = knock_and_kill(rt, alloc, desk, &mut seat);
    is_open.store(true, SeqCst);
    (seat, lines)
}

/// Kills a job of these texts while a worker is held at a look, and shows what comes of it.
fn kill_beside_a_worker<R: Threads + Wait + Clock + Sync>(
    rt: &R,
    alloc: Global,
    texts: JobTexts<'_>,
) -> Result<String, Memory> {
    let (desk, mut seat) = Desk::<SolvedJobs>::new(alloc, 1)?;
    let worker = desk.split(&mut seat);
    send(rt, alloc, &desk, &mut seat, texts)?;
    let is_reached = AtomicBool::new(false);
    let is_open = AtomicBool::new(false);
    let gate = HeldGate {
        clock: rt,
        is_reached: &is_reached,
        is_open: &is_open,
    };
    let ((), (mut seat, lines)) = join(
        rt,
        || work(rt, alloc, &desk, worker, gate),
        || kill_at_the_gate(rt, alloc, &desk, seat, &is_reached, &is_open),
    );
    let mut lines = lines?;
    let shown = desk.ask(rt, &mut seat, Retrieve { number: 1 })?;
    lines.push_str(line_of_shown(alloc, &shown)?.as_str())?;
    let after = desk.ask(rt, &mut seat, Knock)?;
    lines.push_str(line_of_all(alloc, &after)?.as_str())?;
    Ok(lines)
}

/// Kills a job that has found a point.
pub(crate) fn kill_with_a_point<R: Threads + Wait + Clock + Sync>(
    rt: &R,
    alloc: Global,
) -> Result<String, Memory> {
    let texts = JobTexts {
        osil: HALVES,
        osol: b"",
    };
    kill_beside_a_worker(rt, alloc, texts)
}

/// Kills a job whose search would take hours. A run that searched before it is watched would take them.
pub(crate) fn kill_a_long_search<R: Threads + Wait + Clock + Sync>(
    rt: &R,
    alloc: Global,
) -> Result<String, Memory> {
    let osil = odd_sum(alloc)?;
    let osol = greatest_limits(alloc, "")?;
    let texts = JobTexts {
        osil: osil.as_bytes(),
        osol: osol.as_bytes(),
    };
    kill_beside_a_worker(rt, alloc, texts)
}

/// Runs a job whose search would take hours, and which has a quarter of a second. A time that is never over would take them.
pub(crate) fn end_a_long_search_in_time<R: Wait + Clock>(
    rt: &R,
    alloc: Global,
) -> Result<String, Memory> {
    let osil = odd_sum(alloc)?;
    let osol = greatest_limits(alloc, "<job><maxTime>0.25</maxTime></job>")?;
    let texts = JobTexts {
        osil: osil.as_bytes(),
        osol: osol.as_bytes(),
    };
    let (desk, mut seat) = Desk::<SolvedJobs>::new(alloc, 1)?;
    send(rt, alloc, &desk, &mut seat, texts)?;
    let solver = Solver::new(rt);
    work_one_by_seat(rt, alloc, &desk, &mut seat, &solver, true, &mut OpenGate);
    let shown = desk.ask(rt, &mut seat, Retrieve { number: 1 })?;
    line_of_shown(alloc, &shown)
}
