//! A worker that leaves, and the bell that wakes one.

ghost use Rattle.desk.specs.SeatMoves.{desk_id, IsSeatOf};

use crate::seats::{AnyDocument, twin_of};
use crate::telling::{Fault, Lines, text_of};
use crate::threads::shared;
use desk::{Desk, Seat};
use job_runs::Runner;
use job_table::moves::{Issue, Retrieve, Send};
use job_table::{Retrieved, SharedText};
use os_io::{Memory, Text, Watch};
use std::alloc::Global;
use std::sync::Wait;
use workers::{Bell, Gate, OpenGate, Wake, wake_pair, work_loop, work_one_by_seat};

/// Looks once, and takes the instance as the document.
struct Echo;

impl Runner<AnyDocument> for Echo {
    ghost use Rattle.std.specs.Prelude.{◌≡◌, length};

    ghost ran = { λ _ _ answers _. length answers ≡ 1 };

    fn run<W: Watch>(
        &self,
        alloc: Global,
        osil: &[u8],
        _osol: &[u8],
        watch: &mut W,
    ) -> Option<SharedText> {
        watch.look();
        match Text::from_slice(alloc, osil) {
            Ok(text) => SharedText::new(alloc, text).ok(),
            Err(_) => None,
        }
    }
}

/// Keeps the number of the last look.
#[derive(Drop)]
struct LastLook(u64);

impl Gate for LastLook {
    ghost passed = { λ _ _ _. Unit {0} };

    fn pass(&mut self, look: u64) {
        self.0 = look;
    }

    ghost stays = { λ _. tt };

    ghost joins = { λ _ _ _ _ _ _ _. tt };
}

/// A job that waits, and a token.
fn queue<R: Wait>(
    rt: &R,
    alloc: Global,
    desk: &Desk<AnyDocument>,
    seat: &mut Seat<AnyDocument>,
    wake: &Wake,
) -> Result<(), Fault>
    requires { IsSeatOf (desk_id desk.now) seat.old }
    ensures { IsSeatOf (desk_id desk.now) seat.new }
{
    let osil = twin_of(alloc, b"osil")?;
    let osol = twin_of(alloc, b"osol")?;
    let number = match desk.ask(rt, seat, Issue) {
        Ok(number) => number,
        Err(_) => return Err(Fault::Memory),
    };
    desk.ask(rt, seat, Send { number, osil, osol });
    if wake.ring(rt) {
        Ok(())
    } else {
        Err(Fault::Failed)
    }
}

/// Queues two jobs, runs one by a seat, and has a worker work until it leaves.
fn work_and_leave<R: Wait>(rt: &R, alloc: Global) -> Result<String, Fault> {
    let (desk, mut seat) = Desk::<AnyDocument>::new(alloc, 1)?;
    let (wake, signals) = shared(wake_pair(alloc)?);
    queue(rt, alloc, &desk, &mut seat, &wake)?;
    queue(rt, alloc, &desk, &mut seat, &wake)?;
    drop(wake);
    let mut gate = LastLook(0);
    let worked = work_one_by_seat(rt, alloc, &desk, &mut seat, &Echo, false, &mut gate);
    let claimed = if worked { "a job" } else { "no job" };
    let look = gate.0;
    work_loop(rt, alloc, &desk, &mut seat, &signals, &Echo, &mut OpenGate);
    let shown = desk.ask(rt, &mut seat, Retrieve { number: 2 })?;
    let document = match &shown {
        Retrieved::Finished(Some(document)) => text_of(document.as_slice()),
        _ => "no document",
    };
    Ok(format!(in alloc;
        "by a seat {claimed}, whose last look is {look}; behind a worker that left the second one has {document}"
    )?)
}

/// What came of a ring.
fn heard(is_heard: bool) -> &'static str {
    if is_heard { "heard" } else { "not heard" }
}

/// Rings where somebody may sleep, and where nobody can any more.
fn ring<R: Wait>(rt: &R, alloc: Global) -> Result<String, Fault> {
    let (wake, signals) = wake_pair(alloc)?;
    let first = heard(wake.ring(rt));
    drop(signals);
    let last = heard(wake.ring(rt));
    Ok(format!(in alloc; "{first}, and where nobody can sleep {last}")?)
}

/// Tells what was seen of a worker, and of a bell.
pub(crate) fn tell<R: Wait>(rt: &R, alloc: Global, lines: &mut Lines) -> Result<(), Memory> {
    lines.tell("workers", work_and_leave(rt, alloc))?;
    lines.tell("a bell", ring(rt, alloc))
}
