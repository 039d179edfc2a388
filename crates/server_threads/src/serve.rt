//! Links are served beside workers.

ghost use Rattle.std.specs.Prelude.{◌≡◌, ◌<◌};
ghost use Rattle.desk.specs.SeatMoves.{desk_id, IsSeatOf};
ghost use Rattle.workers.specs.Bells.{Untold};
ghost use Rattle.server_threads.specs.Serving.{HasServed, MayTake};
ghost use Rattle.server_threads.specs.OpenLinks.{HasServedLinks, MayServe};

use crate::links::{LinkHost, ending};
use crate::means::{Means, Room, ServeFault, ServeLimits};
use crate::staff::{join_workers, start_workers};
use desk::{DeskOf, SeatOf, SlotContents};
use job_table::Verdicts;
use link_service::Service;
use os_io::{Link, Listener};
use std::alloc::Global;
use std::snapshot::Snapshot;
use std::sync::Wait;
use std::sync::atomic::AtomicU64;
use std::thread;
use std::thread::{Scope, Threads};

/// The workers come, the links are served in a scope of their own, and the workers finish what waits and leave.
fn serve_beside<
    's,
    E,
    J: Verdicts + Send + Sync,
    T: SlotContents<J> + Send + Sync,
    N: Listener,
    R: Threads + Wait + Sync,
    S: Service<J> + Sync,
>(
    means: &Means<'s, J, T, R, S>,
    scope: &'s Scope<'s, E>,
    mut seat: SeatOf<T>,
    net: &mut N,
    room: Room<J, T, N::Conn, S>,
) -> (SeatOf<T>, Result<u64, ServeFault>)
where
    N::Conn: Send + Drop,
    requires seat { IsSeatOf (desk_id means.now.desk.now) seat }
    requires first { seat.me.0.number ≡ 0 }
    requires room { MayServe means.now.limits room }
    ensures seat { IsSeatOf (desk_id means.now.desk.now) result.0 }
    ensures served { HasServed S.ran (S.talked Untold) N.tells means.now.limits seat result.0 net.old net.new result.1 }
{
    let Room {
        running,
        mut shifts,
        wake,
    } = room;
    let was = Snapshot::of(&seat);
    start_workers(means, scope, &mut seat, &mut shifts);
    let bell = &wake;
    let (mut seat, net, served) = thread::scope(
        thread::scope_env(),
        means.rt,
        move |scope| -> (SeatOf<T>, &mut N, Result<u64, ServeFault>)
            requires { IsSeatOf (desk_id means.now.desk.now) seat × (seat.me.0.number ≡ 0) × MayTake means.now.limits running }
            ensures { (result.1.ghost_name ≡ net.entry.ghost_name) × IsSeatOf (desk_id means.entry.now.desk.now) result.0 × HasServedLinks (S.talked Untold) N.tells means.entry.now.limits seat result.0 net.entry.now result.1.now result.2 }
        {
            let mut host = LinkHost::new(means, bell, scope, seat, net, running);
            let came = host.take_links(net);
            let (first, short) = host.join_all(net);
            (first, net, ending(came, short))
        },
    );
    let _net = net;
    drop(wake);
    join_workers(means, &was, &mut seat, shifts);
    (seat, served)
}

/// Serves so many links that come to the listener, each in a thread of its own by moves of a seat of its own, so many at once at
/// most, beside so many workers, and gives them back, those first whose conversations were over first. Behind the last one, and where
/// the listener fails, the workers finish what waits and leave. The answer is how many links ended for want of memory.
///
/// The seat is the desk's first, and comes back. A worker that can't be started is missing. A link whose thread can't be started is
/// served here.
pub fn serve_loop<
    's,
    J: Verdicts + Send + Sync,
    T: SlotContents<J> + Send + Sync,
    N: Listener,
    R: Threads + Wait + Sync,
    S: Service<J> + Sync,
>(
    rt: &'s R,
    alloc: Global,
    desk: &'s DeskOf<J, T>,
    seat: SeatOf<T>,
    net: &mut N,
    service: &'s S,
    limits: ServeLimits,
) -> (SeatOf<T>, Result<u64, ServeFault>)
where
    N::Conn: Send + Drop,
    requires seat { IsSeatOf (desk_id desk.now) seat }
    requires first { seat.me.0.number ≡ 0 }
    requires some { 0 < limits.servers }
    ensures seat { IsSeatOf (desk_id desk.now) result.0 }
    ensures served { HasServed S.ran (S.talked Untold) N.tells limits seat result.0 net.old net.new result.1 }
{
    let Ok((room, signals, leaving)) = Room::new(alloc, &limits) else {
        return (seat, Err(ServeFault::Memory));
    };
    let missing = AtomicU64::new(u64::MAX);
    let means = &Means {
        rt,
        alloc,
        desk,
        service,
        signals: &signals,
        leaving: &leaving,
        missing: &missing,
        limits,
    };
    let lent = &mut *net;
    let (seat, lent, served) = thread::scope(
        thread::scope_env(),
        rt,
        move |scope| -> (SeatOf<T>, &mut N, Result<u64, ServeFault>)
            requires { IsSeatOf (desk_id means.now.desk.now) seat × (seat.me.0.number ≡ 0) × MayServe means.now.limits room }
            ensures { (result.1.ghost_name ≡ lent.entry.ghost_name) × IsSeatOf (desk_id means.entry.now.desk.now) result.0 × HasServed S.ran (S.talked Untold) N.tells means.entry.now.limits seat result.0 lent.entry.now result.1.now result.2 }
        {
            let (seat, served) = serve_beside(means, scope, seat, lent, room);
            (seat, lent, served)
        },
    );
    let _net = lent;
    (seat, served)
}
