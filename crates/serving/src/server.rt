//! A server, from `listen` to its last line.
ghost use Rattle.std.specs.Prelude.{◌≡◌, ◌<◌, ◌≤◌, false, nat_eq, OnOk, IfErr};
ghost use Rattle.desk.specs.Rule.{first_view};
ghost use Rattle.desk.specs.SeatMoves.{desk_id, told_of, IsSeatOf};
ghost use Rattle.job_table.specs.Steps.{most_first};
ghost use Rattle.job_table.specs.Jobs.{Rises, NobodyRuns};
ghost use Rattle.os_io.specs.Streams.{SameInput};
ghost use Rattle.serving.specs.Serving.{done_if, ending_of, HasBegun, Unbegun, TellsEnd, IsServerRun};
ghost use Rattle.serving.specs.StoredServing.{IsStoredServerRun, ServesOver};

use crate::ending::Ending;
use crate::lines::{tell_jobs, tell_listening};
use crate::setup::Setup;
use desk::{Desk, StoredDesk, StoredSeat};
use disks::Disk;
use job_journal::Journal;
use job_solver::{
    SolvedJobs, Solver, shown_documents_are_proved, shown_documents_are_proved_from_tables,
};
use job_table::{Table, first_finish_is_kept, numbers_are_given_once};
use os_io::{Failed, Listener, Sink};
use os_server::Conversations;
use server_threads::{ServeFault, ServeLimits, serve_loop};
use std::alloc::Global;
use std::sync::Wait;
use std::thread::Threads;
use std::time::Clock;
use workers::work_closing_shift;

/// How serving ended whose links all came and whose lines were written, so many links ending for want of memory.
fn all_told(short: u64) -> Ending
    ensures { result ≡ done_if (nat_eq short 0) }
{
    if short == 0 {
        Ending::Done
    } else {
        Ending::LinkMemory
    }
}

/// How serving ended that was broken off.
fn broken_off(fault: ServeFault) -> Ending
    ensures { result ≡ ending_of fault }
{
    match fault {
        ServeFault::Failed => Ending::AcceptFault,
        ServeFault::Memory => Ending::NoMemory,
    }
}

/// Listens at this host and port, and says so.
fn begin<N: Listener, O: Sink>(
    net: &mut N,
    output: &mut O,
    host: &str,
    port: u16,
    patience: u16,
) -> Result<(), Ending>
    ensures begun { OnOk result (HasBegun host.now port patience (N.tells net.old) (N.tells net.new) (O.tells output.old) (O.tells output.new)) }
    ensures unbegun { IfErr result (λ how. Unbegun how host.now port patience (N.tells net.old) (N.tells net.new) (O.tells output.old) (O.tells output.new)) }
    ensures input { SameInput (O.tells output.old) (O.tells output.new) }
{
    let Ok(()) = net.listen(host, port, patience) else {
        return Err(Ending::ListenFault);
    };
    match tell_listening(output) {
        Ok(()) => Ok(()),
        Err(Failed) => Err(Ending::AnnounceFault),
    }
}

/// Says how many numbers of jobs were given, where all links came.
fn tell_end<O: Sink>(output: &mut O, served: Result<u64, ServeFault>, given: u64) -> Ending
    ensures told { TellsEnd served given result (O.tells output.old) (O.tells output.new) }
    ensures input { SameInput (O.tells output.old) (O.tells output.new) }
{
    match served {
        Ok(short) => match tell_jobs(output, given) {
            Ok(()) => all_told(short),
            Err(Failed) => Ending::ReportFault,
        },
        Err(fault) => broken_off(fault),
    }
}

/// Listens at this host and port with the patience of the setup, says so on the output, and serves as many links that come as the
/// limits say, so many at once at most, beside so many workers, over a table of jobs of their own, whose numbers begin as the setup
/// says. Then it works off what waits, and says how many numbers of jobs were given.
///
/// Workers and links have threads of their own. A worker that can't be started is missing; a link whose thread can't be
/// started is served by the thread that accepts. `docs/rules/desk.md` and `docs/rules/conversations.md` have the rules.
pub fn serve<N: Listener, O: Sink, R: Threads + Wait + Clock + Sync>(
    rt: &R,
    alloc: Global,
    net: &mut N,
    output: &mut O,
    host: &str,
    port: u16,
    setup: Setup,
) -> Ending
where
    N::Conn: Send + Drop,
    requires servers { 1 ≤ setup.limits.servers }
    requires first { 1 ≤ setup.first }
    requires fits { setup.first ≤ most_first }
    ensures served { IsServerRun result host.now port setup (N.tells net.old) (N.tells net.new) (O.tells output.old) (O.tells output.new) }
    ensures input { SameInput (O.tells output.old) (O.tells output.new) }
{
    match begin(net, output, host, port, setup.patience) {
        Ok(()) => {}
        Err(ending) => return ending,
    }
    let Ok((desk, seat)) = Desk::<SolvedJobs>::new(alloc, setup.first) else {
        return Ending::NoMemory;
    };
    first_finish_is_kept::<SolvedJobs>();
    numbers_are_given_once::<SolvedJobs>();
    shown_documents_are_proved();
    let solver = Solver::new(rt);
    let service = Conversations(&solver);
    let (mut seat, served) = serve_loop(rt, alloc, &desk, seat, net, &service, setup.limits);
    work_closing_shift(rt, alloc, &desk, &mut seat, &solver);
    let given = desk.close(seat).issued();
    tell_end(output, served, given)
}

/// Serves links by moves of a new desk over a journal, closes it, says how many numbers were given, and gives the disk back.
fn serve_over<N: Listener, O: Sink, D: Disk + Drop + Send + Sync, R: Threads + Wait + Clock + Sync>(
    rt: &R,
    alloc: Global,
    desk: StoredDesk<SolvedJobs, Journal<D>>,
    first: StoredSeat<SolvedJobs, Journal<D>>,
    net: &mut N,
    output: &mut O,
    setup: Setup,
) -> (Ending, D)
where
    N::Conn: Send + Drop,
    requires servers { 1 ≤ setup.limits.servers }
    requires seat { IsSeatOf (desk_id desk) first }
    requires fresh { first.me.0 ≡ first_view }
    requires rises { Rises (told_of desk).table }
    requires nobody { NobodyRuns (told_of desk).table }
    ensures served { ServesOver D.told D.seen D.may_leave D.moment D.left_since D.faults (told_of desk).table (told_of desk).store result.1 result.0 setup (N.tells net.old) (N.tells net.new) (O.tells output.old) (O.tells output.new) }
    ensures input { SameInput (O.tells output.old) (O.tells output.new) }
{
    first_finish_is_kept::<SolvedJobs>();
    numbers_are_given_once::<SolvedJobs>();
    shown_documents_are_proved_from_tables();
    let solver = Solver::new(rt);
    let service = Conversations(&solver);
    let (mut first, served) = serve_loop(rt, alloc, &desk, first, net, &service, setup.limits);
    work_closing_shift(rt, alloc, &desk, &mut first, &solver);
    let (table, journal) = desk.close_stored(first);
    let given = table.issued();
    let ending = tell_end(output, served, given);
    (ending, journal.into_disk())
}

/// Serves as [`serve`] does, over a table whose effects this journal keeps, and gives the disk back, however it ended. Numbers begin
/// as the table's do, whatever the setup says.
pub fn serve_stored<
    N: Listener,
    O: Sink,
    D: Disk + Drop + Send + Sync,
    R: Threads + Wait + Clock + Sync,
>(
    rt: &R,
    alloc: Global,
    net: &mut N,
    output: &mut O,
    host: &str,
    port: u16,
    setup: Setup,
    table: Table<SolvedJobs>,
    journal: Journal<D>,
) -> (Ending, D)
where
    N::Conn: Send + Drop,
    requires servers { 1 ≤ setup.limits.servers }
    requires sound { journal.broken ≡ false }
    requires rises { Rises table }
    requires nobody { NobodyRuns table }
    ensures served { IsStoredServerRun D.told D.seen D.may_leave D.moment D.left_since D.faults table journal result.1 result.0 host.now port setup (N.tells net.old) (N.tells net.new) (O.tells output.old) (O.tells output.new) }
    ensures input { SameInput (O.tells output.old) (O.tells output.new) }
{
    match begin(net, output, host, port, setup.patience) {
        Ok(()) => {}
        Err(ending) => return (ending, journal.into_disk()),
    }
    match StoredDesk::of(alloc, table, journal) {
        Ok((desk, seat)) => serve_over(rt, alloc, desk, seat, net, output, setup),
        Err((_, journal)) => (Ending::NoMemory, journal.into_disk()),
    }
}
