//! A session over a journal.
ghost use Rattle.std.specs.Prelude.{◌≡◌, false};
ghost use Rattle.os_io.specs.Streams.{SameInput, SameOutput};
ghost use Rattle.job_table.specs.Jobs.{Rises, NobodyRuns};
ghost use Rattle.os_server.specs.Talk.{both_ends};
ghost use Rattle.desk.specs.Rule.{first_view};
ghost use Rattle.desk.specs.SeatMoves.{desk_id, told_of, IsSeatOf};
ghost use Rattle.sessions.specs.StoredSessions.{ServesStored, IsStoredSession};

use crate::by_seat::serve_by_seat;
use desk::{StoredDesk, StoredSeat};
use disks::Disk;
use job_journal::Journal;
use job_solver::{SolvedJobs, Solver, shown_documents_are_proved_from_tables};
use job_table::Table;
use os_io::{Sink, Source};
use os_server::{Served, conversations_are_kept, turn_away};
use std::alloc::Global;
use std::sync::Wait;
use std::time::Clock;

/// Serves the conversation by moves of a new desk over a journal, which is closed behind it, and gives the disk back.
fn serve_stored_alone<I: Source, O: Sink, D: Disk + Drop, R: Wait + Clock>(
    rt: &R,
    alloc: Global,
    desk: StoredDesk<SolvedJobs, Journal<D>>,
    mut seat: StoredSeat<SolvedJobs, Journal<D>>,
    input: &mut I,
    output: &mut O,
) -> (Served, D)
    requires seat { IsSeatOf (desk_id desk) seat }
    requires fresh { seat.me.0 ≡ first_view }
    ensures serves { ServesStored D.told D.seen D.may_leave D.moment D.left_since D.faults (told_of desk).table (told_of desk).store result.0 result.1 (both_ends (I.tells input.old) (O.tells output.old)) (both_ends (I.tells input.new) (O.tells output.new)) }
    ensures output_of_input { SameOutput (I.tells input.old) (I.tells input.new) }
    ensures input_of_output { SameInput (O.tells output.old) (O.tells output.new) }
{
    let served = serve_by_seat(rt, alloc, &desk, &mut seat, input, output);
    let (_table, journal) = desk.close_stored(seat);
    (served, journal.into_disk())
}

/// Serves a session by moves of a table whose effects a journal keeps, and gives the disk back. Where there is no memory for one, 503
/// is answered and nothing read.
pub fn serve_stored_session<I: Source, O: Sink, D: Disk + Drop, R: Wait + Clock>(
    rt: &R,
    alloc: Global,
    table: Table<SolvedJobs>,
    journal: Journal<D>,
    input: &mut I,
    output: &mut O,
) -> (Served, D)
    requires sound { journal.broken ≡ false }
    requires rises { Rises table }
    requires nobody { NobodyRuns table }
    ensures session { IsStoredSession D.told D.seen D.may_leave D.moment D.left_since D.faults table journal result.0 result.1 (both_ends (I.tells input.old) (O.tells output.old)) (both_ends (I.tells input.new) (O.tells output.new)) }
    ensures output_of_input { SameOutput (I.tells input.old) (I.tells input.new) }
    ensures input_of_output { SameInput (O.tells output.old) (O.tells output.new) }
{
    conversations_are_kept::<SolvedJobs, Solver<'_, R>>();
    shown_documents_are_proved_from_tables();
    match StoredDesk::of(alloc, table, journal) {
        Ok((desk, seat)) => serve_stored_alone(rt, alloc, desk, seat, input, output),
        Err((_, journal)) => {
            let served = turn_away(input, output, &Solver::new(rt));
            (served, journal.into_disk())
        }
    }
}
