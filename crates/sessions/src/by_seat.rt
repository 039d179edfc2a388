//! A conversation by moves of one seat.

ghost use Rattle.std.specs.Prelude.{◌≡◌};
ghost use Rattle.os_io.specs.Streams.{SameInput, SameOutput};
ghost use Rattle.os_server.specs.Talk.{both_ends, Serves};
ghost use Rattle.desk.specs.SeatHistory.{AskedBy};
ghost use Rattle.desk.specs.SeatMoves.{desk_id, told_of, IsSeatOf};
ghost use Rattle.job_solver.specs.Runs.{MakesDocument, WakesNobody};

use desk::{DeskOf, LentSeatOf, SeatOf, SlotContents};
use job_solver::{SolvedJobs, Solver};
use os_io::{Sink, Source};
use os_server::{Served, serve_ends};
use std::alloc::Global;
use std::sync::Wait;
use std::time::Clock;

/// Serves the conversation by moves of this seat, whatever lies in its desk's slot.
pub(crate) fn serve_by_seat<I: Source, O: Sink, T: SlotContents<SolvedJobs>, R: Wait + Clock>(
    rt: &R,
    alloc: Global,
    desk: &DeskOf<SolvedJobs, T>,
    seat: &mut SeatOf<T>,
    input: &mut I,
    output: &mut O,
) -> Served
    requires { IsSeatOf (desk_id desk.now) seat.old }
    ensures seat { IsSeatOf (desk_id desk.now) seat.new }
    ensures serves { Serves MakesDocument WakesNobody (λ made. AskedBy (T.legal (told_of desk.now)) seat.old.me.0 seat.new.me.0 made) result (both_ends (I.tells input.old) (O.tells output.old)) (both_ends (I.tells input.new) (O.tells output.new)) }
    ensures output_of_input { SameOutput (I.tells input.old) (I.tells input.new) }
    ensures input_of_output { SameInput (O.tells output.old) (O.tells output.new) }
{
    let mut mover = LentSeatOf { rt, desk, seat };
    let served = serve_ends(alloc, input, output, &mut mover, &Solver::new(rt));
    let LentSeatOf {
        rt: _,
        desk: _,
        seat: _seat,
    } = mover;
    served
}
