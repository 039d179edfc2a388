//! A session.
ghost use Rattle.std.specs.Prelude.{◌≡◌};
ghost use Rattle.os_io.specs.Streams.{SameInput, SameOutput};
ghost use Rattle.os_server.specs.Talk.{both_ends};
ghost use Rattle.desk.specs.Rule.{first_view};
ghost use Rattle.desk.specs.SeatMoves.{desk_id, first_number, IsSeatOf};
ghost use Rattle.sessions.specs.Sessions.{ServesAlone, IsSession};

use crate::by_seat::serve_by_seat;
use desk::{Desk, Seat};
use job_solver::{SolvedJobs, Solver, shown_documents_are_proved};
use os_io::{Sink, Source};
use os_server::{Served, conversations_are_kept, turn_away};
use std::alloc::Global;
use std::sync::Wait;
use std::time::Clock;

/// Serves the conversation by moves of a new desk, which is closed behind it.
fn serve_alone<I: Source, O: Sink, R: Wait + Clock>(
    rt: &R,
    alloc: Global,
    desk: Desk<SolvedJobs>,
    mut seat: Seat<SolvedJobs>,
    input: &mut I,
    output: &mut O,
) -> Served
    requires seat { IsSeatOf (desk_id desk) seat }
    requires fresh { seat.me.0 ≡ first_view }
    requires begins { first_number desk ≡ 1 }
    ensures serves { ServesAlone result (both_ends (I.tells input.old) (O.tells output.old)) (both_ends (I.tells input.new) (O.tells output.new)) }
    ensures output_of_input { SameOutput (I.tells input.old) (I.tells input.new) }
    ensures input_of_output { SameInput (O.tells output.old) (O.tells output.new) }
{
    let served = serve_by_seat(rt, alloc, &desk, &mut seat, input, output);
    let _closed = desk.close(seat);
    served
}

/// Serves a session: the requests that come on an input, with the answers on an output, by moves of a desk of its own, whose
/// numbers begin with 1. Where there is no memory for one, 503 is answered and nothing read.
pub fn serve_session<I: Source, O: Sink, R: Wait + Clock>(
    rt: &R,
    alloc: Global,
    input: &mut I,
    output: &mut O,
) -> Served
    ensures session { IsSession result (both_ends (I.tells input.old) (O.tells output.old)) (both_ends (I.tells input.new) (O.tells output.new)) }
    ensures output_of_input { SameOutput (I.tells input.old) (I.tells input.new) }
    ensures input_of_output { SameInput (O.tells output.old) (O.tells output.new) }
{
    conversations_are_kept::<SolvedJobs, Solver<'_, R>>();
    shown_documents_are_proved();
    match Desk::<SolvedJobs>::new(alloc, 1) {
        Ok((desk, seat)) => serve_alone(rt, alloc, desk, seat, input, output),
        Err(_) => turn_away(input, output, &Solver::new(rt)),
    }
}
