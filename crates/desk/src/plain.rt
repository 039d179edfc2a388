//! The desk of a table whose moves are kept by nobody.

ghost use Rattle.std.specs.Prelude.{◌≡◌, ◌≤◌, true, IfOk, IfSome, IfNone};
ghost use Rattle.job_table.specs.Steps.{May, fits, most_first};
ghost use Rattle.desk.specs.History.{LeadsFrom, IsLegalFrom};
ghost use Rattle.desk.specs.Rule.{first_view, out_of};
ghost use Rattle.desk.specs.SeatMoves.{desk_id, first_number, IsSeatOf, AddsEntry, Waits, Lacks, Closes};

use crate::held::Held;
use crate::shape::{Desk, Seat};
use job_table::moves::Move;
use job_table::{Table, Verdicts};
use os_io::Memory;
use std::alloc::{AllocError, Global};
use std::sync::Wait;

impl<J: Verdicts> Desk<J> {
    /// A desk on the empty table whose numbers begin with this one, and its first seat.
    pub fn new(alloc: Global, first: u64) -> Result<(Desk<J>, Seat<J>), Memory>
        requires some { 1 ≤ first }
        requires within { first ≤ most_first }
        ensures seat { IfOk result (λ d. IsSeatOf (desk_id d.0) d.1 × (d.1.me.0 ≡ first_view)) }
        ensures first { IfOk result (λ d. first_number d.0 ≡ first) }
    {
        let held = Held {
            table: Table::new(alloc, first),
        };
        match Desk::open(alloc, held) {
            Ok(made) => Ok(made),
            Err(_) => Err(AllocError),
        }
    }

    /// Makes a move of the table, in the seat's turn. The answer is the table's after all that the seat has then seen. Without
    /// memory no move was made, and what the table held after all that the seat has then seen is such that this move wants some.
    pub fn ask<R: Wait, M: Move<J>>(&self, rt: &R, me: &mut Seat<J>, step: M) -> M::Answer
        requires seat { IsSeatOf (desk_id self.now) me.old }
        requires may { May J.right (M.table_move step) }
        ensures seat { IsSeatOf (desk_id self.now) me.new }
        ensures fits { IfSome (M.said result) (λ reply. fits (M.table_move step) reply ≡ true) }
        ensures ok { IfSome (M.said result) (λ reply. AddsEntry (IsLegalFrom J.right (first_number self.now)) me.old.me.0 (M.table_move step) reply me.new.me.0) }
        ensures sure { IfNone (M.said result) (Lacks (λ table. table) (LeadsFrom J.right (first_number self.now)) (M.table_move step) me.new.me.0.seen) }
        ensures err { IfNone (M.said result) (Waits me.old.me.0 me.new.me.0) }
    {
        match self.make(rt, me, step) {
            Ok(answer) => answer,
            Err(_) => unreachable!(),
        }
    }

    /// The table after the whole history, where no seat is out that the first one split off. Its numbers began as the desk's did.
    pub fn close(self, me: Seat<J>) -> Table<J>
        requires seat { IsSeatOf (desk_id self) me }
        requires first { me.me.0.number ≡ 0 }
        requires alone { out_of me.me.0 ≡ 0 }
        ensures closes { Closes J.right me.me.0 result }
        ensures first { result.first ≡ first_number self }
    {
        let Held { table } = self.end(me);
        table
    }
}
