//! The desk of a table the effects of whose moves are stored before they are made.

ghost use Rattle.std.specs.Prelude.{◌≡◌, false, IfOk, IfErr};
ghost use Rattle.desk.specs.Stores.{ClosesStored};
ghost use Rattle.desk.specs.Rule.{first_view, out_of};
ghost use Rattle.desk.specs.SeatMoves.{desk_id, told_of, IsSeatOf, ClosesBy};

use crate::held::Stored;
use crate::shape::{StoredDesk, StoredSeat};
use effects::Store;
use job_table::{Table, Verdicts};
use os_io::Memory;
use std::alloc::{AllocError, Global};

impl<J: Verdicts, S: Store + Drop> StoredDesk<J, S> {
    /// A desk on this table, whose moves are made once this store has their effects, and its first seat. Without memory the store is
    /// given back.
    pub fn of(
        alloc: Global,
        table: Table<J>,
        store: S,
    ) -> Result<(StoredDesk<J, S>, StoredSeat<J, S>), (Memory, S)>
        requires { S.broken store ≡ false }
        ensures seat { IfOk result (λ d. IsSeatOf (desk_id d.0) d.1 × (d.1.me.0 ≡ first_view)) }
        ensures begins { IfOk result (λ d. ((told_of d.0).table ≡ table) × ((told_of d.0).store ≡ store)) }
        ensures back { IfErr result (λ back. back.1 ≡ store) }
    {
        let held = Stored { table, store };
        match StoredDesk::open(alloc, held) {
            Ok(made) => Ok(made),
            Err(Stored { table: _, store }) => Err((AllocError, store)),
        }
    }

    /// The table and the store after the whole history, where no seat is out that the first one split off.
    pub fn close_stored(self, me: StoredSeat<J, S>) -> (Table<J>, S)
        requires seat { IsSeatOf (desk_id self) me }
        requires first { me.me.0.number ≡ 0 }
        requires alone { out_of me.me.0 ≡ 0 }
        ensures { ClosesBy (λ log. ClosesStored J.right S.keeps S.passes S.too_long S.broken S.faults (told_of self).table (told_of self).store log result.0 result.1) me.me.0 }
    {
        let Stored { table, store } = self.end(me);
        (table, store)
    }
}
