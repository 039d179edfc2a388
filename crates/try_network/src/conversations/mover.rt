//! One who makes moves of a table of jobs, beside whom another connection may be served.
use effects::NotStored;
use job_solver::{SolvedJobs, Solver};
use job_table::moves::Move;
use job_table::{IssueFault, Job, Mover, Statistics, Table, Twin};
use memory_ends::{MemSink, MemSource, UnreadClock};
use os_io::Memory;
use os_server::{Served, serve_ends};
use std::alloc::{AllocError, Global};

/// Room for the answers to the other connection.
const ROOM: usize = 20_000;

/// Another connection on the same table.
#[derive(Drop)]
pub(crate) struct Other {
    /// The move before which it is served.
    number: u64,
    pub input: MemSource,
    pub output: MemSink,
    /// How it ended, if it was served.
    pub end: Option<Served>,
}

/// One who makes moves of a table.
#[derive(Drop)]
pub(crate) struct CountingMover {
    alloc: Global,
    table: Table<SolvedJobs>,
    /// How many moves were made.
    made: u64,
    /// The move that finds no memory, if it is one that may.
    lacks: u64,
    pub other: Option<Other>,
}

impl CountingMover {
    /// One with a table without jobs, whose move of this number finds no memory.
    pub(crate) fn new(alloc: Global, lacks: u64) -> CountingMover {
        CountingMover {
            alloc,
            table: Table::new(alloc, 1),
            made: 0,
            lacks,
            other: None,
        }
    }

    /// Another connection with these bytes is to be served before that move.
    pub(crate) fn meet(&mut self, alloc: Global, number: u64, bytes: &[u8]) -> Result<(), Memory> {
        let input = MemSource::new(alloc, bytes, bytes.len(), &[])?;
        let output = MemSink::new(alloc, ROOM, &[])?;
        self.other = Some(Other {
            number,
            input,
            output,
            end: None,
        });
        Ok(())
    }

    /// Counts a move, before which the other connection may be served. True where the move finds no memory, if it is one that may.
    fn begin_move(&mut self) -> bool {
        self.made = self.made.saturating_add(1);
        let made = self.made;
        self.serve_other(made);
        made == self.lacks
    }

    /// Serves the other connection, if it comes before this move; 0 is none.
    pub(crate) fn serve_other(&mut self, number: u64) {
        if let Some(other) = &mut self.other {
            if other.number == number {
                let (input, output) = (&mut other.input, &mut other.output);
                let end = serve_ends(
                    self.alloc,
                    input,
                    output,
                    &mut self.table,
                    &Solver::new(&UnreadClock),
                );
                other.end = Some(end);
            }
        }
    }
}

impl Mover<SolvedJobs> for CountingMover {
    /// Nothing is said of the moves, since others fall between them.
    ghost did = { λ _ _ _. Unit {0} };

    ghost left = { λ _ _. Unit {0} };

    fn make<M: Move<SolvedJobs>>(&mut self, step: M) -> Result<M::Answer, NotStored> {
        self.begin_move();
        Ok(step.make(&mut self.table))
    }

    fn issue(&mut self) -> Result<Result<u64, IssueFault>, NotStored> {
        if self.begin_move() {
            return Ok(Err(IssueFault::Memory));
        }
        Ok(self.table.issue())
    }

    fn enter(&mut self, osil: Twin, osol: Twin) -> Result<Result<Job, IssueFault>, NotStored> {
        if self.begin_move() {
            return Ok(Err(IssueFault::Memory));
        }
        Ok(self.table.enter(osil, osol))
    }

    fn knock(&mut self) -> Result<Statistics, Memory> {
        if self.begin_move() {
            return Err(AllocError);
        }
        match self.table.knock() {
            Ok(statistics) => Ok(statistics),
            Err(AllocError) => Err(AllocError),
        }
    }

    ghost stays = { λ _. tt };

    ghost joins = { λ _ _ _ _ _ _ _. tt };
}
