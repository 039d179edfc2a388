//! Links in memory.
ghost use Rattle.std.specs.Prelude.{◌≡◌, [], Some, IfOk, max, vec_capacity};
ghost use Rattle.memory_ends.specs.MemLinks.{tells_of_link};
ghost use Rattle.memory_ends.specs.Memory.{IsFresh};
ghost use Rattle.memory_ends.specs.declared.mem_link.Kept.{out-Kept};
ghost use Rattle.os_io.specs.Laws.{handed_part};

use crate::parts::{Input, Output, Script};
use os_io::{Close, Failed, Link, Memory, Sink, Source, Stream, count_fault};
use std::alloc::Global;

/// Both ways of a link in memory.
#[derive(Drop)]
pub(crate) struct Ways {
    script: Script,
    input: Input,
    output: Output,
    read_faults: u64,
    write_faults: u64,
}

/// A place for a link among those given back, on the one that was given back before it. A link brings its place
/// along, so giving it back takes no memory.
#[derive(Drop)]
pub(crate) struct Kept {
    ways: Ways,
    pub(crate) under: Option<Box<Kept>>,
}

/// A link in memory. It counts its calls from 1, reads, writes and flushes alike; the calls of given numbers fail,
/// and so does each write where the room is full.
#[derive(Drop)]
pub struct MemLink {
    pub(crate) place: Box<Kept>,
}

impl MemLink {
    /// A link that gives these bytes, at most `piece` in one read, or one where that is 0, and has room for so many
    /// written bytes. The calls whose numbers are in `fails` fail.
    pub fn new(
        alloc: Global,
        bytes: &[u8],
        piece: usize,
        room: usize,
        fails: &[u64],
    ) -> Result<MemLink, Memory>
        ensures left { IfOk result (λ l. (⟦<MemLink as Stream>⟧.tells l).left ≡ Some bytes.now) }
        ensures written { IfOk result (λ l. (⟦<MemLink as Stream>⟧.tells l).written ≡ Some []) }
        ensures handed_on { IfOk result (λ l. (⟦<MemLink as Stream>⟧.tells l).handed_on ≡ Some []) }
        ensures read_faults { IfOk result (λ l. (⟦<MemLink as Stream>⟧.tells l).read_faults ≡ 0) }
        ensures write_faults { IfOk result (λ l. (⟦<MemLink as Stream>⟧.tells l).write_faults ≡ 0) }
        ensures piece { IfOk result (λ l. (out-Kept l.place.value).ways.input.piece ≡ max piece 1) }
        ensures room { IfOk result (λ l. vec_capacity (out-Kept l.place.value).ways.output.bytes ≡ room) }
        ensures fails { IfOk result (λ l. IsFresh (out-Kept l.place.value).ways.script fails.now) }
    {
        let ways = Ways {
            script: Script::new(alloc, fails)?,
            input: Input::new(alloc, bytes, piece)?,
            output: Output::new(alloc, room)?,
            read_faults: 0,
            write_faults: 0,
        };
        Ok(MemLink {
            place: Box::new(alloc, Kept { ways, under: None })?,
        })
    }

    /// The bytes written.
    pub fn as_slice(&self) -> &[u8]
        ensures { (⟦<MemLink as Stream>⟧.tells self.now).written ≡ Some result.now }
    {
        self.place.ways.output.as_slice()
    }

    /// The bytes handed on.
    pub fn handed_on(&self) -> &[u8]
        ensures { (⟦<MemLink as Stream>⟧.tells self.now).handed_on ≡ Some result.now }
    {
        self.place.ways.output.handed()
    }

    /// How often a read has failed.
    pub fn read_faults(&self) -> u64
        ensures { result ≡ (⟦<MemLink as Stream>⟧.tells self.now).read_faults }
    {
        self.place.ways.read_faults
    }

    /// How often a write or a flush has failed.
    pub fn write_faults(&self) -> u64
        ensures { result ≡ (⟦<MemLink as Stream>⟧.tells self.now).write_faults }
    {
        self.place.ways.write_faults
    }
}

impl Stream for MemLink {
    ghost tells = { tells_of_link };
}

impl Source for MemLink {
    fn read(&mut self, buf: &mut [u8]) -> Result<usize, Failed> {
        let ways = &mut self.place.ways;
        if ways.script.fails() {
            return Err(count_fault(&mut ways.read_faults));
        }
        Ok(ways.input.read(buf))
    }
}

impl Sink for MemLink {
    fn write(&mut self, bytes: &[u8]) -> Result<usize, Failed> {
        let ways = &mut self.place.ways;
        if ways.script.fails() {
            return Err(count_fault(&mut ways.write_faults));
        }
        match ways.output.write(bytes) {
            Some(n) => Ok(n),
            None => Err(count_fault(&mut ways.write_faults)),
        }
    }

    fn flush(&mut self) -> Result<(), Failed> {
        let ways = &mut self.place.ways;
        if ways.script.fails() {
            return Err(count_fault(&mut ways.write_faults));
        }
        ways.output.hand_on();
        Ok(())
    }

    ghost handed_on_is_written = { λ l. handed_part (out-Kept l.place.value).ways.output.handed (out-Kept l.place.value).ways.output.bytes.items };
}

impl Link for MemLink {}

/// Its peer is nobody, and it stays open.
impl Close for MemLink {
    ghost is_open = { λ _. Unit {0} };

    fn close(&mut self) {}
}
