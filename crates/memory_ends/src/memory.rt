//! Sources and sinks in memory.
ghost use Rattle.std.specs.Prelude.{◌≡◌, [], Some, IfOk, max, vec_capacity};
ghost use Rattle.memory_ends.specs.Memory.{input_left, output_handed, IsFresh};
ghost use Rattle.os_io.specs.Streams.{source_tells, sink_tells};
ghost use Rattle.os_io.specs.Laws.{handed_part};

use crate::parts::{Input, Output, Script};
use os_io::{Failed, Memory, Sink, Source, Stream, count_fault};
use std::alloc::Global;

/// Bytes in memory that are read in pieces. It counts its calls from 1, and the calls of given numbers fail.
#[derive(Drop)]
pub struct MemSource {
    script: Script,
    input: Input,
    faults: u64,
}

impl MemSource {
    /// A source of these bytes, of which one read gives at most `piece`, or one where that is 0. The reads whose
    /// numbers are in `fails` fail.
    pub fn new(
        alloc: Global,
        bytes: &[u8],
        piece: usize,
        fails: &[u64],
    ) -> Result<MemSource, Memory>
        ensures left { IfOk result (λ s. (⟦<MemSource as Stream>⟧.tells s).left ≡ Some bytes.now) }
        ensures faults { IfOk result (λ s. (⟦<MemSource as Stream>⟧.tells s).read_faults ≡ 0) }
        ensures piece { IfOk result (λ s. s.input.piece ≡ max piece 1) }
        ensures fails { IfOk result (λ s. IsFresh s.script fails.now) }
    {
        Ok(MemSource {
            script: Script::new(alloc, fails)?,
            input: Input::new(alloc, bytes, piece)?,
            faults: 0,
        })
    }

    /// How often a read has failed.
    pub fn faults(&self) -> u64
        ensures { result ≡ (⟦<MemSource as Stream>⟧.tells self.now).read_faults }
    {
        self.faults
    }
}

impl Stream for MemSource {
    ghost tells = { λ s. source_tells (Some (input_left s.input)) s.faults };
}

impl Source for MemSource {
    fn read(&mut self, buf: &mut [u8]) -> Result<usize, Failed> {
        if self.script.fails() {
            return Err(count_fault(&mut self.faults));
        }
        Ok(self.input.read(buf))
    }
}

/// Bytes in memory that are written to a room of a fixed size. It counts its calls from 1, writes and flushes alike;
/// the calls of given numbers fail, and so does each write where the room is full.
#[derive(Drop)]
pub struct MemSink {
    script: Script,
    output: Output,
    faults: u64,
}

impl MemSink {
    /// An empty sink with room for so many bytes. The calls whose numbers are in `fails` fail.
    pub fn new(alloc: Global, room: usize, fails: &[u64]) -> Result<MemSink, Memory>
        ensures written { IfOk result (λ s. (⟦<MemSink as Stream>⟧.tells s).written ≡ Some []) }
        ensures handed_on { IfOk result (λ s. (⟦<MemSink as Stream>⟧.tells s).handed_on ≡ Some []) }
        ensures faults { IfOk result (λ s. (⟦<MemSink as Stream>⟧.tells s).write_faults ≡ 0) }
        ensures room { IfOk result (λ s. vec_capacity s.output.bytes ≡ room) }
        ensures fails { IfOk result (λ s. IsFresh s.script fails.now) }
    {
        Ok(MemSink {
            script: Script::new(alloc, fails)?,
            output: Output::new(alloc, room)?,
            faults: 0,
        })
    }

    /// The bytes written.
    pub fn as_slice(&self) -> &[u8]
        ensures { (⟦<MemSink as Stream>⟧.tells self.now).written ≡ Some result.now }
    {
        self.output.as_slice()
    }

    /// The bytes handed on.
    pub fn handed_on(&self) -> &[u8]
        ensures { (⟦<MemSink as Stream>⟧.tells self.now).handed_on ≡ Some result.now }
    {
        self.output.handed()
    }

    /// How often a write or a flush has failed.
    pub fn faults(&self) -> u64
        ensures { result ≡ (⟦<MemSink as Stream>⟧.tells self.now).write_faults }
    {
        self.faults
    }
}

impl Stream for MemSink {
    ghost tells = { λ s. sink_tells (Some s.output.bytes.items) (Some (output_handed s.output)) s.faults };
}

impl Sink for MemSink {
    fn write(&mut self, bytes: &[u8]) -> Result<usize, Failed> {
        if self.script.fails() {
            return Err(count_fault(&mut self.faults));
        }
        match self.output.write(bytes) {
            Some(n) => Ok(n),
            None => Err(count_fault(&mut self.faults)),
        }
    }

    fn flush(&mut self) -> Result<(), Failed> {
        if self.script.fails() {
            return Err(count_fault(&mut self.faults));
        }
        self.output.hand_on();
        Ok(())
    }

    ghost handed_on_is_written = { λ s. handed_part s.output.handed s.output.bytes.items };
}
