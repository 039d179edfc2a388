//! The standard input and output.
ghost use Rattle.std.specs.Prelude.{◌≡◌, None};
ghost use Rattle.os_io.specs.Streams.{source_tells, sink_tells};

use crate::faults::count_fault;
use crate::streams::{Failed, Sink, Source, Stream};
use std::io::{Read, Write};

/// The standard input, or another reader of std, with a count of its faults. It tells nothing of its bytes.
#[derive(Drop)]
pub struct StdSource<R> {
    reader: R,
    faults: u64,
}

impl<R: Read + Drop> StdSource<R> {
    /// Reads from here, as `rt.stdin()`.
    pub fn new(reader: R) -> StdSource<R>
        ensures { (⟦<StdSource<R> as Stream>⟧.tells result).read_faults ≡ 0 }
    {
        StdSource { reader, faults: 0 }
    }

    /// How often a read has failed.
    pub fn faults(&self) -> u64
        ensures { result ≡ (⟦<StdSource<R> as Stream>⟧.tells self.now).read_faults }
    {
        self.faults
    }
}

impl<R: Read + Drop> Stream for StdSource<R> {
    ghost tells = { λ s. source_tells None s.faults };
}

impl<R: Read + Drop> Source for StdSource<R> {
    fn read(&mut self, buf: &mut [u8]) -> Result<usize, Failed> {
        match self.reader.read(buf) {
            Ok(n) => Ok(n),
            Err(_) => Err(count_fault(&mut self.faults)),
        }
    }
}

/// The standard output, or another writer of std, with a count of its faults. It tells nothing of its bytes.
#[derive(Drop)]
pub struct StdSink<W> {
    writer: W,
    faults: u64,
}

impl<W: Write + Drop> StdSink<W> {
    /// Writes to here, as `rt.stdout()`.
    pub fn new(writer: W) -> StdSink<W>
        ensures { (⟦<StdSink<W> as Stream>⟧.tells result).write_faults ≡ 0 }
    {
        StdSink { writer, faults: 0 }
    }

    /// How often a write or a flush has failed.
    pub fn faults(&self) -> u64
        ensures { result ≡ (⟦<StdSink<W> as Stream>⟧.tells self.now).write_faults }
    {
        self.faults
    }
}

impl<W: Write + Drop> Stream for StdSink<W> {
    ghost tells = { λ s. sink_tells None None s.faults };
}

impl<W: Write + Drop> Sink for StdSink<W> {
    fn write(&mut self, bytes: &[u8]) -> Result<usize, Failed> {
        match self.writer.write(bytes) {
            Ok(n) if n > 0 || bytes.is_empty() => Ok(n),
            _ => Err(count_fault(&mut self.faults)),
        }
    }

    fn flush(&mut self) -> Result<(), Failed> {
        match self.writer.flush() {
            Ok(()) => Ok(()),
            Err(_) => Err(count_fault(&mut self.faults)),
        }
    }

    ghost handed_on_is_written = { λ _. tt };
}
