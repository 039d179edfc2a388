//! The standard input, and ends of std that fail.

use crate::telling::{Fault, Lines, read_of};
use os_io::{Failed, Memory, Sink, Source, StdSink, StdSource};
use std::alloc::Global;
use std::io::{self, ErrorKind};

/// A reader and a writer whose calls all fail.
#[derive(Drop)]
struct Broken;

impl io::Read for Broken {
    fn read(&mut self, buf: &mut [u8]) -> io::Result<usize> {
        Err(io::Error::from(ErrorKind::BrokenPipe))
    }
}

impl io::Write for Broken {
    fn write(&mut self, bytes: &[u8]) -> io::Result<usize> {
        Err(io::Error::from(ErrorKind::BrokenPipe))
    }

    fn flush(&mut self) -> io::Result<()> {
        Err(io::Error::from(ErrorKind::BrokenPipe))
    }
}

/// Reads the standard input, at first without room.
fn read_input(rt: &HostRuntime) -> Result<String, Fault> {
    let mut source = StdSource::new(rt.stdin());
    let none = source.read(&mut [])?;
    let bytes = read_of(rt.alloc(), &mut source)?;
    let end = read_of(rt.alloc(), &mut source)?;
    Ok(format!(in rt.alloc(); "{none} bytes without room, then {bytes}, then {end}")?)
}

/// Reads from what is broken, and writes there.
fn use_broken(alloc: Global) -> Result<String, Fault> {
    let mut source = StdSource::new(Broken);
    let read = read_of(alloc, &mut source)?;
    let mut sink = StdSink::new(Broken);
    let flushed = match sink.flush() {
        Ok(()) => "nothing",
        Err(Failed) => "a fault",
    };
    let (reads, flushes) = (source.faults(), sink.faults());
    Ok(format!(in alloc; "a read gives {read}, a flush {flushed}; faults {reads} {flushes}")?)
}

/// Tells what was seen of the standard input, and of ends that fail.
pub(crate) fn tell(rt: &HostRuntime, lines: &mut Lines) -> Result<(), Memory> {
    lines.tell("the standard input", read_input(rt))?;
    lines.tell("what is broken", use_broken(rt.alloc()))
}
