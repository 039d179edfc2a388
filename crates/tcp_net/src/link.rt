//! A connection of the system, as a link.
ghost use Rattle.std.specs.Prelude.{◌≡◌, ◌<◌, ◌≤◌, length, None, Ok, true, IfOk};
ghost use Rattle.os_io.specs.Streams.{Tells, Counts};

use crate::counted::counted;
use crate::inlet::{Inlet, Pace};
use crate::outlet::Outlet;
use os_io::{Close, Failed, Link, Sink, Source, Stream};
use std::alloc::Global;
use std::io::{self, BufReader, BufWriter, ErrorKind, Read, Write};
use std::net::TcpStream;
use std::sync::Wait;
use std::time::Clock;

/// The most bytes that are read ahead.
const READ_AHEAD: usize = 16_384;

/// A link over TCP, with a count of faults each way. It tells nothing of its bytes. A read takes ahead what has come,
/// and what is written goes out with a flush, or where its buffer is full. One that came waits for its peer as long as its listener
/// says, one that was made without end.
pub struct TcpLink<R> {
    input: BufReader<Inlet<R>>,
    output: BufWriter<Outlet>,
    read_faults: u64,
    write_faults: u64,
    /// Whether its own side wasn't ended yet.
    unended: bool,
}

impl<R: Drop> Drop for TcpLink<R> {
    // By hand, as for the network and a link's pace, so that letting one go is a call. What is derived would be taken apart wherever one
    // is let go.
    fn drop(self) {
        let TcpLink {
            input: _,
            output: _,
            read_faults: _,
            write_faults: _,
            unended: _,
        } = self;
    }
}

impl<R: Clock + Wait + Drop> TcpLink<R> {
    /// A link over a second handle of this socket, which it writes to. It reads once it is given the first one.
    pub(crate) fn new(
        alloc: Global,
        socket: &TcpStream,
        pace: Option<Pace<R>>,
    ) -> io::Result<TcpLink<R>>
        ensures read_faults { IfOk result (λ l. (⟦<TcpLink<R> as Stream>⟧.tells l).read_faults ≡ 0) }
        ensures write_faults { IfOk result (λ l. (⟦<TcpLink<R> as Stream>⟧.tells l).write_faults ≡ 0) }
        ensures open { IfOk result (λ l. ⟦<TcpLink<R> as Close>⟧.is_open l) }
    {
        // What is written is gathered here already. Kept back by the system too, the end of a long text would wait for
        // the peer to acknowledge the rest (RFC 1122, 4.2.3.4). A socket that can't be told so sends it all the same.
        let _ = socket.set_nodelay(true);
        let waits = match &pace {
            Some(pace) => pace.set_waits(socket)?,
            None => 1,
        };
        let inlet = Inlet { socket: None, pace };
        let outlet = Outlet {
            socket: Some(socket.try_clone()?),
            waits,
        };
        Ok(TcpLink {
            input: BufReader::with_capacity(alloc, READ_AHEAD, inlet)?,
            output: BufWriter::new(alloc, outlet)?,
            read_faults: 0,
            write_faults: 0,
            unended: true,
        })
    }

    /// The link, which reads of this socket.
    pub(crate) fn reading(mut self, socket: TcpStream) -> TcpLink<R>
        ensures tells { ⟦<TcpLink<R> as Stream>⟧.tells result ≡ ⟦<TcpLink<R> as Stream>⟧.tells self }
        ensures open { ⟦<TcpLink<R> as Close>⟧.is_open self → ⟦<TcpLink<R> as Close>⟧.is_open result }
    {
        self.input.get_mut().socket = Some(socket);
        self
    }

    /// What a write answered, behind which the link is idle. One that failed is counted.
    fn has_written<T>(&mut self, answer: io::Result<T>) -> Result<T, Failed>
        ensures ok { IfOk result (λ value. answer ≡ Ok value) }
        ensures counted { Counts result self.old.write_faults self.new.write_faults }
        ensures input { self.new.read_faults ≡ self.old.read_faults }
        ensures open { self.new.unended ≡ self.old.unended }
    {
        match &answer {
            Ok(_) => self.input.get_mut().begin_anew(),
            Err(_) => self.input.get_mut().give_up(),
        }
        counted(&mut self.write_faults, answer)
    }

    /// How often a read has failed.
    pub fn read_faults(&self) -> u64
        ensures { result ≡ (⟦<TcpLink<R> as Stream>⟧.tells self.now).read_faults }
    {
        self.read_faults
    }

    /// How often a write or a flush has failed.
    pub fn write_faults(&self) -> u64
        ensures { result ≡ (⟦<TcpLink<R> as Stream>⟧.tells self.now).write_faults }
    {
        self.write_faults
    }
}

impl<R> Stream for TcpLink<R> {
    ghost tells = { λ l. record {
      left = None;
      written = None;
      handed_on = None;
      read_faults = l.read_faults;
      write_faults = l.write_faults;
    } };
}

impl<R: Clock + Wait + Drop> Source for TcpLink<R> {
    fn read(&mut self, buf: &mut [u8]) -> Result<usize, Failed> {
        let answer = self.input.read(buf);
        counted(&mut self.read_faults, answer)
    }
}

impl<R: Clock + Wait + Drop> Sink for TcpLink<R> {
    fn write(&mut self, bytes: &[u8]) -> Result<usize, Failed> {
        let answer = some_of(self.output.write(bytes), bytes);
        self.has_written(answer)
    }

    fn flush(&mut self) -> Result<(), Failed> {
        let answer = self.output.flush();
        self.has_written(answer)
    }

    ghost handed_on_is_written = { λ _. tt };
}

impl<R: Clock + Wait + Drop> Link for TcpLink<R> {}

impl<R: Clock + Wait + Drop> Close for TcpLink<R> {
    ghost is_open = { λ l. l.unended ≡ true };

    fn close(&mut self) {
        self.unended = false;
        self.input.get_mut().close();
        // The system ends what is left of the connection with its last handle, and resets it where bytes are unread. So a peer that writes
        // on is reset.
        self.output.get_mut().socket = None;
    }
}

/// What a write of these bytes answered, where none that was written of some is an error.
fn some_of(answer: io::Result<usize>, bytes: &[u8]) -> io::Result<usize>
    ensures within { IfOk answer (λ n. n ≤ length bytes.now) → IfOk result (λ n. n ≤ length bytes.now) }
    ensures some { IfOk result (λ n. 0 < length bytes.now → 0 < n) }
{
    match answer {
        Ok(0) if !bytes.is_empty() => Err(io::Error::from(ErrorKind::WriteZero)),
        answer => answer,
    }
}
