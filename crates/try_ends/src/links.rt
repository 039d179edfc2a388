//! Links over TCP on this machine.

use crate::telling::{Fault, Lines, read_of};
use crate::threads::moved;
use os_io::{Close, Failed, Link, Listener, Memory, send_all};
use std::alloc::Global;
use std::cell::Cell;
use std::io::{self, ErrorKind};
use std::net::{Net, OpenListener, SocketAddr, TcpListener, TcpStream};
use std::sync::Wait;
use std::thread::{Threads, join};
use std::time::{Clock, Duration, Instant};
use tcp_net::{TcpLink, TcpNet, next_stream};

/// Where links come in.
const HOST: &str = "localhost";

/// How many seconds a link that came waits for its peer.
const PATIENCE: u16 = 30;

/// Within how many seconds an idle link ends for another one. By itself it would end after its patience.
const MOST: u64 = 10;

/// A listener that also says at which port it listens, and how often something failed.
trait Counted: Listener {
    /// The port that it listens at, or 0.
    fn own_port(&self) -> u16;

    /// How many calls of it failed.
    fn calls_failed(&self) -> u64;

    /// How many reads and how many writes of a link failed.
    fn failed_on(link: &Self::Conn) -> (u64, u64);
}

impl<
    R: Net<Listener = TcpListener, Stream = TcpStream> + AllocGlobal + Clock + Wait + Copy + Drop,
> Counted for TcpNet<R> {
    fn own_port(&self) -> u16 {
        self.port().unwrap_or(0)
    }

    fn calls_failed(&self) -> u64 {
        self.faults()
    }

    fn failed_on(link: &TcpLink<R>) -> (u64, u64) {
        (link.read_faults(), link.write_faults())
    }
}

/// Listens, at a port that the system chooses.
fn listen<N: Counted>(net: &mut N) -> Result<u16, Failed> {
    net.listen(HOST, 0, PATIENCE)?;
    Ok(net.own_port())
}

/// Both ends of a link to this port: the one that was made, and the one that came.
fn connected<N: Listener>(net: &mut N, port: u16) -> Result<(N::Conn, N::Conn), Failed>
where
    N::Conn: Drop,
{
    let near = net.connect(HOST, port)?;
    let far = net.accept()?;
    Ok((near, far))
}

/// Asks and answers on a link that the peer then gives up.
fn talk<N: Counted>(alloc: Global, net: &mut N) -> Result<String, Fault>
where
    N::Conn: Send + Drop,
{
    let early = match net.accept() {
        Ok(_) => "a link",
        Err(Failed) => "a fault",
    };
    let port = listen(net)?;
    let (mut near, mut far) = connected(net, port)?;
    send_all(&mut near, b"asked")?;
    let asked = read_of(alloc, &mut far)?;
    send_all(&mut far, b"answer")?;
    let answer = read_of(alloc, &mut near)?;
    net.done(moved(near));
    let end = read_of(alloc, &mut far)?;
    let (reads, writes) = N::failed_on(&far);
    let calls = net.calls_failed();
    Ok(format!(in alloc;
        "{early} before it listens; {asked}, {answer}, then {end}; faults {reads} {writes} {calls}"
    )?)
}

/// What a peer reads that first writes 6 MiB, more than the system's buffers hold. It then gives its link up.
fn read_behind_much<S: Link + Drop>(alloc: Global, mut near: S) -> Result<String, Fault> {
    for _ in 0..1_536 {
        send_all(&mut near, &[b'x'; 4_096])?;
    }
    let answer = read_of(alloc, &mut near)?;
    let end = read_of(alloc, &mut near)?;
    Ok(format!(in alloc; "{answer}, then {end}")?)
}

/// Answers and closes a link whose peer goes on writing.
fn close_before_the_peer<R: Threads, N: Counted>(
    rt: &R,
    alloc: Global,
    net: &mut N,
) -> Result<String, Fault>
where
    N::Conn: Send + Drop,
{
    let port = listen(net)?;
    let (near, mut far) = connected(net, port)?;
    send_all(&mut far, b"answer")?;
    let (far, read) = join(
        rt,
        move || {
            far.close();
            far
        },
        move || read_behind_much(alloc, near),
    );
    net.done(far);
    let read = read?;
    Ok(format!(in alloc; "its peer writes 6 MiB and reads {read}")?)
}

/// A listener whose first connection is gone, and which can't accept a second.
#[derive(Drop)]
struct Short {
    calls: Cell<u8>,
}

impl OpenListener for Short {
    type Stream = u8;

    fn accept(&self) -> io::Result<(u8, SocketAddr)> {
        let first = self.calls.replace(1) == 0;
        Err(io::Error::from(if first {
            ErrorKind::ConnectionAborted
        } else {
            ErrorKind::OutOfMemory
        }))
    }
}

/// Takes the next connection of such a listener.
fn pass_over(alloc: Global) -> Result<String, Fault> {
    let short = Short {
        calls: Cell::new(0),
    };
    let next = match next_stream(&short) {
        Ok(_) => "a connection",
        Err(error) if error.kind() == ErrorKind::OutOfMemory => "want of memory",
        Err(_) => "another fault",
    };
    Ok(format!(in alloc; "the next call's answer is {next}")?)
}

/// Reads from an idle link while another one waits.
fn make_room<C: Clock, N: Counted>(clock: &C, alloc: Global, net: &mut N) -> Result<String, Fault>
where
    N::Conn: Drop,
{
    let port = listen(net)?;
    let (_idle, mut far) = connected(net, port)?;
    let mut near = net.connect(HOST, port)?;
    send_all(&mut near, b"asked")?;
    let begun = Instant::now(clock)?;
    let read = read_of(alloc, &mut far)?;
    let (faults, _) = N::failed_on(&far);
    let place = if begun.elapsed(clock)? < Duration::from_secs(MOST) {
        "within"
    } else {
        "after"
    };
    let mut next = net.accept()?;
    let asked = read_of(alloc, &mut next)?;
    Ok(format!(in alloc;
        "{read} {place} {MOST} seconds; faults {faults}; the next one brings {asked}"
    )?)
}

/// Tells what was seen of links over TCP.
pub(crate) fn tell<
    R: Threads
        + Wait
        + Clock
        + Sync
        + AllocGlobal
        + Net<Listener = TcpListener, Stream = TcpStream>,
>(rt: &R, alloc: Global, lines: &mut Lines) -> Result<(), Memory> {
    lines.tell("over loopback", talk(alloc, &mut TcpNet::new(rt)))?;
    lines.tell(
        "a link that is closed",
        close_before_the_peer(rt, alloc, &mut TcpNet::new(rt)),
    )?;
    lines.tell("a connection that is gone", pass_over(alloc))?;
    lines.tell(
        "an idle link where another waits",
        make_room(rt, alloc, &mut TcpNet::new(rt)),
    )
}
