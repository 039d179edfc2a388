//! A server over TCP on this machine, and two clients, of whom one reads its answer and the end while the other's link is open.

use crate::clients::{job_of, last_request};
use crate::names::end_name;
use crate::served::setup_of;
use crate::waiting::wait_for;
use memory_ends::MemSink;
use os_io::{Failed, Listener, Memory};
use serving::{Ending, serve};
use std::alloc::Global;
use std::io::{self, Read, Write};
use std::net::{Net, TcpListener, TcpStream};
use std::sync::Wait;
use std::sync::atomic::Ordering::SeqCst;
use std::sync::atomic::{AtomicBool, AtomicU64};
use std::thread::{Threads, join};
use std::time::{Clock, Duration};
use tcp_net::{TcpLink, TcpNet};

/// Where the server listens and its clients connect.
const HOST: &str = "localhost";

/// How many seconds a client waits for more bytes or the end, at most.
const PATIENCE: u64 = 10;

/// Where it stands at which port a server listens.
#[derive(Drop)]
struct Notice {
    port: AtomicU64,
    is_given: AtomicBool,
}

/// A network that says at which port it listens.
#[derive(Drop)]
struct NoticedNet<'a, N> {
    net: TcpNet<N>,
    notice: &'a Notice,
}

impl<
    'a,
    N: Net<Listener = TcpListener, Stream = TcpStream> + AllocGlobal + Clock + Wait + Copy + Drop,
> Listener for NoticedNet<'a, N> {
    type Conn = TcpLink<N>;

    ghost tells = { λ s. ⟦<TcpNet<N> as Listener>⟧.tells s.net };

    fn listen(&mut self, host: &str, port: u16, patience: u16) -> Result<(), Failed> {
        let listens = self.net.listen(host, port, patience);
        let port = self.net.port().unwrap_or(0);
        self.notice.port.store(u64::from(port), SeqCst);
        self.notice.is_given.store(true, SeqCst);
        listens
    }

    fn accept(&mut self) -> Result<TcpLink<N>, Failed> {
        self.net.accept()
    }

    fn connect(&mut self, host: &str, port: u16) -> Result<TcpLink<N>, Failed> {
        self.net.connect(host, port)
    }

    fn done(&mut self, link: TcpLink<N>) {
        self.net.done(link)
    }
}

/// Asks for a number in the one request of this connection, and reads up to the end, as which job's name and whether the end came.
fn ask(alloc: Global, mut stream: TcpStream) -> Result<String, Memory> {
    let request = last_request(alloc, "<getJobID/>")?;
    let mut answer = Vec::new(alloc);
    let _ = stream.set_read_timeout(Some(Duration::from_secs(PATIENCE)));
    let _ = stream.write_all(request.as_bytes());
    let end = match stream.read_to_end(&mut answer) {
        Ok(_) => "the end",
        Err(_) => "no end",
    };
    let job = job_of(answer.as_slice());
    format!(in alloc; "{job} and {end}")
}

/// Two connections, in the order in which they were made.
fn connected<R: Net<Stream = TcpStream>>(rt: &R, port: u16) -> io::Result<(TcpStream, TcpStream)> {
    let first = TcpStream::connect(rt, (HOST, port))?;
    let second = TcpStream::connect(rt, (HOST, port))?;
    Ok((first, second))
}

/// Two clients at the port that stands there. The first to connect asks only once the other's link ended.
fn ask_in_turn<R: Net<Stream = TcpStream> + Clock>(
    rt: &R,
    alloc: Global,
    notice: &Notice,
) -> Result<String, Memory> {
    wait_for(rt, &notice.is_given);
    let port = u16::try_from(notice.port.load(SeqCst)).unwrap_or(0);
    match connected(rt, port) {
        Ok((first, second)) => {
            let second = ask(alloc, second)?;
            let first = ask(alloc, first)?;
            format!(in alloc; "the second link got {second}, then the first {first}")
        }
        Err(_) => "no link".to_string(alloc),
    }
}

/// Serves two links, both at once.
fn serve_two<N: Listener, R: Threads + Wait + Clock + Sync>(
    rt: &R,
    alloc: Global,
    net: &mut N,
    output: &mut MemSink,
) -> Ending
where
    N::Conn: Send + Drop,
{
    serve(rt, alloc, net, output, HOST, 0, setup_of(2, 2, 0))
}

/// Serves two links over TCP, of which the first brings its request only once the second ended.
pub(crate) fn serve_over_loopback<
    R: Threads
        + Wait
        + Clock
        + Sync
        + Net<Listener = TcpListener, Stream = TcpStream>
        + AllocGlobal,
>(rt: &R, alloc: Global) -> Result<String, Memory> {
    let notice = Notice {
        port: AtomicU64::new(0),
        is_given: AtomicBool::new(false),
    };
    let mut net = NoticedNet {
        net: TcpNet::new(rt),
        notice: &notice,
    };
    let mut output = MemSink::new(alloc, 64, &[])?;
    let (ending, told) = join(
        rt,
        || serve_two(rt, alloc, &mut net, &mut output),
        || ask_in_turn(rt, alloc, &notice),
    );
    let (ending, told) = (end_name(ending), told?);
    format!(in alloc; "over TCP: {ending}, {told}\n")
}
