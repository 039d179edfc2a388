//! Where connections come in. It is shared with the links that came there.
//!
//! Whoever accepts is away from the door while all seats are taken, so an idle link looks itself whether others wait: it takes
//! the one that waits longest, leaves it here for the next accept, and then ends. A connection is taken so under the lock, and only
//! while no accept waits for one; an accept looks at what was left here under the same lock before it waits. So no connection is left
//! here while an accept waits.

use std::alloc::Global;
use std::collections::VecDeque;
use std::io::{self, ErrorKind};
use std::net::{OpenListener, TcpListener, TcpStream};
use std::sync::atomic::Ordering::SeqCst;
use std::sync::atomic::{AtomicBool, AtomicU64};
use std::sync::{Mutex, Wait};
use std::thread;
use std::time::{Clock, Duration};

/// How many milliseconds pass before a listener without descriptors or memory tries again.
const PAUSE: u64 = 100;

/// The system's numbers of its wants: of memory, of open files of all programs and of this one, and of room for sockets (errno(3)).
const WANTS: [i32; 4] = [12, 23, 24, 105];

/// A listening socket, and the connections that links have taken there.
#[derive(Drop)]
pub(crate) struct Door {
    listener: TcpListener,
    /// Raised when an accept begins to wait for a connection, and when it ceases to: odd meanwhile. Raised by both at once where one
    /// waits already.
    turn: AtomicU64,
    /// Whether whoever accepts waits until it can.
    is_short: AtomicBool,
    taken: Mutex<VecDeque<TcpStream>>,
}

impl Door {
    pub(crate) fn new(alloc: Global, listener: TcpListener) -> Door {
        Door {
            listener,
            turn: AtomicU64::new(0),
            is_short: AtomicBool::new(false),
            taken: Mutex::new(VecDeque::new(alloc)),
        }
    }

    pub(crate) fn port(&self) -> Option<u16> {
        let address = self.listener.local_addr().ok()?;
        Some(address.port())
    }

    /// Odd while an accept waits for a connection. It never stands again as it once stood.
    pub(crate) fn turn(&self) -> u64 {
        self.turn.load(SeqCst)
    }

    /// The next connection: one that a link took, or one that waits already, or the first that comes.
    pub(crate) fn next<W: Wait>(&self, rt: &W) -> io::Result<TcpStream> {
        {
            let mut taken = self.taken.lock(rt);
            if let Some(stream) = taken.pop_front() {
                return Ok(stream);
            }
            if let Some(stream) = self.waiting()? {
                self.turn.fetch_add(2, SeqCst);
                return Ok(stream);
            }
            self.turn.fetch_add(1, SeqCst);
        }
        let stream = next_stream(&self.listener);
        self.turn.fetch_add(1, SeqCst);
        stream
    }

    /// A connection that waits, if one does. Whoever asks has the lock, and no accept waits.
    fn waiting(&self) -> io::Result<Option<TcpStream>> {
        self.listener.set_nonblocking(true)?;
        let stream = next_stream(&self.listener);
        self.listener.set_nonblocking(false)?;
        match stream {
            Ok(stream) => Ok(Some(stream)),
            Err(error) if error.kind() == ErrorKind::WouldBlock => Ok(None),
            Err(error) => Err(error),
        }
    }

    /// Takes a connection that waits, for the next accept, where no accept has waited, or taken another that waited, since it was this
    /// turn: whether a link makes room by ending. So it does too where whoever accepts is short of what it needs.
    pub(crate) fn takes_one<W: Wait>(&self, rt: &W, turn: u64) -> bool {
        let mut taken = self.taken.lock(rt);
        if turn % 2 == 1 || turn != self.turn() || taken.reserve(1).is_err() {
            return false;
        }
        match self.waiting() {
            Ok(Some(stream)) => taken.push_back(stream).is_ok(),
            Ok(None) => false,
            Err(_) => self.is_short.load(SeqCst),
        }
    }

    /// Waits a little, until links may have given up what an accept needs.
    pub(crate) fn pause<C: Clock>(&self, clock: &C) {
        self.is_short.store(true, SeqCst);
        thread::sleep(clock, Duration::from_millis(PAUSE));
        self.is_short.store(false, SeqCst);
    }
}

/// The next connection of a listener. One that was gone before it was accepted is passed over.
pub fn next_stream<L: OpenListener>(listener: &L) -> io::Result<L::Stream> {
    for stream in listener.incoming() {
        match stream {
            Err(error) if is_gone(error.kind()) => {}
            answer => return answer,
        }
    }
    Err(io::Error::from(ErrorKind::TimedOut))
}

/// Whether an accept that failed so took a connection that is gone: its peer gave it up, or the network doesn't lead to
/// it (accept(2), "Error handling"). The next call takes the next one.
fn is_gone(kind: ErrorKind) -> bool {
    matches!(
        kind,
        ErrorKind::ConnectionAborted
            | ErrorKind::ConnectionReset
            | ErrorKind::HostUnreachable
            | ErrorKind::NetworkUnreachable
            | ErrorKind::NetworkDown
    )
}

/// Whether a call failed for want of descriptors or memory, so that another one may do better.
pub(crate) fn is_want(error: &io::Error) -> bool {
    match error.raw_os_error() {
        Some(number) => WANTS.contains(&number),
        None => error.kind() == ErrorKind::OutOfMemory,
    }
}
