//! What is read of a socket, and how long it is waited for.
ghost use Rattle.std.specs.Prelude.{◌≡◌};
ghost use Rattle.std.specs.Io.{ReadsAtMost};

use crate::door::Door;
use crate::outlet::was_in_vain;
use std::alloc::Global;
use std::io::{self, ErrorKind, Read};
use std::net::{Shutdown, TcpStream};
use std::sync::{Arc, Wait};
use std::time::{Clock, Duration, Instant};

/// How many seconds one call of the system waits for the peer. Behind each an idle link looks whether others wait for a seat.
const WAIT: u64 = 1;

/// For how many milliseconds nobody accepts while a connection waits, where all seats are held to be taken.
const LOOK: u64 = 100;

/// How many times its patience a link may take for one request.
const MOST_WAITS: u64 = 10;

/// How many bytes of a peer are thrown away behind the end of a conversation: more than the longest request that `call` writes, two
/// files of 4,194,305 bytes of which each may be written as five. So who asks for too much in one request can write it to its
/// end, and then reads the refusal.
const MOST_THROWN_AWAY: usize = 67_108_864;

/// How many seconds a peer may send nothing behind the end of a conversation. One that is idle and keeps its link is waited
/// for no longer.
const CLOSING: u16 = 5;

/// How many such seconds a peer has that was waited for in vain before, and how often it is read from then.
const CLOSING_IN_VAIN: (u16, usize) = (1, 2);

/// How long a link that came waits for bytes of its peer.
pub(crate) struct Pace<R> {
    clock: R,
    /// How many seconds the peer may send nothing while the conversation lasts. What is only read lasts no longer than a number of these.
    patience: u16,
    /// How many seconds the peer may send nothing now.
    silence: u16,
    /// When the first byte was read behind the last one that was written. None in an idle link.
    begun: Option<Instant>,
    /// Whether the peer was waited for in vain, or another link gets this one's seat.
    is_given_up: bool,
    door: Arc<Door, Global>,
}

impl<R: Drop> Drop for Pace<R> {
    fn drop(self) {
        let Pace {
            clock: _,
            patience: _,
            silence: _,
            begun: _,
            is_given_up: _,
            door: _,
        } = self;
    }
}

impl<R: Clock + Wait> Pace<R> {
    /// The pace of a link that came by this door and whose peer may keep it waiting for so many seconds.
    pub(crate) fn new(clock: R, patience: u16, door: Arc<Door, Global>) -> Pace<R> {
        Pace {
            clock,
            patience,
            silence: patience,
            begun: None,
            is_given_up: false,
            door,
        }
    }

    /// Sets how long one call of the system waits for the peer, and gives how many such waits of a write may be in vain.
    pub(crate) fn set_waits(&self, socket: &TcpStream) -> io::Result<u16> {
        let wait = Some(Duration::from_secs(WAIT));
        socket.set_read_timeout(wait)?;
        socket.set_write_timeout(wait)?;
        Ok(self.patience)
    }

    /// Whether the link has only read for too long.
    fn is_late(&self) -> bool {
        let most = Duration::from_secs(MOST_WAITS * u64::from(self.patience));
        match self.begun {
            Some(begun) => begun.elapsed(&self.clock).is_ok_and(|spent| spent >= most),
            None => false,
        }
    }

    /// What a read answered. When the first byte came is kept.
    fn noted(&mut self, answer: io::Result<usize>) -> io::Result<usize>
        ensures { result ≡ answer }
    {
        if self.begun.is_none() && answer.as_ref().is_ok_and(|n| *n > 0) {
            self.begun = Instant::now(&self.clock).ok();
        }
        answer
    }
}

/// The reading end of a socket.
#[derive(Drop)]
pub(crate) struct Inlet<R> {
    /// The socket, until the link is closed.
    pub(crate) socket: Option<TcpStream>,
    /// How long it is waited for. Without end where there is none.
    pub(crate) pace: Option<Pace<R>>,
}

impl<R: Clock + Wait> Inlet<R> {
    /// Says that bytes were written: the link is idle until more come.
    pub(crate) fn begin_anew(&mut self) {
        if let Some(pace) = &mut self.pace {
            pace.begun = None;
        }
    }

    /// Says that the peer took nothing.
    pub(crate) fn give_up(&mut self) {
        if let Some(pace) = &mut self.pace {
            pace.is_given_up = true;
        }
    }

    /// Ends this side of the link, throws away what the peer still sends, and gives the socket up.
    pub(crate) fn close(&mut self) {
        let Some(socket) = &self.socket else {
            return;
        };
        let _ = socket.shutdown(Shutdown::Write);
        // A connection that is given up with bytes that nobody took is reset, and the peer may lose the answer that is on its way
        // (RFC 9112, section 9.6).
        let reads = self.begin_closing();
        self.throw_away(reads);
        self.socket = None;
    }

    /// Sets how long the peer may send nothing from now on, and says how often it is read.
    fn begin_closing(&mut self) -> usize {
        let (silence, reads) = match &self.pace {
            Some(pace) if pace.is_given_up => CLOSING_IN_VAIN,
            _ => (CLOSING, MOST_THROWN_AWAY),
        };
        if let Some(pace) = &mut self.pace {
            pace.silence = silence;
        } else if let Some(socket) = &self.socket {
            let _ = socket.set_read_timeout(Some(Duration::from_secs(u64::from(silence))));
        }
        reads
    }

    /// Throws away what the peer still sends, until it ends, sends nothing for too long, or has sent too much.
    fn throw_away(&mut self, reads: usize) {
        let mut buffer = [0; 8_192];
        let mut left = MOST_THROWN_AWAY;
        for _ in 0..reads {
            match self.read(&mut buffer) {
                Ok(n) if 0 < n && n < left => left -= n,
                _ => return,
            }
        }
    }
}

impl<R: Clock + Wait> Read for Inlet<R> {
    /// Reads some bytes of the socket, where any come in as many seconds as the peer has. A link that was made waits for them without end.
    fn read(&mut self, buf: &mut [u8]) -> io::Result<usize> {
        let Some(mut socket) = self.socket.as_ref() else {
            return Err(io::Error::from(ErrorKind::NotConnected));
        };
        let Some(pace) = &mut self.pace else {
            return socket.read(buf);
        };
        for _ in 0..pace.silence {
            if pace.is_late() {
                break;
            }
            match socket.read(buf) {
                Err(error) if was_in_vain(error.kind()) => {}
                answer => return pace.noted(answer),
            }
            // While nobody accepts, someone may be about to: then a seat is free, and no link has to end.
            let turn = pace.door.turn();
            if turn % 2 == 1 || pace.begun.is_some() || pace.is_given_up {
                continue;
            }
            match read_shortly(socket, buf) {
                Err(error) if was_in_vain(error.kind()) => {}
                answer => return pace.noted(answer),
            }
            if pace.door.takes_one(&pace.clock, turn) {
                break;
            }
        }
        pace.is_given_up = true;
        Err(io::Error::from(ErrorKind::TimedOut))
    }
}

/// Reads some bytes by one call of the system, which waits for a shorter time than others do.
fn read_shortly(mut socket: &TcpStream, buf: &mut [u8]) -> io::Result<usize>
    ensures { ReadsAtMost result buf.new }
{
    let _ = socket.set_read_timeout(Some(Duration::from_millis(LOOK)));
    let answer = socket.read(buf);
    let _ = socket.set_read_timeout(Some(Duration::from_secs(WAIT)));
    answer
}
