//! What is written to a socket, and how long its peer may take none of it.

use std::io::{self, ErrorKind, Write};
use std::net::TcpStream;

/// The writing end of a socket.
#[derive(Drop)]
pub(crate) struct Outlet {
    /// The socket, until the link is closed.
    pub(crate) socket: Option<TcpStream>,
    /// How many waits of the system in a row may be in vain. One without end is never in vain.
    pub(crate) waits: u16,
}

impl Write for Outlet {
    fn write(&mut self, buf: &[u8]) -> io::Result<usize> {
        let Some(socket) = &mut self.socket else {
            return Err(io::Error::from(ErrorKind::NotConnected));
        };
        for _ in 0..self.waits {
            match socket.write(buf) {
                Err(error) if was_in_vain(error.kind()) => {}
                answer => return answer,
            }
        }
        Err(io::Error::from(ErrorKind::TimedOut))
    }

    fn flush(&mut self) -> io::Result<()> {
        Ok(())
    }
}

/// Whether a call that failed so has only waited. A process that is stopped and goes on breaks a wait off (signal(7)).
pub(crate) fn was_in_vain(kind: ErrorKind) -> bool {
    matches!(kind, ErrorKind::WouldBlock | ErrorKind::Interrupted)
}
