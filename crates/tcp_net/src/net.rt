//! The network of the system, as a listener.
ghost use Rattle.std.specs.Prelude.{◌≡◌, None, IfOk};

use crate::counted::counted;
use crate::door::{Door, is_want};
use crate::inlet::Pace;
use crate::link::TcpLink;
use os_io::{Close, Failed, Listener};
use std::alloc::Global;
use std::io::{self, ErrorKind};
use std::net::{Net, TcpListener, TcpStream};
use std::sync::{Arc, Wait};
use std::time::Clock;

/// How often a listener without descriptors or memory tries again, a tenth of a second after each try.
const TRIES: u32 = 50;

/// The network of the system, or another of std, with a count of its faults. It tells nothing of its links.
///
/// A read of a link that came, and a write to it, fails where no byte comes, or none is taken, for as many seconds as
/// [`listen`](Listener::listen) was told, and where it has only read for ten times as long. Where it is idle, with nothing read behind what
/// was written last, and others wait for a seat, it fails after a second and a tenth. Others wait where a connection stands in the
/// system's queue, and in that tenth of a second nobody waited for one in [`accept`](Listener::accept).
pub struct TcpNet<R> {
    system: R,
    door: Option<Arc<Door, Global>>,
    patience: u16,
    faults: u64,
}

impl<R: Drop> Drop for TcpNet<R> {
    fn drop(self) {
        let TcpNet {
            system: _,
            door: _,
            patience: _,
            faults: _,
        } = self;
    }
}

impl<
    R: Net<Listener = TcpListener, Stream = TcpStream> + AllocGlobal + Clock + Wait + Copy + Drop,
> TcpNet<R> {
    /// Links of this system, as `&rt`. It listens nowhere yet.
    pub fn new(system: R) -> TcpNet<R>
        ensures { (⟦<TcpNet<R> as Listener>⟧.tells result).faults ≡ 0 }
    {
        TcpNet {
            system,
            door: None,
            patience: 0,
            faults: 0,
        }
    }

    /// How often a call has failed.
    pub fn faults(&self) -> u64
        ensures { result ≡ (⟦<TcpNet<R> as Listener>⟧.tells self.now).faults }
    {
        self.faults
    }

    /// The port that is listened at, which the system chose where 0 was asked for.
    pub fn port(&self) -> Option<u16> {
        self.door.as_ref()?.port()
    }

    /// Where links to this host and port come in.
    fn door_at(&self, host: &str, port: u16) -> io::Result<Arc<Door, Global>> {
        let alloc = self.system.alloc();
        let listener = TcpListener::bind(&self.system, (host, port))?;
        Ok(Arc::new(alloc, Door::new(alloc, listener))?)
    }

    /// The next link that comes. Where there are no descriptors or no memory for it, it is tried again for a while.
    fn next_link(&self) -> io::Result<TcpLink<R>>
        ensures { IfOk result (λ l. ⟦<TcpLink<R> as Close>⟧.is_open l) }
    {
        let Some(door) = &self.door else {
            return Err(io::Error::from(ErrorKind::NotConnected));
        };
        let mut came = None;
        for _ in 0..TRIES {
            match self.link_from(door, &mut came) {
                Err(error) if is_want(&error) => door.pause(&self.system),
                answer => return answer,
            }
        }
        self.link_from(door, &mut came)
    }

    /// A link over the connection that came, or over the next one where none did. It stays where the link can't be made.
    fn link_from(
        &self,
        door: &Arc<Door, Global>,
        came: &mut Option<TcpStream>,
    ) -> io::Result<TcpLink<R>>
        ensures { IfOk result (λ l. ⟦<TcpLink<R> as Close>⟧.is_open l) }
    {
        let socket = match came.take() {
            Some(socket) => socket,
            None => door.next(&self.system)?,
        };
        match self.link_over(door, &socket) {
            Ok(link) => Ok(link.reading(socket)),
            Err(error) => {
                *came = Some(socket);
                Err(error)
            }
        }
    }

    /// A link that writes to this socket, which came by this door.
    fn link_over(&self, door: &Arc<Door, Global>, socket: &TcpStream) -> io::Result<TcpLink<R>>
        ensures { IfOk result (λ l. ⟦<TcpLink<R> as Close>⟧.is_open l) }
    {
        let pace = Pace::new(self.system, self.patience, Arc::try_clone(door)?);
        TcpLink::new(self.system.alloc(), socket, Some(pace))
    }

    /// A link to the program that listens there, at the first of the host's addresses that answers.
    fn link_to(&self, host: &str, port: u16) -> io::Result<TcpLink<R>>
        ensures { IfOk result (λ l. ⟦<TcpLink<R> as Close>⟧.is_open l) }
    {
        let socket = TcpStream::connect(&self.system, (host, port))?;
        let link = TcpLink::new(self.system.alloc(), &socket, None)?;
        Ok(link.reading(socket))
    }
}

impl<
    R: Net<Listener = TcpListener, Stream = TcpStream> + AllocGlobal + Clock + Wait + Copy + Drop,
> Listener for TcpNet<R> {
    type Conn = TcpLink<R>;

    ghost tells = { λ s. record { coming = None; given_back = None; reached = None; faults = s.faults } };

    fn listen(&mut self, host: &str, port: u16, patience: u16) -> Result<(), Failed> {
        let door = self.door_at(host, port);
        self.door = Some(counted(&mut self.faults, door)?);
        self.patience = patience.max(1);
        Ok(())
    }

    fn accept(&mut self) -> Result<TcpLink<R>, Failed> {
        let link = self.next_link();
        counted(&mut self.faults, link)
    }

    fn connect(&mut self, host: &str, port: u16) -> Result<TcpLink<R>, Failed> {
        let link = self.link_to(host, port);
        counted(&mut self.faults, link)
    }

    fn done(&mut self, link: TcpLink<R>) {
        drop(link);
    }
}
