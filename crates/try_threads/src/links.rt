//! Links that are clients in themselves: what a read gives depends on what was written before.

ghost use Rattle.std.specs.Prelude.{◌≡◌, None, false, IfOk};
ghost use Rattle.os_io.specs.Streams.{Counts, source_tells};

use os_io::{Close, Failed, Link, Listener, Memory, Sink, Source, Stream};
use std::alloc::Global;
use std::collections::VecDeque;

/// Who asks on a link.
pub(crate) trait Client {
    /// The next request, by the answer to the one before. An empty one ends the link.
    fn ask(&mut self, alloc: Global, answer: &[u8]) -> Result<String, Memory>;

    /// Its link was given back.
    fn returned(&self) {}
}

/// A link on which a client asks, until it is closed. It tells nothing of its bytes, and doesn't fail: without memory it ends, or an
/// answer is lost.
#[derive(Drop)]
pub(crate) struct ClientLink<C> {
    alloc: Global,
    client: C,
    /// How many links came before it.
    place: u64,
    request: String,
    /// How much of the request was read.
    read: usize,
    /// What was written since it was, and not handed on yet.
    gathered: Vec<u8>,
    /// What was handed on since it was.
    answer: Vec<u8>,
    /// The conversation is over: nothing comes and nothing goes any more.
    is_over: bool,
}

impl<C> ClientLink<C> {
    fn new(alloc: Global, client: C, place: u64) -> ClientLink<C>
        ensures { result.is_over ≡ false }
    {
        ClientLink {
            alloc,
            client,
            place,
            request: String::new(alloc),
            read: 0,
            gathered: Vec::new(alloc),
            answer: Vec::new(alloc),
            is_over: false,
        }
    }
}

impl<C: Client> ClientLink<C> {
    /// Has the client ask, where it has something to ask.
    fn ask(&mut self) {
        if let Ok(request) = self.client.ask(self.alloc, self.answer.as_slice()) {
            if !request.is_empty() {
                self.request = request;
                self.read = 0;
                self.answer.clear();
            }
        }
    }
}

impl<C> Stream for ClientLink<C> {
    ghost tells = { λ _. source_tells None 0 };
}

impl<C: Client> Source for ClientLink<C> {
    fn read(&mut self, buf: &mut [u8]) -> Result<usize, Failed> {
        if self.is_over {
            return Ok(0);
        }
        if self.read >= self.request.len() {
            self.ask();
        }
        let read = self.read.min(self.request.len());
        let left = &self.request.as_bytes()[read..];
        let n = left.len().min(buf.len());
        buf[..n].copy_from_slice(&left[..n]);
        self.read = read + n;
        Ok(n)
    }
}

impl<C> Sink for ClientLink<C> {
    fn write(&mut self, bytes: &[u8]) -> Result<usize, Failed> {
        if !self.is_over {
            let _ = self.gathered.extend_from_slice(bytes);
        }
        Ok(bytes.len())
    }

    fn flush(&mut self) -> Result<(), Failed> {
        let _ = self.answer.extend_from_slice(self.gathered.as_slice());
        self.gathered.clear();
        Ok(())
    }

    ghost handed_on_is_written = { λ _. tt };
}

impl<C: Client> Link for ClientLink<C> {}

impl<C: Client> Close for ClientLink<C> {
    ghost is_open = { λ l. l.is_over ≡ false };

    fn close(&mut self) {
        self.is_over = true;
    }
}

/// A listener to which the links of these clients come, in their order. A call that finds no more of them fails.
#[derive(Drop)]
pub(crate) struct Clients<C> {
    alloc: Global,
    coming: VecDeque<C>,
    /// How many links came.
    came: u64,
    back: Vec<ClientLink<C>>,
    faults: u64,
}

impl<C: Drop> Clients<C> {
    pub(crate) fn new(alloc: Global) -> Clients<C> {
        Clients {
            alloc,
            coming: VecDeque::new(alloc),
            came: 0,
            back: Vec::new(alloc),
            faults: 0,
        }
    }

    /// Adds a client, whose link comes after those that were added before.
    pub(crate) fn add(&mut self, client: C) -> Result<(), Memory> {
        self.coming.push_back(client)?;
        Ok(())
    }

    /// The link of the next client.
    fn next(&mut self) -> Result<ClientLink<C>, Failed>
        ensures fresh { IfOk result (λ l. l.is_over ≡ false) }
        ensures counted { Counts result self.old.faults self.new.faults }
    {
        match self.coming.pop_front() {
            Some(client) => {
                let place = self.came;
                self.came = place.saturating_add(1);
                Ok(ClientLink::new(self.alloc, client, place))
            }
            None => {
                self.faults = self.faults.saturating_add(1);
                Err(Failed)
            }
        }
    }

    /// The answer to the last request on the link before which so many others came, where it was given back.
    pub(crate) fn last_answer(&self, place: u64) -> &[u8] {
        for link in self.back.as_slice() {
            if link.place == place {
                return link.answer.as_slice();
            }
        }
        b""
    }
}

impl<C: Client + Drop> Listener for Clients<C> {
    type Conn = ClientLink<C>;

    ghost tells = { λ s. record { coming = None; given_back = None; reached = None; faults = s.faults } };

    fn listen(&mut self, _host: &str, _port: u16, _patience: u16) -> Result<(), Failed> {
        Ok(())
    }

    fn accept(&mut self) -> Result<ClientLink<C>, Failed> {
        self.next()
    }

    fn connect(&mut self, _host: &str, _port: u16) -> Result<ClientLink<C>, Failed> {
        self.next()
    }

    fn done(&mut self, link: ClientLink<C>) {
        link.client.returned();
        let _ = self.back.push(link);
    }
}
