//! Links that are open while they are served, or while a call is made over them.
//!
//! Whoever serves a link, or makes a call over one, is handed an [`OpenLink`]. Only [`OpenLink::new`] makes one, of a link of which it is
//! known that it is open: that it came from a listener, and that nobody closed it ([`os_io::Close`]). So a link that may be closed already
//! can't be served, and no call be made over it; and whoever takes one apart has none to give back.
#![tactic(auto)]

ghost use Rattle.std.specs.Prelude.{◌≡◌};

use os_io::{Close, Failed, Link, Sink, Source, Stream};

/// A link that is open. It is a link itself, to be read and written, but whoever has it can't close it.
#[derive(Drop)]
pub struct OpenLink<L> {
    link: L,
}

impl<L: Close> OpenLink<L> {
    /// This link, which is open.
    pub fn new(link: L) -> OpenLink<L>
        requires { L.is_open link }
        ensures { ⟦<OpenLink<L> as Stream>⟧.tells result ≡ L.tells link }
    {
        OpenLink { link }
    }

    /// The link itself, to be closed and given back.
    pub fn into_link(self) -> L
        ensures { L.tells result ≡ ⟦<OpenLink<L> as Stream>⟧.tells self }
    {
        self.link
    }
}

impl<L: Close> Stream for OpenLink<L> {
    ghost tells = { λ o. L.tells o.link };
}

impl<L: Close> Source for OpenLink<L> {
    fn read(&mut self, buf: &mut [u8]) -> Result<usize, Failed> {
        self.link.read(buf)
    }
}

impl<L: Close> Sink for OpenLink<L> {
    fn write(&mut self, bytes: &[u8]) -> Result<usize, Failed> {
        self.link.write(bytes)
    }

    fn flush(&mut self) -> Result<(), Failed> {
        self.link.flush()
    }

    ghost handed_on_is_written = { λ o. L.handed_on_is_written o.link };
}

impl<L: Close> Link for OpenLink<L> {}
