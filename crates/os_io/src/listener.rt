//! What gives links.
ghost use Rattle.std.specs.Prelude.{◌≡◌, IfOk, OnErr};
ghost use Rattle.os_io.specs.Streams.{Counts};
ghost use Rattle.os_io.specs.Links.{NetTells, Comes, IsGivenBack, ListenedAt, ConnectedTo, Reaches, SameLinks};

use crate::close::Close;
use crate::streams::Failed;

/// Links from and to other programs. A call that fails takes no link.
pub trait Listener {
    /// A link that came, or was made.
    type Conn: Close;

    /// The links to come and those given back, in order, and the hosts and ports that were reached, each where told; and how often a
    /// call has failed, at most 2^64 - 1.
    ghost tells: { Self → NetTells };

    /// From now on links to this host and port can be accepted. A read of such a link, and a write to it, that waits for its peer
    /// for more than so many seconds is a failed one.
    fn listen(&mut self, host: &str, port: u16, patience: u16) -> Result<(), Failed>
        ensures reached { Reaches result (ListenedAt host.now port patience) (tells self.old).reached (tells self.new).reached }
        ensures links { SameLinks (tells self.old) (tells self.new) }
        ensures counted { Counts result (tells self.old).faults (tells self.new).faults };

    /// The next link that comes. It is open.
    fn accept(&mut self) -> Result<Self::Conn, Failed>
        ensures came { IfOk result (λ c. Comes (tells self.old).coming (tells self.new).coming (Self.Conn.tells c)) }
        ensures open { IfOk result (λ c. Self.Conn.is_open c) }
        ensures err { OnErr result ((tells self.new).coming ≡ (tells self.old).coming) }
        ensures given_back { (tells self.new).given_back ≡ (tells self.old).given_back }
        ensures reached { (tells self.new).reached ≡ (tells self.old).reached }
        ensures counted { Counts result (tells self.old).faults (tells self.new).faults };

    /// A link to the program that listens at this host and port, the next one of those to come. It is open.
    fn connect(&mut self, host: &str, port: u16) -> Result<Self::Conn, Failed>
        ensures came { IfOk result (λ c. Comes (tells self.old).coming (tells self.new).coming (Self.Conn.tells c)) }
        ensures open { IfOk result (λ c. Self.Conn.is_open c) }
        ensures err { OnErr result ((tells self.new).coming ≡ (tells self.old).coming) }
        ensures given_back { (tells self.new).given_back ≡ (tells self.old).given_back }
        ensures reached { Reaches result (ConnectedTo host.now port) (tells self.old).reached (tells self.new).reached }
        ensures counted { Counts result (tells self.old).faults (tells self.new).faults };

    /// Gives a link back. The count of faults stays.
    fn done(&mut self, link: Self::Conn)
        ensures given_back { IsGivenBack (tells self.old).given_back (tells self.new).given_back (Self.Conn.tells link) }
        ensures coming { (tells self.new).coming ≡ (tells self.old).coming }
        ensures reached { (tells self.new).reached ≡ (tells self.old).reached }
        ensures faults { (tells self.new).faults ≡ (tells self.old).faults };
}
