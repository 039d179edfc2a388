//! The end of a conversation on a link, told to its peer.

ghost use Rattle.std.specs.Prelude.{◌≡◌};

use crate::streams::Link;

/// A link whose peer can be told that nothing more comes. A peer may wait for the end before it gives its link up, or be held
/// up in writing what nobody reads; so whoever holds a link closes it as soon as nothing more is to be written, and not when the
/// link is given back.
pub trait Close: Link {
    /// The link is open: it came from a listener, and it wasn't closed. Nothing else opens one.
    ghost is_open: { Self → Type 0 };

    /// Ends the conversation: from now on nothing is written. A link of the system tells its peer so, and takes what the peer
    /// still sends, which nobody reads. What the link tells stays: its bytes and its counts of faults are those of the
    /// conversation. That it is open is no longer known.
    fn close(&mut self)
        ensures { Self.tells self.new ≡ Self.tells self.old };
}
