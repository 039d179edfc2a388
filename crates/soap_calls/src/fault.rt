//! Why bytes are no call, and what answers a call.

use os_io::Text;
use six_calls::Part;
use std::alloc::AllocError;
use thiserror::Error;

/// Why bytes are no call. The first of these is told, and of parts the first that is refused.
#[derive(Debug, Drop, Error)]
pub enum SoapFault {
    /// They are no document within the limits, or no envelope with one body that has one element in it.
    #[error("no envelope of a call")]
    Envelope,
    /// That element isn't one of the six calls. `name` is the beginning of its name, at most 64 bytes.
    #[error("no call: {name}")]
    Call { name: Text },
    /// The part stands twice, has an element in it, or is needed and doesn't stand there.
    #[error("a part stands twice, has an element in it, or is wanting")]
    Part { part: Part },
    /// There was no memory.
    #[error("there was no memory")]
    Memory,
}

/// What answers a call.
#[derive(Drop)]
pub enum Answer {
    /// The text that it returns.
    Return(Text),
    /// A fault, with its code as it stands there, and its text.
    Fault { code: Text, text: Text },
}

/// Why bytes answer no call.
#[derive(Clone, Copy, PartialEq, Eq, Debug, Drop, Error)]
pub enum NotReply {
    /// They aren't in the grammar of replies.
    #[error("no reply")]
    Form,
    /// There was no memory.
    #[error("there was no memory")]
    Memory,
}

impl From<AllocError> for SoapFault {
    ghost from_gives = { λ _ e. e ≡ Memory };

    ghost use Rattle.std.specs.Prelude.{◌≡◌};
    ghost use Rattle.soap_calls.specs.declared.fault.SoapFault.TheVariants.{Memory};

    fn from(_e: AllocError) -> SoapFault {
        SoapFault::Memory
    }
}

impl From<AllocError> for NotReply {
    ghost from_gives = { λ _ e. e ≡ Memory };

    ghost use Rattle.std.specs.Prelude.{◌≡◌};
    ghost use Rattle.soap_calls.specs.declared.fault.NotReply.TheVariants.{Memory};

    fn from(_e: AllocError) -> NotReply {
        NotReply::Memory
    }
}
