//! Why a call returned nothing.

use os_io::Text;
use std::alloc::AllocError;
use thiserror::Error;

/// Why a call returned nothing.
#[derive(Debug, Drop, Error)]
pub enum CallFault {
    /// A read of the link failed, and its count of read faults rose.
    #[error("a read of the link failed")]
    ReadFault,
    /// A write or a flush failed, and the link's count of write faults rose. Nothing was read.
    #[error("a write to the link failed")]
    WriteFault,
    /// There was no memory.
    #[error("there was no memory")]
    Memory,
    /// The peer refused the call: a SOAP fault, with its code as it stands there, and its text (SOAP 1.1, section 4.4).
    #[error("fault {code} {text}")]
    Refused { code: Text, text: Text },
    /// The peer answered with a status other than 200 and 500 (RFC 9110, section 15).
    #[error("http {status:03}")]
    Http { status: u16 },
    /// The bytes that came are no reply to the call.
    #[error("no reply")]
    NoReply { bytes: Text },
}

impl From<AllocError> for CallFault {
    ghost from_gives = { λ _ e. e ≡ Memory };

    ghost use Rattle.std.specs.Prelude.{◌≡◌};
    ghost use Rattle.os_client.specs.declared.fault.CallFault.TheVariants.{Memory};

    fn from(_e: AllocError) -> CallFault {
        CallFault::Memory
    }
}
