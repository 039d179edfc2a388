//! Why a request asks nothing.
ghost use Rattle.std.specs.Prelude.{◌≡◌};
ghost use Rattle.os_server.specs.Orders.{code_text};

use os_io::Text;

/// What is wrong with a call, or why the table doesn't take it: the code of the fault that answers it (SOAP 1.1, section 4.4.1).
#[derive(Clone, Copy, PartialEq, Eq, Drop)]
pub enum FaultCode {
    /// It is none of the six.
    Call,
    /// A part of it stands twice, has elements, or is missing.
    Part,
    /// Its options are refused.
    Options,
    /// Its process is refused.
    Process,
    /// As many jobs are held as may be.
    Full,
    /// No number is left for a job.
    Spent,
    /// What it changes wasn't stored.
    Disk,
}

impl FaultCode {
    /// The code, without the `soap:` before it.
    pub(crate) fn text(self) -> &'static [u8]
        ensures { result.now ≡ code_text self }
    {
        match self {
            FaultCode::Call => b"Client.Call",
            FaultCode::Part => b"Client.Part",
            FaultCode::Options => b"Client.Options",
            FaultCode::Process => b"Client.Process",
            FaultCode::Full => b"Server.Full",
            FaultCode::Spent => b"Server.Spent",
            FaultCode::Disk => b"Server.Disk",
        }
    }
}

/// Why a body asks nothing of the table.
#[derive(Drop)]
pub(crate) enum OrderFault {
    /// It is no envelope that has one element in its body.
    Envelope,
    /// Its call is refused, with this code and this text.
    Fault { code: FaultCode, text: Text },
    /// There was no memory.
    Memory,
}
