//! The statuses of sessions and servers.
ghost use Rattle.std.specs.Prelude.{◌≡◌};
ghost use Rattle.os_app.specs.Statuses.{serve_status, session_status};

use command_answers::status::{CUT_SHORT, DONE, NO_LINK, NO_MEMORY, READ_FAULT, WRITE_FAULT};
use os_server::Served;
use serving::Ending;

/// The status of a session.
pub(crate) fn session_status(served: Served) -> u8
    ensures { result ≡ session_status served }
{
    match served {
        Served::Ended => DONE,
        Served::CutShort => CUT_SHORT,
        Served::ReadFault => READ_FAULT,
        Served::WriteFault => WRITE_FAULT,
        Served::Memory => NO_MEMORY,
    }
}

/// The status of a server.
pub(crate) fn serve_status(ending: Ending) -> u8
    ensures { result ≡ serve_status ending }
{
    match ending {
        Ending::Done => DONE,
        Ending::LinkMemory | Ending::NoMemory => NO_MEMORY,
        Ending::ListenFault | Ending::AcceptFault => NO_LINK,
        Ending::AnnounceFault | Ending::ReportFault => WRITE_FAULT,
    }
}
