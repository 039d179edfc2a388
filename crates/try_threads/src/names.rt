//! What ends and states are called in the lines that are written.

use job_table::State;
use serving::Ending;

pub(crate) fn end_name(ending: Ending) -> &'static str {
    match ending {
        Ending::Done => "done",
        Ending::LinkMemory => "a link without memory",
        Ending::ListenFault => "not listening",
        Ending::AnnounceFault => "not announced",
        Ending::NoMemory => "no memory",
        Ending::AcceptFault => "a failed accept",
        Ending::ReportFault => "not reported",
    }
}

pub(crate) fn state_name(state: State) -> &'static str {
    match state {
        State::Issued => "issued",
        State::Waiting => "waiting",
        State::Running => "running",
        State::Finished => "finished",
        State::Killed => "killed",
    }
}
