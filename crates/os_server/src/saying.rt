//! What answers a call.
ghost use Rattle.std.specs.Prelude.{◌≡◌, Some, IfOk};
ghost use Rattle.soap_calls.specs.Replies.{bool_text};
ghost use Rattle.os_server.specs.Answers.{said_by, fault_said, reply_of, why_text, returns, shown_text};

use crate::doing::LastReply;
use crate::fault::FaultCode;
use crate::processes::{id_of, text_after_kill, text_of_all};
use crate::results::reply_of_shown;
use effects::NotStored;
use job_table::Retrieved;
use os_io::{Memory, Text};
use soap_calls::{CallKind, write_fault, write_reply};
use std::alloc::Global;

/// The envelope that answers a call, and whether it says a fault.
#[derive(Drop)]
pub struct ReplyEnvelope {
    pub fault: bool,
    pub text: Text,
}

/// The envelope of a fault.
pub(crate) fn said_fault(
    alloc: Global,
    code: FaultCode,
    text: &[u8],
) -> Result<ReplyEnvelope, Memory>
    ensures { IfOk result (λ said. said ≡ fault_said code text.now) }
{
    let text = write_fault(alloc, code.text(), text)?;
    Ok(ReplyEnvelope { fault: true, text })
}

/// Why a change wasn't stored.
fn why(fault: NotStored) -> &'static [u8]
    ensures { result.now ≡ why_text fault }
{
    match fault {
        NotStored::Disk => b"disk",
        NotStored::Broken => b"broken",
        NotStored::Long => b"journal full",
    }
}

fn word_of(taken: bool) -> &'static [u8]
    ensures { result.now ≡ bool_text taken }
{
    if taken { b"true" } else { b"false" }
}

/// The envelope of what a call returns.
fn returned(alloc: Global, kind: CallKind, text: &[u8]) -> Result<ReplyEnvelope, Memory>
    ensures { IfOk result (λ said. returns kind text.now ≡ Some said) }
{
    let text = write_reply(alloc, kind.name(), text)?;
    Ok(ReplyEnvelope { fault: false, text })
}

/// The envelope that returns the result document of what is shown of a job.
fn returned_job(alloc: Global, kind: CallKind, shown: &Retrieved) -> Result<ReplyEnvelope, Memory>
    ensures { IfOk result (λ said. returns kind (shown_text shown.now) ≡ Some said) }
{
    let text = reply_of_shown(alloc, kind.name(), shown)?;
    Ok(ReplyEnvelope { fault: false, text })
}

/// What answers the call of this kind about the job of this number, by the last reply of the table.
pub(crate) fn say(
    alloc: Global,
    kind: CallKind,
    number: u64,
    last: &LastReply,
) -> Result<ReplyEnvelope, Memory>
    ensures { IfOk result (λ said. said_by kind number (reply_of last.now) ≡ Some said) }
{
    match last {
        LastReply::Issued(given) => {
            let id = id_of(alloc, *given)?;
            returned(alloc, kind, id.as_slice())
        }
        LastReply::Full => said_fault(alloc, FaultCode::Full, b"10000 jobs"),
        LastReply::Spent => said_fault(alloc, FaultCode::Spent, b"no ids"),
        LastReply::NotStored(fault) => said_fault(alloc, FaultCode::Disk, why(*fault)),
        LastReply::Sent(taken) => returned(alloc, kind, word_of(*taken)),
        LastReply::Killing(told) => {
            let text = text_after_kill(alloc, number, told)?;
            returned(alloc, kind, text.as_slice())
        }
        LastReply::Retrieved(shown) => returned_job(alloc, kind, shown),
        LastReply::Statistics(told) => {
            let text = text_of_all(alloc, told)?;
            returned(alloc, kind, text.as_slice())
        }
    }
}
