//! The six calls. Each is lent a link that is open, and can't close it.

ghost use Rattle.std.specs.Prelude.{◌≡◌, []};
ghost use Rattle.os_io.specs.Streams.{Sends, SameOutput};
ghost use Rattle.http_link.specs.Outgoing.{request_text};
ghost use Rattle.six_calls.specs.declared.call.CallKind.TheVariants as kinds;
ghost use Rattle.os_client.specs.LinkCalls.{Listens, calling, Calls, CallsBool};

use crate::fault::CallFault;
use crate::reading::reading;
use http_link::{LinkFault, read_response, what_came_is_a_part, write_request};
use open_links::OpenLink;
use os_io::{Close, Failed, Link, Stream, Text};
use soap_calls::{CallKind, Parts, SoapCall, returned_texts_may_be_returned, write_call};
use std::alloc::Global;

/// Writes the request with this body, and hands it on.
fn ask<L: Link>(link: &mut L, body: &[u8]) -> Result<(), Failed>
    ensures { Sends result (request_text body.now) (L.tells link.old) (L.tells link.new) }
{
    write_request(link, body)?;
    link.flush()
}

/// Reads what answers the call of this name.
fn listen<L: Link>(alloc: Global, link: &mut L, name: &[u8]) -> Result<Text, CallFault>
    ensures came { Listens name.now result (L.tells link.old) (L.tells link.new) }
    ensures output { SameOutput (L.tells link.old) (L.tells link.new) }
{
    what_came_is_a_part();
    match read_response(alloc, link) {
        Ok(came) => reading(alloc, name, came),
        Err(LinkFault::ReadFault) => Err(CallFault::ReadFault),
        Err(LinkFault::Memory) => Err(CallFault::Memory),
    }
}

/// Makes a call: writes its request, hands it on, and reads what answers it.
pub fn call<L: Close>(
    alloc: Global,
    link: &mut OpenLink<L>,
    call: &SoapCall,
) -> Result<Text, CallFault>
    ensures { Calls call.now result (⟦<OpenLink<L> as Stream>⟧.tells link.old) (⟦<OpenLink<L> as Stream>⟧.tells link.new) }
{
    let Ok(body) = write_call(alloc, call) else {
        return Err(CallFault::Memory);
    };
    match ask(link, body.as_slice()) {
        Ok(()) => listen(alloc, link, call.kind.name()),
        Err(_) => Err(CallFault::WriteFault),
    }
}

/// Makes the call of this kind with these texts of its parts.
fn call_parts<L: Close>(
    alloc: Global,
    link: &mut OpenLink<L>,
    kind: CallKind,
    osil: &[u8],
    osol: &[u8],
    ospl: &[u8],
) -> Result<Text, CallFault>
    ensures { Calls (calling kind osil.now osol.now ospl.now) result (⟦<OpenLink<L> as Stream>⟧.tells link.old) (⟦<OpenLink<L> as Stream>⟧.tells link.new) }
{
    let osil = Text::from_slice(alloc, osil)?;
    let osol = Text::from_slice(alloc, osol)?;
    let ospl = Text::from_slice(alloc, ospl)?;
    let parts = Parts { osil, osol, ospl };
    call(alloc, link, &SoapCall { kind, parts })
}

/// Asks a server to solve an instance: the text of its result document.
pub fn call_solve<L: Close>(
    alloc: Global,
    link: &mut OpenLink<L>,
    osil: &[u8],
    osol: &[u8],
) -> Result<Text, CallFault>
    ensures { Calls (calling kinds.Solve osil.now osol.now []) result (⟦<OpenLink<L> as Stream>⟧.tells link.old) (⟦<OpenLink<L> as Stream>⟧.tells link.new) }
{
    call_parts(alloc, link, CallKind::Solve, osil, osol, b"")
}

/// Asks for a new job: the text that names it.
pub fn call_get_job_id<L: Close>(
    alloc: Global,
    link: &mut OpenLink<L>,
    osol: &[u8],
) -> Result<Text, CallFault>
    ensures { Calls (calling kinds.GetJobId [] osol.now []) result (⟦<OpenLink<L> as Stream>⟧.tells link.old) (⟦<OpenLink<L> as Stream>⟧.tells link.new) }
{
    call_parts(alloc, link, CallKind::GetJobId, b"", osol, b"")
}

/// Sends an instance for the job that the options name: whether it was taken.
pub fn call_send<L: Close>(
    alloc: Global,
    link: &mut OpenLink<L>,
    osil: &[u8],
    osol: &[u8],
) -> Result<bool, CallFault>
    ensures { CallsBool (calling kinds.Send osil.now osol.now []) result (⟦<OpenLink<L> as Stream>⟧.tells link.old) (⟦<OpenLink<L> as Stream>⟧.tells link.new) }
{
    returned_texts_may_be_returned();
    match call_parts(alloc, link, CallKind::Send, osil, osol, b"") {
        Ok(text) => Ok(text.as_slice() == b"true".as_slice()),
        Err(fault) => Err(fault),
    }
}

/// Asks for the result of the job that the options name: the text of its result document.
pub fn call_retrieve<L: Close>(
    alloc: Global,
    link: &mut OpenLink<L>,
    osol: &[u8],
) -> Result<Text, CallFault>
    ensures { Calls (calling kinds.Retrieve [] osol.now []) result (⟦<OpenLink<L> as Stream>⟧.tells link.old) (⟦<OpenLink<L> as Stream>⟧.tells link.new) }
{
    call_parts(alloc, link, CallKind::Retrieve, b"", osol, b"")
}

/// Asks what a server does: the text of its process document.
pub fn call_knock<L: Close>(
    alloc: Global,
    link: &mut OpenLink<L>,
    ospl: &[u8],
    osol: &[u8],
) -> Result<Text, CallFault>
    ensures { Calls (calling kinds.Knock [] osol.now ospl.now) result (⟦<OpenLink<L> as Stream>⟧.tells link.old) (⟦<OpenLink<L> as Stream>⟧.tells link.new) }
{
    call_parts(alloc, link, CallKind::Knock, b"", osol, ospl)
}

/// Asks a server to stop the job that the options name: the text of its process document.
pub fn call_kill<L: Close>(
    alloc: Global,
    link: &mut OpenLink<L>,
    osol: &[u8],
) -> Result<Text, CallFault>
    ensures { Calls (calling kinds.Kill [] osol.now []) result (⟦<OpenLink<L> as Stream>⟧.tells link.old) (⟦<OpenLink<L> as Stream>⟧.tells link.new) }
{
    call_parts(alloc, link, CallKind::Kill, b"", osol, b"")
}
