//! A client's request on a sink.
ghost use Rattle.os_io.specs.Streams.{Writes};
ghost use Rattle.http_link.specs.Outgoing.{request_text};

use crate::responses::write_behind;
use os_io::{Failed, Sink};

/// Writes a request with this body: `POST` to `/os`, as XML, the last on its connection. Takes no memory, and doesn't flush.
pub fn write_request<S: Sink>(sink: &mut S, body: &[u8]) -> Result<(), Failed>
    ensures { Writes result (request_text body.now) (S.tells sink.old) (S.tells sink.new) }
{
    let front =
        b"POST /os HTTP/1.1\r\nHost: os\r\nSOAPAction: \"\"\r\nContent-Type: text/xml; charset=utf-8\r\nContent-Length: ";
    write_behind(sink, front, b"\r\nConnection: close\r\n\r\n", body)
}
