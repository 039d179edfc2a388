//! Responses on a sink.
ghost use Rattle.std.specs.Prelude.{◌≡◌};
ghost use Rattle.os_io.specs.Streams.{Writes};
ghost use Rattle.http_link.specs.Responses.{behind, answer_text, fault_answer_text, refusal_bytes};

use crate::Refusal;
use itoa::Buffer;
use os_io::{Failed, Sink, write_all};

/// Writes an answer with this body: `200 OK`, as XML. Takes no memory, and doesn't flush.
pub fn write_answer<S: Sink>(sink: &mut S, body: &[u8]) -> Result<(), Failed>
    ensures { Writes result (answer_text body.now) (S.tells sink.old) (S.tells sink.new) }
{
    let front = b"HTTP/1.1 200 OK\r\nContent-Type: text/xml; charset=utf-8\r\nContent-Length: ";
    write_behind(sink, front, b"\r\n\r\n", body)
}

/// Writes a fault of a call with this body: `500 Internal Server Error`, as XML (SOAP 1.1, section 6.2). Takes no memory, and
/// doesn't flush.
pub fn write_fault_answer<S: Sink>(sink: &mut S, body: &[u8]) -> Result<(), Failed>
    ensures { Writes result (fault_answer_text body.now) (S.tells sink.old) (S.tells sink.new) }
{
    let front =
        b"HTTP/1.1 500 Internal Server Error\r\nContent-Type: text/xml; charset=utf-8\r\nContent-Length: ";
    write_behind(sink, front, b"\r\n\r\n", body)
}

/// Writes what stands before a body's length, the length, what stands behind it and the body.
pub(crate) fn write_behind<S: Sink>(
    sink: &mut S,
    front: &[u8],
    gap: &[u8],
    body: &[u8],
) -> Result<(), Failed>
    ensures { Writes result (behind front.now gap.now body.now) (S.tells sink.old) (S.tells sink.new) }
{
    let mut digits = Buffer::new();
    write_all(sink, front)?;
    write_all(sink, digits.format(body.len()).as_bytes())?;
    write_all(sink, gap)?;
    write_all(sink, body)
}

/// Writes a refusal, which has no body and closes the connection. Takes no memory, and doesn't flush.
pub fn write_refusal<S: Sink>(sink: &mut S, refusal: Refusal) -> Result<(), Failed>
    ensures { Writes result (refusal_bytes refusal) (S.tells sink.old) (S.tells sink.new) }
{
    write_all(sink, text_of(refusal))
}

/// The bytes of a refusal.
fn text_of(refusal: Refusal) -> &'static [u8]
    ensures { result.now ≡ refusal_bytes refusal }
{
    match refusal {
        Refusal::BadRequest =>
            b"HTTP/1.1 400 Bad Request\r\nConnection: close\r\nContent-Length: 0\r\n\r\n",
        Refusal::MethodNotAllowed =>
            b"HTTP/1.1 405 Method Not Allowed\r\nAllow: POST\r\nConnection: close\r\nContent-Length: 0\r\n\r\n",
        Refusal::LengthRequired =>
            b"HTTP/1.1 411 Length Required\r\nConnection: close\r\nContent-Length: 0\r\n\r\n",
        Refusal::ContentTooLarge =>
            b"HTTP/1.1 413 Content Too Large\r\nConnection: close\r\nContent-Length: 0\r\n\r\n",
        Refusal::HeadTooLarge =>
            b"HTTP/1.1 431 Request Header Fields Too Large\r\nConnection: close\r\nContent-Length: 0\r\n\r\n",
        Refusal::NotImplemented =>
            b"HTTP/1.1 501 Not Implemented\r\nConnection: close\r\nContent-Length: 0\r\n\r\n",
        Refusal::ServiceUnavailable =>
            b"HTTP/1.1 503 Service Unavailable\r\nConnection: close\r\nContent-Length: 0\r\n\r\n",
    }
}
