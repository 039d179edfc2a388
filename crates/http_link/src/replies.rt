//! Replies read from a source, for a client.
ghost use Rattle.std.specs.Prelude.{◌≡◌, ◌++◌, length, map, All, Some, IfOk, IfErr};
ghost use Rattle.httparse.specs.Spans.{header_bytes, IsHeaderWithin};
ghost use Rattle.http_link.specs.Requests.{CountsFault};
ghost use Rattle.http_link.specs.Replies.{says_of_parts, has_body, ReadsReply, HeadSays, most_of, is_whole, Replies, Brings};
ghost use Rattle.http_link.specs.declared.requests.LinkFault.TheVariants.{Memory};
ghost use Rattle.os_io.specs.Streams.{SameOutput};

use crate::Refusal;
use crate::checks::{MOST_FIELDS, body_length, count_named};
use crate::requests::{HeadRead, LinkFault, read_body, read_head};
use httparse::Status;
use httparse::spans::{EMPTY_HEADER_SPAN, HeaderSpan, parse_response};
use os_io::{MemBody, Source, Text};
use std::alloc::Global;

/// The most bytes of a response's body.
const MOST_REPLY: usize = os_io::MOST_REPLY as usize;

/// A response: its status, and its body. A status other than 200 and 500 has none here.
#[derive(Drop)]
pub struct Response {
    pub status: u16,
    pub body: Text,
}

/// What came: the bytes that were read, and the response that they are, if they are one.
#[derive(Drop)]
pub struct Came {
    pub bytes: Text,
    pub reply: Option<Response>,
}

/// What the head of a response says: its status, and the length of its body. Without one the body goes to the end of the link.
#[derive(Clone, Copy, Drop)]
pub(crate) struct ReplyHead {
    status: u16,
    len: Option<usize>,
}

impl ReplyHead {
    /// Whether a response of its status has a body.
    fn has_body(self) -> bool
        ensures { result ≡ has_body self.status }
    {
        self.status == 200 || self.status == 500
    }

    /// The most bytes that are read behind it.
    fn most(self) -> usize
        ensures { result ≡ most_of self }
    {
        if self.has_body() {
            self.len.unwrap_or(MOST_REPLY + 1)
        } else {
            0
        }
    }

    /// Whether so many bytes behind it are what it says.
    fn is_whole(self, count: usize) -> bool
        ensures { result ≡ is_whole self count }
    {
        if !self.has_body() {
            return count == 0;
        }
        match self.len {
            Some(len) => count == len,
            None => count <= MOST_REPLY,
        }
    }
}

/// What a head with these parts says, if it isn't refused.
fn says(head: &[u8], status: u16, headers: &[HeaderSpan]) -> Option<ReplyHead>
    requires { All (IsHeaderWithin (length head.now)) headers.now }
    ensures { result ≡ says_of_parts status (map (header_bytes head.now) headers.now) }
{
    if count_named(head, headers, b"transfer-encoding") > 0 {
        return None;
    }
    match body_length(head, headers, MOST_REPLY) {
        Ok(len) => Some(ReplyHead {
            status,
            len: Some(len),
        }),
        Err(Refusal::LengthRequired) => Some(ReplyHead { status, len: None }),
        Err(_) => None,
    }
}

/// What the bytes of a whole head say, if it isn't refused.
fn reply_head(head: &[u8]) -> Option<ReplyHead>
    ensures { ReadsReply head.now result }
{
    let mut headers = [EMPTY_HEADER_SPAN; MOST_FIELDS];
    match parse_response(head, &mut headers) {
        Ok(Status::Complete(spans)) => {
            if spans.len == head.len() {
                says(head, spans.code, &headers[..spans.headers])
            } else {
                None
            }
        }
        Ok(Status::Partial) => None,
        Err(_) => None,
    }
}

/// What bytes behind a head make with it.
fn join(head: Text, says: ReplyHead, body: Text) -> Result<Came, LinkFault>
    requires { HeadSays head (Some says) }
    ensures bytes { IfOk result (λ c. c.bytes ≡ head ++ body) }
    ensures reply { IfOk result (λ c. Replies c.bytes c.reply) }
    ensures memory { IfErr result (λ f. f ≡ Memory) }
{
    let mut bytes = head;
    if bytes.extend(body.as_slice()).is_err() {
        return Err(LinkFault::Memory);
    }
    if says.is_whole(body.len()) {
        let status = says.status;
        Ok(Came {
            bytes,
            reply: Some(Response { status, body }),
        })
    } else {
        Ok(Came { bytes, reply: None })
    }
}

/// Reads a response, and nothing past it: a head of at most 16,384 bytes and 64 fields, and where its status is 200 or 500 a
/// body of at most 25,165,824, by `Content-Length` or to the end of the link.
///
/// The reading ends where the head is refused, or is of another status; where so many bytes came without the head's end;
/// where the body is whole, or one byte over its limit; and where the link ends. The bytes that came are kept, a response or
/// not. Where a read fails or there is no memory, what was read is lost: a first part of them. The head is taken byte by
/// byte, so a link with costly reads wants a buffer of its own.
pub fn read_response<S: Source>(alloc: Global, source: &mut S) -> Result<Came, LinkFault>
    ensures came { Brings result (S.tells source.old).left (S.tells source.new).left }
    ensures reply { IfOk result (λ c. Replies c.bytes c.reply) }
    ensures counted { CountsFault result (S.tells source.old).read_faults (S.tells source.new).read_faults }
    ensures output { SameOutput (S.tells source.old) (S.tells source.new) }
{
    match read_head(alloc, source) {
        Ok(HeadRead::Whole(head, _)) => {
            let Some(says) = reply_head(head.as_slice()) else {
                return Ok(Came {
                    bytes: head,
                    reply: None,
                });
            };
            let mut body = MemBody::new(alloc);
            match read_body(source, &mut body, says.most()) {
                Ok(_) => match body.finish() {
                    Ok(body) => join(head, says, body),
                    Err(_) => Err(LinkFault::Memory),
                },
                Err(_) => Err(LinkFault::ReadFault),
            }
        }
        Ok(HeadRead::TooLarge(bytes)) => Ok(Came { bytes, reply: None }),
        Ok(HeadRead::Cut(bytes)) => Ok(Came { bytes, reply: None }),
        Ok(HeadRead::Ended(bytes)) => Ok(Came { bytes, reply: None }),
        Err(fault) => Err(fault),
    }
}
