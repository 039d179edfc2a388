//! Requests on a source.
ghost use Rattle.std.specs.Prelude.{◌≡◌, ◌≤◌, ◌<◌, length, IfOk, OnErr};
ghost use Rattle.os_io.specs.Streams.{BothTold, Counts, SameOutput};
ghost use Rattle.http_link.specs.Checks.{most_head, Head as ComesOf};
ghost use Rattle.http_link.specs.Lines.{IsWholeHead};
ghost use Rattle.http_link.specs.Pieces.{TakesPieces};
ghost use Rattle.http_link.specs.Requests.{AnswersTaken, AnswersHead, AnswersBody, GivesPiece, CountsFault, TakesByte};

use crate::Refusal;
use crate::checks::{Accepted, MOST_FIELDS, head_outcome};
use crate::scan::OpenHead;
use os_io::{Body, Failed, Source, Text};
use std::alloc::Global;
use thiserror::Error;

/// What the head of a request says, whose body went elsewhere.
#[derive(Clone, Copy, Drop)]
pub struct Head {
    /// Whether the connection is to close behind the request.
    pub close: bool,
    /// How many bytes the body has.
    pub length: u64,
}

/// What came on a source.
#[derive(Drop)]
pub enum Incoming {
    /// A whole request, which has this head.
    Whole(Head),
    /// A head that is refused. Its body, if it has one, is still to come.
    Refused(Refusal),
    /// The input ended inside a request that nothing refused before.
    Cut,
    /// The input ended between two requests.
    Ended,
}

/// Why nothing can be said of what comes on a source.
#[derive(Clone, Copy, PartialEq, Eq, Debug, Drop, Error)]
pub enum LinkFault {
    /// A read failed, and the source's count of faults rose.
    #[error("a read of the link failed")]
    ReadFault,
    /// There was no memory for a head. None past it was read.
    #[error("there was no memory")]
    Memory,
}

/// What a head says, or its refusal.
fn judge(head: &[u8], lines: usize) -> Result<Accepted, Refusal>
    requires whole { IsWholeHead head.now lines }
    requires fits { length head.now ≤ most_head }
    ensures { ComesOf head.now result }
{
    if lines > MOST_FIELDS {
        return Err(Refusal::HeadTooLarge);
    }
    head_outcome(head)
}

/// The most bytes of a head.
const MOST_HEAD: usize = 16_384;

/// How the reading of a head ended, with the bytes that were read.
#[derive(Drop)]
pub(crate) enum HeadRead {
    /// The head is whole, with so many lines between its request line and its empty one.
    Whole(Text, usize),
    /// It has more bytes than a head may have.
    TooLarge(Text),
    /// The input ended inside it.
    Cut(Text),
    /// The input ended before it.
    Ended(Text),
}

/// The most bytes of a body that are read, and handed on, at once.
const PIECE: usize = 4096;

/// Reads the next byte, or finds the input at its end.
fn read_byte<S: Source>(source: &mut S) -> Result<Option<u8>, Failed>
    ensures byte { IfOk result (λ got. BothTold (S.tells source.old).left (S.tells source.new).left (TakesByte got)) }
    ensures err { OnErr result ((S.tells source.new).left ≡ (S.tells source.old).left) }
    ensures counted { Counts result (S.tells source.old).read_faults (S.tells source.new).read_faults }
    ensures output { SameOutput (S.tells source.old) (S.tells source.new) }
{
    let mut byte = [0];
    match source.read(&mut byte) {
        Ok(count) => {
            if count == 0 {
                return Ok(None);
            }
            Ok(Some(byte[0]))
        }
        Err(failed) => Err(failed),
    }
}

/// Reads a head, and nothing past it.
pub(crate) fn read_head<S: Source>(alloc: Global, source: &mut S) -> Result<HeadRead, LinkFault>
    ensures answer { AnswersHead result (S.tells source.old).left (S.tells source.new).left }
    ensures counted { CountsFault result (S.tells source.old).read_faults (S.tells source.new).read_faults }
    ensures output { SameOutput (S.tells source.old) (S.tells source.new) }
{
    let mut head = OpenHead::new(alloc);
    while head.text.len() < MOST_HEAD {
        let Ok(got) = read_byte(source) else {
            return Err(LinkFault::ReadFault);
        };
        let Some(byte) = got else {
            if head.is_blank() {
                return Ok(HeadRead::Ended(head.text));
            }
            return Ok(HeadRead::Cut(head.text));
        };
        match head.push(byte) {
            Ok(None) => {}
            Ok(Some(lines)) => return Ok(HeadRead::Whole(head.text, lines)),
            Err(_) => return Err(LinkFault::Memory),
        }
    }
    Ok(HeadRead::TooLarge(head.text))
}

/// Reads some bytes, and no more than `most`, and hands them on to a body. 0 is the end of the input.
fn read_piece<S: Source, B: Body>(
    source: &mut S,
    body: &mut B,
    most: usize,
) -> Result<usize, Failed>
    requires { 0 < most }
    ensures piece { IfOk result (GivesPiece (B.took body.old body.new) (S.tells source.old).left (S.tells source.new).left most) }
    ensures err { OnErr result ((S.tells source.new).left ≡ (S.tells source.old).left) }
    ensures stays { OnErr result (body.new ≡ body.old) }
    ensures counted { Counts result (S.tells source.old).read_faults (S.tells source.new).read_faults }
    ensures output { SameOutput (S.tells source.old) (S.tells source.new) }
{
    let mut buffer = [0; PIECE];
    let room = most.min(PIECE);
    match source.read(&mut buffer[..room]) {
        Ok(count) => {
            body.take(&buffer[..count]);
            Ok(count)
        }
        Err(failed) => Err(failed),
    }
}

/// Reads a body of this length, and nothing past it, hands it on piece by piece, and says how many bytes came: fewer where the
/// input ended before.
pub(crate) fn read_body<S: Source, B: Body>(
    source: &mut S,
    body: &mut B,
    len: usize,
) -> Result<usize, Failed>
    ensures answer { AnswersBody (TakesPieces B.took body.old body.new) len result (S.tells source.old).left (S.tells source.new).left }
    ensures counted { Counts result (S.tells source.old).read_faults (S.tells source.new).read_faults }
    ensures output { SameOutput (S.tells source.old) (S.tells source.new) }
{
    let mut done = 0;
    while done < len {
        match read_piece(source, body, len - done) {
            Ok(count) => {
                if count == 0 {
                    return Ok(done);
                }
                done += count;
            }
            Err(failed) => return Err(failed),
        }
    }
    Ok(done)
}

/// Reads a request, and nothing past it, and hands its body on as it comes, in pieces of at most 4,096 bytes, so that nobody holds it
/// whole. Of a refused head, its body is still to come.
///
/// The head is taken byte by byte, so a source with costly reads wants a buffer of its own. Where a read fails or there is
/// no memory, what was taken is lost: a first part of a request that isn't whole, or, where there was no memory, of a head or all of it.
/// Whatever it answers, what came of an accepted head's body went on, and nothing else did.
pub fn read_request_into<S: Source, B: Body>(
    alloc: Global,
    source: &mut S,
    body: &mut B,
) -> Result<Incoming, LinkFault>
    ensures answer { AnswersTaken (TakesPieces B.took body.old body.new) result (S.tells source.old).left (S.tells source.new).left }
    ensures counted { CountsFault result (S.tells source.old).read_faults (S.tells source.new).read_faults }
    ensures output { SameOutput (S.tells source.old) (S.tells source.new) }
{
    match read_head(alloc, source) {
        Ok(HeadRead::Whole(head, lines)) => match judge(head.as_slice(), lines) {
            Ok(said) => match read_body(source, body, said.len) {
                Ok(count) => {
                    if count < said.len {
                        return Ok(Incoming::Cut);
                    }
                    Ok(Incoming::Whole(Head {
                        close: said.close,
                        length: count as u64,
                    }))
                }
                Err(_) => Err(LinkFault::ReadFault),
            },
            Err(refusal) => Ok(Incoming::Refused(refusal)),
        },
        Ok(HeadRead::TooLarge(_)) => Ok(Incoming::Refused(Refusal::HeadTooLarge)),
        Ok(HeadRead::Cut(_)) => Ok(Incoming::Cut),
        Ok(HeadRead::Ended(_)) => Ok(Incoming::Ended),
        Err(fault) => Err(fault),
    }
}
