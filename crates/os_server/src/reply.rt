//! What a request is replied.
ghost use Rattle.std.specs.Prelude.{◌≡◌, ℕ, List};
ghost use Rattle.os_io.specs.Streams.{Writes, Sends};
ghost use Rattle.soap_calls.specs.Reading.{HasTaken};
ghost use Rattle.job_table.specs.History.{MoveEntry};
ghost use Rattle.os_server.specs.Answers.{reply_of};
ghost use Rattle.os_server.specs.Talk.{was_taken, IsRung, text_of_reply, response_text};
ghost use Rattle.os_server.specs.Serving.{IsReplied, DoesOrder, AnswersCame};

use crate::asking::read_order;
use crate::doing::{LastReply, do_order};
use crate::fault::OrderFault;
use crate::order::{Order, number_for};
use crate::saying::{ReplyEnvelope, said_fault, say};
use crate::serve::Served;
use crate::server::Server;
use http_link::{Incoming, LinkFault, Refusal, write_answer, write_fault_answer, write_refusal};
use job_table::{Mover, Verdicts};
use os_io::{Failed, Sink};
use soap_calls::CallReader;
use std::alloc::Global;

/// What a request is replied.
#[derive(Drop)]
pub enum HttpReply {
    /// A response with this envelope, whether the connection closes behind it, and whether the job after it is claimed as a
    /// worker claims one.
    Answer {
        said: ReplyEnvelope,
        close: bool,
        as_worker: bool,
    },
    /// The request is refused.
    Refused(Refusal),
    /// There was no memory: 503.
    NoMemory,
}

/// Whether texts were sent and taken.
fn was_taken(last: &LastReply) -> bool
    ensures { result ≡ was_taken (reply_of last.now) }
{
    match last {
        LastReply::Sent(taken) => *taken,
        _ => false,
    }
}

/// Whether the job behind the answer is claimed as a worker claims one: texts were taken, and nobody took over that a job waits.
fn works_after<V: Verdicts, S: Server<V>>(server: &S, last: &LastReply) -> bool
    ensures { IsRung S.wakes (was_taken (reply_of last.now)) result }
{
    was_taken(last) && !server.wake()
}

/// Does what is asked, and says the last reply.
fn answer_order<V: Verdicts, C: Mover<V>, S: Server<V>>(
    alloc: Global,
    mover: &mut C,
    server: &S,
    order: Order,
    close: bool,
) -> HttpReply
    ensures { (own : List MoveEntry) × C.did mover.old mover.new own × DoesOrder S.ran S.wakes order close own result }
{
    let kind = order.kind;
    let number = number_for(order.job);
    match do_order(alloc, mover, server, order) {
        Ok(last) => match say(alloc, kind, number, &last) {
            Ok(said) => {
                let as_worker = works_after(server, &last);
                HttpReply::Answer {
                    said,
                    close,
                    as_worker,
                }
            }
            Err(_) => HttpReply::NoMemory,
        },
        Err(_) => HttpReply::NoMemory,
    }
}

/// What a body is replied that was read.
fn reply_to<V: Verdicts, C: Mover<V>, S: Server<V>>(
    alloc: Global,
    mover: &mut C,
    server: &S,
    body: CallReader,
    close: bool,
) -> HttpReply
    ensures { (bytes : List ℕ) → HasTaken body bytes → (own : List MoveEntry) × C.did mover.old mover.new own × IsReplied S.ran S.wakes bytes close own result }
{
    match read_order(alloc, body) {
        Ok(order) => answer_order(alloc, mover, server, order, close),
        Err(OrderFault::Envelope) => HttpReply::Refused(Refusal::BadRequest),
        Err(OrderFault::Fault { code, text }) => match said_fault(alloc, code, text.as_slice()) {
            Ok(said) => HttpReply::Answer {
                said,
                close,
                as_worker: false,
            },
            Err(_) => HttpReply::NoMemory,
        },
        Err(OrderFault::Memory) => HttpReply::NoMemory,
    }
}

/// Makes the moves that a request asks which was read, and says what it is replied; or how the conversation ends, where none was.
pub(crate) fn answer_request<V: Verdicts, C: Mover<V>, S: Server<V>>(
    alloc: Global,
    mover: &mut C,
    server: &S,
    came: Result<Incoming, LinkFault>,
    body: CallReader,
) -> Result<HttpReply, Served>
    ensures { AnswersCame S.ran S.wakes (C.did mover.old mover.new) body came result }
{
    match came {
        Ok(Incoming::Whole(head)) => Ok(reply_to(alloc, mover, server, body, head.close)),
        Ok(Incoming::Refused(refusal)) => Ok(HttpReply::Refused(refusal)),
        Ok(Incoming::Cut) => Err(Served::CutShort),
        Ok(Incoming::Ended) => Err(Served::Ended),
        Err(LinkFault::ReadFault) => Err(Served::ReadFault),
        Err(LinkFault::Memory) => Ok(HttpReply::NoMemory),
    }
}

/// Writes the response that carries what is said.
fn write_said<S: Sink>(sink: &mut S, said: &ReplyEnvelope) -> Result<(), Failed>
    ensures { Writes result (response_text said.now) (S.tells sink.old) (S.tells sink.new) }
{
    if said.fault {
        write_fault_answer(sink, said.text.as_slice())
    } else {
        write_answer(sink, said.text.as_slice())
    }
}

/// Writes a reply.
fn write_response<S: Sink>(sink: &mut S, reply: &HttpReply) -> Result<(), Failed>
    ensures { Writes result (text_of_reply reply.now) (S.tells sink.old) (S.tells sink.new) }
{
    match reply {
        HttpReply::Answer { said, .. } => write_said(sink, said),
        HttpReply::Refused(refusal) => write_refusal(sink, *refusal),
        HttpReply::NoMemory => write_refusal(sink, Refusal::ServiceUnavailable),
    }
}

/// Writes a reply and hands it on.
pub(crate) fn send_reply<S: Sink>(sink: &mut S, reply: &HttpReply) -> Result<(), Failed>
    ensures { Sends result (text_of_reply reply.now) (S.tells sink.old) (S.tells sink.new) }
{
    write_response(sink, reply)?;
    sink.flush()
}
