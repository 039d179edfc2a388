//! The requests of a connection, one after another.
ghost use Rattle.std.specs.Prelude.{◌≡◌, List, []};
ghost use Rattle.job_table.specs.History.{MoveEntry};
ghost use Rattle.os_io.specs.Streams.{SameInput, SameOutput};
ghost use Rattle.os_server.specs.Talk.{Serves, both_ends};
ghost use Rattle.os_server.specs.Serving.{FollowsReply, IsFinished};

use crate::reply::{HttpReply, answer_request, send_reply};
use crate::server::Server;
use http_link::read_request_into;
use job_runs::work_one;
use job_table::{Mover, Verdicts};
use os_io::{Link, Sink, Source};
use soap_calls::CallReader;
use std::alloc::Global;

/// How a conversation ended.
#[derive(Clone, Copy, PartialEq, Eq, Drop)]
pub enum Served {
    /// The input ended between two requests, or a request asked to close and was answered, or one was refused, or as many were
    /// answered as may be.
    Ended,
    /// The input ended inside a request that nothing refused before.
    CutShort,
    /// A read failed.
    ReadFault,
    /// A write or a flush failed.
    WriteFault,
    /// There was no memory for a request or for its answer, and 503 was written.
    Memory,
}

/// The most requests of one connection.
const MOST_REQUESTS: u32 = 1_000_000;

/// Does what follows a reply that was written, and says whether the conversation ends.
fn follow<V: Verdicts, C: Mover<V>, S: Server<V>>(
    alloc: Global,
    mover: &mut C,
    server: &S,
    reply: &HttpReply,
) -> Option<Served>
    ensures { (after : List MoveEntry) × C.did mover.old mover.new after × FollowsReply S.ran S.wakes reply.now after result }
{
    match reply {
        HttpReply::Answer {
            said: _,
            close,
            as_worker,
        } => {
            let close = *close;
            work_one(alloc, mover, server, *as_worker);
            if close { Some(Served::Ended) } else { None }
        }
        HttpReply::Refused(_) => Some(Served::Ended),
        HttpReply::NoMemory => Some(Served::Memory),
    }
}

/// Writes what a request is replied, and does what follows; where there is no reply, the conversation has ended. Says whether it ends.
fn finish_request<O: Sink, V: Verdicts, C: Mover<V>, S: Server<V>>(
    alloc: Global,
    output: &mut O,
    mover: &mut C,
    server: &S,
    answer: Result<HttpReply, Served>,
) -> Option<Served>
    ensures { (after : List MoveEntry) × C.did mover.old mover.new after × IsFinished S.ran S.wakes answer after result (O.tells output.old) (O.tells output.new) }
{
    match answer {
        Ok(reply) => match send_reply(output, &reply) {
            Ok(()) => follow(alloc, mover, server, &reply),
            Err(_) => Some(Served::WriteFault),
        },
        Err(served) => Some(served),
    }
}

/// Serves the requests that come on an input, one after another, and writes the answers to an output, until the conversation's end.
/// Nothing is read past it, and of a head one byte after another, so a costly input wants a buffer of its own.
pub fn serve_ends<I: Source, O: Sink, V: Verdicts, C: Mover<V>, S: Server<V>>(
    alloc: Global,
    input: &mut I,
    output: &mut O,
    mover: &mut C,
    server: &S,
) -> Served
    ensures serves { Serves S.ran S.wakes (C.did mover.old mover.new) result (both_ends (I.tells input.old) (O.tells output.old)) (both_ends (I.tells input.new) (O.tells output.new)) }
    ensures output_of_input { SameOutput (I.tells input.old) (I.tells input.new) }
    ensures input_of_output { SameInput (O.tells output.old) (O.tells output.new) }
{
    for _ in 0..MOST_REQUESTS {
        let mut body = CallReader::new(alloc);
        let came = read_request_into(alloc, input, &mut body);
        let answer = answer_request(alloc, mover, server, came, body);
        match finish_request(alloc, output, mover, server, answer) {
            None => {}
            Some(served) => return served,
        }
    }
    Served::Ended
}

/// Answers on an output that there is no memory for a conversation, of whose input nothing is read then: 503. The input and the
/// server are handed in for the contract alone.
pub fn turn_away<I: Source, O: Sink, V: Verdicts, S: Server<V>>(
    _input: &I,
    output: &mut O,
    _server: &S,
) -> Served
    ensures serves { Serves S.ran S.wakes (λ made. made ≡ []) result (both_ends (I.tells _input.now) (O.tells output.old)) (both_ends (I.tells _input.now) (O.tells output.new)) }
    ensures input_of_output { SameInput (O.tells output.old) (O.tells output.new) }
{
    match send_reply(output, &HttpReply::NoMemory) {
        Ok(()) => Served::Memory,
        Err(_) => Served::WriteFault,
    }
}

/// Serves a link, and gives it back: its requests are read and answered one after another, each by the moves that it asks, and
/// behind each answer that is 200 or 500 a claim is made, and a job that it gives is run. Where a read fails, every whole request that
/// had come before it was answered. Nothing is read past the conversation, and of a head one byte after another, so a link whose reads
/// cost much reads ahead itself.
pub fn serve_one<L: Link, V: Verdicts, C: Mover<V>, S: Server<V>>(
    alloc: Global,
    mut link: L,
    mover: &mut C,
    server: &S,
) -> (Served, L)
    ensures { Serves S.ran S.wakes (C.did mover.old mover.new) result.0 (L.tells link) (L.tells result.1) }
{
    for _ in 0..MOST_REQUESTS {
        let mut body = CallReader::new(alloc);
        let came = read_request_into(alloc, &mut link, &mut body);
        let answer = answer_request(alloc, mover, server, came, body);
        match finish_request(alloc, &mut link, mover, server, answer) {
            None => {}
            Some(served) => return (served, link),
        }
    }
    (Served::Ended, link)
}
