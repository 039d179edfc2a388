//! Servers of clients that say in which order they were answered.

ghost use Rattle.std.specs.Prelude.{◌≡◌};

use crate::clients::{Asker, Knocker, Patient, Signals, Turn, Turner, job_of, state_of};
use crate::links::Clients;
use crate::names::end_name;
use memory_ends::MemSink;
use os_io::Memory;
use serving::{ServeLimits, Setup, serve};
use std::alloc::Global;
use std::sync::Wait;
use std::sync::atomic::AtomicBool;
use std::thread::Threads;
use std::time::Clock;

/// Room for what a server writes.
const ROOM: usize = 64;

/// So many links, so many at once, beside so many workers. The clients here have no times, and numbers begin with 1.
pub(crate) fn setup_of(connections: u32, servers: u32, workers: u32) -> Setup
    ensures servers { result.limits.servers ≡ servers }
    ensures first { result.first ≡ 1 }
{
    let limits = ServeLimits {
        servers,
        connections,
        workers,
    };
    Setup {
        patience: 30,
        first: 1,
        limits,
    }
}

/// Serves two links at once, of which the first waits until the second was answered.
pub(crate) fn serve_two_links<R: Threads + Wait + Clock + Sync>(
    rt: &R,
    alloc: Global,
) -> Result<String, Memory> {
    let one_is_answered = AtomicBool::new(false);
    let mut clients = Clients::new(alloc);
    clients.add(Asker::new(rt, true, &one_is_answered))?;
    clients.add(Asker::new(rt, false, &one_is_answered))?;
    let mut output = MemSink::new(alloc, ROOM, &[])?;
    let setup = setup_of(2, 2, 0);
    let ending = end_name(serve(rt, alloc, &mut clients, &mut output, "a", 80, setup));
    let mut told = format!(in alloc; "two links at once: {ending}, the first got ")?;
    told.push_str(job_of(clients.last_answer(0)))?;
    told.push_str(", the second ")?;
    told.push_str(job_of(clients.last_answer(1)))?;
    told.push_str("\n")?;
    told.push_str(str::from_utf8(output.as_slice()).unwrap_or(""))?;
    Ok(told)
}

/// Serves a link on which jobs are sent until a knock says that one runs, beside a worker.
pub(crate) fn knock_beside_a_worker<R: Threads + Wait + Clock + Sync>(
    rt: &R,
    alloc: Global,
) -> Result<String, Memory> {
    let mut clients = Clients::new(alloc);
    clients.add(Knocker::new())?;
    let mut output = MemSink::new(alloc, ROOM, &[])?;
    let setup = setup_of(1, 1, 1);
    let ending = end_name(serve(rt, alloc, &mut clients, &mut output, "a", 80, setup));
    let state = state_of(clients.last_answer(0));
    format!(in alloc; "a link beside a worker: {ending}, a knock says {state}\n")
}

/// Serves a link whose second request comes only behind the answer to the first.
pub(crate) fn answer_before_reading_on<R: Threads + Wait + Clock + Sync>(
    rt: &R,
    alloc: Global,
) -> Result<String, Memory> {
    let mut clients = Clients::new(alloc);
    clients.add(Patient::new())?;
    let mut output = MemSink::new(alloc, ROOM, &[])?;
    let setup = setup_of(1, 1, 0);
    let ending = end_name(serve(rt, alloc, &mut clients, &mut output, "a", 80, setup));
    let job = job_of(clients.last_answer(0));
    format!(in alloc; "two requests in turn: {ending}, the last got {job}\n")
}

/// Serves three links, two at once, of which the first to come asks only once the second was given back, and the third only once the
/// first was answered.
pub(crate) fn make_room_by_ending<R: Threads + Wait + Clock + Sync>(
    rt: &R,
    alloc: Global,
) -> Result<String, Memory> {
    let signals = Signals::new();
    let mut clients = Clients::new(alloc);
    clients.add(Turner::new(rt, Turn::First, &signals))?;
    clients.add(Turner::new(rt, Turn::Second, &signals))?;
    clients.add(Turner::new(rt, Turn::Third, &signals))?;
    let mut output = MemSink::new(alloc, ROOM, &[])?;
    let setup = setup_of(3, 2, 0);
    let ending = end_name(serve(rt, alloc, &mut clients, &mut output, "a", 80, setup));
    let mut told = format!(in alloc; "a link that ended makes room: {ending}, the first got ")?;
    told.push_str(job_of(clients.last_answer(0)))?;
    told.push_str(", the second ")?;
    told.push_str(job_of(clients.last_answer(1)))?;
    told.push_str(", the third ")?;
    told.push_str(job_of(clients.last_answer(2)))?;
    told.push_str("\n")?;
    Ok(told)
}
