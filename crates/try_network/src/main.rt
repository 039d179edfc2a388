//! Tables of what comes and goes over links: requests that are read and responses that are written; conversations over
//! tables of jobs in memory, also where another one is served between the moves of the first; and the replies and calls
//! of a client.
//!
//! `requests.txt` and `heads.txt` tell what comes on a source, `responses.txt` how an answer is written.
//! `conversations.txt`, `faults.txt` and `many.txt` tell what a server answers on a connection, `meetings.txt` what it
//! answers on two. `replies.txt` tells which replies bytes are, what a client writes and what its call over a link
//! answers, `calls_met.txt` what calls answer that a server meets, and `call_runs.txt` what the command `call` writes.
//!
//! The answers come from the rules (RFC 9112; `docs/rules/http.md`, `calls.md`, `conversations.md` and `jobs.md`). The
//! output is a line for each answer that is another, and how many cases there are.
#![tactic(auto)]

mod calls;
mod conversations;
mod requests;

use calls::{CallRuns, CallsMet, Client};
use cases::Tables;
use conversations::{Conversations, Meetings};
use requests::{Heads, Requests, Responses};
use std::io;

fn main(rt: HostRuntime) -> io::Result<()> {
    let mut tables = Tables::new(&rt);
    tables.try_file("requests.txt", &mut Requests)?;
    tables.try_file("heads.txt", &mut Heads)?;
    tables.try_file("responses.txt", &mut Responses)?;
    for name in ["conversations.txt", "faults.txt", "many.txt"] {
        tables.try_file(name, &mut Conversations)?;
    }
    tables.try_file("meetings.txt", &mut Meetings)?;
    tables.try_file("replies.txt", &mut Client)?;
    tables.try_file("calls_met.txt", &mut CallsMet)?;
    tables.try_file("call_runs.txt", &mut CallRuns)?;
    tables.tell_count()
}
