//! What each command does, and the status that it ends with.
ghost use Rattle.std.specs.Prelude.{◌≡◌, ◌≤◌, ◌<◌, ℕ, List, length, map, Some, IfErr, IfOk, OnErr};
ghost use Rattle.std.specs.Process.{exit_status};
ghost use Rattle.std.specs.String.{string_bytes};
ghost use Rattle.os_io.specs.Files.{Held};
ghost use Rattle.os_io.specs.Streams.{SameInput, SameOutput, Tells};
ghost use Rattle.command_answers.specs.Outputs.{IsTold};
ghost use Rattle.command_line.specs.Words.{AsksForNoLink, NamesNoFile, asks, meant, usage};
ghost use Rattle.os_app.specs.AtOnce.{IsAskedFor, asked_to_wait};
ghost use Rattle.os_app.specs.Ends.{AnswerEnds, from_memory};
ghost use Rattle.os_app.specs.Grounds.{AnswersAreOne};
ghost use Rattle.os_app.specs.ProgramRuns.{NamesNoJournal, setup_of, stores_run};
ghost use Rattle.os_app.specs.Runs.{Runs};

use crate::checking::answer_about;
use crate::generating::generate;
use crate::solving::solve_files;
use crate::statuses::{serve_status, session_status};
use crate::stored::{compact_named, keep_server, keep_session};
use command_answers::status::{MISUSED, NO_MEMORY, READ_FAULT, WRITE_FAULT};
use command_answers::{StatusText, send_answer};
use command_line::{Asked, ServeWords, numbers_are_within_their_ends, read_words, write_usage};
use disks::Stores;
use document_checker::{
    accepted_documents_are_not_refused, documents_have_one_answer, documents_have_one_kind,
};
use os_client::make_call;
use os_io::{Failed, FileFault, Files, Listener, Memory, Sink, Source};
use serving::{ServeLimits, Setup, serve};
use sessions::serve_session;
use std::alloc::{AllocError, Global};
use std::process::ExitCode;
use std::sync::Wait;
use std::thread::Threads;
use std::time::Clock;

/// Sends an answer, if there is one, and says how it went.
fn tell<O: Sink>(output: &mut O, answer: Result<StatusText, FileFault>) -> u8
    ensures told { AnswerEnds answer result (O.tells output.old) (O.tells output.new) }
    ensures input { SameInput (O.tells output.old) (O.tells output.new) }
{
    match answer {
        Ok(answer) => send_answer(output, &answer),
        Err(FileFault::Failed) => READ_FAULT,
        Err(FileFault::Memory) => NO_MEMORY,
    }
}

/// An answer for which no file is read.
fn from_memory(answer: Result<StatusText, Memory>) -> Result<StatusText, FileFault>
    ensures { result ≡ from_memory answer }
{
    match answer {
        Ok(answer) => Ok(answer),
        Err(AllocError) => Err(FileFault::Memory),
    }
}

/// The exit code of a run, by its status. Where there was no memory to begin it, it is that of no memory.
pub fn exit_code(ran: Result<u8, Memory>) -> ExitCode
    ensures ok { IfOk ran (λ status. exit_status result ≡ status) }
    ensures err { OnErr ran (exit_status result ≡ 5) }
{
    match ran {
        Ok(status) => ExitCode::from(status),
        Err(AllocError) => ExitCode::from(NO_MEMORY),
    }
}

/// Says how the program is started, and how that went.
fn tell_usage<O: Sink>(output: &mut O) -> u8
    ensures told { IsTold 2 usage result (O.tells output.old) (O.tells output.new) }
    ensures input { SameInput (O.tells output.old) (O.tells output.new) }
{
    match write_usage(output) {
        Ok(()) => MISUSED,
        Err(Failed) => WRITE_FAULT,
    }
}

/// How a server is set up by its words.
fn setup_of(to: ServeWords<'_>) -> Setup
    ensures { result ≡ setup_of to.entry }
{
    Setup {
        patience: to.patience,
        first: to.first,
        limits: ServeLimits {
            workers: to.workers,
            servers: to.servers,
            connections: to.connections,
        },
    }
}

/// The laws of documents that are checked.
fn documents_are_judged_once()
    ensures { AnswersAreOne }
{
    documents_have_one_kind();
    accepted_documents_are_not_refused();
    documents_have_one_answer();
}

/// What words ask for that waits for others.
#[derive(Clone, Copy)]
pub enum Waits<'w> {
    /// A session, over the journal in a file, if it is named.
    Session { journal: Option<&'w str> },
    /// Links are served.
    Serve(ServeWords<'w>),
}

/// Does what the words ask for, as [`run`] does, where that waits for nobody but the files, disks, links and the output: it has no handle
/// by which it might wait, start threads or run on for ever; the clock it may only read. A search that a file may end tells each second how
/// it stands, and nothing else is written to where that is told. Of words that ask for a session or a server it says so, and does nothing.
pub fn run_at_once<'w, T: Clock, F: Files, K: Stores, O: Sink, N: Listener, E: Sink>(
    clock: &T,
    alloc: Global,
    words: &'w [String],
    files: &mut F,
    stores: &mut K,
    output: &mut O,
    net: &mut N,
    told: &mut E,
) -> Result<u8, Waits<'w>>
    // What a run does, whatever its input tells, which it hasn't.
    ensures runs { IfOk result (λ status. (input : Tells) → Runs K.Store.Disk (stores.new ≡ stores.old) status (record {
      words = map string_bytes words.now;
      held = F.held files.old;
      file_faults = F.faults files.old;
      file_faults_after = F.faults files.new;
      input = input;
      input_after = input;
      output = O.tells output.old;
      output_after = O.tells output.new;
      net = N.tells net.old;
      net_after = N.tells net.new;
    }) (stores_run K.held K.back K.opened K.faults stores.old stores.new)) }
    ensures waits { IfErr result (λ it. asks (map string_bytes words.now) ≡ Some (meant (asked_to_wait it))) }
    ensures asked { IfErr result IsAskedFor }
    ensures untouched { OnErr result ((files.new ≡ files.old) × (stores.new ≡ stores.old) × (output.new ≡ output.old) × (net.new ≡ net.old)) }
    ensures input_of_output { SameInput (O.tells output.old) (O.tells output.new) }
    ensures held { F.held files.new ≡ F.held files.old }
    ensures unread { NamesNoFile (map string_bytes words.now) → files.new ≡ files.old }
    ensures unlinked { AsksForNoLink (map string_bytes words.now) → net.new ≡ net.old }
    ensures unkept { NamesNoJournal (map string_bytes words.now) → stores.new ≡ stores.old }
    ensures usage { IfOk result (λ status. length words.now ≤ 1 → IsTold 2 usage status (O.tells output.old) (O.tells output.new)) }
    ensures has_words { OnErr result (1 < length words.now) }
{
    match read_words(alloc, words) {
        Ok(Some(Asked::Session { journal })) => Err(Waits::Session { journal }),
        Ok(Some(Asked::Serve(to))) => Err(Waits::Serve(to)),
        Ok(Some(Asked::Check { osil, osrl })) => {
            documents_are_judged_once();
            Ok(tell(output, answer_about(alloc, files, osil, osrl)))
        }
        Ok(
            Some(
                Asked::Solve {
                    osil,
                    options,
                    handed,
                    halt,
                    seconds,
                    safe,
                },
            ),
        ) => {
            Ok(tell(
                output,
                solve_files(
                    clock, alloc, files, told, osil, options, handed, halt, seconds, safe,
                ),
            ))
        }
        Ok(Some(Asked::Generate { variables })) => {
            numbers_are_within_their_ends();
            Ok(tell(output, from_memory(generate(clock, alloc, variables))))
        }
        Ok(Some(Asked::Call(call))) => Ok(make_call(alloc, call, files, output, net)),
        Ok(Some(Asked::Compact { old, new })) => {
            Ok(compact_named(alloc, stores, old, new, output))
        }
        Ok(None) => Ok(tell_usage(output)),
        Err(AllocError) => Ok(NO_MEMORY),
    }
}

/// Does what waits for others, and says how it went.
fn serve_for<K: Stores, I: Source, O: Sink, N: Listener, R: Threads + Wait + Clock + Sync>(
    rt: &R,
    alloc: Global,
    waits: Waits<'_>,
    stores: &mut K,
    input: &mut I,
    output: &mut O,
    net: &mut N,
) -> u8
where
    N::Conn: Send + Drop,
    K::Store: Send + Sync,
    requires { IsAskedFor waits }
    ensures runs { (words : List (List ℕ)) (held : List ℕ → Held) (faults : ℕ) → asks words ≡ Some (meant (asked_to_wait waits.entry)) → Runs K.Store.Disk (stores.new ≡ stores.old) result (record {
      words = words;
      held = held;
      file_faults = faults;
      file_faults_after = faults;
      input = I.tells input.old;
      input_after = I.tells input.new;
      output = O.tells output.old;
      output_after = O.tells output.new;
      net = N.tells net.old;
      net_after = N.tells net.new;
    }) (stores_run K.held K.back K.opened K.faults stores.old stores.new) }
    ensures output_of_input { SameOutput (I.tells input.old) (I.tells input.new) }
    ensures input_of_output { SameInput (O.tells output.old) (O.tells output.new) }
    ensures unlinked { (words : List (List ℕ)) → asks words ≡ Some (meant (asked_to_wait waits.entry)) → AsksForNoLink words → net.new ≡ net.old }
    ensures unkept { (words : List (List ℕ)) → asks words ≡ Some (meant (asked_to_wait waits.entry)) → NamesNoJournal words → stores.new ≡ stores.old }
{
    match waits {
        Waits::Session { journal } => match journal {
            None => session_status(serve_session(rt, alloc, input, output)),
            Some(name) => keep_session(rt, alloc, stores, name, input, output),
        },
        Waits::Serve(to) => {
            numbers_are_within_their_ends();
            let setup = setup_of(to);
            match to.journal {
                None => serve_status(serve(rt, alloc, net, output, to.host, to.port, setup)),
                Some(name) => keep_server(
                    rt, alloc, stores, name, net, output, to.host, to.port, setup,
                ),
            }
        }
    }
}

/// Does what the words ask for, and says how it went. The words begin with the program's name. `session` serves the
/// requests that come on the input, over a table of jobs of its own, and writes the answers to the output. `check` reads two
/// files, an instance's document and a result document, and writes `accepted` and what is accepted, or `refused` and why, in
/// a line. `solve` reads an instance's file, and one of options where it is named, and writes the result document that
/// answers them, with the safe limit of turns in place of theirs where it is asked for. `generate` solves and checks a
/// generated instance, and writes a line about it. `call` makes one of the six calls over a link, and writes what answers it.
/// `serve` serves links that come. Where a journal is named, a session or a server goes on from the table that it keeps, and what
/// changes is stored in it before it is answered. `compact` writes the journal in one file again, into another one that has nothing in
/// it, which gives the same table then.
///
/// The status is 0 where all was written and handed on; 1 where what was written says no: `refused`, the document of an error,
/// `unchecked`, a fault, another status of HTTP, or `false`; 2 where the words are no command and the usage was written; 3
/// where a read of the input, of a file or of the link failed, or the journal wasn't opened or read; 4 where a write of the output
/// or of the link did, or of the journal while it was opened, or where the new journal wasn't opened or written, had something in
/// it, or would be too long; 5 where there was no memory; 6 where the listener failed; 7 where the bytes that came are no reply; 8 where the input ended
/// inside a request; and 9 where the journal is damaged, and `damaged at` and the place were written in a line. Where there was no
/// memory to read the words or to make the text that they ask for, or the journal wasn't opened, nothing is taken and no link is asked
/// for, and nothing but that line is written. Where there are no words behind the program's name the usage takes no memory.
pub fn run<
    F: Files,
    K: Stores,
    I: Source,
    O: Sink,
    N: Listener,
    E: Sink,
    R: Threads + Wait + Clock + Sync,
>(
    rt: &R,
    alloc: Global,
    words: &[String],
    files: &mut F,
    stores: &mut K,
    input: &mut I,
    output: &mut O,
    net: &mut N,
    told: &mut E,
) -> u8
where
    N::Conn: Send + Drop,
    K::Store: Send + Sync,
    ensures runs { Runs K.Store.Disk (stores.new ≡ stores.old) result (record {
      words = map string_bytes words.now;
      held = F.held files.old;
      file_faults = F.faults files.old;
      file_faults_after = F.faults files.new;
      input = I.tells input.old;
      input_after = I.tells input.new;
      output = O.tells output.old;
      output_after = O.tells output.new;
      net = N.tells net.old;
      net_after = N.tells net.new;
    }) (stores_run K.held K.back K.opened K.faults stores.old stores.new) }
    ensures output_of_input { SameOutput (I.tells input.old) (I.tells input.new) }
    ensures input_of_output { SameInput (O.tells output.old) (O.tells output.new) }
    ensures held { F.held files.new ≡ F.held files.old }
    ensures unread { NamesNoFile (map string_bytes words.now) → files.new ≡ files.old }
    ensures unlinked { AsksForNoLink (map string_bytes words.now) → net.new ≡ net.old }
    ensures unkept { NamesNoJournal (map string_bytes words.now) → stores.new ≡ stores.old }
    ensures usage { length words.now ≤ 1 → IsTold 2 usage result (O.tells output.old) (O.tells output.new) }
{
    match run_at_once(rt, alloc, words, files, stores, output, net, told) {
        Ok(status) => status,
        Err(waits) => serve_for(rt, alloc, waits, stores, input, output, net),
    }
}
