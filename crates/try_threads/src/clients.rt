//! The clients, and what they ask.

use crate::links::Client;
use crate::waiting::wait_for;
use os_io::Memory;
use std::alloc::Global;
use std::sync::atomic::AtomicBool;
use std::sync::atomic::Ordering::SeqCst;
use std::thread::yield_now;
use std::time::Clock;

/// What stands in an answer behind a text, up to another one; nothing where they don't stand there.
fn between<'a>(answer: &'a [u8], front: &str, end: &str) -> &'a str {
    let text = str::from_utf8(answer).unwrap_or("");
    match text.split_once(front) {
        Some((_, behind)) => match behind.split_once(end) {
            Some((found, _)) => found,
            None => "",
        },
        None => "",
    }
}

/// The number that an answer brings, as the name of a job.
pub(crate) fn job_of(answer: &[u8]) -> &str {
    between(answer, "<getJobIDReturn>", "</")
}

/// Whether a job runs by the answer to a knock: `busy` or `idle`.
pub(crate) fn state_of(answer: &[u8]) -> &str {
    between(answer, "&lt;currentState&gt;", "&lt;")
}

/// A request with these fields, whose envelope holds this call.
fn request_with(alloc: Global, fields: &str, call: &str) -> Result<String, Memory> {
    let body = format!(in alloc; "<Envelope><Body>{call}</Body></Envelope>")?;
    let length = body.len();
    format!(in alloc;
        "POST /os HTTP/1.1\r\nHost: a\r\n{fields}Content-Length: {length}\r\n\r\n{body}"
    )
}

/// A request whose envelope holds this call.
fn request(alloc: Global, call: &str) -> Result<String, Memory> {
    request_with(alloc, "", call)
}

/// Such a request, behind whose answer the connection ends.
pub(crate) fn last_request(alloc: Global, call: &str) -> Result<String, Memory> {
    request_with(alloc, "Connection: close\r\n", call)
}

/// A client that asks for two numbers, the second behind the first. Where its next request is wanted before it got that, it asks no
/// more.
#[derive(Drop)]
pub(crate) struct Patient {
    /// How many requests are left.
    left: u32,
}

impl Patient {
    pub(crate) fn new() -> Patient {
        Patient { left: 2 }
    }
}

impl Client for Patient {
    fn ask(&mut self, alloc: Global, answer: &[u8]) -> Result<String, Memory> {
        if self.left == 1 && job_of(answer).is_empty() {
            self.left = 0;
        }
        if self.left == 0 {
            return Ok(String::new(alloc));
        }
        self.left -= 1;
        request(alloc, "<getJobID/>")
    }
}

/// One of two clients that ask for a number. The one that waits asks only once the other was answered.
#[derive(Drop)]
pub(crate) struct Asker<'a, R> {
    clock: &'a R,
    waits: bool,
    asked: bool,
    /// Set once one of the two was answered.
    one_is_answered: &'a AtomicBool,
}

impl<'a, R> Asker<'a, R> {
    pub(crate) fn new(clock: &'a R, waits: bool, one_is_answered: &'a AtomicBool) -> Asker<'a, R> {
        Asker {
            clock,
            waits,
            asked: false,
            one_is_answered,
        }
    }
}

impl<'a, R: Clock> Client for Asker<'a, R> {
    fn ask(&mut self, alloc: Global, _answer: &[u8]) -> Result<String, Memory> {
        if self.asked {
            self.one_is_answered.store(true, SeqCst);
            return Ok(String::new(alloc));
        }
        self.asked = true;
        if self.waits {
            wait_for(self.clock, self.one_is_answered);
        }
        request(alloc, "<getJobID/>")
    }
}

/// What the clients that come in turn tell each other.
#[derive(Drop)]
pub(crate) struct Signals {
    first_is_answered: AtomicBool,
    /// Set once the second one's link was given back.
    second_is_back: AtomicBool,
}

impl Signals {
    pub(crate) fn new() -> Signals {
        Signals {
            first_is_answered: AtomicBool::new(false),
            second_is_back: AtomicBool::new(false),
        }
    }
}

/// Which of three clients one is.
#[derive(Clone, Copy, PartialEq, Eq)]
pub(crate) enum Turn {
    /// It asks only once the second one's link was given back.
    First,
    /// It asks at once.
    Second,
    /// It asks only once the first one was answered.
    Third,
}

/// A client that asks for a number when its turn has come, and for nothing where it doesn't come in time.
#[derive(Drop)]
pub(crate) struct Turner<'a, R> {
    clock: &'a R,
    turn: Turn,
    asked: bool,
    signals: &'a Signals,
}

impl<'a, R> Turner<'a, R> {
    pub(crate) fn new(clock: &'a R, turn: Turn, signals: &'a Signals) -> Turner<'a, R> {
        Turner {
            clock,
            turn,
            asked: false,
            signals,
        }
    }
}

impl<'a, R: Clock> Turner<'a, R> {
    /// Whether its turn comes.
    fn may_ask(&self) -> bool {
        match self.turn {
            Turn::First => wait_for(self.clock, &self.signals.second_is_back),
            Turn::Second => true,
            Turn::Third => wait_for(self.clock, &self.signals.first_is_answered),
        }
    }
}

impl<'a, R: Clock> Client for Turner<'a, R> {
    fn ask(&mut self, alloc: Global, _answer: &[u8]) -> Result<String, Memory> {
        if self.asked {
            if self.turn == Turn::First {
                self.signals.first_is_answered.store(true, SeqCst);
            }
            return Ok(String::new(alloc));
        }
        self.asked = true;
        if !self.may_ask() {
            return Ok(String::new(alloc));
        }
        request(alloc, "<getJobID/>")
    }

    fn returned(&self) {
        if self.turn == Turn::Second {
            self.signals.second_is_back.store(true, SeqCst);
        }
    }
}

/// How often a client sends a job and knocks at most.
const ROUNDS: u32 = 3_000;

/// 2 x0 - 2 x1 = 1 in whole numbers. Cases of it have no end.
const NO_END: &str =
    "<osil><instanceData><variables><var type=\"I\" mult=\"2\"/></variables><constraints><con lb=\"1\" ub=\"1\"/></constraints><linearConstraintCoefficients><start><el mult=\"3\" incr=\"1\">0</el></start><rowIdx><el mult=\"2\">0</el></rowIdx><value><el>2</el><el>-2</el></value></linearConstraintCoefficients></instanceData></osil>";

/// Sends a job under this name whose run takes a while.
fn send(alloc: Global, job: &str) -> Result<String, Memory> {
    let options = format!(in alloc;
        "<osol><general><jobID>{job}</jobID></general><optimization><solverOptions><solverOption name=\"nodeLimit\" value=\"1000\"/></solverOptions></optimization></osol>"
    )?;
    let call = format!(in alloc;
        "<send><osil><![CDATA[{NO_END}]]></osil><osol><![CDATA[{options}]]></osol></send>"
    )?;
    request(alloc, call.as_str())
}

/// A client that asks for a number, sends a job under it and knocks, again and again until a knock says that a job runs.
#[derive(Drop)]
pub(crate) struct Knocker {
    /// How often it asked.
    asked: u32,
}

impl Knocker {
    pub(crate) fn new() -> Knocker {
        Knocker { asked: 0 }
    }
}

impl Client for Knocker {
    fn ask(&mut self, alloc: Global, answer: &[u8]) -> Result<String, Memory> {
        if self.asked >= 3 * ROUNDS || state_of(answer) == "busy" {
            return Ok(String::new(alloc));
        }
        let step = self.asked % 3;
        self.asked += 1;
        match step {
            0 => request(alloc, "<getJobID/>"),
            1 => send(alloc, job_of(answer)),
            _ => {
                // A worker may need this processor.
                yield_now();
                request(alloc, "<knock/>")
            }
        }
    }
}
