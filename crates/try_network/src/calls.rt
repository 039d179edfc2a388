//! Replies and calls over links, for a client: which replies bytes are, what it writes, what a call over a link
//! answers, what calls answer that a server meets, and what the command `call` writes (RFC 9112, `docs/rules/http.md`,
//! `calls.md` and `conversations.md`).

mod links;
mod meetings;
mod replies;
mod runs;

use cases::{Answers, number_of, repeated};
use links::{asked_text, called_text, failing_text};
use meetings::met_text;
use os_io::{Memory, Text};
use replies::reply_text;
use runs::{Given, run_text};
use std::alloc::Global;

/// Given what is asked, and bytes.
#[derive(Drop)]
pub(crate) struct Client;

impl Answers for Client {
    fn answer(&mut self, alloc: Global, given: &[Vec<u8>]) -> Result<Text, Memory> {
        match given {
            [asked, bytes] => match asked.as_slice() {
                b"reply" => reply_text(alloc, bytes.as_slice()),
                _ => Text::from_slice(alloc, b"not asked"),
            },
            [asked, name, bytes] => match asked.as_slice() {
                b"call" => called_text(alloc, name.as_slice(), bytes.as_slice()),
                _ => Text::from_slice(alloc, b"not asked"),
            },
            [asked, name, first, second] => match asked.as_slice() {
                b"ask" => asked_text(alloc, name.as_slice(), first.as_slice(), second.as_slice()),
                _ => Text::from_slice(alloc, b"not asked"),
            },
            [asked, first, second, third, fourth] => match asked.as_slice() {
                b"long" => {
                    let times = number_of(third.as_slice());
                    let (front, part, end) = (
                        first.as_slice(),
                        second.as_slice(),
                        fourth.as_slice(),
                    );
                    let bytes = repeated(alloc, front, part, times, end)?;
                    reply_text(alloc, bytes.as_slice())
                }
                b"fail" => {
                    let (call, room) = (number_of(first.as_slice()), number_of(second.as_slice()));
                    failing_text(alloc, call, room, third.as_slice(), fourth.as_slice())
                }
                _ => Text::from_slice(alloc, b"not asked"),
            },
            _ => Text::from_slice(alloc, b"two to five fields"),
        }
    }
}

/// Given calls.
#[derive(Drop)]
pub(crate) struct CallsMet;

impl Answers for CallsMet {
    fn answer(&mut self, alloc: Global, given: &[Vec<u8>]) -> Result<Text, Memory> {
        met_text(alloc, given)
    }
}

/// Given a call's name, three files, what the link gives, and what fails.
#[derive(Drop)]
pub(crate) struct CallRuns;

impl Answers for CallRuns {
    fn answer(&mut self, alloc: Global, given: &[Vec<u8>]) -> Result<Text, Memory> {
        match given {
            [name, osil, osol, ospl, bytes, fails] => {
                let given = Given {
                    name: name.as_slice(),
                    files: [osil.as_slice(), osol.as_slice(), ospl.as_slice()],
                    bytes: bytes.as_slice(),
                    fails: fails.as_slice(),
                };
                run_text(alloc, given)
            }
            _ => Text::from_slice(alloc, b"six fields"),
        }
    }
}
