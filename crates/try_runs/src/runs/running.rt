//! What a case gives, and how it is answered.

use super::ends::{Fails, ROOM, files_of, input_of, net_of, output_of};
use crate::words::{behind, words_of};
use cases::{bytes_of, number_of};
use memory_disks::{MemDisk, MemStores};
use memory_ends::{MemListener, MemSink};
use os_app::run;
use os_io::{Files, Memory, Text};
use std::alloc::Global;
use std::sync::Wait;
use std::thread::Threads;
use std::time::Clock;

/// No call fails.
const NONE: Fails = Fails {
    file: 0,
    read: 0,
    write: 0,
    net: 0,
    link: 0,
    disk: 0,
};

/// The call that fails: `file N`, `read N`, `write N`, `net N`, `link N`, `disk N`, or none.
fn fails_of(field: &[u8]) -> Fails {
    let mut fails = NONE;
    if let Some(number) = behind(field, b"file ") {
        fails.file = number_of(number);
    } else if let Some(number) = behind(field, b"read ") {
        fails.read = number_of(number);
    } else if let Some(number) = behind(field, b"write ") {
        fails.write = number_of(number);
    } else if let Some(number) = behind(field, b"net ") {
        fails.net = number_of(number);
    } else if let Some(number) = behind(field, b"link ") {
        fails.link = number_of(number);
    } else if let Some(number) = behind(field, b"disk ") {
        fails.disk = number_of(number);
    }
    fails
}

/// How much room the output has: `room N`, or enough.
fn room_of(field: &[u8]) -> usize {
    match behind(field, b"room ") {
        Some(number) => number_of(number) as usize,
        None => ROOM,
    }
}

/// The bytes of an input: those of a file, of which the first so many may be taken, as `@name` or `@name 12`, or the field
/// itself.
fn input_bytes<F: Files>(alloc: Global, disk: &mut F, field: &[u8]) -> Result<Text, Memory> {
    let Some(named) = behind(field, b"@") else {
        return Text::from_slice(alloc, field);
    };
    let mut parts = named.split(|b| *b == b' ');
    let mut bytes = bytes_of(alloc, disk, parts.next().unwrap_or(b""))?;
    if let Some(count) = parts.next() {
        bytes.truncate(number_of(count) as usize);
    }
    Ok(bytes)
}

/// What runs go over, each with files of its own: the system's threads, and the disk.
#[derive(Drop)]
pub(crate) struct World<'r, R, F> {
    rt: &'r R,
    disk: F,
}

impl<'r, R: Threads + Wait + Clock + Sync, F: Files> World<'r, R, F> {
    pub(crate) fn new(rt: &'r R, disk: F) -> Self {
        World { rt, disk }
    }

    /// One run: its status, a space, and what it wrote.
    fn ran(
        &mut self,
        alloc: Global,
        words: &[u8],
        input: &[u8],
        piece: usize,
        fails: Fails,
        room: usize,
        net: &mut MemListener,
    ) -> Result<Text, Memory> {
        let words = words_of(alloc, words)?;
        let mut files = files_of(alloc, &mut self.disk, fails)?;
        let mut input = input_of(alloc, input, piece, fails)?;
        let mut output = output_of(alloc, room, fails)?;
        let disk = MemDisk::new(alloc, &[], &[fails.disk], u64::MAX)?;
        let mut stores = MemStores::new(alloc, "journal", disk)?;
        let mut told = MemSink::new(alloc, ROOM, &[])?;
        let status = run(
            self.rt,
            alloc,
            words.as_slice(),
            &mut files,
            &mut stores,
            &mut input,
            &mut output,
            net,
            &mut told,
        );
        let mut text = Text::new(alloc);
        text.push(b'0'.saturating_add(status))?;
        text.push(b' ')?;
        text.extend(output.as_slice())?;
        Ok(text)
    }

    /// One run to which no link comes.
    fn ran_alone(
        &mut self,
        alloc: Global,
        words: &[u8],
        input: &[u8],
        piece: usize,
        fails: Fails,
        room: usize,
    ) -> Result<Text, Memory> {
        let mut net = net_of(alloc, b"", piece, fails)?;
        self.ran(alloc, words, input, piece, fails, room, &mut net)
    }
}

impl<'r, R: Threads + Wait + Clock + Sync, F: Files> World<'r, R, F> {
    /// Given words, an input, and what fails or how much room there is. Where nothing fails, the input comes byte by byte too.
    fn run_whole(&mut self, alloc: Global, given: &[Vec<u8>]) -> Result<Text, Memory> {
        let [words, input, failing] = given else {
            return Text::from_slice(alloc, b"three fields");
        };
        let words = words.as_slice();
        let bytes = input_bytes(alloc, &mut self.disk, input.as_slice())?;
        let bytes = bytes.as_slice();
        let fails = fails_of(failing.as_slice());
        let room = room_of(failing.as_slice());
        let whole = self.ran_alone(alloc, words, bytes, 400, fails, room)?;
        if failing.is_empty() {
            let single = self.ran_alone(alloc, words, bytes, 1, fails, room)?;
            if single.as_slice() != whole.as_slice() {
                return Text::from_slice(alloc, b"another answer byte by byte");
            }
        }
        Ok(whole)
    }
}

impl<'r, R: Threads + Wait + Clock + Sync, F: Files> World<'r, R, F> {
    /// Given words alone: the status, and what is written.
    fn run_words(&mut self, alloc: Global, given: &[Vec<u8>]) -> Result<Text, Memory> {
        match given {
            [words] => self.ran_alone(alloc, words.as_slice(), b"", 400, NONE, ROOM),
            _ => Text::from_slice(alloc, b"one field"),
        }
    }
}

impl<'r, R: Threads + Wait + Clock + Sync, F: Files> World<'r, R, F> {
    /// Given words and an input, each byte of which is one read: what all runs answer of which one read fails, one run for each
    /// read.
    fn run_every_read(&mut self, alloc: Global, given: &[Vec<u8>]) -> Result<Text, Memory> {
        let [words, input] = given else {
            return Text::from_slice(alloc, b"two fields");
        };
        let bytes = input_bytes(alloc, &mut self.disk, input.as_slice())?;
        let mut answer = Text::new(alloc);
        for at in 0..bytes.len() {
            let mut fails = NONE;
            fails.read = (at as u64).saturating_add(1);
            let words = words.as_slice();
            let one = self.ran_alone(alloc, words, bytes.as_slice(), 1, fails, ROOM)?;
            if at == 0 {
                answer = one;
            } else if one.as_slice() != answer.as_slice() {
                return Ok(one);
            }
        }
        Ok(answer)
    }
}

/// Whether a text stands in bytes; `.` stands in all.
fn has(bytes: &[u8], text: &[u8]) -> bool {
    if text == b".".as_slice() {
        return true;
    }
    let mut rest = bytes;
    for _ in 0..bytes.len() {
        if rest.starts_with(text) {
            return true;
        }
        rest = rest.get(1..).unwrap_or(b"");
    }
    rest.starts_with(text)
}

/// Whether the links that were given back, and no others, have these texts, in their order.
fn are_back(alloc: Global, net: &mut MemListener, texts: &[u8]) -> Result<bool, Memory> {
    let mut wanted: Vec<&[u8]> = Vec::new(alloc);
    if !texts.is_empty() {
        for text in texts.split(|b| *b == b'|') {
            wanted.push(text)?;
        }
    }
    for text in wanted.as_slice().iter().rev() {
        match net.take_back() {
            Some(link) if has(link.handed_on(), text) => {}
            _ => return Ok(false),
        }
    }
    Ok(net.take_back().is_none())
}

impl<'r, R: Threads + Wait + Clock + Sync, F: Files> World<'r, R, F> {
    /// Given words, the bytes of the links that come, with `|` between, what fails, and for each link that is to be given back a text,
    /// with `|` between, that is to stand in what was written on it: the run's answer, if just these are given back.
    fn run_linked(&mut self, alloc: Global, given: &[Vec<u8>]) -> Result<Text, Memory> {
        let [words, links, failing, texts] = given else {
            return Text::from_slice(alloc, b"four fields");
        };
        let fails = fails_of(failing.as_slice());
        let room = room_of(failing.as_slice());
        let mut net = net_of(alloc, links.as_slice(), 400, fails)?;
        let answer = self.ran(alloc, words.as_slice(), b"", 400, fails, room, &mut net)?;
        if are_back(alloc, &mut net, texts.as_slice())? {
            Ok(answer)
        } else {
            Text::from_slice(alloc, b"other links are given back")
        }
    }
}

/// What a table gives in each case.
#[derive(Clone, Copy)]
pub(crate) enum Kind {
    Runs,
    Words,
    EveryRead,
    Linked,
}

impl<'r, R: Threads + Wait + Clock + Sync, F: Files> World<'r, R, F> {
    /// The answers of cases of a kind.
    pub(crate) fn answers(
        &mut self,
        alloc: Global,
        kind: Kind,
        rows: &[Vec<Vec<u8>>],
    ) -> Result<Vec<Text>, Memory> {
        let mut answers = Vec::new(alloc);
        for row in rows {
            let given = row.as_slice();
            answers.push(match kind {
                Kind::Runs => self.run_whole(alloc, given)?,
                Kind::Words => self.run_words(alloc, given)?,
                Kind::EveryRead => self.run_every_read(alloc, given)?,
                Kind::Linked => self.run_linked(alloc, given)?,
            })?;
        }
        Ok(answers)
    }
}
