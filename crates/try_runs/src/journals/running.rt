//! Runs over a journal, and what is told of them.

use super::replies::{put_returned, requests_of};
use super::shelf::Shelf;
use crate::faults::put_group;
use crate::words::{behind, words_of};
use cases::number_of;
use memory_disks::MemDisk;
use memory_ends::{MemFiles, MemListener, MemSink, MemSource};
use os_app::run;
use os_io::{Memory, Text};
use std::alloc::Global;
use std::sync::Wait;
use std::thread::Threads;
use std::time::Clock;

/// Room for all that a run writes.
const ROOM: usize = 20_000;

/// More calls of a disk than any session here makes.
const MOST: u64 = 1_000;

/// What a run came to: its status, and what it wrote.
#[derive(Drop)]
struct Came {
    status: u8,
    output: Text,
}

/// Bytes as hexadecimal digits.
fn put_hex(text: &mut Text, bytes: &[u8]) -> Result<(), Memory> {
    const DIGITS: [u8; 16] = *b"0123456789abcdef";
    for byte in bytes {
        text.push(DIGITS[(*byte / 16) as usize])?;
        text.push(DIGITS[(*byte % 16) as usize])?;
    }
    Ok(())
}

/// What a disk has that was given back, if one was.
fn put_back(text: &mut Text, disk: &Option<MemDisk>) -> Result<(), Memory> {
    text.extend(b"; ")?;
    match disk {
        Some(disk) if disk.as_slice().is_empty() => text.extend(b"empty"),
        Some(disk) => put_hex(text, disk.as_slice()),
        None => text.extend(b"none"),
    }
}

/// A file with these bytes, of which one call fails; none where they are `-`.
fn file_of(alloc: Global, bytes: &[u8], fails: u64) -> Result<Option<MemDisk>, Memory> {
    if bytes == b"-".as_slice() {
        return Ok(None);
    }
    Ok(Some(MemDisk::new(alloc, bytes, &[fails], u64::MAX)?))
}

/// Which call of the disk of this name fails, counted from 1; none where it is 0.
fn fails_of(failing: &[u8], name: &[u8]) -> u64 {
    match behind(failing, name) {
        Some(number) => number_of(number),
        None => 0,
    }
}

/// What a table gives in each case.
#[derive(Clone, Copy)]
pub(crate) enum Kind {
    Session,
    Stops,
    Copy,
}

/// Whoever runs the program over journals.
#[derive(Drop)]
pub(crate) struct Keeper<'r, R> {
    rt: &'r R,
}

impl<'r, R: Threads + Wait + Clock + Sync> Keeper<'r, R> {
    pub(crate) fn new(rt: &'r R) -> Self {
        Keeper { rt }
    }

    /// One run of these words over these disks.
    fn ran(
        &mut self,
        alloc: Global,
        words: &[u8],
        input: &[u8],
        shelf: &mut Shelf,
    ) -> Result<Came, Memory> {
        let words = words_of(alloc, words)?;
        let mut files = MemFiles::new(alloc, &[])?;
        let mut input = MemSource::new(alloc, input, 400, &[])?;
        let mut output = MemSink::new(alloc, ROOM, &[])?;
        let mut net = MemListener::new(alloc, &[])?;
        let mut told = MemSink::new(alloc, ROOM, &[])?;
        let status = run(
            self.rt,
            alloc,
            words.as_slice(),
            &mut files,
            shelf,
            &mut input,
            &mut output,
            &mut net,
            &mut told,
        );
        let output = Text::from_slice(alloc, output.as_slice())?;
        Ok(Came { status, output })
    }

    /// One session with these requests: its status, and what is returned; or what is written, where there are no requests.
    fn session(&mut self, alloc: Global, bodies: &[u8], shelf: &mut Shelf) -> Result<Text, Memory> {
        let requests = requests_of(alloc, bodies)?;
        let words = b"os_app|session|--journal|old";
        let came = self.ran(alloc, words, requests.as_slice(), shelf)?;
        let mut text = Text::new(alloc);
        text.push(b'0'.saturating_add(came.status))?;
        if bodies.is_empty() {
            text.push(b' ')?;
            text.extend(came.output.as_slice())?;
        } else {
            put_returned(&mut text, came.output.as_slice())?;
        }
        Ok(text)
    }
}

impl<'r, R: Threads + Wait + Clock + Sync> Keeper<'r, R> {
    /// Given the file's bytes, what is in the bodies of requests, and which call of the disk fails: what the session comes to, and the
    /// file's bytes then.
    fn kept(&mut self, alloc: Global, given: &[Vec<u8>]) -> Result<Text, Memory> {
        let [file, bodies, fails] = given else {
            return Text::from_slice(alloc, b"three fields");
        };
        let disk = file_of(alloc, file.as_slice(), number_of(fails.as_slice()))?;
        let mut shelf = Shelf::new(alloc, disk, None);
        let mut text = self.session(alloc, bodies.as_slice(), &mut shelf)?;
        put_back(&mut text, &shelf.first_back)?;
        Ok(text)
    }
}

impl<'r, R: Threads + Wait + Clock + Sync> Keeper<'r, R> {
    /// What a session on a new file comes to of which the disk makes no call from this one on, and what the next one on what is left
    /// then; and whether all calls were made.
    fn stopped(
        &mut self,
        alloc: Global,
        bodies: &[u8],
        next: &[u8],
        stop: u64,
    ) -> Result<(Text, bool), Memory> {
        let disk = MemDisk::new(alloc, &[], &[], stop)?;
        let mut shelf = Shelf::new(alloc, Some(disk), None);
        let mut text = self.session(alloc, bodies, &mut shelf)?;
        let Some(left) = &shelf.first_back else {
            return Ok((text, true));
        };
        let again = MemDisk::new(alloc, left.as_slice(), &[], u64::MAX)?;
        let mut again = Shelf::new(alloc, Some(again), None);
        text.extend(b" -> ")?;
        text.extend(self.session(alloc, next, &mut again)?.as_slice())?;
        Ok((text, left.faults() == 0))
    }

    /// Given what is in the bodies of the requests of two sessions: what both come to where the disk stops at the first call of the
    /// first one, at the second call, and so on until it doesn't stop. Calls behind which the same stands are told together.
    fn stops(&mut self, alloc: Global, given: &[Vec<u8>]) -> Result<Text, Memory> {
        let [bodies, next] = given else {
            return Text::from_slice(alloc, b"two fields");
        };
        let mut list = Text::new(alloc);
        let mut group = Text::new(alloc);
        let mut first = 1;
        for stop in 1..=MOST {
            let (text, is_whole) = self.stopped(alloc, bodies.as_slice(), next.as_slice(), stop)?;
            if stop > 1 && text.as_slice() != group.as_slice() {
                let last = stop.saturating_sub(1);
                put_group(alloc, &mut list, first, last, group.as_slice())?;
                first = stop;
            }
            group = text;
            if is_whole {
                put_group(alloc, &mut list, first, stop, group.as_slice())?;
                return Ok(list);
            }
        }
        Text::from_slice(alloc, b"more calls")
    }
}

impl<'r, R: Threads + Wait + Clock + Sync> Keeper<'r, R> {
    /// Given words, the bytes of the files `old` and `new`, and which call of one of them fails, as `old 2`: the status, what is written,
    /// and what those have that were given back, in order.
    fn copied(&mut self, alloc: Global, given: &[Vec<u8>]) -> Result<Text, Memory> {
        let [words, old, new, failing] = given else {
            return Text::from_slice(alloc, b"four fields");
        };
        let failing = failing.as_slice();
        let old = file_of(alloc, old.as_slice(), fails_of(failing, b"old "))?;
        let new = file_of(alloc, new.as_slice(), fails_of(failing, b"new "))?;
        let mut shelf = Shelf::new(alloc, old, new);
        let came = self.ran(alloc, words.as_slice(), b"", &mut shelf)?;
        let mut text = Text::new(alloc);
        text.push(b'0'.saturating_add(came.status))?;
        text.push(b' ')?;
        text.extend(came.output.as_slice())?;
        put_back(&mut text, &shelf.first_back)?;
        put_back(&mut text, &shelf.second_back)?;
        Ok(text)
    }

    /// The answers of cases of a kind.
    pub(crate) fn answers(
        &mut self,
        alloc: Global,
        kind: Kind,
        rows: &[Vec<Vec<u8>>],
    ) -> Result<Vec<Text>, Memory> {
        let mut answers = Vec::new(alloc);
        for row in rows {
            let given = row.as_slice();
            answers.push(match kind {
                Kind::Session => self.kept(alloc, given)?,
                Kind::Stops => self.stops(alloc, given)?,
                Kind::Copy => self.copied(alloc, given)?,
            })?;
        }
        Ok(answers)
    }
}
