//! Tables of cases for journals: what stands in a file after puts, which a crash or a failed call of the disk may cut short, and
//! what a file is opened as.
//!
//! The answers come from the rules (`docs/rules/journal.md`), by hand. The output is a line for each answer that is another, and
//! how many cases there are.
#![tactic(auto)]

mod effects_of;
mod jobs;
mod moves;
mod telling;

use cases::{Answers, Tables, number_of};
use effects_of::{answer_of, effect_of};
use job_journal::{CompactFault, Journal, compact, open_journal};
use job_table::Remade;
use jobs::{Any, NoNo, tell_jobs};
use memory_disks::MemDisk;
use moves::make_all;
use os_io::{Memory, Text};
use std::alloc::Global;
use std::io;
use telling::{put_hex, tell_fault};

/// Given a file and the calls of the disk that fail while it is opened; or effects, the calls that fail, and the call from which
/// on each fails.
#[derive(Drop)]
struct Journals;

/// The numbers of calls.
fn calls_of(alloc: Global, text: &[u8]) -> Result<Vec<u64>, Memory> {
    let mut calls = Vec::new(alloc);
    for digits in text.split(|b| *b == b' ') {
        calls.push(number_of(digits))?;
    }
    Ok(calls)
}

/// Puts effects, and tells what each put answers.
fn put_all(journal: &mut Journal<MemDisk>, effects: &[u8], text: &mut Text) -> Result<(), Memory> {
    for effect in effects.split(|b| *b == b';') {
        match effect_of(effect) {
            Some(effect) => text.extend(answer_of(journal.put(&effect)))?,
            None => text.extend(b"no effect ")?,
        }
    }
    Ok(())
}

/// What a file is opened as: the jobs, and the file then.
fn tell_opened(alloc: Global, file: &[u8], fails: &[u64], text: &mut Text) -> Result<(), Memory> {
    let disk = MemDisk::new(alloc, file, fails, u64::MAX)?;
    let mut table = Remade::<Any>::new(alloc);
    match open_journal(alloc, disk, &mut table, &mut NoNo) {
        Ok(journal) => {
            tell_jobs(&table.into_table(), text)?;
            text.extend(b"; ")?;
            put_hex(text, journal.into_disk().as_slice())
        }
        Err((fault, disk)) => {
            tell_fault(text, fault)?;
            text.extend(b"; ")?;
            put_hex(text, disk.as_slice())
        }
    }
}

/// What effects leave in a new file, and what it is opened as afterwards.
fn tell_puts(alloc: Global, effects: &[u8], fails: &[u64], stop: u64) -> Result<Text, Memory> {
    let mut text = Text::new(alloc);
    let disk = MemDisk::new(alloc, b"", fails, stop)?;
    let disk = match open_journal(alloc, disk, &mut Remade::<Any>::new(alloc), &mut NoNo) {
        Ok(journal) => {
            let mut journal = journal;
            put_all(&mut journal, effects, &mut text)?;
            journal.into_disk()
        }
        Err((fault, disk)) => {
            tell_fault(&mut text, fault)?;
            text.push(b' ')?;
            disk
        }
    };
    put_hex(&mut text, disk.as_slice())?;
    text.extend(b"; ")?;
    tell_opened(alloc, disk.as_slice(), &[], &mut text)?;
    Ok(text)
}

/// What moves leave in a new file and in their table, and what the file is opened as afterwards.
fn tell_moves(alloc: Global, moves: &[u8], fails: &[u64], stop: u64) -> Result<Text, Memory> {
    let mut text = Text::new(alloc);
    let disk = MemDisk::new(alloc, b"", fails, stop)?;
    let mut made = Remade::<Any>::new(alloc);
    let disk = match open_journal(alloc, disk, &mut made, &mut NoNo) {
        Ok(journal) => {
            let mut journal = journal;
            let mut table = made.into_table();
            make_all(alloc, &mut table, &mut journal, moves, &mut text)?;
            tell_jobs(&table, &mut text)?;
            journal.into_disk()
        }
        Err((fault, disk)) => {
            tell_fault(&mut text, fault)?;
            disk
        }
    };
    text.extend(b"; ")?;
    tell_opened(alloc, disk.as_slice(), &[], &mut text)?;
    Ok(text)
}

/// What the journal of these effects is written again as, into a file that has these bytes, and what that is opened as.
fn tell_compacted(alloc: Global, effects: &[u8], stop: u64, file: &[u8]) -> Result<Text, Memory> {
    let mut text = Text::new(alloc);
    let old = MemDisk::new(alloc, b"", &[], u64::MAX)?;
    let new = MemDisk::new(alloc, file, &[], stop)?;
    let mut old = match open_journal(alloc, old, &mut Remade::<Any>::new(alloc), &mut NoNo) {
        Ok(old) => old,
        Err(_) => return Text::from_slice(alloc, b"not begun"),
    };
    put_all(&mut old, effects, &mut text)?;
    let mut table = Remade::<Any>::new(alloc);
    let (ended, old, new) = compact(alloc, old.into_disk(), new, &mut table, &mut NoNo);
    match ended {
        Ok(()) => text.extend(b"written ")?,
        Err(CompactFault::Old(fault)) => tell_fault(&mut text, fault)?,
        Err(CompactFault::NewFault) => text.extend(b"new fault ")?,
        Err(CompactFault::Taken) => text.extend(b"taken ")?,
        Err(CompactFault::Long) => text.extend(b"long ")?,
    }
    put_hex(&mut text, new.as_slice())?;
    text.extend(b"; ")?;
    tell_opened(alloc, old.as_slice(), &[], &mut text)?;
    text.extend(b"; ")?;
    tell_opened(alloc, new.as_slice(), &[], &mut text)?;
    Ok(text)
}

/// The call from which on each fails, where there is one.
fn stop_of(text: &[u8]) -> u64 {
    match number_of(text) {
        0 => u64::MAX,
        call => call,
    }
}

/// Given effects, the call of the new disk from which on each fails, and what its file has.
#[derive(Drop)]
struct Compacted;

impl Answers for Compacted {
    fn answer(&mut self, alloc: Global, given: &[Vec<u8>]) -> Result<Text, Memory> {
        let [effects, stop, file] = given else {
            return Text::from_slice(alloc, b"three fields");
        };
        tell_compacted(
            alloc,
            effects.as_slice(),
            stop_of(stop.as_slice()),
            file.as_slice(),
        )
    }
}

/// Given moves, the calls of the disk that fail, and the call from which on each fails.
#[derive(Drop)]
struct Kept;

impl Answers for Kept {
    fn answer(&mut self, alloc: Global, given: &[Vec<u8>]) -> Result<Text, Memory> {
        let [moves, fails, stop] = given else {
            return Text::from_slice(alloc, b"three fields");
        };
        let fails = calls_of(alloc, fails.as_slice())?;
        tell_moves(
            alloc,
            moves.as_slice(),
            fails.as_slice(),
            stop_of(stop.as_slice()),
        )
    }
}

impl Answers for Journals {
    fn answer(&mut self, alloc: Global, given: &[Vec<u8>]) -> Result<Text, Memory> {
        match given {
            [file, fails] => {
                let mut text = Text::new(alloc);
                let fails = calls_of(alloc, fails.as_slice())?;
                tell_opened(alloc, file.as_slice(), fails.as_slice(), &mut text)?;
                Ok(text)
            }
            [effects, fails, stop] => {
                let fails = calls_of(alloc, fails.as_slice())?;
                tell_puts(
                    alloc,
                    effects.as_slice(),
                    fails.as_slice(),
                    stop_of(stop.as_slice()),
                )
            }
            _ => Text::from_slice(alloc, b"two fields or three"),
        }
    }
}

fn main(rt: HostRuntime) -> io::Result<()> {
    let mut tables = Tables::new(&rt);
    tables.try_file("files.txt", &mut Journals)?;
    tables.try_file("changed.txt", &mut Journals)?;
    tables.try_file("puts.txt", &mut Journals)?;
    tables.try_file("moves.txt", &mut Kept)?;
    tables.try_file("compact.txt", &mut Compacted)?;
    tables.tell_count()
}
