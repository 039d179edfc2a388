//! Jobs, solved and checked by the program.

use memory_disks::{MemDisk, MemStores};
use memory_ends::{MemFiles, MemListener, MemSink, MemSource};
use os_app::run;
use os_io::{Memory, Text};
use std::alloc::Global;
use std::sync::Wait;
use std::thread::Threads;
use std::time::Clock;

/// Room for each whole answer.
const ROOM: usize = 20_000;

/// What is written of a job, and said of it.
#[derive(Drop)]
pub(crate) struct Solved {
    pub status: u8,
    pub document: Text,
    pub verdict: u8,
    pub line: Text,
}

/// The words of a call.
fn words_of(alloc: Global, words: &[&str]) -> Result<Vec<String>, Memory> {
    let mut list = Vec::new(alloc);
    for word in words {
        list.push(word.to_string(alloc)?)?;
    }
    Ok(list)
}

/// A run of these words over these files: its status, and what it wrote.
fn ran<R: Threads + Wait + Clock + Sync>(
    rt: &R,
    alloc: Global,
    words: &[&str],
    files: &mut MemFiles,
) -> Result<(u8, Text), Memory> {
    let words = words_of(alloc, words)?;
    let mut input = MemSource::new(alloc, b"", 1, &[])?;
    let mut output = MemSink::new(alloc, ROOM, &[])?;
    let mut net = MemListener::new(alloc, &[])?;
    let mut told = MemSink::new(alloc, ROOM, &[])?;
    let disk = MemDisk::new(alloc, &[], &[], u64::MAX)?;
    let mut stores = MemStores::new(alloc, "journal", disk)?;
    let status = run(
        rt,
        alloc,
        words.as_slice(),
        files,
        &mut stores,
        &mut input,
        &mut output,
        &mut net,
        &mut told,
    );
    Ok((status, Text::from_slice(alloc, output.as_slice())?))
}

/// A digit.
pub(crate) fn put_status(text: &mut Text, status: u8) -> Result<(), Memory> {
    text.push(b'0'.saturating_add(status))?;
    text.push(b' ')
}

/// The words by which a job is solved: whether options are named, and whether the safe limit of turns is asked for.
fn solving_words(
    alloc: Global,
    has_options: bool,
    is_safe: bool,
) -> Result<Vec<&'static str>, Memory> {
    let mut words = Vec::new(alloc);
    words.push("os_app")?;
    words.push("solve")?;
    words.push("a.osil")?;
    if has_options {
        words.push("--options")?;
        words.push("a.osol")?;
    }
    if is_safe {
        words.push("--safe")?;
    }
    Ok(words)
}

/// Solves a job, with the safe limit of turns or without, and checks what is written of it.
pub(crate) fn solve<R: Threads + Wait + Clock + Sync>(
    rt: &R,
    alloc: Global,
    osil: &[u8],
    osol: &[u8],
    is_safe: bool,
) -> Result<Solved, Memory> {
    let mut files = MemFiles::new(alloc, &[])?;
    files.put(alloc, "a.osil", osil)?;
    files.put(alloc, "a.osol", osol)?;
    let words = solving_words(alloc, !osol.is_empty(), is_safe)?;
    let (status, document) = ran(rt, alloc, words.as_slice(), &mut files)?;
    files.put(alloc, "a.osrl", document.as_slice())?;
    let words = ["os_app", "check", "a.osil", "a.osrl"];
    let (verdict, line) = ran(rt, alloc, &words, &mut files)?;
    Ok(Solved {
        status,
        document,
        verdict,
        line,
    })
}

/// Given the texts of an instance and of options, of which an empty one isn't named: the status of `solve`, that of `check` with
/// its line, and the document.
pub(crate) fn answer_job<R: Threads + Wait + Clock + Sync>(
    rt: &R,
    alloc: Global,
    given: &[Vec<u8>],
    is_safe: bool,
) -> Result<Text, Memory> {
    let [osil, osol] = given else {
        return Text::from_slice(alloc, b"two fields");
    };
    let solved = solve(rt, alloc, osil.as_slice(), osol.as_slice(), is_safe)?;
    let mut text = Text::new(alloc);
    put_status(&mut text, solved.status)?;
    put_status(&mut text, solved.verdict)?;
    text.extend(solved.line.as_slice())?;
    text.extend(solved.document.as_slice())?;
    Ok(text)
}

/// The items of a result document's values, none where it has none.
fn value_items(document: &str) -> &str {
    match document.split_once("os_cert.value\">") {
        Some((_, rest)) => match rest.split_once("</otherSolutionResult>") {
            Some((items, _)) => items,
            None => "",
        },
        None => "",
    }
}

/// Given the text of an instance: what the checker says of its result, and behind an optimum the values of its goals.
pub(crate) fn answer_program<R: Threads + Wait + Clock + Sync>(
    rt: &R,
    alloc: Global,
    given: &[Vec<u8>],
) -> Result<Text, Memory> {
    let [osil] = given else {
        return Text::from_slice(alloc, b"one field");
    };
    let solved = solve(rt, alloc, osil.as_slice(), b"", false)?;
    let mut text = Text::from_slice(alloc, solved.line.as_slice())?;
    if solved.line.as_slice() == b"accepted optimal\n".as_slice() {
        let document = str::from_utf8(solved.document.as_slice()).unwrap_or("");
        text.extend(value_items(document).as_bytes())?;
    }
    Ok(text)
}
