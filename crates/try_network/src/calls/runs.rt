//! Runs of the command `call`, told as texts.

use super::replies::{put, put_number};
use memory_ends::{MemFiles, MemLink, MemListener, MemSink};
use os_client::{CallWords, make_call};
use os_io::{Memory, Text};
use soap_calls::CallKind;
use std::alloc::Global;

/// The room for what is written, on the link and on the output.
const ROOM: usize = 2000;

/// The names of the files with a call's parts, in the order in which they are read.
const NAMES: [&str; 3] = ["osil", "osol", "ospl"];

/// What a case gives: the call's name, the three files, what the link gives, and what fails.
#[derive(Clone, Copy)]
pub(crate) struct Given<'g> {
    pub name: &'g [u8],
    pub files: [&'g [u8]; 3],
    pub bytes: &'g [u8],
    pub fails: &'g [u8],
}

/// The number of the call that fails, where what fails is of this kind, and else 0, which no call has.
fn failing(fails: &[u8], kind: &[u8]) -> u64 {
    match fails.strip_prefix(kind) {
        Some([b' ', digit]) => u64::from(*digit & 15),
        _ => 0,
    }
}

/// The file's name, unless its field says that none is named.
fn named<'n>(field: &[u8], name: &'n str) -> Option<&'n str> {
    if field == b"-".as_slice() {
        None
    } else {
        Some(name)
    }
}

/// The files of a case: none where its field says so, or that it is named and isn't there.
fn files_of(alloc: Global, given: Given<'_>) -> Result<MemFiles, Memory> {
    let mut files = MemFiles::new(alloc, &[failing(given.fails, b"file")])?;
    for i in 0..3 {
        let field = given.files[i];
        if field != b"-".as_slice() && field != b"?".as_slice() {
            files.put(alloc, NAMES[i], field)?;
        }
    }
    Ok(files)
}

/// A net with one link that gives these bytes.
fn net_of(alloc: Global, given: Given<'_>) -> Result<MemListener, Memory> {
    let mut net = MemListener::new(alloc, &[failing(given.fails, b"connect")])?;
    let link_fails = [failing(given.fails, b"link")];
    let link = MemLink::new(alloc, given.bytes, 7, ROOM, &link_fails)?;
    net.add(link)?;
    Ok(net)
}

/// What was written on the link that was given back, its length alone where that is asked for, and its faults.
fn put_link(alloc: Global, text: &mut Text, net: &mut MemListener) -> Result<(), Memory> {
    match net.take_back() {
        Some(link) => {
            text.extend(b", asked ")?;
            put_number(alloc, text, link.handed_on().len() as u64)?;
            text.extend(b" of ")?;
            put_number(alloc, text, link.as_slice().len() as u64)?;
            text.extend(b", faults ")?;
            put_number(alloc, text, link.read_faults())?;
            text.extend(b" ")?;
            put_number(alloc, text, link.write_faults())
        }
        None => text.extend(b", no link"),
    }
}

/// The status of the run, what it wrote, how many bytes were handed on and written on the link that it gave back, and how often
/// the link, the net, the files and the output failed.
pub(crate) fn run_text(alloc: Global, given: Given<'_>) -> Result<Text, Memory> {
    let mut files = files_of(alloc, given)?;
    let mut net = net_of(alloc, given)?;
    let mut output = MemSink::new(alloc, ROOM, &[failing(given.fails, b"output")])?;
    let words = CallWords {
        kind: CallKind::named(given.name).unwrap_or(CallKind::Kill),
        host: "host",
        port: 80,
        osil: named(given.files[0], NAMES[0]),
        osol: named(given.files[1], NAMES[1]),
        ospl: named(given.files[2], NAMES[2]),
    };
    let status = make_call(alloc, words, &mut files, &mut output, &mut net);
    let mut text = Text::new(alloc);
    put_number(alloc, &mut text, u64::from(status))?;
    text.extend(b" ")?;
    put(&mut text, output.as_slice())?;
    put_link(alloc, &mut text, &mut net)?;
    text.extend(b"; net ")?;
    put_number(alloc, &mut text, net.faults())?;
    text.extend(b", files ")?;
    put_number(alloc, &mut text, files.faults())?;
    text.extend(b", output ")?;
    put_number(alloc, &mut text, output.faults())?;
    Ok(text)
}
