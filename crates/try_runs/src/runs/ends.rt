//! The ends of a run: files, an input, an output and links in memory, one call of which may fail.

use cases::bytes_of;
use memory_ends::{MemFiles, MemLink, MemListener, MemSink, MemSource};
use os_io::{Files, Memory};
use std::alloc::Global;

/// Room for all that a run writes on its output, or on a link.
pub(crate) const ROOM: usize = 9_000;

/// The files that a run finds.
const NAMES: [&str; 8] = [
    "halves.osil",
    "two.osrl",
    "three.osrl",
    "silent.osrl",
    "wide.osrl",
    "handed.osol",
    "handed_twice.osol",
    "empty",
];

/// Which call fails, counted from 1 for each kind of call; none where it is 0.
#[derive(Clone, Copy)]
pub(crate) struct Fails {
    pub file: u64,
    pub read: u64,
    pub write: u64,
    pub net: u64,
    pub link: u64,
    pub disk: u64,
}

/// The files of a run, read from the disk.
pub(crate) fn files_of<F: Files>(
    alloc: Global,
    disk: &mut F,
    fails: Fails,
) -> Result<MemFiles, Memory> {
    let mut files = MemFiles::new(alloc, &[fails.file])?;
    for name in NAMES {
        let bytes = bytes_of(alloc, disk, name.as_bytes())?;
        files.put(alloc, name, bytes.as_slice())?;
    }
    Ok(files)
}

/// An input that gives pieces of so many bytes at most.
pub(crate) fn input_of(
    alloc: Global,
    bytes: &[u8],
    piece: usize,
    fails: Fails,
) -> Result<MemSource, Memory> {
    MemSource::new(alloc, bytes, piece, &[fails.read])
}

/// An output with room for so many bytes.
pub(crate) fn output_of(alloc: Global, room: usize, fails: Fails) -> Result<MemSink, Memory> {
    MemSink::new(alloc, room, &[fails.write])
}

/// A listener to which links come that give the bytes between `|`, in pieces of so many at most; none where there are no bytes.
pub(crate) fn net_of(
    alloc: Global,
    links: &[u8],
    piece: usize,
    fails: Fails,
) -> Result<MemListener, Memory> {
    let mut net = MemListener::new(alloc, &[fails.net])?;
    if !links.is_empty() {
        for bytes in links.split(|b| *b == b'|') {
            net.add(MemLink::new(alloc, bytes, piece, ROOM, &[fails.link])?)?;
        }
    }
    Ok(net)
}
