//! Runs over files, an input, an output and links in memory, each byte of which is one read.

use super::calls::{Fails, Given, Kind};
use crate::words::words_of;
use cases::bytes_of;
use memory_disks::{MemDisk, MemStores};
use memory_ends::{MemFiles, MemLink, MemListener, MemSink, MemSource};
use os_app::run;
use os_io::{Files, Memory, Text};
use std::alloc::Global;
use std::sync::Wait;
use std::thread::Threads;
use std::time::Clock;

/// Room for all that a run writes on its output, or on a link.
const ROOM: usize = 9_000;

/// The files that a run finds.
const NAMES: [&str; 3] = ["halves.osil", "two.osrl", "empty"];

/// What a run came to: its status, whose count of faults rose, what it wrote, and how many bytes were handed on of each link that was
/// given back, the last one first.
#[derive(Drop)]
pub(crate) struct Came {
    pub status: u8,
    pub rose: &'static str,
    pub output: Text,
    pub back: Text,
}

/// The files of a run, read from the disk.
fn files_of<F: Files>(alloc: Global, disk: &mut F, fails: Fails) -> Result<MemFiles, Memory> {
    let mut files = MemFiles::new(alloc, &[fails.of(Kind::File)])?;
    for name in NAMES {
        let bytes = bytes_of(alloc, disk, name.as_bytes())?;
        files.put(alloc, name, bytes.as_slice())?;
    }
    Ok(files)
}

/// A listener to which the links come.
fn net_of(alloc: Global, links: &[u8], fails: Fails) -> Result<MemListener, Memory> {
    let mut net = MemListener::new(alloc, &[fails.of(Kind::Net)])?;
    if !links.is_empty() {
        for bytes in links.split(|b| *b == b'|') {
            net.add(MemLink::new(alloc, bytes, 1, ROOM, &[fails.of(Kind::Link)])?)?;
        }
    }
    Ok(net)
}

/// How many bytes were handed on of each link that was given back, and whose count of faults rose, if one of them did.
fn links_back(alloc: Global, net: &mut MemListener) -> Result<(Text, &'static str), Memory> {
    let mut back = Text::new(alloc);
    let mut rose = "none";
    for _ in 0..u64::MAX {
        let Some(link) = net.take_back() else {
            break;
        };
        let count = link.handed_on().len();
        back.extend(format!(in alloc; " {count}")?.as_str().as_bytes())?;
        if link.read_faults() > 0 {
            rose = "link reads";
        } else if link.write_faults() > 0 {
            rose = "link writes";
        }
    }
    Ok((back, rose))
}

/// What runs go over, each with files of its own: the system's threads, and the disk.
#[derive(Drop)]
pub(crate) struct World<'r, R, F> {
    rt: &'r R,
    disk: F,
}

impl<'r, R: Threads + Wait + Clock + Sync, F: Files> World<'r, R, F> {
    pub(crate) fn new(rt: &'r R, disk: F) -> Self {
        World { rt, disk }
    }

    /// What a run comes to of which that call fails.
    pub(crate) fn ran(
        &mut self,
        alloc: Global,
        given: Given<'_>,
        fails: Fails,
    ) -> Result<Came, Memory> {
        let words = words_of(alloc, given.words)?;
        let mut files = files_of(alloc, &mut self.disk, fails)?;
        let mut input = MemSource::new(alloc, given.input, 1, &[fails.of(Kind::Read)])?;
        let mut output = MemSink::new(alloc, ROOM, &[fails.of(Kind::Write)])?;
        let mut net = net_of(alloc, given.links, fails)?;
        let disk = MemDisk::new(alloc, &[], &[], u64::MAX)?;
        let mut stores = MemStores::new(alloc, "journal", disk)?;
        let mut told = MemSink::new(alloc, ROOM, &[])?;
        let status = run(
            self.rt,
            alloc,
            words.as_slice(),
            &mut files,
            &mut stores,
            &mut input,
            &mut output,
            &mut net,
            &mut told,
        );
        let (back, of_links) = links_back(alloc, &mut net)?;
        let rose = if files.faults() > 0 {
            "files"
        } else if input.faults() > 0 {
            "input"
        } else if output.faults() > 0 {
            "output"
        } else if net.faults() > 0 {
            "net"
        } else {
            of_links
        };
        let output = Text::from_slice(alloc, output.as_slice())?;
        Ok(Came {
            status,
            rose,
            output,
            back,
        })
    }
}
