//! The system's ends, and a desk with workers, without a server around them: the standard input and output, files, files as
//! disks, and links over TCP on this machine; a disk in memory that is opened by its name; two seats of a desk, with a store beside its
//! table and without one, a worker that leaves, and a bell that nobody hears.
//!
//! The output is a line for each subject, which says what was seen there, or else why nothing was. It comes from the rules (`docs/rules/`)
//! and from what the program itself wrote, sent or put there before; [`StdSink`] writes it. Files stand in the system's temporary folder,
//! and are removed.
#![tactic(auto)]

mod files;
mod links;
mod seats;
mod stores;
mod streams;
mod telling;
mod threads;
mod working;

use os_io::{Failed, StdSink, send_all};
use std::io::{self, ErrorKind};
use telling::Lines;

fn main(rt: HostRuntime) -> io::Result<()> {
    let mut lines = Lines::new(rt.alloc());
    streams::tell(&rt, &mut lines)?;
    files::tell(&rt, &mut lines)?;
    stores::tell(rt.alloc(), &mut lines)?;
    links::tell(&rt, rt.alloc(), &mut lines)?;
    seats::tell(&rt, rt.alloc(), &mut lines)?;
    working::tell(&rt, rt.alloc(), &mut lines)?;
    match send_all(&mut StdSink::new(rt.stdout()), lines.as_bytes()) {
        Ok(()) => Ok(()),
        Err(Failed) => Err(io::Error::from(ErrorKind::BrokenPipe)),
    }
}
