//! Documents that are read, to be timed and to be compared: `bench/documents.sh` runs it beside other parsers, and
//! `tools/xml_verdicts.sh` compares its verdicts with another's.
//!
//! The input is one document. It is read piece by piece and kept nowhere, or, with the word `tree`, as a whole into a tree.
//! The answer is one line: `accepted`, or `refused` with the reason and its place.
#![tactic(auto)]

mod unheard;

use doc_tree::{Events, TreeFault, read};
use os_io::MOST_BYTES;
use std::alloc::Global;
use std::env;
use std::io::{self, Read};
use unheard::Unheard;

/// How many bytes are asked for at once.
const PIECE: usize = 65_536;

/// All the bytes of the input, or the first of them, one more than a document may have.
fn input_of(alloc: Global, input: &mut impl Read) -> io::Result<Vec<u8>> {
    let mut bytes = Vec::new(alloc);
    input.take(MOST_BYTES + 1).read_to_end(&mut bytes)?;
    Ok(bytes)
}

/// Reads the input as a whole into a tree.
fn gathered(alloc: Global, input: &mut impl Read) -> io::Result<Result<(), TreeFault>> {
    let bytes = input_of(alloc, input)?;
    Ok(match read(alloc, bytes.as_slice(), MOST_BYTES) {
        Ok(_) => Ok(()),
        Err(fault) => Err(fault),
    })
}

/// Reads the input piece by piece. Each has a byte at least, so that a document is at its end, or too long, behind so many.
fn heard(alloc: Global, input: &mut impl Read) -> io::Result<Result<(), TreeFault>> {
    let mut events = Events::new(alloc, MOST_BYTES, Unheard);
    let mut room = [0; PIECE];
    for _ in 0..=MOST_BYTES {
        let count = input.read(&mut room)?;
        if count == 0 {
            break;
        }
        if let Err(fault) = events.feed(&room[..count]) {
            return Ok(Err(fault));
        }
    }
    Ok(match events.finish() {
        Ok(_) => Ok(()),
        Err(fault) => Err(fault),
    })
}

fn tell_fault<R: Print>(rt: &R, fault: TreeFault) -> io::Result<()> {
    match fault {
        TreeFault::Memory => println!(rt; "refused for want of memory"),
        _ => println!(rt; "refused {fault}"),
    }
}

fn main(rt: HostRuntime) -> io::Result<()> {
    let answer = if env::args(&rt)?.len() > 1 {
        gathered(rt.alloc(), &mut rt.stdin())?
    } else {
        heard(rt.alloc(), &mut rt.stdin())?
    };
    match answer {
        Ok(()) => println!(rt; "accepted"),
        Err(fault) => tell_fault(&rt, fault),
    }
}
