//! Runs of which one call after another fails, told as one text.

use super::calls::{Fails, Given, Kind};
use super::world::{Came, World};
use os_io::{Files, Memory, Text};
use std::alloc::Global;
use std::sync::Wait;
use std::thread::Threads;
use std::time::Clock;

/// More calls of a kind than any run here makes.
const MOST: u64 = 1_000;

/// What a run came to: whose count rose, its status, and what it wrote: how many bytes where they are the first ones that it writes
/// where nothing fails, and else the bytes; and the links that were given back.
fn told(alloc: Global, came: &Came, whole: &[u8]) -> Result<Text, Memory> {
    let Came {
        status,
        rose,
        output,
        back,
    } = came;
    let front = format!(in alloc; "{rose} {status}, ")?;
    let mut text = Text::from_slice(alloc, front.as_str().as_bytes())?;
    if whole.starts_with(output.as_slice()) {
        let count = output.len();
        text.extend(format!(in alloc; "{count} bytes")?.as_str().as_bytes())?;
    } else {
        text.extend(output.as_slice())?;
    }
    if !back.is_empty() {
        text.extend(b", back")?;
        text.extend(back.as_slice())?;
    }
    Ok(text)
}

/// Appends what runs came to of which these calls failed.
pub(crate) fn put_group(
    alloc: Global,
    list: &mut Text,
    first: u64,
    last: u64,
    told: &[u8],
) -> Result<(), Memory> {
    if !list.is_empty() {
        list.extend(b"; ")?;
    }
    let calls = if first == last {
        format!(in alloc; "{first}: ")?
    } else {
        format!(in alloc; "{first}-{last}: ")?
    };
    list.extend(calls.as_str().as_bytes())?;
    list.extend(told)
}

/// Goes through the calls of a kind.
#[derive(Drop)]
pub(crate) struct Listing<'r, R, F> {
    world: World<'r, R, F>,
}

impl<'r, R: Threads + Wait + Clock + Sync, F: Files> Listing<'r, R, F> {
    pub(crate) fn new(world: World<'r, R, F>) -> Self {
        Listing { world }
    }

    /// What the runs come to of which the first call of the kind fails, the second one, and so on until none fails. Calls behind
    /// which the same stands are told together.
    fn list(&mut self, alloc: Global, given: Given<'_>, kind: Kind) -> Result<Text, Memory> {
        let whole = self.world.ran(alloc, given, Fails { kind, at: 0 })?.output;
        let mut list = Text::new(alloc);
        let mut group = Text::new(alloc);
        let mut first = 1;
        for at in 1..=MOST {
            let came = self.world.ran(alloc, given, Fails { kind, at })?;
            let text = told(alloc, &came, whole.as_slice())?;
            if at > 1 && text.as_slice() != group.as_slice() {
                let last = at.saturating_sub(1);
                put_group(alloc, &mut list, first, last, group.as_slice())?;
                first = at;
            }
            group = text;
            if came.rose == "none" {
                put_group(alloc, &mut list, first, at, group.as_slice())?;
                return Ok(list);
            }
        }
        Text::from_slice(alloc, b"more calls")
    }

    /// Given a kind of call, words, an input, and the bytes of links.
    fn answer(&mut self, alloc: Global, given: &[Vec<u8>]) -> Result<Text, Memory> {
        let [kind, words, input, links] = given else {
            return Text::from_slice(alloc, b"four fields");
        };
        let Some(kind) = Kind::named(kind.as_slice()) else {
            return Text::from_slice(alloc, b"no such kind");
        };
        let given = Given {
            words: words.as_slice(),
            input: input.as_slice(),
            links: links.as_slice(),
        };
        self.list(alloc, given, kind)
    }

    /// The answers of cases.
    pub(crate) fn answers(
        &mut self,
        alloc: Global,
        rows: &[Vec<Vec<u8>>],
    ) -> Result<Vec<Text>, Memory> {
        let mut answers = Vec::new(alloc);
        for row in rows {
            answers.push(self.answer(alloc, row.as_slice())?)?;
        }
        Ok(answers)
    }
}
