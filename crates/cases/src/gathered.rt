//! Cases that are gathered first and answered together, for whoever answers by what no trait can lend.
//!
//! [`gather`] takes what each case of a table gives, and [`compare`] goes through the table again, with an answer for each. A
//! run over threads is one that needs this: that a runtime is shared between threads is known where it is named, and not behind
//! [`Answers`].

use crate::table::{Answers, try_file};
use crate::tables::Tables;
use os_io::{Files, Memory, Text};
use std::alloc::Global;
use std::{fs, io};

/// Keeps what it is given.
#[derive(Drop)]
struct Gathered {
    rows: Vec<Vec<Vec<u8>>>,
}

impl Answers for Gathered {
    fn answer(&mut self, alloc: Global, given: &[Vec<u8>]) -> Result<Text, Memory> {
        let mut row = Vec::new(alloc);
        for field in given {
            row.push(Vec::from_slice(alloc, field.as_slice())?)?;
        }
        self.rows.push(row)?;
        Ok(Text::new(alloc))
    }
}

/// Has an answer for each case, in their order.
#[derive(Drop)]
struct Answered {
    answers: Vec<Text>,
    next: usize,
}

impl Answers for Answered {
    fn answer(&mut self, alloc: Global, _given: &[Vec<u8>]) -> Result<Text, Memory> {
        let at = self.next;
        self.next = at.saturating_add(1);
        match self.answers.as_slice().get(at) {
            Some(answer) => Text::from_slice(alloc, answer.as_slice()),
            None => Text::from_slice(alloc, b"no answer"),
        }
    }
}

/// What each case of the table in a file gives. Lines that are no cases are passed over.
pub fn gather<F: Files>(alloc: Global, name: &str, files: &mut F) -> io::Result<Vec<Vec<Vec<u8>>>> {
    let mut gathered = Gathered {
        rows: Vec::new(alloc),
    };
    let mut unread = Vec::new(alloc);
    try_file(alloc, name, files, &mut gathered, &mut unread)?;
    Ok(gathered.rows)
}

/// Goes through the table in the file of this name with these answers, and prints each that is another.
pub fn compare<R: fs::Files + Print + AllocGlobal>(
    tables: &mut Tables<'_, R>,
    name: &str,
    answers: Vec<Text>,
) -> io::Result<()> {
    let mut answered = Answered { answers, next: 0 };
    tables.try_file(name, &mut answered)
}
