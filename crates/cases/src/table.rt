//! Tables, line by line.

use crate::escapes::{put_escaped, read_escaped};
use os_io::{FileFault, Files, MOST_BYTES, Memory, Text};
use std::alloc::Global;
use std::io::{self, Write};

/// What answers cases.
pub trait Answers {
    /// The answer where this is given, as a text.
    fn answer(&mut self, alloc: Global, given: &[Vec<u8>]) -> Result<Text, Memory>;
}

/// The fields of a line, if their escapes are whole.
fn fields_of(alloc: Global, line: &[u8]) -> Result<Option<Vec<Vec<u8>>>, Memory> {
    let mut fields = Vec::new(alloc);
    for field in line.split(|b| *b == b'\t') {
        match read_escaped(alloc, field)? {
            Some(bytes) => fields.push(bytes)?,
            None => return Ok(None),
        }
    }
    Ok(Some(fields))
}

/// What is told of an answer that is another.
fn other_answer(alloc: Global, answer: &[u8], wanted: &[u8]) -> Result<Text, Memory> {
    let mut text = Text::from_slice(alloc, b"answers `")?;
    put_escaped(answer, &mut text)?;
    text.extend(b"`, not `")?;
    put_escaped(wanted, &mut text)?;
    text.push(b'`')?;
    Ok(text)
}

/// What is told of a case, if its answer is another or it is none.
fn fault_of<A: Answers>(
    alloc: Global,
    line: &[u8],
    answers: &mut A,
) -> Result<Option<Text>, Memory> {
    if let Some(fields) = fields_of(alloc, line)? {
        if let Some((wanted, given)) = fields.as_slice().split_last() {
            if !given.is_empty() {
                let answer = answers.answer(alloc, given)?;
                if answer.as_slice() == wanted.as_slice() {
                    return Ok(None);
                }
                return Ok(Some(other_answer(alloc, answer.as_slice(), wanted.as_slice())?));
            }
        }
    }
    Ok(Some(Text::from_slice(alloc, b"is no case")?))
}

/// Writes the line of a fault.
fn tell<W: Write>(name: &str, at: u64, fault: &[u8], output: &mut W) -> io::Result<()> {
    write!(output, "{name} {at}: ")?;
    output.write_all(fault)?;
    output.write_all(b"\n")
}

/// Answers each case of a table, writes a line for each whose answer is another and for each line that is no case, and
/// returns how many cases were tried.
pub fn try_table<A: Answers, W: Write>(
    alloc: Global,
    name: &str,
    table: &[u8],
    answers: &mut A,
    output: &mut W,
) -> io::Result<u64> {
    let mut at: u64 = 0;
    let mut count: u64 = 0;
    for line in table.split(|b| *b == b'\n') {
        at = at.saturating_add(1);
        if line.is_empty() || line.starts_with(b"#") {
            continue;
        }
        count = count.saturating_add(1);
        if let Some(fault) = fault_of(alloc, line, answers)? {
            tell(name, at, fault.as_slice(), output)?;
        }
    }
    Ok(count)
}

/// The same of the table in a file. A file that can't be read has no case, and its line says so.
pub fn try_file<A: Answers, F: Files, W: Write>(
    alloc: Global,
    name: &str,
    files: &mut F,
    answers: &mut A,
    output: &mut W,
) -> io::Result<u64> {
    match files.read_all(alloc, name, MOST_BYTES) {
        Ok(table) => try_table(alloc, name, table.as_slice(), answers, output),
        Err(FileFault::Failed) => {
            tell(name, 0, b"can't be read", output)?;
            Ok(0)
        }
        Err(FileFault::Memory) => {
            tell(name, 0, b"has no memory", output)?;
            Ok(0)
        }
    }
}
