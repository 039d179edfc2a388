//! Bytes as texts of printable characters.

use os_io::{Memory, Text};
use std::alloc::Global;

/// Where a text that is read stands.
#[derive(Clone, Copy)]
enum At {
    Plain,
    /// Behind a `\`.
    Escape,
    /// Behind `\x`.
    High,
    /// Behind its first digit, of this value.
    Low(u8),
}

/// What follows a byte.
enum Step {
    Goes(At),
    Gives(u8),
    Fails,
}

/// The value of a hexadecimal digit.
fn digit_of(b: u8) -> Option<u8> {
    match b {
        b'0'..=b'9' => Some(b - b'0'),
        b'a'..=b'f' => Some(b - b'a' + 10),
        b'A'..=b'F' => Some(b - b'A' + 10),
        _ => None,
    }
}

fn escape_of(b: u8) -> Step {
    match b {
        b'n' => Step::Gives(b'\n'),
        b'r' => Step::Gives(b'\r'),
        b't' => Step::Gives(b'\t'),
        b'\\' => Step::Gives(b'\\'),
        b'x' => Step::Goes(At::High),
        _ => Step::Fails,
    }
}

fn next_of(at: At, b: u8) -> Step {
    match (at, digit_of(b)) {
        (At::Plain, _) => {
            if b == b'\\' {
                Step::Goes(At::Escape)
            } else {
                Step::Gives(b)
            }
        }
        (At::Escape, _) => escape_of(b),
        (At::High, Some(digit)) => Step::Goes(At::Low(digit)),
        (At::Low(high), Some(digit)) => Step::Gives((high << 4) | digit),
        _ => Step::Fails,
    }
}

/// The bytes that a text stands for, if its escapes are whole.
pub(crate) fn read_escaped(alloc: Global, text: &[u8]) -> Result<Option<Vec<u8>>, Memory> {
    let mut bytes = Vec::new(alloc);
    let mut at = At::Plain;
    for b in text {
        match next_of(at, *b) {
            Step::Goes(next) => at = next,
            Step::Gives(byte) => {
                bytes.push(byte)?;
                at = At::Plain;
            }
            Step::Fails => return Ok(None),
        }
    }
    match at {
        At::Plain => Ok(Some(bytes)),
        _ => Ok(None),
    }
}

/// A digit of a value below 16.
fn digit_text(value: u8) -> u8 {
    if value < 10 {
        b'0' + value
    } else {
        b'a' + (value & 15).saturating_sub(10)
    }
}

/// Adds the text that stands for these bytes.
pub(crate) fn put_escaped(bytes: &[u8], text: &mut Text) -> Result<(), Memory> {
    for b in bytes {
        match *b {
            b'\n' => text.extend(b"\\n")?,
            b'\r' => text.extend(b"\\r")?,
            b'\t' => text.extend(b"\\t")?,
            b'\\' => text.extend(b"\\\\")?,
            b' '..=b'~' => text.push(*b)?,
            _ => {
                text.extend(b"\\x")?;
                text.push(digit_text(*b >> 4))?;
                text.push(digit_text(*b & 15))?;
            }
        }
    }
    Ok(())
}
