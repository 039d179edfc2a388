//! What the answers of many tables need: numbers and files that fields name, texts with many equal parts, and what is left.

use os_io::{FileFault, Files, MOST_BYTES, Memory, Source, Text};
use std::alloc::{AllocError, Global};

/// The number that these digits say, or else 0.
pub fn number_of(digits: &[u8]) -> u64 {
    match str::from_utf8(digits) {
        Ok(text) => text.parse().unwrap_or(0),
        Err(_) => 0,
    }
}

/// What begins so, has a part so often, and ends so.
pub fn repeated(
    alloc: Global,
    front: &[u8],
    part: &[u8],
    times: u64,
    back: &[u8],
) -> Result<Text, Memory> {
    let mut text = Text::from_slice(alloc, front)?;
    for _ in 0..times {
        text.extend(part)?;
    }
    text.extend(back)?;
    Ok(text)
}

/// The bytes of the file with this name, or the empty text where it can't be read.
pub fn bytes_of<F: Files>(alloc: Global, files: &mut F, name: &[u8]) -> Result<Text, Memory> {
    let Ok(name) = str::from_utf8(name) else {
        return Ok(Text::new(alloc));
    };
    match files.read_all(alloc, name, MOST_BYTES) {
        Ok(text) => Ok(text),
        Err(FileFault::Failed) => Ok(Text::new(alloc)),
        Err(FileFault::Memory) => Err(AllocError),
    }
}

/// How many bytes a source still gives, of at most so many and one more. One of its reads may fail.
pub fn count_left<S: Source>(source: &mut S, most: usize) -> u64 {
    let mut count: u64 = 0;
    let mut byte = [0];
    for _ in 0..=most {
        if let Ok(n) = source.read(&mut byte) {
            count = count.saturating_add(n as u64);
        }
    }
    count
}
