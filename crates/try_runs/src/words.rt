//! The words of a run, and of a field.

use os_io::Memory;
use std::alloc::Global;

/// Words, given with `|` between; none where there are no bytes.
pub(crate) fn words_of(alloc: Global, field: &[u8]) -> Result<Vec<String>, Memory> {
    let mut words = Vec::new(alloc);
    if !field.is_empty() {
        for word in field.split(|b| *b == b'|') {
            words.push(str::from_utf8(word).unwrap_or("").to_string(alloc)?)?;
        }
    }
    Ok(words)
}

/// What is behind a word that begins a field, if it does.
pub(crate) fn behind<'f>(field: &'f [u8], word: &[u8]) -> Option<&'f [u8]> {
    field.strip_prefix(word)
}
