//! Answers as texts.

use job_journal::OpenFault;
use os_io::{Memory, Text};

/// A number in digits.
pub fn put_number(text: &mut Text, number: u64) -> Result<(), Memory> {
    let mut buffer = itoa::Buffer::new();
    text.extend(buffer.format(number).as_bytes())
}

/// Bytes as hexadecimal digits.
pub fn put_hex(text: &mut Text, bytes: &[u8]) -> Result<(), Memory> {
    const DIGITS: [u8; 16] = *b"0123456789abcdef";
    for byte in bytes {
        text.push(DIGITS[(*byte / 16) as usize])?;
        text.push(DIGITS[(*byte % 16) as usize])?;
    }
    Ok(())
}

/// Why a file wasn't opened.
pub fn tell_fault(text: &mut Text, fault: OpenFault) -> Result<(), Memory> {
    match fault {
        OpenFault::ReadFault => text.extend(b"not read"),
        OpenFault::WriteFault => text.extend(b"not written"),
        OpenFault::Damaged { at } => {
            text.extend(b"damaged at ")?;
            put_number(text, at)
        }
        OpenFault::Memory => text.extend(b"no memory"),
    }
}
