//! Texts of numbers, and sums and products of the fractions that they say.

use crate::shown::{put_end, put_frac, put_number};
use cases::Answers;
use decimal_text::{
    DecimalFault, read_bound, read_count, read_decimal, read_ratio, read_whole, write_cut12,
    write_decimal, write_ratio,
};
use fraction::{Frac, Wide};
use os_io::{Memory, Text};
use std::alloc::{AllocError, Global};

/// Given what is asked, and the text of a number, or of two whose sum or product is asked.
#[derive(Drop)]
pub(crate) struct Numbers;

/// Appends why a text is none, or a number has none.
fn put_fault(text: &mut Text, fault: DecimalFault) -> Result<(), Memory> {
    match fault {
        DecimalFault::NotNumber { at } => {
            text.extend(b"NotNumber at ")?;
            put_number(text, at as i128)
        }
        DecimalFault::Wide => text.extend(b"Wide"),
        DecimalFault::NotDecimal => text.extend(b"NotDecimal"),
        DecimalFault::Memory => Err(AllocError),
    }
}

/// Appends the number that was read, or why none was.
fn put_read(text: &mut Text, read: Result<Frac, DecimalFault>) -> Result<(), Memory> {
    match read {
        Ok(x) => put_frac(text, x),
        Err(fault) => put_fault(text, fault),
    }
}

/// Appends the number that is read of a text as is asked, or why none is.
fn put_answer(text: &mut Text, asked: &[u8], number: &[u8]) -> Result<(), Memory> {
    match asked {
        b"decimal" => put_read(text, read_decimal(number)),
        b"ratio" => put_read(text, read_ratio(number)),
        b"bound" => match read_bound(number) {
            Ok(end) => put_end(text, end),
            Err(fault) => put_fault(text, fault),
        },
        b"count" => match read_count(number) {
            Ok(n) => put_number(text, n as i128),
            Err(fault) => put_fault(text, fault),
        },
        b"whole" => match read_whole(number) {
            Ok(z) => put_number(text, z as i128),
            Err(fault) => put_fault(text, fault),
        },
        b"written" | b"cut" | b"plain" => match read_ratio(number) {
            Ok(x) => put_written(text, asked, x),
            Err(fault) => put_fault(text, fault),
        },
        _ => text.extend(b"not asked"),
    }
}

/// Appends a number as is asked, or why it isn't written, behind what was written of it.
fn put_written(text: &mut Text, asked: &[u8], x: Frac) -> Result<(), Memory> {
    text.push(b'=')?;
    match asked {
        b"written" => write_ratio(x, text),
        b"cut" => write_cut12(x, text),
        _ => match write_decimal(x, text) {
            Ok(()) => Ok(()),
            Err(fault) => {
                text.push(b' ')?;
                put_fault(text, fault)
            }
        },
    }
}

/// Appends the sum or the product of two numbers, or that it is wide; or why a text is none.
fn put_result(text: &mut Text, asked: &[u8], left: &[u8], right: &[u8]) -> Result<(), Memory> {
    let (x, y) = match (read_ratio(left), read_ratio(right)) {
        (Ok(x), Ok(y)) => (x, y),
        (Err(fault), _) | (_, Err(fault)) => return put_fault(text, fault),
    };
    let result = match asked {
        b"sum" => x.add(y),
        b"product" => x.mul(y),
        _ => return text.extend(b"not asked"),
    };
    match result {
        Ok(z) => put_frac(text, z),
        Err(Wide) => text.extend(b"Wide"),
    }
}

impl Answers for Numbers {
    fn answer(&mut self, alloc: Global, given: &[Vec<u8>]) -> Result<Text, Memory> {
        let mut text = Text::new(alloc);
        match given {
            [asked, number] => put_answer(&mut text, asked.as_slice(), number.as_slice())?,
            [asked, left, right] => put_result(
                &mut text,
                asked.as_slice(),
                left.as_slice(),
                right.as_slice(),
            )?,
            _ => text.extend(b"two or three fields")?,
        }
        Ok(text)
    }
}
