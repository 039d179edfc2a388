//! What a line of the input asks for, and its answer.
use crate::operands::{Digits, operands};
use fraction::{Frac, Wide};
use std::alloc::{AllocError, Global};

/// What is done with each pair of operands.
#[derive(Clone, Copy, PartialEq, Eq)]
pub enum Operation {
    Sum,
    Product,
}

/// `count` operands on each side, all pairs of them `rounds` times.
#[derive(Clone, Copy)]
pub struct Task {
    digits: Digits,
    operation: Operation,
    count: u32,
    rounds: u32,
}

/// A sum over the results that fit, and the number of those that don't.
#[derive(Clone, Copy)]
pub struct Total {
    pub sum: u64,
    pub wide: u64,
}

fn digits_of(word: &str) -> Option<Digits> {
    match word {
        "small" => Some(Digits::Small),
        "middle" => Some(Digits::Middle),
        "large" => Some(Digits::Large),
        "mixed" => Some(Digits::Mixed),
        _ => None,
    }
}

fn operation_of(word: &str) -> Option<Operation> {
    match word {
        "sum" => Some(Operation::Sum),
        "product" => Some(Operation::Product),
        _ => None,
    }
}

fn number_of(word: &str) -> Option<u32> {
    word.parse::<u32>().ok()
}

/// The task that a line asks for.
pub fn read(line: &str) -> Option<Task> {
    let mut words = line.split(' ');
    let digits = digits_of(words.next()?)?;
    let operation = operation_of(words.next()?)?;
    let count = number_of(words.next()?)?;
    let rounds = number_of(words.next()?)?;
    Some(Task {
        digits,
        operation,
        count,
        rounds,
    })
}

pub fn run(alloc: Global, task: Task) -> Result<Total, AllocError> {
    let is_turned = task.operation == Operation::Product;
    let left = operands(alloc, task.digits, 2, task.count, false)?;
    let right = operands(alloc, task.digits, 3, task.count, is_turned)?;
    let mut total = Total { sum: 0, wide: 0 };
    for _ in 0..task.rounds {
        total = match task.operation {
            Operation::Sum => with_sums(total, &left, &right),
            Operation::Product => with_products(total, &left, &right),
        };
    }
    Ok(total)
}

fn with_sums(mut total: Total, left: &[Frac], right: &[Frac]) -> Total {
    for x in left {
        for y in right {
            total = with(total, x.add(*y));
        }
    }
    total
}

fn with_products(mut total: Total, left: &[Frac], right: &[Frac]) -> Total {
    for x in left {
        for y in right {
            total = with(total, x.mul(*y));
        }
    }
    total
}

fn with(total: Total, made: Result<Frac, Wide>) -> Total {
    match made {
        Ok(x) => Total {
            sum: total.sum.wrapping_mul(31).wrapping_add(digest(x)),
            wide: total.wide,
        },
        Err(Wide) => Total {
            sum: total.sum,
            wide: total.wide.wrapping_add(1),
        },
    }
}

/// The last 64 bits of both parts' sum, one more for a negative number.
fn digest(x: Frac) -> u64 {
    let parts = last_bits(x.numer.unsigned_abs()).wrapping_add(last_bits(x.denom));
    if x.numer < 0 {
        parts.wrapping_add(1)
    } else {
        parts
    }
}

fn last_bits(size: u128) -> u64 {
    (size % (1 << 64)) as u64
}
