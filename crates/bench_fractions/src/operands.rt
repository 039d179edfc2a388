//! The fractions that are added and multiplied.
ghost use Rattle.std.specs.Prelude.{◌<◌, pos, ◌<ℤ◌};

use fraction::Frac;
use std::alloc::{AllocError, Global};

/// How long numerators and denominators are.
#[derive(Clone, Copy, PartialEq, Eq)]
pub enum Digits {
    /// 1 to 3 digits.
    Small,
    /// 15 digits at most.
    Middle,
    /// 120 bits, over one of two denominators, so that half of the pairs have a result that fits.
    Large,
    /// As in a simplex tableau: whole numbers, halves and thirds of 2 digits, and one in ten with both parts of 10 digits at most.
    Mixed,
}

/// The numbers of Knuth's linear congruential generator of 64 bits.
#[derive(Drop)]
struct Numbers {
    state: u64,
}

impl Numbers {
    fn next(&mut self) -> u64 {
        self.state = self
            .state
            .wrapping_mul(6364136223846793005)
            .wrapping_add(1442695040888963407);
        self.state / 0x1_0000
    }

    /// From 1 to `most`.
    fn up_to(&mut self, most: u64) -> i128
        requires { 0 < most }
        ensures { pos 0 <ℤ result }
    {
        (self.next() % most) as i128 + 1
    }

    /// Of 120 bits.
    fn wide(&mut self) -> i128
        ensures { pos 0 <ℤ result }
    {
        let high = (self.next() % 0x8000) as i128;
        let middle = (self.next() % 0x1_0000_0000) as i128;
        let low = (self.next() % 0x1_0000_0000) as i128;
        (1 << 119) + high * (1 << 64) + middle * (1 << 32) + low
    }

    fn of(&mut self, digits: Digits) -> i128
        ensures { pos 0 <ℤ result }
    {
        match digits {
            Digits::Small => self.up_to(999),
            Digits::Middle => self.up_to(999_999_999_999_999),
            Digits::Large => self.wide(),
            Digits::Mixed => self.up_to(99),
        }
    }

    /// Below 0 every other time.
    fn with_sign(&mut self, size: i128) -> i128
        requires { pos 0 <ℤ size }
    {
        if self.next() % 2 == 0 { size } else { -size }
    }

    /// A numerator and a denominator, which at `Large` is the shared one.
    fn parts(&mut self, digits: Digits, shared: i128) -> (i128, i128) {
        if digits == Digits::Mixed {
            return self.mixed();
        }
        let size = self.of(digits);
        let n = self.with_sign(size);
        match digits {
            Digits::Large => (n, shared),
            _ => (n, self.of(digits)),
        }
    }

    fn mixed(&mut self) -> (i128, i128) {
        let kind = self.next() % 10;
        let most = if kind == 9 { 9_999_999_999 } else { 99 };
        let size = self.up_to(most);
        let n = self.with_sign(size);
        let d = match kind {
            0..=3 => 1,
            4..=6 => 2,
            7..=8 => 3,
            _ => self.up_to(most),
        };
        (n, d)
    }
}

/// The operands of one side.
pub fn operands(
    alloc: Global,
    digits: Digits,
    seed: u64,
    count: u32,
    is_turned: bool,
) -> Result<Vec<Frac>, AllocError> {
    let mut shared = Numbers { state: 1 };
    let first = shared.of(digits);
    let second = shared.of(digits);
    let mut numbers = Numbers { state: seed };
    let mut list = Vec::new(alloc);
    for place in 0..count {
        let shared = if place % 2 == 0 { first } else { second };
        let (n, d) = numbers.parts(digits, shared);
        list.push(quotient(n, d, is_turned))?;
    }
    Ok(list)
}

/// n/d, or d/n where it is turned.
fn quotient(n: i128, d: i128, is_turned: bool) -> Frac {
    let (over, under) = if is_turned { (d, n) } else { (n, d) };
    if under == 0 {
        return Frac::ZERO;
    }
    Frac::of(over, under).unwrap_or(Frac::ZERO)
}
