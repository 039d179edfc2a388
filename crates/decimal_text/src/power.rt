//! Digits and powers of ten as fractions.
ghost use Rattle.std.specs.Prelude.{◌≡◌, ◌≢◌, ℕ, ◌+◌, ◌*◌, ◌%◌, ◌^◌, ◌<◌, ◌≤◌, ◌++◌, cond, length, Option, Some, IfOk, OnErr, MatchOption};
ghost use Rattle.std.specs.Str.Parse.{AllDigits, digits_value, digits_value_after};
ghost use Rattle.rational.specs.Ratio.{IsSame};
ghost use Rattle.rational.specs.Width.{most};
ghost use Rattle.rational.specs.Whole.{signed};
ghost use Rattle.fraction.specs.Frac.{ratio};
ghost use Rattle.decimal_text.specs.Decimal.{powered, HasFit, HasNoFit};
ghost use Rattle.decimal_text.specs.Parts.{IsKeptSize, IsSignificand};

use crate::digits::number;
use crate::parts::Parts;
use fraction::{Frac, MAX, Wide, signed};

/// The greatest exponent that is told from greater ones.
const MOST_POWER: u128 = 1 << 100;

/// Ten to this, where it is within the width.
pub fn power_of_ten(places: u128) -> Option<u128>
    ensures { IsKeptSize (10 ^ places) result }
{
    if places > 38 {
        return None;
    }
    Some(10u128.pow(places as u32))
}

/// The product, where it is within the width.
pub fn times(a: u128, b: u128) -> Option<u128>
    ensures { IsKeptSize (a * b) result }
{
    let product = a.checked_mul(b)?;
    if product <= MAX as u128 {
        Some(product)
    } else {
        None
    }
}

/// The size times ten to this, where it is within the width.
fn raised(size: u128, places: u128) -> Option<u128>
    requires { 0 < size }
    ensures { IsKeptSize (size * 10 ^ places) result }
{
    times(size, power_of_ten(places)?)
}

/// The size with more digits: `zeros` of them, the last in place of the last zero.
fn lengthened(size: u128, zeros: u128, digit: u8) -> Option<u128>
    requires above { 0 < size }
    requires digit { digit < 10 }
    ensures { IsKeptSize (size * 10 ^ zeros + digit) result }
{
    let sum = raised(size, zeros)?.checked_add(u128::from(digit))?;
    if sum <= MAX as u128 { Some(sum) } else { None }
}

/// A size and the zeros behind it, with one more digit behind them.
fn with_significant(kept: Option<u128>, zeros: u128, digit: u8) -> (Option<u128>, u128)
    requires room { zeros < 2 ^ 100 }
    requires digit { digit < 10 }
    ensures value { (v : ℕ) → IsSignificand v kept zeros → IsSignificand (v * 10 + digit) result.0 result.1 }
    ensures zeros { result.1 ≤ zeros + 1 }
{
    let Some(size) = kept else {
        return (None, if digit == 0 { zeros + 1 } else { 0 });
    };
    if size == 0 {
        return (Some(u128::from(digit)), 0);
    }
    if digit == 0 {
        return (kept, zeros + 1);
    }
    (lengthened(size, zeros + 1, digit), 0)
}

/// A size and the zeros behind it, with more digits behind them.
fn significand(mut kept: Option<u128>, mut zeros: u128, digits: &[u8]) -> (Option<u128>, u128)
    requires room { zeros < 2 ^ 70 }
    requires digits { AllDigits 10 digits.now }
    ensures value { (v : ℕ) → IsSignificand v kept zeros → IsSignificand (digits_value_after 10 v digits.now) result.0 result.1 }
    ensures zeros { result.1 ≤ zeros + length digits.now }
{
    for byte in digits {
        let more = with_significant(kept, zeros, *byte - b'0');
        kept = more.0;
        zeros = more.1;
    }
    (kept, zeros)
}

/// The fraction of this sign, size and denominator, which always fits.
pub fn quotient(is_negative: bool, size: u128, denom: u128) -> Result<Frac, Wide>
    requires size { size ≤ most }
    requires above { 0 < denom }
    requires denom { denom ≤ most }
    ensures ok { IfOk result (λ x. IsSame (ratio x) (record { num = signed is_negative size; den = denom })) }
    ensures fits { OnErr result ⊥ }
{
    Frac::of(signed(is_negative, size), signed(false, denom))
}

/// A size times ten to `up`, over ten to `down`, where its shortest form fits.
fn scaled(is_negative: bool, size: u128, up: u128, down: u128) -> Option<Frac>
    requires short { size % 10 ≢ 0 }
    requires small { size ≤ most }
    ensures { MatchOption result (HasNoFit (powered is_negative size up down)) (λ x. HasFit (powered is_negative size up down) (ratio x)) }
{
    if down <= up {
        let product = raised(size, up - down)?;
        quotient(is_negative, product, 1).ok()
    } else {
        let denom = power_of_ten(down - up)?;
        quotient(is_negative, size, denom).ok()
    }
}

/// The digits of two texts, one behind the other, as one number: what stands before the zeros at its end, where that is within the width,
/// and how many these are.
fn significand_of(before: &[u8], after: &[u8]) -> (Option<u128>, u128)
    requires before { AllDigits 10 before.now }
    requires after { AllDigits 10 after.now }
    ensures value { IsSignificand (digits_value 10 (before.now ++ after.now)) result.0 result.1 }
    ensures zeros { result.1 ≤ length before.now + length after.now }
{
    let (kept, zeros) = significand(Some(0), 0, before);
    significand(kept, zeros, after)
}

/// The value of a decimal's parts under a sign, where it fits.
pub fn value(is_negative: bool, parts: Parts<'_>) -> Option<Frac>
    requires before { AllDigits 10 parts.before.now }
    requires after { AllDigits 10 parts.after.now }
    requires power { AllDigits 10 parts.power.now }
    ensures { let size = digits_value 10 (parts.entry.before.now ++ parts.entry.after.now) in
        let power = digits_value 10 parts.entry.power.now in
        let written = powered is_negative size (cond parts.entry.is_down 0 power) (length parts.entry.after.now + cond parts.entry.is_down power 0) in
        MatchOption result (HasNoFit written) (λ x. HasFit written (ratio x)) }
{
    let (kept, zeros) = significand_of(parts.before, parts.after);
    let size = kept?;
    if size == 0 {
        return Some(Frac::ZERO);
    }
    let power = number(parts.power, MOST_POWER)?;
    let down = parts.after.len() as u128;
    if parts.is_down {
        scaled(is_negative, size, zeros, down + power)
    } else {
        scaled(is_negative, size, zeros + power, down)
    }
}
