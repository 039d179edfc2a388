//! Decimals of a fraction, digit by digit.
ghost use Rattle.std.specs.Prelude.{◌≡◌, ◌≢◌, ◌+◌, ◌-◌, ◌*◌, ◌^◌, ◌<◌, ◌≤◌, length, take, slice_index};
ghost use Rattle.std.specs.Str.Parse.{AllDigits, digits_value};
ghost use Rattle.rational.specs.Width.{most};

/// The next decimal digit of `rest / denom`, and what is left after it: ten times `rest` is the digit times `denom`
/// and what is left. It is found by adding, since ten times `rest` may pass 128 bits.
fn next_digit(rest: u128, denom: u128) -> (u8, u128)
    requires below { rest < denom }
    requires width { denom ≤ most }
    ensures value { 10 * rest ≡ result.0 * denom + result.1 }
    ensures below { result.1 < denom }
    ensures digit { result.0 < 10 }
{
    let mut digit = 0u8;
    let mut left = 0u128;
    for _ in 0..10u8 {
        left += rest;
        if left >= denom {
            left -= denom;
            digit += 1;
        }
    }
    (digit, left)
}

/// Fills `digits` with the decimals of `rest / denom`. Gives how many of them stand before the zeros at the end, and
/// what is left after all.
pub fn expand(rest: u128, denom: u128, digits: &mut [u8]) -> (usize, u128)
    requires below { rest < denom }
    requires width { denom ≤ most }
    ensures digits { AllDigits 10 digits.new }
    ensures value { rest * 10 ^ length digits.new ≡ digits_value 10 digits.new * denom + result.1 }
    ensures below { result.1 < denom }
    ensures used { result.0 ≤ length digits.new }
    ensures no_trailing_zero { slice_index (take result.0 digits.new) (result.0 - 1) ≢ 48 }
    ensures above { 0 < result.0 → 0 < digits_value 10 (take result.0 digits.new) }
    ensures zeros { digits_value 10 digits.new ≡ digits_value 10 (take result.0 digits.new) * 10 ^ (length digits.new - result.0) }
{
    let mut left = rest;
    let mut used = 0;
    for i in 0..digits.len() {
        let (digit, after) = next_digit(left, denom);
        digits[i] = b'0' + digit;
        if digit != 0 {
            used = i + 1;
        }
        left = after;
    }
    (used, left)
}
