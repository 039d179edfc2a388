//! Digits at the head of a text, and the number that digits write.
ghost use Rattle.std.specs.Prelude.{◌≡◌, ◌+◌, ◌*◌, ◌<◌, ◌≤◌, ◌++◌, false, MatchOption};
ghost use Rattle.std.specs.Str.Parse.{AllDigits, digits_value};
ghost use Rattle.decimal_text.specs.Head.{DoesNotBegin, HasNoDigit, SignSplit};
ghost use Rattle.decimal_text.specs.Sign.{optional};

/// The digits that the text begins with, and the rest.
pub fn split_digits(text: &[u8]) -> (&[u8], &[u8])
    ensures parts { text.now ≡ result.0.now ++ result.1.now }
    ensures digits { AllDigits 10 result.0.now }
    ensures all { HasNoDigit result.1.now }
{
    let mut len = 0;
    for byte in text {
        if !byte.is_ascii_digit() {
            break;
        }
        len += 1;
    }
    text.split_at(len)
}

/// Whether the text begins with this byte, and the rest.
pub fn strip(text: &[u8], byte: u8) -> (bool, &[u8])
    ensures parts { text.now ≡ optional byte result.0 ++ result.1.now }
    ensures absent { result.0 ≡ false → DoesNotBegin byte result.1.now }
{
    match text {
        [first, rest @ ..] if *first == byte => (true, rest),
        _ => (false, text),
    }
}

/// Whether the text begins with `-`, and the rest behind an optional sign.
pub fn split_sign(text: &[u8]) -> (bool, &[u8])
    ensures { SignSplit text.now result.0 result.1.now }
{
    match text {
        [b'+', rest @ ..] => (false, rest),
        [b'-', rest @ ..] => (true, rest),
        _ => (false, text),
    }
}

/// The number with one more digit, where it is at most `most`.
pub fn with_digit(n: u128, digit: u8, most: u128) -> Option<u128>
    ensures { MatchOption result (most < n * 10 + digit) (λ m. (m ≡ n * 10 + digit) × (m ≤ most)) }
{
    let sum = n.checked_mul(10)?.checked_add(u128::from(digit))?;
    if sum <= most { Some(sum) } else { None }
}

/// The number that the digits write, where it is at most `most`.
pub fn number(digits: &[u8], most: u128) -> Option<u128>
    requires { AllDigits 10 digits.now }
    ensures { MatchOption result (most < digits_value 10 digits.now) (λ n. (n ≡ digits_value 10 digits.now) × (n ≤ most)) }
{
    let mut n = 0;
    for byte in digits {
        n = with_digit(n, *byte - b'0', most)?;
    }
    Some(n)
}
