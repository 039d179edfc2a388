//! The parts of a decimal's text behind its sign.
ghost use Rattle.std.specs.Prelude.{IfOk, IfErr, MatchOption};
ghost use Rattle.decimal_text.specs.Head.{DoesNotBegin};
ghost use Rattle.decimal_text.specs.Parts.{HasLetter, MantissaSplit, PowerSplit, PowerStop, UnsignedSplit, UnsignedStop};

use crate::digits::{split_digits, split_sign, strip};

/// The digits before and after the point of a decimal, and its exponent.
#[derive(Clone, Copy)]
pub struct Parts<'a> {
    pub before: &'a [u8],
    pub after: &'a [u8],
    pub is_down: bool,
    pub power: &'a [u8],
}

/// The digits before the point, those after it, and the rest.
fn split_mantissa(text: &[u8]) -> (&[u8], &[u8], &[u8])
    ensures { MantissaSplit text.now result.0.now result.1.now result.2.now }
{
    let (before, behind) = split_digits(text);
    let (has_point, fraction) = strip(behind, b'.');
    if !has_point {
        return (before, &[], behind);
    }
    let (after, rest) = split_digits(fraction);
    (before, after, rest)
}

/// Whether the text begins with the letter of an exponent, and the rest.
fn strip_letter(text: &[u8]) -> Option<&[u8]>
    ensures { MatchOption result (DoesNotBegin 101 text.now × DoesNotBegin 69 text.now) (λ rest. HasLetter text.now rest.now) }
{
    match text {
        [b'e' | b'E', rest @ ..] => Some(rest),
        _ => None,
    }
}

/// The exponent that the text is, with its sign, or how much of the text is left where it is none.
fn split_power(text: &[u8]) -> Result<(bool, &[u8]), usize>
    ensures ok { IfOk result (λ p. PowerSplit text.now p.0 p.1.now) }
    ensures err { IfErr result (λ left. PowerStop text.now left) }
{
    if text.is_empty() {
        return Ok((false, &[]));
    }
    let Some(unsigned) = strip_letter(text) else {
        return Err(text.len());
    };
    let (is_down, behind) = split_sign(unsigned);
    let (power, rest) = split_digits(behind);
    if power.is_empty() || !rest.is_empty() {
        return Err(rest.len());
    }
    Ok((is_down, power))
}

/// The parts that the text is, or how much of it is left where it is no decimal.
pub fn split_unsigned(text: &[u8]) -> Result<Parts<'_>, usize>
    ensures ok { IfOk result (λ p. UnsignedSplit text.now p.before.now p.after.now p.is_down p.power.now) }
    ensures err { IfErr result (λ left. UnsignedStop text.now left) }
{
    let (before, after, rest) = split_mantissa(text);
    if before.is_empty() && after.is_empty() {
        return Err(rest.len());
    }
    let (is_down, power) = split_power(rest)?;
    Ok(Parts {
        before,
        after,
        is_down,
        power,
    })
}
