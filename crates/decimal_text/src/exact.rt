//! Ratios, read.
ghost use Rattle.std.specs.Prelude.{◌≡◌, IfOk, IfErr};
ghost use Rattle.fraction.specs.Frac.{ratio};
ghost use Rattle.decimal_text.specs.Exact.{RatioText, UnderSplit, UnderStop, IsUnder, under_of, under_value};
ghost use Rattle.decimal_text.specs.Parts.{IsKeptSize};
ghost use Rattle.decimal_text.specs.Fault.{RefusesRatio};
ghost use Rattle.decimal_text.specs.Head.{DoesNotBegin, PositiveSplit};

use crate::digits::{number, split_digits, strip};
use crate::fault::DecimalFault;
use crate::power::quotient;
use fraction::{Frac, MAX};

/// The digits without a leading zero that the text begins with, and the rest.
fn split_positive(text: &[u8]) -> (&[u8], &[u8])
    ensures { PositiveSplit text.now result.0.now result.1.now }
{
    match text {
        [b'0', ..] => (&[], text),
        _ => split_digits(text),
    }
}

/// The digits of the denominator that the text is, none where it is empty, or how much of the text is left where it
/// stops being one.
fn split_under(text: &[u8]) -> Result<&[u8], usize>
    ensures ok { IfOk result (λ ds. UnderSplit text.now ds.now) }
    ensures err { IfErr result (λ left. UnderStop text.now left) }
{
    if text.is_empty() {
        return Ok(&[]);
    }
    let (has_line, behind) = strip(text, b'/');
    if !has_line {
        return Err(text.len());
    }
    let (bottom, rest) = split_positive(behind);
    if bottom.is_empty() || !rest.is_empty() {
        return Err(rest.len());
    }
    if bottom.len() == 1 && bottom[0] == b'1' {
        return Err(0);
    }
    Ok(bottom)
}

/// The denominator that the digits write, 1 where there are none.
fn denominator(bottom: &[u8]) -> Option<u128>
    requires { IsUnder (under_of bottom.now) }
    ensures { IsKeptSize (under_value (under_of bottom.now)) result }
{
    if bottom.is_empty() {
        return Some(1);
    }
    number(bottom, MAX as u128)
}

/// The ratio of a text that doesn't begin with a zero.
fn read_quotient(text: &[u8]) -> Result<Frac, DecimalFault>
    requires { DoesNotBegin 48 text.now }
    ensures ok { IfOk result (λ x. RatioText text.now (ratio x)) }
    ensures err { IfErr result (RefusesRatio text.now) }
{
    let (is_negative, unsigned) = strip(text, b'-');
    let (top, behind) = split_positive(unsigned);
    if top.is_empty() {
        return Err(DecimalFault::NotNumber {
            at: text.len() - behind.len(),
        });
    }
    let bottom = match split_under(behind) {
        Ok(bottom) => bottom,
        Err(left) => {
            return Err(DecimalFault::NotNumber {
                at: text.len() - left,
            });
        }
    };
    let Some(size) = number(top, MAX as u128) else {
        return Err(DecimalFault::Wide);
    };
    let Some(denom) = denominator(bottom) else {
        return Err(DecimalFault::Wide);
    };
    let Ok(x) = quotient(is_negative, size, denom) else {
        return Err(DecimalFault::Wide);
    };
    if x.denom != denom {
        return Err(DecimalFault::NotNumber { at: text.len() });
    }
    Ok(x)
}

/// The ratio that the text writes, without white space round it: `0`, or an optional `-`, digits without a leading
/// zero and, where it isn't whole, `/` and a denominator of 2 or more without a leading zero, in lowest terms. This
/// form is the project's own. `Wide` where the numerator or the denominator passes `2^127 - 1`. A text of this shape
/// that fits and isn't in lowest terms is refused at its length.
pub fn read_ratio(text: &[u8]) -> Result<Frac, DecimalFault>
    ensures ok { IfOk result (λ x. RatioText text.now (ratio x)) }
    ensures err { IfErr result (RefusesRatio text.now) }
{
    let (has_zero, rest) = strip(text, b'0');
    if !has_zero {
        return read_quotient(text);
    }
    if !rest.is_empty() {
        return Err(DecimalFault::NotNumber { at: 1 });
    }
    Ok(Frac::ZERO)
}
