//! Fractions written for people, cut to twelve decimals.
ghost use Rattle.std.specs.Prelude.{◌≡◌, ◌++◌, ◌⊎◌, ◌<ℤ◌, ◌≤ℤ◌, pos, true, false, unsigned_abs, length, take, decimal, OnOk, OnErr};
ghost use Rattle.fraction.specs.Frac.{ratio};
ghost use Rattle.decimal_text.specs.Plain.{AppendsNumber, cut12, point_text};
ghost use Rattle.decimal_text.specs.Sign.{optional};

use crate::expand::expand;
use fraction::Frac;
use itoa::Buffer;
use os_io::{Memory, Text};

/// Writes the fraction cut towards zero to twelve decimals, without zeros at the end: `7`, `-0.5`, `0.666666666666`.
/// After [`Memory`] the text is as before.
pub fn write_cut12(value: Frac, out: &mut Text) -> Result<(), Memory>
    ensures ok { OnOk result (AppendsNumber out.old out.new (cut12 (ratio value))) }
    ensures err { OnErr result (out.new ≡ out.old) }
{
    let size = size(value);
    let whole = size / value.denom;
    let mut digits = [b'0'; 12];
    let (used, _) = expand(size % value.denom, value.denom, &mut digits);
    write_plain(has_sign(value, whole, used), whole, &digits[..used], out)
}

/// The size of the numerator.
pub fn size(value: Frac) -> u128
    ensures { result ≡ unsigned_abs value.numer }
{
    value.numer.unsigned_abs()
}

/// Whether a cut text has a sign: the number is below 0, and its text isn't zero's.
fn has_sign(value: Frac, whole: u128, used: usize) -> bool
    ensures below { result ≡ true → (value.numer <ℤ pos 0) × ((whole ≡ 0) × (used ≡ 0) → ⊥) }
    ensures above { result ≡ false → (pos 0 ≤ℤ value.numer) ⊎ ((whole ≡ 0) × (used ≡ 0)) }
{
    value.numer < 0 && (whole != 0 || used != 0)
}

/// Writes a sign, a whole part and the digits after a point. After [`Memory`] the text is as before.
pub fn write_plain(
    is_negative: bool,
    whole: u128,
    digits: &[u8],
    out: &mut Text,
) -> Result<(), Memory>
    ensures ok { OnOk result (out.new ≡ out.old ++ (optional 45 is_negative ++ (decimal whole ++ point_text digits.now))) }
    ensures err { OnErr result (out.new ≡ out.old) }
{
    let before = out.len();
    if let Err(memory) = write_parts(is_negative, whole, digits, out) {
        out.truncate(before);
        return Err(memory);
    }
    Ok(())
}

/// The same, and after [`Memory`] a beginning of it may stand.
fn write_parts(is_negative: bool, whole: u128, digits: &[u8], out: &mut Text) -> Result<(), Memory>
    ensures ok { OnOk result (out.new ≡ out.old ++ (optional 45 is_negative ++ (decimal whole ++ point_text digits.now))) }
    ensures err { OnErr result (take (length out.old) out.new ≡ out.old) }
{
    if is_negative {
        out.push(b'-')?;
    }
    let mut buffer = Buffer::new();
    out.extend(buffer.format(whole).as_bytes())?;
    if digits.is_empty() {
        return Ok(());
    }
    out.push(b'.')?;
    out.extend(digits)
}
