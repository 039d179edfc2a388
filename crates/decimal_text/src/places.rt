//! Fractions written as decimals that say all of them.
ghost use Rattle.std.specs.Prelude.{◌≡◌, ◌≢◌, ℕ, pos, unsigned_abs, ◌*◌, ◌^◌, ◌<◌, ◌≤◌, true, false, OnOk, OnErr, IfErr};
ghost use Rattle.std.specs.Int.{IsGcd};
ghost use Rattle.rational.specs.Width.{most};
ghost use Rattle.rational.specs.Whole.{signed};
ghost use Rattle.fraction.specs.Frac.{ratio};
ghost use Rattle.decimal_text.specs.Places.{HasPlaces, AppendsDecimal, DecimalWriteFails};

use crate::expand::expand;
use crate::fault::DecimalFault;
use crate::plain::{size, write_plain};
use crate::power::times;
use fraction::Frac;
use os_io::Text;

/// Whether the size over the denominator, in lowest terms, is a decimal that fits.
fn has_decimal(size: u128, denom: u128) -> bool
    requires reduced { IsGcd size denom 1 }
    requires above { 0 < denom }
    ensures yes { result ≡ true → HasPlaces size denom }
    ensures no { result ≡ false → (n j : ℕ) → n ≤ most → 10 ^ j ≤ most → size * 10 ^ j ≡ n * denom → ⊥ }
{
    for places in 0..39u32 {
        let power = 10u128.pow(places);
        if power % denom == 0 {
            return times(size, power / denom).is_some();
        }
    }
    false
}

/// Whether the value is below 0.
fn is_below(value: Frac) -> bool
    ensures sign { value.numer ≡ signed result (unsigned_abs value.numer) }
    ensures below { result ≡ true → value.numer ≢ pos 0 }
{
    value.numer < 0
}

/// Writes the value behind `out` as a decimal without an exponent, whole and without zeros at the end: `7`, `-0.125`.
/// `NotDecimal` exactly where no text that [`read_decimal`](crate::read_decimal) reads has this value. After an error
/// `out` is as before.
pub fn write_decimal(value: Frac, out: &mut Text) -> Result<(), DecimalFault>
    ensures ok { OnOk result (AppendsDecimal out.old out.new (ratio value)) }
    ensures err { IfErr result (DecimalWriteFails (ratio value)) }
    ensures unchanged { OnErr result (out.new ≡ out.old) }
{
    let size = size(value);
    if !has_decimal(size, value.denom) {
        return Err(DecimalFault::NotDecimal);
    }
    let mut digits = [b'0'; 38];
    let (used, _) = expand(size % value.denom, value.denom, &mut digits);
    match write_plain(is_below(value), size / value.denom, &digits[..used], out) {
        Ok(()) => Ok(()),
        Err(_) => Err(DecimalFault::Memory),
    }
}
