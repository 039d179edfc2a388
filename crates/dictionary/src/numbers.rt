//! Numbers of 64 bits.
ghost use Rattle.std.specs.Prelude.{◌≡◌, ℕ, ◌<◌, ◌≤◌, ◌^◌, pos, ◌<ℤ◌, ◌*ℤ◌, None, unsigned_abs, IfSome};
ghost use Rattle.rational.specs.Whole.{IsLcm};
ghost use Rattle.rational.specs.Width.{most};
ghost use Rattle.fraction.specs.Frac.{ratio};
ghost use Rattle.dictionary.specs.Numbers.{IsOver, IsNumberOver};

use fraction::{Frac, lcm};

/// 1, by its parts.
pub fn one() -> Frac
    ensures numer { result.numer ≡ pos 1 }
    ensures denom { result.denom ≡ 1 }
{
    Frac::ONE
}

/// The number, where it has 64 bits and isn't the least of them.
pub fn narrowed_size(n: i128) -> Option<i64>
    ensures some { IfSome result (λ k. (k ≡ n) × (unsigned_abs n < 2 ^ 63)) }
    ensures none { result ≡ None → 2 ^ 63 ≤ unsigned_abs n }
{
    match i64::try_from(n) {
        Ok(k) if k != i64::MIN => Some(k),
        _ => None,
    }
}

/// The least common multiple, where it has 64 bits.
pub fn joined(all: i64, denom: u128) -> Option<i64>
    requires all { pos 0 <ℤ all }
    requires above { 0 < denom }
    requires within { denom ≤ most }
    ensures above { IfSome result (λ m. pos 0 <ℤ m) }
    ensures some { IfSome result (λ m. IsLcm (unsigned_abs all) denom (unsigned_abs m)) }
    ensures none { result ≡ None → (m : ℕ) → IsLcm (unsigned_abs all) denom m → 2 ^ 63 ≤ m }
{
    if denom == 1 {
        return Some(all);
    }
    match lcm(all as i128, denom as i128) {
        Ok(m) => narrowed_size(m),
        Err(_) => None,
    }
}

/// The number of a fraction over a denominator, where there is one that fits.
pub fn number_over(value: &Frac, denom: i64) -> Option<i64>
    requires { pos 0 <ℤ denom }
    ensures some { IfSome result (λ n. IsNumberOver (unsigned_abs denom) (ratio value.now) n) }
    ensures none { result ≡ None → IsOver (unsigned_abs denom) (ratio value.now) → ⊥ }
{
    let whole = denom.unsigned_abs() as u128;
    if whole % value.denom != 0 {
        return None;
    }
    let numer = narrowed_size(value.numer)?;
    narrowed_size(product(numer, whole / value.denom))
}

/// The product of two numbers.
fn product(x: i64, y: u128) -> i128
    requires { y < 2 ^ 63 }
    ensures { result ≡ x *ℤ pos y }
{
    x as i128 * y as i128
}
