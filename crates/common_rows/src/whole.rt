//! Whole numbers: rows over the denominator 1.
ghost use Rattle.std.specs.Prelude.{◌≡◌, ◌≤◌, ◌+ℤ◌, ◌*ℤ◌, unsigned_abs, IfSome, IfOk, OnErr};
ghost use Rattle.rational.specs.Ratio.{sum, product, IsSame};
ghost use Rattle.rational.specs.Width.{most, ReducedFits};
ghost use Rattle.fraction.specs.Frac.{ratio};
ghost use Rattle.evidence.specs.Width.{TermFits};
ghost use Rattle.common_rows.specs.Accumulators.{form_of};

use crate::form::Form;
use fraction::{Frac, Wide};
use instance::add_product;

/// The number, where it has 64 bits.
#[inline]
pub fn narrowed(n: i128) -> Option<i64>
    ensures { IfSome result (λ k. k ≡ n) }
{
    i64::try_from(n).ok()
}

/// The number, where one is told: the fraction is whole, and it has 64 bits. That it is told then no clause says.
#[inline]
pub fn narrow(x: Frac) -> Option<i64>
    ensures whole { IfSome result (λ _. x.denom ≡ 1) }
    ensures number { IfSome result (λ n. n ≡ x.numer) }
{
    if x.denom != 1 {
        return None;
    }
    narrowed(x.numer)
}

/// A whole number.
#[inline]
fn whole(numer: i128) -> Frac
    requires { unsigned_abs numer ≤ most }
    ensures numer { result.numer ≡ numer }
    ensures denom { result.denom ≡ 1 }
{
    Frac { numer, denom: 1 }
}

/// A number and a product.
#[inline]
pub fn total(n: i64, k: i64, m: i64) -> i128
    ensures value { result ≡ n +ℤ k *ℤ m }
    ensures size { unsigned_abs result ≤ most }
{
    n as i128 + crate::product::product(k, m)
}

/// The sum of two numbers, where it doesn't pass the greatest size.
#[inline]
pub fn within(a: i128, b: i128) -> Option<i128>
    ensures value { IfSome result (λ n. n ≡ a +ℤ b) }
    ensures size { IfSome result (λ n. unsigned_abs n ≤ most) }
{
    match a.checked_add(b) {
        Some(n) if n != i128::MIN => Some(n),
        _ => None,
    }
}

/// A fraction and a product, where their parts have 64 bits.
#[inline]
fn narrow_sum(start: &Frac, a: &Frac, x: &Frac) -> Option<Form>
    ensures ok { IfSome result (λ r. IsSame (form_of r) (sum (ratio start.now) (product (ratio a.now) (ratio x.now)))) }
    ensures fits { IfSome result (λ _. TermFits (ratio start.now) (ratio a.now) (ratio x.now)) }
{
    let term = Form::of_product(a, x)?;
    let from = Form::of(start)?;
    let sum = from.plus(term)?;
    Some(sum)
}

/// A fraction and a product, which are reduced once where their parts have 64 bits.
#[inline(never)]
fn plus_fractions(start: &Frac, a: &Frac, x: &Frac) -> Result<Frac, Wide>
    ensures ok { IfOk result (λ r. IsSame (ratio r) (sum (ratio start.now) (product (ratio a.now) (ratio x.now)))) }
    ensures fits { IfOk result (λ _. TermFits (ratio start.now) (ratio a.now) (ratio x.now)) }
    ensures wide { OnErr result (TermFits (ratio start.now) (ratio a.now) (ratio x.now) → ⊥) }
{
    match narrow_sum(start, a, x) {
        Some(sum) => Ok(sum.fraction()),
        None => add_product(*start, *a, *x),
    }
}

/// A product of fractions, which is reduced once where its parts have 64 bits.
#[inline(never)]
fn times_fractions(a: &Frac, x: &Frac) -> Result<Frac, Wide>
    ensures ok { IfOk result (λ r. IsSame (ratio r) (product (ratio a.now) (ratio x.now))) }
    ensures wide { OnErr result (ReducedFits (product (ratio a.now) (ratio x.now)) → ⊥) }
{
    match Form::of_product(a, x) {
        Some(term) => Ok(term.fraction()),
        None => a.mul(*x),
    }
}

/// `start` and a product, as [`add_product`] has them.
#[inline]
pub fn plus_product(start: Frac, a: Frac, x: Frac) -> Result<Frac, Wide>
    ensures ok { IfOk result (λ r. IsSame (ratio r) (sum (ratio start) (product (ratio a) (ratio x)))) }
    ensures fits { IfOk result (λ _. TermFits (ratio start) (ratio a) (ratio x)) }
    ensures wide { OnErr result (TermFits (ratio start) (ratio a) (ratio x) → ⊥) }
{
    let Some(n) = narrow(start) else {
        return plus_fractions(&start, &a, &x);
    };
    let Some(k) = narrow(a) else {
        return plus_fractions(&start, &a, &x);
    };
    let Some(m) = narrow(x) else {
        return plus_fractions(&start, &a, &x);
    };
    Ok(whole(total(n, k, m)))
}

/// A product, as [`Frac::mul`] has it.
#[inline]
pub fn times(a: Frac, x: Frac) -> Result<Frac, Wide>
    ensures ok { IfOk result (λ r. IsSame (ratio r) (product (ratio a) (ratio x))) }
    ensures wide { OnErr result (ReducedFits (product (ratio a) (ratio x)) → ⊥) }
{
    let Some(k) = narrow(a) else {
        return times_fractions(&a, &x);
    };
    let Some(m) = narrow(x) else {
        return times_fractions(&a, &x);
    };
    Ok(whole(crate::product::product(k, m)))
}
