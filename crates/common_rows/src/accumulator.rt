//! Sums that are reduced only where they are asked for.
ghost use Rattle.std.specs.Prelude.{◌≡◌, ◌<◌, ◌≤◌, unsigned_abs};
ghost use Rattle.rational.specs.Width.{most};

use crate::form::{Form, size};
use crate::product::product;
use crate::whole::{narrowed, within};
use fraction::{Frac, Wide};
use instance::add_product;

/// A sum of products, in any form. While its numbers have 64 bits, it is kept over a common denominator of its terms, and only
/// [`Accumulator::fraction`] reduces it.
#[derive(Clone, Copy, PartialEq, Eq)]
pub struct Accumulator {
    numer: i128,
    denom: u128,
    ghost above: { 0 < denom },
    ghost numer_within: { unsigned_abs numer ≤ most },
    ghost denom_within: { denom ≤ most },
}

impl Accumulator {
    ghost use Rattle.std.specs.Prelude.{IfSome, IfOk, OnErr};
    ghost use Rattle.rational.specs.Ratio.{sum, product, IsSame};
    ghost use Rattle.fraction.specs.Frac.{ratio};
    ghost use Rattle.evidence.specs.Sums.{none};
    ghost use Rattle.evidence.specs.Width.{TermFits};
    ghost use Rattle.common_rows.specs.Row.{over};
    ghost use Rattle.common_rows.specs.Accumulators.{sum_of};

    /// 0.
    pub fn zero() -> Accumulator
        ensures { sum_of result ≡ none }
    {
        Accumulator { numer: 0, denom: 1 }
    }

    /// 0, over a denominator.
    pub fn over(denom: u64) -> Accumulator
        requires { 0 < denom }
        ensures { IsSame (sum_of result) none }
    {
        Accumulator {
            numer: 0,
            denom: denom as u128,
        }
    }

    /// The sum and a number times a whole one, where both stand over one denominator and it fits.
    #[inline]
    fn plus_whole(self, n: i64, denom: u64, x: &Frac) -> Option<Accumulator>
        ensures same { IfSome result (λ r. IsSame (sum_of r) (sum (sum_of self) (product (over n denom) (ratio x.now)))) }
        ensures fits { IfSome result (λ _. TermFits (sum_of self) (over n denom) (ratio x.now)) }
    {
        if x.denom != 1 || self.denom != denom as u128 {
            return None;
        }
        let by = narrowed(x.numer)?;
        let numer = within(self.numer, product(n, by))?;
        Some(Accumulator {
            numer,
            denom: self.denom,
        })
    }

    /// The sum and a number over a denominator times another one, in any form.
    #[inline(never)]
    fn plus_quotient(self, n: i64, denom: u64, x: &Frac) -> Result<Accumulator, Wide>
        requires { 0 < denom }
        ensures ok { IfOk result (λ r. IsSame (sum_of r) (sum (sum_of self) (product (over n denom) (ratio x.now)))) }
        ensures fits { IfOk result (λ _. TermFits (sum_of self) (over n denom) (ratio x.now)) }
        ensures wide { OnErr result (TermFits (sum_of self) (over n denom) (ratio x.now) → ⊥) }
    {
        let a = Form { numer: n, denom }.fraction();
        self.plus(&a, x)
    }

    /// The sum and a number over a denominator times another one, as [`add_product`] has them.
    #[inline]
    pub fn plus_number(self, n: i64, denom: u64, x: &Frac) -> Result<Accumulator, Wide>
        requires { 0 < denom }
        ensures ok { IfOk result (λ r. IsSame (sum_of r) (sum (sum_of self) (product (over n denom) (ratio x.now)))) }
        ensures fits { IfOk result (λ _. TermFits (sum_of self) (over n denom) (ratio x.now)) }
        ensures wide { OnErr result (TermFits (sum_of self) (over n denom) (ratio x.now) → ⊥) }
    {
        match self.plus_whole(n, denom, x) {
            Some(more) => Ok(more),
            None => self.plus_quotient(n, denom, x),
        }
    }

    /// The sum and a product, where all their numbers have 64 bits.
    #[inline]
    fn narrow_plus(self, a: &Frac, x: &Frac) -> Option<Accumulator>
        ensures same { IfSome result (λ r. IsSame (sum_of r) (sum (sum_of self) (product (ratio a.now) (ratio x.now)))) }
        ensures fits { IfSome result (λ _. TermFits (sum_of self) (ratio a.now) (ratio x.now)) }
    {
        let numer = narrowed(self.numer)?;
        let denom = size(self.denom)?;
        let term = Form::of_product(a, x)?;
        let more = Form { numer, denom }.plus(term)?;
        Some(Accumulator {
            numer: more.numer as i128,
            denom: more.denom as u128,
        })
    }

    /// The sum and a product, of any width.
    #[inline(never)]
    fn wide_plus(self, a: &Frac, x: &Frac) -> Result<Accumulator, Wide>
        ensures ok { IfOk result (λ r. IsSame (sum_of r) (sum (sum_of self) (product (ratio a.now) (ratio x.now)))) }
        ensures fits { IfOk result (λ _. TermFits (sum_of self) (ratio a.now) (ratio x.now)) }
        ensures wide { OnErr result (TermFits (sum_of self) (ratio a.now) (ratio x.now) → ⊥) }
    {
        let more = add_product(self.fraction(), *a, *x)?;
        Ok(Accumulator {
            numer: more.numer,
            denom: more.denom,
        })
    }

    /// The sum and a product, as [`add_product`] has them.
    #[inline]
    pub fn plus(self, a: &Frac, x: &Frac) -> Result<Accumulator, Wide>
        ensures ok { IfOk result (λ r. IsSame (sum_of r) (sum (sum_of self) (product (ratio a.now) (ratio x.now)))) }
        ensures fits { IfOk result (λ _. TermFits (sum_of self) (ratio a.now) (ratio x.now)) }
        ensures wide { OnErr result (TermFits (sum_of self) (ratio a.now) (ratio x.now) → ⊥) }
    {
        if a.numer == 0 || x.numer == 0 {
            return Ok(self);
        }
        match self.narrow_plus(a, x) {
            Some(more) => Ok(more),
            None => self.wide_plus(a, x),
        }
    }

    /// The sum in lowest terms.
    pub fn fraction(self) -> Frac
        ensures { IsSame (ratio result) (sum_of self) }
    {
        match Frac::of(self.numer, self.denom as i128) {
            Ok(x) => x,
            Err(_) => unreachable!(),
        }
    }
}
