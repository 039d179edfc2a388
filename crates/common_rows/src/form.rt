//! Numbers over a denominator, of 64 bits.
ghost use Rattle.std.specs.Prelude.{◌≡◌, ◌<◌, ◌/◌, pos, IfSome};

use crate::product::product;
use crate::whole::{narrowed, total};
use fraction::{Frac, lcm};

/// A number over a denominator, both of 64 bits, in any form.
#[derive(Clone, Copy)]
pub struct Form {
    pub numer: i64,
    pub denom: u64,
    pub ghost above: { 0 < denom },
}

/// The greatest denominators that are multiplied at once.
const SMALL: u64 = 1 << 24;

/// The size, where it has 64 bits.
#[inline]
pub fn size(n: u128) -> Option<u64>
    ensures { IfSome result (λ k. k ≡ n) }
{
    u64::try_from(n).ok()
}

/// How often a part goes into a size.
#[inline]
fn often(all: u64, part: u64) -> Option<i64>
    requires { 0 < part }
    ensures { IfSome result (λ k. k ≡ pos (all / part)) }
{
    i64::try_from(all / part).ok()
}

impl Form {
    ghost use Rattle.std.specs.Prelude.{◌%◌};
    ghost use Rattle.rational.specs.Ratio.{sum, product, IsSame};
    ghost use Rattle.rational.specs.Width.{ReducedFits, SumFits};
    ghost use Rattle.fraction.specs.Frac.{ratio};
    ghost use Rattle.common_rows.specs.Accumulators.{form_of};

    /// A fraction, where both its parts have 64 bits.
    #[inline]
    pub fn of(x: &Frac) -> Option<Form>
        ensures { IfSome result (λ r. form_of r ≡ ratio x.now) }
    {
        let numer = narrowed(x.numer)?;
        let denom = size(x.denom)?;
        Some(Form { numer, denom })
    }

    /// A product of fractions, not reduced, where all parts have 64 bits.
    #[inline]
    pub fn of_product(a: &Frac, x: &Frac) -> Option<Form>
        ensures same { IfSome result (λ t. IsSame (form_of t) (product (ratio a.now) (ratio x.now))) }
        ensures fits { IfSome result (λ _. ReducedFits (product (ratio a.now) (ratio x.now))) }
    {
        let left = Form::of(a)?;
        let right = Form::of(x)?;
        let numer = narrowed(product(left.numer, right.numer))?;
        let denom = left.denom.checked_mul(right.denom)?;
        Some(Form { numer, denom })
    }

    /// The number over the least denominator that both divide.
    fn over_both(self, by: u64) -> Option<Form>
        requires { 0 < by }
        ensures same { IfSome result (λ r. IsSame (form_of self) (form_of r)) }
        ensures divides { IfSome result (λ r. r.denom % by ≡ 0) }
    {
        let Ok(least) = lcm(self.denom as i128, by as i128) else {
            return None;
        };
        let denom = size(least.unsigned_abs())?;
        let times = often(denom, self.denom)?;
        let numer = narrowed(product(self.numer, times))?;
        Some(Form { numer, denom })
    }

    /// The number over the product of both denominators.
    fn over_product(self, by: u64) -> Option<Form>
        requires { 0 < by }
        ensures same { IfSome result (λ r. IsSame (form_of self) (form_of r)) }
        ensures divides { IfSome result (λ r. r.denom % by ≡ 0) }
    {
        let denom = self.denom.checked_mul(by)?;
        let times = often(denom, self.denom)?;
        let numer = narrowed(product(self.numer, times))?;
        Some(Form { numer, denom })
    }

    /// The number over a denominator that the other one divides. Where both are small it is their product, since a greatest common
    /// divisor costs more than all else here.
    #[inline]
    fn over_common(self, by: u64) -> Option<Form>
        requires { 0 < by }
        ensures same { IfSome result (λ r. IsSame (form_of self) (form_of r)) }
        ensures divides { IfSome result (λ r. r.denom % by ≡ 0) }
    {
        if self.denom % by == 0 {
            return Some(self);
        }
        if self.denom <= SMALL && by <= SMALL {
            return self.over_product(by);
        }
        self.over_both(by)
    }

    /// The sum of two numbers, over a denominator that both divide.
    #[inline]
    pub fn plus(self, term: Form) -> Option<Form>
        ensures same { IfSome result (λ r. IsSame (form_of r) (sum (form_of self) (form_of term))) }
        ensures fits { IfSome result (λ _. SumFits (form_of self) (form_of term)) }
    {
        let common = self.over_common(term.denom)?;
        let times = often(common.denom, term.denom)?;
        let numer = narrowed(total(common.numer, term.numer, times))?;
        Some(Form {
            numer,
            denom: common.denom,
        })
    }

    /// The number in lowest terms.
    #[inline]
    pub fn fraction(self) -> Frac
        ensures { IsSame (ratio result) (form_of self) }
    {
        match Frac::of(self.numer as i128, self.denom as i128) {
            Ok(x) => x,
            Err(_) => unreachable!(),
        }
    }
}
