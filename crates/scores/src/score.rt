//! Sizes by their 31 leading binary digits.
ghost use Rattle.std.specs.Prelude.{◌≡◌, ◌≢◌, ◌⊎◌, ℕ, ◌+◌, ◌*◌, ◌^◌, ◌<◌, ◌≤◌, ◌↔◌, ◌≤ℤ◌, ◌+ℤ◌, pos, IsTrue, unsigned_abs};
ghost use Rattle.rational.specs.Ratio.{Ratio, sum, product, quotient, IsBelow};
ghost use Rattle.fraction.specs.Frac.{ratio};
ghost use Rattle.scores.specs.Scores.{number, IsCut, IsLeading, IsWithin, HasDigits};

use fraction::Frac;

/// A size, cut to its 31 leading binary digits: `digits` times 2 to the power `power`. 0 has no digits and the power 0.
#[derive(Clone, Copy, PartialEq, Eq, Debug)]
pub struct Score {
    pub digits: u64,
    pub power: i64,
}

/// How many digits are left.
const KEPT: u32 = 31;

/// The score 0.
const NONE: Score = Score {
    digits: 0,
    power: 0,
};

/// A number above 0 times a power of 2, cut. One of 31 digits or more keeps its power or gets a greater one.
fn cut(n: u128, power: i64) -> Score
    requires some { 0 < n }
    requires near { unsigned_abs power < 2 ^ 48 }
    ensures leading { (x : Ratio) → 0 < x.den → HasDigits x n power → IsLeading x result }
    ensures near { (m : ℕ) → unsigned_abs power ≤ m → IsWithin (m + 97) result }
    ensures long { 2 ^ 30 ≤ n → (k : ℕ) × (result.power ≡ power +ℤ pos k) × (2 ^ 30 * 2 ^ k ≤ n) × (n < 2 ^ 31 * 2 ^ k) }
{
    let count = 128 - n.leading_zeros();
    if count > KEPT {
        let dropped = count - KEPT;
        return Score {
            digits: (n >> dropped) as u64,
            power: power + dropped as i64,
        };
    }
    let added = KEPT - count;
    Score {
        digits: (n << added) as u64,
        power: power - added as i64,
    }
}

/// The quotient of numbers of 64 and of 32 bits, cut: the first is moved up until its first digit is the 64th, so that the quotient has 31.
fn of_short(numer: u64, denom: u64) -> Score
    requires numer { 0 < numer }
    requires denom { 0 < denom }
    requires short { denom < 2 ^ 32 }
    ensures leading { IsLeading (record { num = pos numer; den = denom }) result }
    ensures near { IsWithin 256 result }
{
    let room = numer.leading_zeros();
    cut(((numer << room) / denom) as u128, -(room as i64))
}

/// The same of longer ones: a quotient without its rest, then digit by digit until it has 31.
fn of_long(numer: u128, denom: u128) -> Score
    requires numer { 0 < numer }
    requires denom { 0 < denom }
    requires long { denom < 2 ^ 127 }
    ensures leading { IsLeading (record { num = pos numer; den = denom }) result }
    ensures near { IsWithin 256 result }
{
    let room = numer.leading_zeros();
    let top = numer << room;
    let mut quotient = top / denom;
    let mut rest = top % denom;
    let mut more: u32 = 0;
    // quotient * denom + rest is top * 2 ^ more, rest is below denom, and the quotient has more than `more` digits.
    while quotient < 1 << 30 {
        rest *= 2;
        quotient *= 2;
        more += 1;
        if rest >= denom {
            rest -= denom;
            quotient += 1;
        }
    }
    cut(quotient, -(room as i64) - more as i64)
}

impl Score {
    /// The score of 1.
    pub const ONE: Score = Score {
        digits: 1 << 30,
        power: -30,
    };

    /// The size of a fraction by its parts, which need not be in lowest terms.
    #[inline]
    pub fn of_parts(numer: u128, denom: u128) -> Score
        requires denom { 0 < denom }
        requires long { denom < 2 ^ 127 }
        ensures leading { IsLeading (record { num = pos numer; den = denom }) result }
        ensures near { IsWithin 256 result }
    {
        if numer == 0 {
            return NONE;
        }
        if denom < 1 << 32 && numer < 1 << 64 {
            return of_short(numer as u64, denom as u64);
        }
        of_long(numer, denom)
    }

    /// The size of a fraction.
    pub fn of(x: Frac) -> Score
        ensures leading { IsLeading (ratio x) result }
        ensures near { IsWithin 256 result }
    {
        Score::of_parts(x.numer.unsigned_abs(), x.denom)
    }

    /// Whether it is 0.
    pub fn is_zero(self) -> bool
        ensures { IsTrue result ↔ self.digits ≡ 0 }
    {
        self.digits == 0
    }

    /// The quotient by a score that isn't 0.
    pub fn over(self, other: Score) -> Score
        requires cut { IsCut self }
        requires by_cut { IsCut other }
        requires some { other.digits ≢ 0 }
        requires near { IsWithin (2 ^ 40) self × IsWithin (2 ^ 40) other }
        ensures { IsLeading (quotient (number self) (number other)) result }
    {
        if self.digits == 0 {
            return NONE;
        }
        // Of two numbers of 31 digits, the first with 32 more: the quotient has 32 or 33.
        let quotient = (self.digits << 32) / other.digits;
        cut(quotient as u128, self.power - other.power - 32)
    }

    /// The product.
    pub fn times(self, other: Score) -> Score
        requires cut { IsCut self }
        requires by_cut { IsCut other }
        requires near { IsWithin (2 ^ 40) self × IsWithin (2 ^ 40) other }
        ensures leading { IsLeading (product (number self) (number other)) result }
        ensures near { (n : ℕ) → IsWithin n self → IsWithin n other → IsWithin (2 * n + 97) result }
    {
        if self.digits == 0 || other.digits == 0 {
            return NONE;
        }
        cut(
            (self.digits * other.digits) as u128,
            self.power + other.power,
        )
    }

    /// The sum. Its power is that of the greater summand or the next one.
    pub fn plus(self, other: Score) -> Score
        requires cut { IsCut self }
        requires by_cut { IsCut other }
        requires near { IsWithin (2 ^ 40) self × IsWithin (2 ^ 40) other }
        ensures leading { IsLeading (sum (number self) (number other)) result }
        ensures near { (n : ℕ) → IsWithin n self → IsWithin n other → IsWithin (n + 1) result }
    {
        if other.digits == 0 {
            return self;
        }
        if self.digits == 0 {
            return other;
        }
        if self.power < other.power {
            return other.plus_lower(self);
        }
        self.plus_lower(other)
    }

    /// The sum with a score of no greater power. One that begins behind the last digit is dropped whole.
    fn plus_lower(self, other: Score) -> Score
        requires cut { 2 ^ 30 ≤ self.digits × self.digits < 2 ^ 31 }
        requires by_cut { 2 ^ 30 ≤ other.digits × other.digits < 2 ^ 31 }
        requires lower { other.power ≤ℤ self.power }
        requires near { IsWithin (2 ^ 40) self × IsWithin (2 ^ 40) other }
        ensures leading { IsLeading (sum (number self) (number other)) result }
        ensures near { result.power ≡ self.power ⊎ result.power ≡ self.power +ℤ pos 1 }
    {
        let apart = self.power - other.power;
        if apart > KEPT as i64 {
            return self;
        }
        let sum = (self.digits << apart as u32) + other.digits;
        cut(sum as u128, other.power)
    }

    /// Whether it is below another one.
    #[inline]
    pub fn is_below(self, other: Score) -> bool
        requires cut { IsCut self }
        requires by_cut { IsCut other }
        ensures { IsTrue result ↔ IsBelow (number self) (number other) }
    {
        if self.digits == 0 || other.digits == 0 {
            return self.digits < other.digits;
        }
        self.power < other.power || self.power == other.power && self.digits < other.digits
    }
}
