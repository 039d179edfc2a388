//! 0 and 1, as contracts say them.
ghost use Rattle.std.specs.Prelude.{◌≡◌, pos};
ghost use Rattle.rational.specs.Ratio.{whole};
ghost use Rattle.fraction.specs.Frac.{ratio};
ghost use Rattle.evidence.specs.Sums.{none};

use fraction::Frac;

/// The number 0.
pub fn zero() -> Frac
    ensures { ratio result ≡ none }
{
    Frac::ZERO
}

/// The number 1.
pub fn one() -> Frac
    ensures { ratio result ≡ whole (pos 1) }
{
    Frac::ONE
}
