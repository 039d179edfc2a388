//! The types of variables.

ghost use Rattle.std.specs.Prelude.{◌≡◌};
ghost use Rattle.osil_grammar.specs.Meaning as meaning;
ghost use Rattle.osil_grammar.specs.Meaning.{IsEndAt};
ghost use Rattle.osil_grammar.specs.Grammars.{nought};

use fraction::{End, Frac};
use std::cmp::Ordering;

/// 0, which a number is that isn't said.
pub(crate) fn zero() -> Frac
    ensures { result ≡ nought }
{
    Frac::ZERO
}

/// Which values a variable may have.
#[derive(Clone, Copy, PartialEq, Eq)]
pub(crate) enum Domain {
    Continuous,
    Integer,
    Binary,
    SemiContinuous,
    SemiInteger,
}

/// The greater of a lower end and 0.
pub(crate) fn raised(lb: End) -> End
    ensures { IsEndAt result (meaning.raised lb) }
{
    let End::At(x) = lb else {
        return End::At(Frac::ZERO);
    };
    if x.cmp(&Frac::ZERO) == Ordering::Less {
        End::At(Frac::ZERO)
    } else {
        lb
    }
}

/// The lesser of an upper end and 1.
pub(crate) fn lowered(ub: End) -> End
    ensures { IsEndAt result (meaning.lowered ub) }
{
    let End::At(x) = ub else {
        return End::At(Frac::ONE);
    };
    if Frac::ONE.cmp(&x) == Ordering::Less {
        End::At(Frac::ONE)
    } else {
        ub
    }
}
