//! Whether numbers are between two ends.
ghost use Rattle.std.specs.Prelude.{◌≡◌, ◌↔◌, length, IsTrue, IfSome, MatchOption};
ghost use Rattle.rational.specs.Ratio.{IsAtMost};
ghost use Rattle.fraction.specs.Frac.{ratio};
ghost use Rattle.evidence.specs.Point.{IsBetween, IsZeroOr};
ghost use Rattle.evidence.specs.Columns.{Keeps};
ghost use Rattle.instance.specs.Program.{limit, range, variable};
ghost use Rattle.instance.specs.Feasibility.{IsZeroOrWithin, KeptBelow, IsFirstUnkept};

use crate::parts::Var;
use fraction::{End, Frac};
use std::cmp::Ordering;

fn is_at_most(x: &Frac, y: &Frac) -> bool
    ensures { IsTrue result ↔ IsAtMost (ratio x.now) (ratio y.now) }
{
    !matches!(x.cmp(y), Ordering::Greater)
}

/// Whether the number isn't below the end, where that is finite.
fn is_above(lb: End, x: Frac) -> bool
    ensures { IsTrue result ↔ IfSome (limit lb) (λ l. IsAtMost l (ratio x)) }
{
    match lb {
        End::At(l) => is_at_most(&l, &x),
        _ => true,
    }
}

/// Whether the number isn't above the end, where that is finite.
fn is_below(ub: End, x: Frac) -> bool
    ensures { IsTrue result ↔ IfSome (limit ub) (λ u. IsAtMost (ratio x) u) }
{
    match ub {
        End::At(u) => is_at_most(&x, &u),
        _ => true,
    }
}

/// Whether the number is between the ends.
pub fn is_between(lb: End, ub: End, x: Frac) -> bool
    ensures { IsTrue result ↔ IsBetween (range lb ub) (ratio x) }
{
    is_above(lb, x) && is_below(ub, x)
}

/// Whether the number is 0 or between the ends.
fn is_zero_or_between(lb: End, ub: End, x: Frac) -> bool
    ensures { IsTrue result ↔ IsZeroOr (range lb ub) (ratio x) }
{
    x.numer == 0 || is_between(lb, ub, x)
}

/// Whether the number is between the variable's ends, or 0 where it may be.
fn is_within(v: &Var, x: Frac) -> bool
    ensures { IsTrue result ↔ IsZeroOrWithin v.now.zero (range v.now.lb v.now.ub) (ratio x) }
{
    if v.zero {
        is_zero_or_between(v.lb, v.ub, x)
    } else {
        is_between(v.lb, v.ub, x)
    }
}

/// Whether the variable may have this value.
fn keeps(v: &Var, x: Frac) -> bool
    ensures { IsTrue result ↔ Keeps (variable v.now) (ratio x) }
{
    is_within(v, x) && (!v.whole || x.is_whole())
}

/// The first variable that may not have its value.
pub fn first_out(vars: &[Var], x: &[Frac]) -> Option<usize>
    requires { length x.now ≡ length vars.now }
    ensures { MatchOption result (KeptBelow vars.now x.now (length vars.now)) (IsFirstUnkept vars.now x.now) }
{
    for j in 0..vars.len() {
        if !keeps(&vars[j], x[j]) {
            return Some(j);
        }
    }
    None
}
