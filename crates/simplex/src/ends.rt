//! The ends of a column, and what they leave it.
ghost use Rattle.std.specs.Prelude.{◌≡◌, ◌↔◌, IsTrue, pos, ◌<ℤ◌, MatchOption, Some};
ghost use Rattle.fraction.specs.Frac.{ratio};
ghost use Rattle.evidence.specs.Sums.{is_below};
ghost use Rattle.evidence.specs.Cases.{IsEmpty};
ghost use Rattle.simplex_rules.specs.Statuses.{has_width};
ghost use Rattle.simplex_rules.specs.Turns.{Can};
ghost use Rattle.simplex.specs.Cuts.{range_of};
ghost use Rattle.simplex.specs.Signs.{moves_by};

use fraction::{End, Frac};
use simplex_rules::{Status, Way};
use std::cmp::Ordering;

/// The lower and the upper end of a column.
#[derive(Clone, Copy, PartialEq, Eq)]
pub struct Ends {
    pub lb: End,
    pub ub: End,
}

/// Whether the first number is below the second.
pub fn is_less(x: Frac, y: Frac) -> bool
    ensures { result ≡ is_below (ratio x) (ratio y) }
{
    matches!(x.cmp(&y), Ordering::Less)
}

/// Whether the lower end is above the upper one.
pub fn is_empty(e: Ends) -> bool
    ensures { IsTrue result ↔ IsEmpty (range_of e) }
{
    match e.lb {
        End::At(l) => match e.ub {
            End::At(h) => is_less(h, l),
            _ => false,
        },
        _ => false,
    }
}

/// Whether the ends differ.
pub fn has_width(e: Ends) -> bool
    ensures { result ≡ has_width (range_of e) }
{
    match e.lb {
        End::At(l) => match e.ub {
            End::At(h) => is_less(l, h),
            _ => true,
        },
        _ => true,
    }
}

/// Whether a column can move this way from where it stands.
fn can(e: Ends, status: Status, way: Way) -> bool
    ensures { IsTrue result ↔ Can way (range_of e) status }
{
    match way {
        Way::Rise => match status {
            Status::Basic => false,
            Status::Lower => has_width(e),
            Status::Upper => false,
            Status::Zero => true,
        },
        Way::Fall => match status {
            Status::Basic => false,
            Status::Lower => false,
            Status::Upper => true,
            Status::Zero => true,
        },
    }
}

/// Whether a column whose entry at the moving one has this sign moves as wanted.
fn moves(wanted: Way, way: Way, entry: i64) -> bool
    ensures { result ≡ moves_by wanted way entry }
{
    match wanted {
        Way::Rise => match way {
            Way::Rise => entry > 0,
            Way::Fall => entry < 0,
        },
        Way::Fall => match way {
            Way::Rise => entry < 0,
            Way::Fall => entry > 0,
        },
    }
}

/// The way in which a column that isn't basic moves another one as wanted.
pub fn help(e: Ends, status: Status, wanted: Way, entry: i64) -> Option<Way>
    ensures { MatchOption result ((v : Way) → Can v (range_of e) status → IsTrue (moves_by wanted v entry) → ⊥) (λ v. Can v (range_of e) status × IsTrue (moves_by wanted v entry)) }
{
    if moves(wanted, Way::Rise, entry) && can(e, status, Way::Rise) {
        return Some(Way::Rise);
    }
    if moves(wanted, Way::Fall, entry) && can(e, status, Way::Fall) {
        return Some(Way::Fall);
    }
    None
}
