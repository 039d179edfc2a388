//! Variables whose ends are cut by a branch.
ghost use Rattle.std.specs.Prelude.{◌≡◌, ◌↔◌, pos, neg_ℤ, ◌≤ℤ◌, IsTrue};
ghost use Rattle.rational.specs.Width.{most};
ghost use Rattle.fraction.specs.Frac.{ratio};
ghost use Rattle.evidence.specs.Instance as Of;
ghost use Rattle.evidence.specs.Cases as Cases;
ghost use Rattle.evidence.specs.SemiVariables.{low_or_zero, high_or_zero};
ghost use Rattle.instance.specs.Program.{limit, row, variable};
ghost use Rattle.case_tree.specs.Cuts.{cut, cut_variable, first_range, second_range, with_ends, HasNext};

use crate::numbers::{is_below, whole};
use fraction::{End, Frac, MAX};
use instance::{Row, Var, zero};

/// A variable as a case has it: the ends of its column, and what it is in the instance.
#[derive(Clone, Copy, PartialEq, Eq)]
pub struct Cut {
    pub lb: End,
    pub ub: End,
    pub var: Var,
}

/// How a branch divides a variable's values: at most k or at least k + 1, or 0 or within its own ends.
#[derive(Clone, Copy, PartialEq, Eq)]
pub enum Division {
    Split(i128),
    Zero,
}

/// The upper end, or k where that is lower.
fn lesser_end(ub: End, k: Frac) -> End
    ensures { limit result ≡ Cases.lesser_end (limit ub) (ratio k) }
{
    match ub {
        End::At(end) => End::At(if is_below(k, end) { k } else { end }),
        _ => End::At(k),
    }
}

/// The lower end, or k where that is higher.
fn greater_end(lb: End, k: Frac) -> End
    ensures { limit result ≡ Cases.greater_end (limit lb) (ratio k) }
{
    match lb {
        End::At(end) => End::At(if is_below(end, k) { k } else { end }),
        _ => End::At(k),
    }
}

/// The lower end, or 0 where that is lower.
fn low_or_zero(lb: End) -> End
    ensures { limit result ≡ low_or_zero (limit lb) }
{
    match lb {
        End::At(_) => lesser_end(lb, zero()),
        _ => lb,
    }
}

/// The upper end, or 0 where that is higher.
fn high_or_zero(ub: End) -> End
    ensures { limit result ≡ high_or_zero (limit ub) }
{
    match ub {
        End::At(_) => greater_end(ub, zero()),
        _ => ub,
    }
}

/// The greater of two lower ends.
fn either_low(lb: End, other: End) -> End
    ensures { limit result ≡ Cases.either_low (limit lb) (limit other) }
{
    match other {
        End::At(k) => greater_end(lb, k),
        _ => lb,
    }
}

/// The lesser of two upper ends.
fn either_high(ub: End, other: End) -> End
    ensures { limit result ≡ Cases.either_high (limit ub) (limit other) }
{
    match other {
        End::At(k) => lesser_end(ub, k),
        _ => ub,
    }
}

/// The variable before any branch.
pub fn uncut(var: Var) -> Cut
    ensures { cut_variable result ≡ variable var }
{
    if var.zero {
        Cut {
            lb: low_or_zero(var.lb),
            ub: high_or_zero(var.ub),
            var,
        }
    } else {
        Cut {
            lb: var.lb,
            ub: var.ub,
            var,
        }
    }
}

/// The ends in the first case of a division.
pub fn first(ends: Row, by: Division) -> Row
    requires { HasNext by }
    ensures { (v : Of.Variable) → row result ≡ first_range by (record v { range = row ends }) }
{
    match by {
        Division::Split(k) => Row {
            lb: ends.lb,
            ub: lesser_end(ends.ub, whole(k)),
        },
        Division::Zero => Row {
            lb: greater_end(ends.lb, zero()),
            ub: lesser_end(ends.ub, zero()),
        },
    }
}

/// The ends in the second case of a division of this variable.
pub fn second(ends: Row, var: &Var, by: Division) -> Row
    requires { HasNext by }
    ensures { row result ≡ second_range by (cut_variable (record { lb = ends.lb; ub = ends.ub; var = var.now })) }
{
    match by {
        Division::Split(k) => Row {
            lb: greater_end(ends.lb, whole(k + 1)),
            ub: ends.ub,
        },
        Division::Zero if var.zero => Row {
            lb: either_low(ends.lb, var.lb),
            ub: either_high(ends.ub, var.ub),
        },
        Division::Zero => ends,
    }
}

/// The ends that a variable has.
pub fn ends_of(cut: &Cut) -> Row
    ensures { result ≡ record { lb = cut.now.lb; ub = cut.now.ub } }
{
    Row {
        lb: cut.lb,
        ub: cut.ub,
    }
}

/// Gives a variable these ends.
pub fn set_ends(cut: &mut Cut, ends: Row)
    ensures { cut.new ≡ with_ends cut.old ends }
{
    cut.lb = ends.lb;
    cut.ub = ends.ub;
}

/// Whether the column is a whole variable, and the number has a next one that fits.
pub fn is_branch(cuts: &[Cut], col: u32, k: i128) -> bool
    requires { neg_ℤ (pos most) ≤ℤ k }
    ensures { (I : Of.Instance) → IsTrue result ↔ Cases.IsBranch (cut I cuts.now) col k }
{
    let j = col as usize;
    j < cuts.len() && cuts[j].var.whole && k < MAX
}

/// Whether the column is a variable that may be 0.
pub fn is_zero_branch(cuts: &[Cut], col: u32) -> bool
    ensures { (I : Of.Instance) → IsTrue result ↔ Cases.IsZeroBranch (cut I cuts.now) col }
{
    let j = col as usize;
    j < cuts.len() && cuts[j].var.zero
}
