//! Whether multipliers are legal.
ghost use Rattle.std.specs.Prelude.{◌≡◌, ◌↔◌, ◌+◌, ◌<◌, ℕ, length, IsTrue, IsSome, MatchOption};
ghost use Rattle.evidence.specs.Instance.{width, height};
ghost use Rattle.evidence.specs.Cases.{multiplier_at, end_of, AreLegal};
ghost use Rattle.certificate.specs.Meanings.{multipliers};
ghost use Rattle.case_tree.specs.Cuts.{cut};
ghost use Rattle.cert_checker.specs.Leaves.{IsPair, IsFirstIllegal};

use crate::at_hand::Program;
use crate::columns::{end_by, ends_of};
use case_tree::Cut;
use certificate::Mult;
use fraction::End;

/// Whether the multiplier has a finite end on its side.
fn has_end(program: &Program, cuts: &[Cut], mults: &[Mult], k: usize) -> bool
    requires place { k < length mults.now }
    requires count { length cuts.now ≡ width program.now }
    requires column { (multiplier_at (multipliers mults.now) k).column < length cuts.now + height program.now }
    ensures { IsTrue result ↔ IsSome (end_of (cut program.now cuts.now) (multiplier_at (multipliers mults.now) k)) }
{
    let mult = mults[k];
    let ends = ends_of(program, cuts, mult.col as usize);
    matches!(end_by(ends, mult.value), End::At(_))
}

/// Whether the multiplier's column comes after the one before it.
fn is_after(mults: &[Mult], k: usize) -> bool
    requires { k < length mults.now }
    ensures { IsTrue result ↔ ((l : ℕ) → l + 1 ≡ k → (multiplier_at (multipliers mults.now) l).column < (multiplier_at (multipliers mults.now) k).column) }
{
    k == 0 || mults[k - 1].col < mults[k].col
}

/// Whether the multiplier at this place is legal.
fn is_pair(program: &Program, cuts: &[Cut], mults: &[Mult], k: usize) -> bool
    requires place { k < length mults.now }
    requires count { length cuts.now ≡ width program.now }
    ensures { IsTrue result ↔ IsPair (cut program.now cuts.now) (multipliers mults.now) k }
{
    let mult = mults[k];
    let cols = cuts.len() + program.height();
    if mult.col as usize >= cols || !is_after(mults, k) || mult.value.numer == 0 {
        return false;
    }
    has_end(program, cuts, mults, k)
}

/// The column of the first multiplier that isn't legal.
pub(crate) fn first_illegal(program: &Program, cuts: &[Cut], mults: &[Mult]) -> Option<u32>
    requires { length cuts.now ≡ width program.now }
    ensures { MatchOption result (AreLegal (cut program.now cuts.now) (multipliers mults.now)) (IsFirstIllegal (cut program.now cuts.now) (multipliers mults.now)) }
{
    for k in 0..mults.len() {
        if !is_pair(program, cuts, mults, k) {
            return Some(mults[k].col);
        }
    }
    None
}
