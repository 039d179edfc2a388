//! Whether multipliers of rows alone show what a leaf should. What they leave of the sum that is wanted at a variable is the
//! variable's own multiplier: each is made, asked for its end and added in one pass, and none is kept.
ghost use Rattle.std.specs.Prelude.{◌≡◌, ◌↔◌, ◌<◌, ℕ, pos, List, length, IsTrue, IsSome, IfOk, OnOk, IfErr, MatchOption};
ghost use Rattle.fraction.specs.Frac.{ratio};
ghost use Rattle.rational.specs.Ratio.{IsSame};
ghost use Rattle.evidence.specs.Instance.{IsInstance, width};
ghost use Rattle.evidence.specs.Cases.{end_of, left_at, or_none, AreLegal, AreOfRows};
ghost use Rattle.instance.specs.Program.{limit};
ghost use Rattle.certificate.specs.Meanings.{multipliers};
ghost use Rattle.case_tree.specs.Cuts.{cut};
ghost use Rattle.cert_checker.specs.Cuts as Of;
ghost use Rattle.cert_checker.specs.Leaves as Leaf;
ghost use Rattle.cert_checker.specs.RowLeaves.{own, all_of, LeftFits, LeftsBelow, LeftRefuses, RowsStand, RowsRefuse, RowLeafHolds, RowLeafRefuses, BoundRowsHold, BoundRowsRefuse, GridRowsHold, GridRowsRefuse, GridRowLeafHolds, GridRowLeafRefuses};
ghost use Rattle.cert_checker.specs.Slots.{slot_at, HoldsTotal, HoldsSum, HoldsLow};

use crate::at_hand::Program;
use crate::columns::{end_by, ends_of};
use crate::forms::{add_columns, wanted};
use crate::grids::{check_step, check_value};
use crate::pairs::first_illegal;
use crate::refused::Unshown;
use crate::slots::plus;
use crate::sums::{low_sum, or_zero, reaches, start_of};
use case_tree::Cut;
use certificate::Mult;
use fraction::{End, Frac};
use instance::zero;

/// Whether legal multipliers are those of rows: the first one is.
pub(crate) fn are_rows(program: &Program, cuts: &[Cut], mults: &[Mult]) -> bool
    requires count { length cuts.now ≡ width program.now }
    requires legal { AreLegal (cut program.now cuts.now) (multipliers mults.now) }
    ensures { IsTrue result ↔ AreOfRows (cut program.now cuts.now) (multipliers mults.now) }
{
    mults.is_empty() || mults[0].col as usize >= program.vars().len()
}

/// What the rows leave of the sum that is wanted at a variable; none where it, or theirs, doesn't fit.
fn left_of(
    program: &Program,
    cuts: &[Cut],
    slot: Option<Frac>,
    mults: &[Mult],
    aim: Option<Frac>,
    j: usize,
) -> Option<Frac>
    requires numbers { IsInstance program.now }
    requires sum { HoldsSum (cut program.now cuts.now) (multipliers mults.now) j (length mults.now) slot }
    ensures { MatchOption result (LeftFits (cut program.now cuts.now) (multipliers mults.now) (Of.aim aim) j → ⊥) (λ l. LeftFits (cut program.now cuts.now) (multipliers mults.now) (Of.aim aim) j × IsSame (ratio l) (left_at (cut program.now cuts.now) (Leaf.wanted (cut program.now cuts.now) (Of.aim aim)) (multipliers mults.now) j)) }
{
    match slot {
        None => None,
        Some(sum) => match wanted(program, aim, j).sub(sum) {
            Ok(left) => Some(left),
            Err(_) => None,
        },
    }
}

/// Whether nothing is left, or the end is finite.
pub(crate) fn has_end(end: End, left: Frac) -> bool
    ensures { IsTrue result ↔ ((left.numer ≡ pos 0 → ⊥) → IsSome (limit end)) }
{
    left.numer == 0 || matches!(end, End::At(_))
}

/// A start and the ends of variables, each times what is left there; none where that doesn't fit.
fn add_lefts(
    program: &Program,
    cuts: &[Cut],
    slots: &[Option<Frac>],
    mults: &[Mult],
    aim: Option<Frac>,
    start: Frac,
    node: u32,
) -> Result<Option<Frac>, Unshown>
    requires count { length cuts.now ≡ width program.now }
    requires numbers { IsInstance program.now }
    requires room { length slots.now ≡ length cuts.now }
    requires sums { (j : ℕ) → j < length cuts.now → HoldsSum (cut program.now cuts.now) (multipliers mults.now) j (length mults.now) (slot_at slots.now j) }
    ensures lefts { IfOk result (λ low. LeftsBelow (cut program.now cuts.now) (multipliers mults.now) (Of.aim aim) (length cuts.now)) }
    ensures low { IfOk result (HoldsTotal (ratio start) (length cuts.now) (λ j. left_at (cut program.now cuts.now) (Leaf.wanted (cut program.now cuts.now) (Of.aim aim)) (multipliers mults.now) j) (λ j. or_none (end_of (cut program.now cuts.now) (own (cut program.now cuts.now) (multipliers mults.now) (Of.aim aim) j)))) }
    ensures err { IfErr result (LeftRefuses (cut program.now cuts.now) (multipliers mults.now) (Of.aim aim) node) }
{
    let count = program.vars().len();
    let mut low = Some(start);
    for j in 0..count {
        match left_of(program, cuts, slots[j], mults, aim, j) {
            None => return Err(Unshown::Wide { node }),
            Some(left) => {
                let end = end_by(ends_of(program, cuts, j), left);
                if !has_end(end, left) {
                    return Err(Unshown::Sign {
                        node,
                        col: j as u32,
                    });
                }
                low = plus(low, left, or_zero(end));
            }
        }
    }
    Ok(low)
}

/// A sum and the rows' ends, each times its multiplier; none where that doesn't fit.
pub(crate) fn add_rows(
    program: &Program,
    cuts: &[Cut],
    mults: &[Mult],
    low: Option<Frac>,
) -> Option<Frac>
    requires count { length cuts.now ≡ width program.now }
    requires numbers { IsInstance program.now }
    requires legal { AreLegal (cut program.now cuts.now) (multipliers mults.now) }
    ensures some { (s : Frac) → low ≡ Some s → HoldsLow (cut program.now cuts.now) (ratio s) (multipliers mults.now) result }
    ensures none { low ≡ None → result ≡ None }
{
    match low {
        None => None,
        Some(sum) => match low_sum(program, cuts, mults, sum) {
            Ok(all) => Some(all),
            Err(_) => None,
        },
    }
}

/// The sum of all ends from a start, each times its multiplier, where the multipliers are of rows and are completed; none where it
/// doesn't fit.
fn complete(
    program: &Program,
    cuts: &[Cut],
    slots: &mut [Option<Frac>],
    mults: &[Mult],
    aim: Option<Frac>,
    start: Frac,
    node: u32,
) -> Result<Option<Frac>, Unshown>
    requires count { length cuts.now ≡ width program.now }
    requires numbers { IsInstance program.now }
    requires room { length slots.old ≡ length cuts.now }
    ensures stand { IfOk result (λ low. RowsStand (cut program.now cuts.now) (multipliers mults.now) (Of.aim aim)) }
    ensures low { IfOk result (HoldsLow (cut program.now cuts.now) (ratio start) (all_of (cut program.now cuts.now) (multipliers mults.now) (Of.aim aim))) }
    ensures err { IfErr result (RowsRefuse (cut program.now cuts.now) (multipliers mults.now) (Of.aim aim) node) }
{
    if let Some(col) = first_illegal(program, cuts, mults) {
        return Err(Unshown::Sign { node, col });
    }
    if !are_rows(program, cuts, mults) {
        return Err(Unshown::Sign {
            node,
            col: mults[0].col,
        });
    }
    add_columns(program, cuts, slots, mults);
    let low = add_lefts(program, cuts, slots, mults, aim, start, node)?;
    Ok(add_rows(program, cuts, mults, low))
}

/// Whether the completed multipliers show that no point is better than the value that is aimed at; without one, that none is
/// feasible.
pub(crate) fn check_row_leaf(
    program: &Program,
    cuts: &[Cut],
    slots: &mut [Option<Frac>],
    mults: &[Mult],
    aim: Option<Frac>,
    node: u32,
) -> Result<(), Unshown>
    requires count { length cuts.now ≡ width program.now }
    requires numbers { IsInstance program.now }
    requires room { length slots.old ≡ length cuts.now }
    ensures ok { OnOk result (RowLeafHolds (cut program.now cuts.now) (multipliers mults.now) (Of.aim aim)) }
    ensures err { IfErr result (RowLeafRefuses (cut program.now cuts.now) (multipliers mults.now) (Of.aim aim) node) }
{
    let start = start_of(program, aim);
    let low = complete(program, cuts, slots, mults, aim, start, node)?;
    match low {
        None => Err(Unshown::Wide { node }),
        Some(sum) => {
            if reaches(aim, sum) {
                Ok(())
            } else {
                Err(Unshown::Sum { node })
            }
        }
    }
}

/// Whether a value is aimed at, and the completed multipliers show that no point is better.
pub(crate) fn check_bound_rows(
    program: &Program,
    cuts: &[Cut],
    slots: &mut [Option<Frac>],
    mults: &[Mult],
    aim: Option<Frac>,
    node: u32,
) -> Result<(), Unshown>
    requires count { length cuts.now ≡ width program.now }
    requires numbers { IsInstance program.now }
    requires room { length slots.old ≡ length cuts.now }
    ensures ok { OnOk result (BoundRowsHold (cut program.now cuts.now) (multipliers mults.now) (Of.aim aim)) }
    ensures err { IfErr result (BoundRowsRefuse (cut program.now cuts.now) (multipliers mults.now) (Of.aim aim) node) }
{
    match aim {
        None => Err(Unshown::Tree { node }),
        Some(value) => check_row_leaf(program, cuts, slots, mults, Some(value), node),
    }
}

/// Whether the completed multipliers show, on a grid with this step, that no point is better than the value that is aimed at.
fn check_grid_rows(
    program: &Program,
    cuts: &[Cut],
    slots: &mut [Option<Frac>],
    mults: &[Mult],
    step: Frac,
    aim: Frac,
    node: u32,
) -> Result<(), Unshown>
    requires count { length cuts.now ≡ width program.now }
    requires numbers { IsInstance program.now }
    requires room { length slots.old ≡ length cuts.now }
    ensures ok { OnOk result (GridRowsHold (cut program.now cuts.now) (ratio step) (multipliers mults.now) (ratio aim)) }
    ensures err { IfErr result (GridRowsRefuse (cut program.now cuts.now) (ratio step) (multipliers mults.now) (ratio aim) node) }
{
    let low = complete(program, cuts, slots, mults, Some(aim), zero(), node)?;
    check_step(program, cuts, step, node)?;
    match low {
        None => Err(Unshown::Wide { node }),
        Some(sum) => check_value(program, sum, step, aim, node),
    }
}

/// Whether the leaf of rows shows its case: a value is aimed at, and on a grid with this step no point is better.
pub(crate) fn check_grid_row_leaf(
    program: &Program,
    cuts: &[Cut],
    slots: &mut [Option<Frac>],
    mults: &[Mult],
    step: Frac,
    aim: Option<Frac>,
    node: u32,
) -> Result<(), Unshown>
    requires count { length cuts.now ≡ width program.now }
    requires numbers { IsInstance program.now }
    requires room { length slots.old ≡ length cuts.now }
    ensures ok { OnOk result (GridRowLeafHolds (cut program.now cuts.now) (ratio step) (multipliers mults.now) (Of.aim aim)) }
    ensures err { IfErr result (GridRowLeafRefuses (cut program.now cuts.now) (ratio step) (multipliers mults.now) (Of.aim aim) node) }
{
    match aim {
        None => Err(Unshown::Tree { node }),
        Some(value) => check_grid_rows(program, cuts, slots, mults, step, value, node),
    }
}
