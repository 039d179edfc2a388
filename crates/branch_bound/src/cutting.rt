//! The rounding cut of a best point's basis.
ghost use Rattle.std.specs.Prelude.{◌≡◌, ◌⊎◌, ◌<◌, ◌≤◌, ◌+◌, ◌^◌, pos, true, false, Some, length, IsTrue, MatchOption, IfOk, OnErr};
ghost use Rattle.evidence.specs.Instance as Of;
ghost use Rattle.evidence.specs.Cases.{AreLegal};
ghost use Rattle.fraction.specs.Frac.{ratio};
ghost use Rattle.bases.specs.Program.{goal_column};
ghost use Rattle.certificate.specs.Meanings.{multipliers};
ghost use Rattle.instance.specs.Program.{program};
ghost use Rattle.case_tree.specs.Cuts.{cut};
ghost use Rattle.cert_checker.specs.Programs.{with_rows, AreUncut};
ghost use Rattle.simplex_rules.specs.Ends.{End};
ghost use Rattle.simplex_rules.specs.declared.columns.Status.TheVariants.{Zero};
ghost use Rattle.simplex_rules.specs.Statuses.{status_at, basic_in};
ghost use Rattle.simplex.specs.Answers.{side_of};
ghost use Rattle.simplex.specs.Memory.{width_in, height_in, point_of, statuses_in, entries_in, IsAtBasis};
ghost use Rattle.search_rules.specs.Cuts.{IsFractional, IsLeftOver, LeftFits, TriesMultipliers, TriesEquation, TriesBasis};
ghost use Rattle.search_rules.specs.Branching.{IsWholeBelow};
ghost use Rattle.branch_bound.specs.Trials.{status_of, tried, LeavesOf, HoldsCut, RanTo};

use crate::open::is_fractional;
use crate::points::{add, coordinate};
use case_tree::{Cut, whole};
use cert_checker::{Added, ceiling, round_sum};
use certificate::Mults;
use dictionary::Steps;
use fraction::{Frac, Wide};
use instance::{Instance, zero};
use simplex::{Side, Work};
use std::alloc::{AllocError, Global};
use std::sync::ledger::Ledger;

/// What comes of trying a cut: none; a number that doesn't fit; or the multipliers of a cut, with its lower end.
#[derive(Drop)]
pub enum Trial {
    NoCut,
    WideCut,
    Cut { mults: Mults, low: i128 },
}

/// The multipliers of an equation: a number doesn't fit, something is left at a column that stands at 0, or these.
#[derive(Drop)]
enum Left {
    Wide,
    AtZero,
    Mults(Mults),
}

/// The least whole variable whose value at the run's point isn't whole.
fn first_fractional<L: Ledger>(work: &Work<L>, cuts: &[Cut]) -> Option<u32>
    requires width { width_in work.now ≡ length cuts.now }
    requires few { length cuts.now < 2 ^ 32 }
    ensures { (I : Of.Instance) → MatchOption result (IsWholeBelow (cut I cuts.now) (point_of work.now) (Of.width (cut I cuts.now))) (IsFractional (cut I cuts.now) (point_of work.now)) }
{
    for j in 0..cuts.len() {
        let col = j as u32;
        let cut = cuts[j];
        if is_fractional(cut.var, coordinate(work, col)) {
            return Some(col);
        }
    }
    None
}

/// What is left of an entry: at the lower end of its column, less its floor; at the upper one, less its ceiling; at 0, all of it.
fn left_of(side: Side, entry: Frac) -> Result<Frac, Wide>
    ensures ok { IfOk result (λ left. IsLeftOver (status_of side) (ratio entry) (ratio left)) }
    ensures fits { IfOk result (λ _. LeftFits (status_of side) (ratio entry)) }
    ensures wide { OnErr result (LeftFits (status_of side) (ratio entry) → ⊥) }
{
    match side {
        Side::Lower => entry.sub(whole(entry.floor())),
        Side::Upper => entry.sub(whole(ceiling(entry))),
        Side::Zero => Ok(entry),
    }
}

/// What is left of the entry of a column that stands so, in a basic variable's equation.
fn left_beside<L: Ledger>(
    work: &Work<L>,
    variable: u32,
    col: u32,
    side: Side,
    steps: &mut Steps<L>,
) -> Result<Frac, Wide>
    requires stands { IsAtBasis work.now }
    requires row { variable < width_in work.now + height_in work.now }
    requires column { col < width_in work.now + height_in work.now }
    requires basic { basic_in (statuses_in work.now) variable ≡ true }
    requires side { Some side ≡ side_of (status_at (statuses_in work.now) col) }
    ensures ok { IfOk result (λ left. IsLeftOver (status_at (statuses_in work.now) col) (entries_in work.now variable col) (ratio left)) }
    ensures fits { IfOk result (λ _. LeftFits (status_at (statuses_in work.now) col) (entries_in work.now variable col)) }
    ensures wide { OnErr result (LeftFits (status_at (statuses_in work.now) col) (entries_in work.now variable col) → ⊥) }
{
    match work.entry_at(variable, col, steps) {
        Some(entry) => left_of(side, entry),
        None => Ok(zero()),
    }
}

/// What is left of the entry of a column in a basic variable's equation, 0 where that column is basic.
fn left_at<L: Ledger>(
    work: &Work<L>,
    variable: u32,
    col: u32,
    steps: &mut Steps<L>,
) -> Result<Frac, Wide>
    requires stands { IsAtBasis work.now }
    requires row { variable < width_in work.now + height_in work.now }
    requires column { col < width_in work.now + height_in work.now }
    requires basic { basic_in (statuses_in work.now) variable ≡ true }
    ensures ok { IfOk result (λ left. IsLeftOver (status_at (statuses_in work.now) col) (entries_in work.now variable col) (ratio left)) }
    ensures fits { IfOk result (λ _. LeftFits (status_at (statuses_in work.now) col) (entries_in work.now variable col)) }
    ensures wide { OnErr result (LeftFits (status_at (statuses_in work.now) col) (entries_in work.now variable col) → ⊥) }
{
    match work.side_at(col) {
        Some(side) => left_beside(work, variable, col, side, steps),
        None => Ok(zero()),
    }
}

/// Whether something was left at a column that stands at 0, or this number is left at this one, which does.
fn is_left_at_zero<L: Ledger>(work: &Work<L>, col: u32, left: Frac, before: bool) -> bool
    ensures yes { IsTrue result → IsTrue before ⊎ ((status_at (statuses_in work.now) col ≡ Zero) × (left.numer ≡ pos 0 → ⊥)) }
    ensures no { result ≡ false → (before ≡ false) × (status_at (statuses_in work.now) col ≡ Zero → left.numer ≡ pos 0) }
{
    before || left.numer != 0 && matches!(work.side_at(col), Some(Side::Zero))
}

/// What is left of a basic variable's equation, where it isn't 0, in ascending order of the columns.
fn left_mults<L: Ledger>(
    alloc: Global,
    work: &Work<L>,
    variable: u32,
    columns: u32,
    steps: &mut Steps<L>,
) -> Result<Left, AllocError>
    requires stands { IsAtBasis work.now }
    requires row { variable < width_in work.now + height_in work.now }
    requires columns { columns ≡ width_in work.now + height_in work.now }
    requires basic { basic_in (statuses_in work.now) variable ≡ true }
    ensures { IfOk result (λ left. (I : Of.Instance) → goal_column I ≡ columns → LeavesOf I (statuses_in work.now) (entries_in work.now) variable left) }
{
    let mut mults = Mults::new(alloc);
    let mut is_at_zero = false;
    for col in 0..columns {
        let value = match left_at(work, variable, col, steps) {
            Ok(value) => value,
            Err(_) => return Ok(Left::Wide),
        };
        is_at_zero = is_left_at_zero(work, col, value, is_at_zero);
        add(&mut mults, col, value)?;
    }
    if is_at_zero {
        return Ok(Left::AtZero);
    }
    Ok(Left::Mults(mults))
}

/// What comes of trying these multipliers, over an instance with the rows of the cuts before; the slots have the cut's coefficients.
fn try_mults(
    instance: &Instance,
    rows: &[Added],
    cuts: &[Cut],
    slots: &mut [Option<Frac>],
    mults: Mults,
) -> Trial
    requires uncut { AreUncut (program instance.now) cuts.now }
    requires room { length slots.old ≡ length cuts.now }
    requires legal { AreLegal (with_rows (program instance.now) rows.now) (multipliers mults) }
    ensures tries { TriesMultipliers (with_rows (program instance.now) rows.now) (multipliers mults) (tried result slots.new) }
    ensures holds { HoldsCut (length cuts.now) result slots.new }
{
    match round_sum(instance, rows, cuts, slots, mults.as_slice()) {
        Err(_) => Trial::WideCut,
        Ok(None) => Trial::NoCut,
        Ok(Some(sum)) => {
            if sum.is_whole() {
                Trial::NoCut
            } else {
                let low = ceiling(sum);
                Trial::Cut { mults, low }
            }
        }
    }
}

/// Tries a cut of a basic variable's equation.
fn try_equation<L: Ledger>(
    alloc: Global,
    instance: &Instance,
    work: &Work<L>,
    rows: &[Added],
    cuts: &[Cut],
    slots: &mut [Option<Frac>],
    variable: u32,
    steps: &mut Steps<L>,
) -> Result<Trial, AllocError>
    requires stands { IsAtBasis work.now }
    requires width { width_in work.now ≡ length cuts.now }
    requires height { height_in work.now ≡ length instance.now.rows + length rows.now }
    requires few { width_in work.now + height_in work.now < 2 ^ 32 }
    requires uncut { AreUncut (program instance.now) cuts.now }
    requires room { length slots.old ≡ length cuts.now }
    requires ran { (e : End) × RanTo (with_rows (program instance.now) rows.now) e work.now }
    requires inside { variable < width_in work.now }
    requires basic { basic_in (statuses_in work.now) variable ≡ true }
    ensures tries { IfOk result (λ trial. TriesEquation (with_rows (program instance.now) rows.now) (statuses_in work.now) (entries_in work.now) variable (tried trial slots.new)) }
    ensures holds { IfOk result (λ trial. HoldsCut (length cuts.now) trial slots.new) }
{
    let columns = (cuts.len() + (instance.rows().len() + rows.len())) as u32;
    match left_mults(alloc, work, variable, columns, steps) {
        Ok(Left::Wide) => Ok(Trial::WideCut),
        Ok(Left::AtZero) => Ok(Trial::NoCut),
        Ok(Left::Mults(mults)) => Ok(try_mults(instance, rows, cuts, slots, mults)),
        Err(error) => Err(error),
    }
}

/// Tries a cut at the run's last basis, of the least whole variable whose value isn't whole, where there is one and it is basic.
pub fn try_cut<L: Ledger>(
    alloc: Global,
    instance: &Instance,
    work: &Work<L>,
    rows: &[Added],
    cuts: &[Cut],
    slots: &mut [Option<Frac>],
    steps: &mut Steps<L>,
) -> Result<Trial, AllocError>
    requires stands { IsAtBasis work.now }
    requires width { width_in work.now ≡ length cuts.now }
    requires height { height_in work.now ≡ length instance.now.rows + length rows.now }
    requires few { width_in work.now + height_in work.now < 2 ^ 32 }
    requires uncut { AreUncut (program instance.now) cuts.now }
    requires room { length slots.old ≡ length cuts.now }
    requires ran { (e : End) × RanTo (with_rows (program instance.now) rows.now) e work.now }
    ensures tries { IfOk result (λ trial. TriesBasis (with_rows (program instance.now) rows.now) (point_of work.now) (statuses_in work.now) (tried trial slots.new)) }
    ensures holds { IfOk result (λ trial. HoldsCut (length cuts.now) trial slots.new) }
{
    match first_fractional(work, cuts) {
        Some(variable) => {
            if work.side_at(variable).is_some() {
                Ok(Trial::NoCut)
            } else {
                try_equation(alloc, instance, work, rows, cuts, slots, variable, steps)
            }
        }
        None => Ok(Trial::NoCut),
    }
}
