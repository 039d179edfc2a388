//! Whether multipliers show a bound on the goal's grid.
ghost use Rattle.std.specs.Prelude.{◌≡◌, ◌↔◌, ℕ, ℤ, List, length, IsTrue, Some, OnOk, IfErr, MatchOption, pos, ◌<ℤ◌};
ghost use Rattle.fraction.specs.Frac.{ratio};
ghost use Rattle.evidence.specs.Sums.{none, IsCeiling, IsMultiple};
ghost use Rattle.rational.specs.Ratio.{Ratio, IsNumber, IsBelow, IsSame, whole};
ghost use Rattle.evidence.specs.Instance.{Instance, IsInstance, width, cost_at, minimising};
ghost use Rattle.evidence.specs.Cases.{Multiplier, AreLegal, IsGrid};
ghost use Rattle.evidence.specs.Width.{LeafFits, StepsFit};
ghost use Rattle.certificate.specs.Meanings.{multipliers};
ghost use Rattle.case_tree.specs.declared.cuts.Cut as tree;
ghost use Rattle.case_tree.specs.Cuts.{cut};
ghost use Rattle.cert_checker.specs.Cuts as Of;
ghost use Rattle.cert_checker.specs.Grids.{IsLow, StepsBelow, IsFirstOff, StepRefuses, StepsRefuse, GridFits, ReachesInSteps, GridHolds, GridRefuses, GridLeafHolds, GridLeafRefuses};

use crate::at_hand::Program;
use crate::forms::check_forms;
use crate::pairs::first_illegal;
use crate::refused::Unshown;
use crate::rounds::ceiling;
use crate::sums::low_sum;
use case_tree::{Cut, is_at_most, whole};
use certificate::Mult;
use fraction::Frac;
use instance::{add_product, zero};

/// Whether the cost is a whole multiple of the step: both are in lowest terms, so the numerator is one of the step's, and the step's
/// denominator one of the cost's.
fn is_multiple(cost: Frac, step: Frac) -> bool
    requires { pos 0 <ℤ step.numer }
    ensures { IsTrue result ↔ IsMultiple (ratio step) (ratio cost) }
{
    let size = step.numer.unsigned_abs();
    cost.numer.unsigned_abs() % size == 0 && step.denom % cost.denom == 0
}

/// The least whole number that isn't below the fraction, as a fraction.
fn rounded_up(x: Frac) -> Frac
    ensures { (k : ℤ) × IsCeiling (ratio x) k × (ratio result ≡ whole k) }
{
    let steps = ceiling(x);
    whole(steps)
}

/// Whether a low sum, rounded up to a whole number of steps, reaches the value that is aimed at. It is that of any multipliers.
pub(crate) fn check_value(
    program: &Program,
    low: Frac,
    step: Frac,
    aim: Frac,
    node: u32,
) -> Result<(), Unshown>
    requires above { pos 0 <ℤ step.numer }
    ensures fits { OnOk result ((cs : List tree.Cut) (ms : List Multiplier) → IsLow (cut program.now cs) ms (ratio low) → GridFits (cut program.now cs) (ratio step) ms) }
    ensures ok { OnOk result ((cs : List tree.Cut) (ms : List Multiplier) → IsLow (cut program.now cs) ms (ratio low) → ReachesInSteps (cut program.now cs) (ratio step) ms (ratio aim)) }
    ensures err { IfErr result (λ r. (cs : List tree.Cut) (ms : List Multiplier) → IsLow (cut program.now cs) ms (ratio low) → StepsRefuse (cut program.now cs) (ratio step) ms (ratio aim) node r) }
{
    match low.div(step) {
        Err(_) => Err(Unshown::Wide { node }),
        Ok(steps) => {
            match add_product(program.constant(), rounded_up(steps), step) {
                Err(_) => Err(Unshown::Wide { node }),
                Ok(value) => {
                    if is_at_most(aim, value) {
                        Ok(())
                    } else {
                        Err(Unshown::Sum { node })
                    }
                }
            }
        }
    }
}

/// Whether the low sum, rounded up to a whole number of steps, reaches the value that is aimed at.
fn check_steps(
    program: &Program,
    cuts: &[Cut],
    mults: &[Mult],
    step: Frac,
    aim: Frac,
    node: u32,
) -> Result<(), Unshown>
    requires count { length cuts.now ≡ width program.now }
    requires numbers { IsInstance program.now }
    requires legal { AreLegal (cut program.now cuts.now) (multipliers mults.now) }
    requires above { pos 0 <ℤ step.numer }
    ensures fits { OnOk result (GridFits (cut program.now cuts.now) (ratio step) (multipliers mults.now)) }
    ensures ok { OnOk result (ReachesInSteps (cut program.now cuts.now) (ratio step) (multipliers mults.now) (ratio aim)) }
    ensures err { IfErr result (StepsRefuse (cut program.now cuts.now) (ratio step) (multipliers mults.now) (ratio aim) node) }
{
    match low_sum(program, cuts, mults, zero()) {
        Err(_) => Err(Unshown::Wide { node }),
        Ok(low) => check_value(program, low, step, aim, node),
    }
}

/// Whether a variable's cost goes in the step: it is a whole multiple where the variable is whole, else 0.
fn goes_in_steps(program: &Program, cut: &Cut, step: Frac, j: usize) -> bool
    requires { pos 0 <ℤ step.numer }
    ensures { IsTrue result ↔ ((IsTrue cut.now.var.whole → IsMultiple (ratio step) (minimising program.now (cost_at program.now j))) × ((IsTrue cut.now.var.whole → ⊥) → IsSame (minimising program.now (cost_at program.now j)) none)) }
{
    let cost = program.cost_at(j);
    if cut.var.whole {
        is_multiple(cost, step)
    } else {
        cost.numer == 0
    }
}

/// The first variable whose cost doesn't go in the step.
fn first_off(program: &Program, cuts: &[Cut], step: Frac) -> Option<u32>
    requires count { length cuts.now ≡ width program.now }
    requires above { pos 0 <ℤ step.numer }
    ensures { MatchOption result (StepsBelow (cut program.now cuts.now) (ratio step) (length cuts.now)) (IsFirstOff (cut program.now cuts.now) (ratio step)) }
{
    let count = program.vars().len();
    for j in 0..count {
        if !goes_in_steps(program, &cuts[j], step, j) {
            return Some(j as u32);
        }
    }
    None
}

/// Whether the goal goes in the step, which is above 0.
pub(crate) fn check_step(
    program: &Program,
    cuts: &[Cut],
    step: Frac,
    node: u32,
) -> Result<(), Unshown>
    requires { length cuts.now ≡ width program.now }
    ensures above { OnOk result (IsBelow none (ratio step)) }
    ensures costs { OnOk result (StepsBelow (cut program.now cuts.now) (ratio step) (length cuts.now)) }
    ensures err { IfErr result (StepRefuses (cut program.now cuts.now) (ratio step) node) }
{
    if step.numer <= 0 {
        let col = program.vars().len() as u32;
        return Err(Unshown::Step { node, col });
    }
    match first_off(program, cuts, step) {
        Some(col) => Err(Unshown::Step { node, col }),
        None => Ok(()),
    }
}

/// Whether the multipliers show, on a grid with this step, that no point is better than the value that is aimed at.
fn check_grid(
    program: &Program,
    cuts: &[Cut],
    slots: &mut [Option<Frac>],
    mults: &[Mult],
    step: Frac,
    aim: Frac,
    node: u32,
) -> Result<(), Unshown>
    requires count { length cuts.now ≡ width program.now }
    requires numbers { IsInstance program.now }
    requires room { length slots.old ≡ length cuts.now }
    ensures ok { OnOk result (GridHolds (cut program.now cuts.now) (ratio step) (multipliers mults.now) (ratio aim)) }
    ensures err { IfErr result (GridRefuses (cut program.now cuts.now) (ratio step) (multipliers mults.now) (ratio aim) node) }
{
    if let Some(col) = first_illegal(program, cuts, mults) {
        return Err(Unshown::Sign { node, col });
    }
    check_forms(program, cuts, slots, mults, Some(aim), node)?;
    check_step(program, cuts, step, node)?;
    check_steps(program, cuts, mults, step, aim, node)
}

/// Whether the leaf shows its case: a value is aimed at, and on a grid with this step the multipliers show that no point is
/// better.
pub(crate) fn check_grid_leaf(
    program: &Program,
    cuts: &[Cut],
    slots: &mut [Option<Frac>],
    mults: &[Mult],
    step: Frac,
    aim: Option<Frac>,
    node: u32,
) -> Result<(), Unshown>
    requires count { length cuts.now ≡ width program.now }
    requires numbers { IsInstance program.now }
    requires room { length slots.old ≡ length cuts.now }
    ensures ok { OnOk result (GridLeafHolds (cut program.now cuts.now) (ratio step) (multipliers mults.now) (Of.aim aim)) }
    ensures err { IfErr result (GridLeafRefuses (cut program.now cuts.now) (ratio step) (multipliers mults.now) (Of.aim aim) node) }
{
    match aim {
        None => Err(Unshown::Tree { node }),
        Some(value) => check_grid(program, cuts, slots, mults, step, value, node),
    }
}

/// What is checked is what the definition asks: the leaf is a grid, by sums that fit.
pub fn checked_grids_are_grids()
    ensures { (I : Instance) (g : Ratio) (ms : List Multiplier) (z : Ratio) → IsNumber g → GridHolds I g ms z ↔ (IsGrid I g ms z × LeafFits I none ms × StepsFit I g ms) }
{}
