//! The sum of the ends, each times its multiplier.
ghost use Rattle.std.specs.Prelude.{◌≡◌, ◌↔◌, ◌<◌, List, length, IsTrue, IfOk, OnOk, OnErr, IfErr};
ghost use Rattle.rational.specs.Ratio.{IsSame};
ghost use Rattle.fraction.specs.Frac.{ratio};
ghost use Rattle.evidence.specs.Instance.{IsInstance, width};
ghost use Rattle.evidence.specs.Cases.{multiplier_at, end_of, or_none, AreLegal, low_sum};
ghost use Rattle.evidence.specs.Width.{LowFits};
ghost use Rattle.instance.specs.Program.{limit};
ghost use Rattle.certificate.specs.Meanings.{multipliers};
ghost use Rattle.case_tree.specs.declared.cuts.Cut as tree;
ghost use Rattle.case_tree.specs.Cuts.{cut};
ghost use Rattle.cert_checker.specs.Cuts as Of;
ghost use Rattle.cert_checker.specs.Leaves as Leaf;

use crate::at_hand::Program;
use crate::columns::{end_by, ends_of};
use crate::refused::Unshown;
use case_tree::{Cut, is_at_most, is_below};
use certificate::Mult;
use fraction::{End, Frac, Wide};
use instance::{add_product, zero};

/// The end, 0 where there is none.
pub(crate) fn or_zero(end: End) -> Frac
    ensures { ratio result ≡ or_none (limit end) }
{
    match end {
        End::At(number) => number,
        _ => zero(),
    }
}

/// The end that the multiplier bounds its column by.
fn end_at(program: &Program, cuts: &[Cut], mults: &[Mult], k: usize) -> Frac
    requires count { length cuts.now ≡ width program.now }
    requires place { k < length mults.now }
    requires legal { AreLegal (cut program.now cuts.now) (multipliers mults.now) }
    ensures { ratio result ≡ or_none (end_of (cut program.now cuts.now) (multiplier_at (multipliers mults.now) k)) }
{
    let mult = mults[k];
    let ends = ends_of(program, cuts, mult.col as usize);
    or_zero(end_by(ends, mult.value))
}

/// A start, and the multipliers, each times its end.
pub(crate) fn low_sum(
    program: &Program,
    cuts: &[Cut],
    mults: &[Mult],
    start: Frac,
) -> Result<Frac, Wide>
    requires count { length cuts.now ≡ width program.now }
    requires numbers { IsInstance program.now }
    requires legal { AreLegal (cut program.now cuts.now) (multipliers mults.now) }
    ensures ok { IfOk result (λ r. IsSame (ratio r) (low_sum (cut program.now cuts.now) (ratio start) (multipliers mults.now))) }
    ensures fits { IfOk result (λ _. LowFits (cut program.now cuts.now) (ratio start) (multipliers mults.now)) }
    ensures wide { OnErr result (LowFits (cut program.now cuts.now) (ratio start) (multipliers mults.now) → ⊥) }
{
    let mut sum = start;
    for k in 0..mults.len() {
        let end = end_at(program, cuts, mults, k);
        sum = add_product(sum, mults[k].value, end)?;
    }
    Ok(sum)
}

/// What the sum begins with: the constant of the minimising objective where a value is aimed at, else 0.
pub(crate) fn start_of(program: &Program, aim: Option<Frac>) -> Frac
    ensures { (cs : List tree.Cut) → ratio result ≡ Leaf.start (cut program.now cs) (Of.aim aim) }
{
    match aim {
        Some(_) => program.constant(),
        None => zero(),
    }
}

/// Whether the sum is at least the value that is aimed at; without one, whether it is above 0.
pub(crate) fn reaches(aim: Option<Frac>, sum: Frac) -> bool
    ensures { IsTrue result ↔ Leaf.ReachesBound (Of.aim aim) (ratio sum) }
{
    match aim {
        Some(value) => is_at_most(value, sum),
        None => is_below(zero(), sum),
    }
}

/// Whether the sum of the multiplied ends reaches what it should.
pub(crate) fn check_sum(
    program: &Program,
    cuts: &[Cut],
    mults: &[Mult],
    aim: Option<Frac>,
    node: u32,
) -> Result<(), Unshown>
    requires count { length cuts.now ≡ width program.now }
    requires numbers { IsInstance program.now }
    requires legal { AreLegal (cut program.now cuts.now) (multipliers mults.now) }
    ensures ok { OnOk result (Leaf.HasSum (cut program.now cuts.now) (multipliers mults.now) (Of.aim aim)) }
    ensures err { IfErr result (Leaf.SumRefuses (cut program.now cuts.now) (multipliers mults.now) (Of.aim aim) node) }
{
    let start = start_of(program, aim);
    match low_sum(program, cuts, mults, start) {
        Err(_) => Err(Unshown::Wide { node }),
        Ok(sum) => {
            if reaches(aim, sum) {
                Ok(())
            } else {
                Err(Unshown::Sum { node })
            }
        }
    }
}
