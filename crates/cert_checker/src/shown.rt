//! The number that multipliers show of an instance's program.
ghost use Rattle.std.specs.Prelude.{◌≡◌, length, IfOk, OnErr};
ghost use Rattle.rational.specs.Ratio.{IsSame};
ghost use Rattle.fraction.specs.Frac.{ratio};
ghost use Rattle.evidence.specs.Instance as Of;
ghost use Rattle.evidence.specs.Cases.{AreLegal, low_sum};
ghost use Rattle.evidence.specs.Width.{LowFits};
ghost use Rattle.instance.specs.Program.{program};
ghost use Rattle.certificate.specs.Meanings.{multipliers};
ghost use Rattle.case_tree.specs.Cuts.{cut};
ghost use Rattle.cert_checker.specs.Programs.{with_rows};

use crate::at_hand::{Added, Program};
use crate::sums::low_sum;
use case_tree::Cut;
use certificate::Mult;
use fraction::{Frac, Wide};
use instance::Instance;

/// What multipliers show of an instance with these rows beside its own, its variables cut so: the first goal's constant, turned so that
/// less is better, and each multiplier times its end. [`Wide`] where a sum doesn't fit.
pub fn shown_number(
    instance: &Instance,
    added: &[Added],
    cuts: &[Cut],
    mults: &[Mult],
) -> Result<Frac, Wide>
    requires count { length cuts.now ≡ length instance.now.vars }
    requires legal { AreLegal (cut (with_rows (program instance.now) added.now) cuts.now) (multipliers mults.now) }
    ensures ok { IfOk result (λ r. let I = cut (with_rows (program instance.now) added.now) cuts.now in IsSame (ratio r) (low_sum I (Of.minimising I I.goal.constant) (multipliers mults.now))) }
    ensures fits { IfOk result (λ _. let I = cut (with_rows (program instance.now) added.now) cuts.now in LowFits I (Of.minimising I I.goal.constant) (multipliers mults.now)) }
    ensures wide { OnErr result (let I = cut (with_rows (program instance.now) added.now) cuts.now in LowFits I (Of.minimising I I.goal.constant) (multipliers mults.now) → ⊥) }
{
    let goals = instance.goals();
    let program = Program::of(instance, added, &goals[0]);
    low_sum(&program, cuts, mults, program.constant())
}
