//! Whether multipliers show what a leaf should.
ghost use Rattle.std.specs.Prelude.{◌≡◌, length, OnOk, IfErr};
ghost use Rattle.evidence.specs.Instance.{IsInstance, width};
ghost use Rattle.certificate.specs.Meanings.{multipliers};
ghost use Rattle.case_tree.specs.Cuts.{cut};
ghost use Rattle.cert_checker.specs.Cuts as Of;
ghost use Rattle.cert_checker.specs.Leaves.{LeafHolds, LeafRefuses};

use crate::at_hand::Program;
use crate::forms::check_forms;
use crate::pairs::first_illegal;
use crate::refused::Unshown;
use crate::sums::check_sum;
use case_tree::Cut;
use certificate::Mult;
use fraction::Frac;

/// Whether the multipliers show that no point is better than the value that is aimed at; without one, that none is feasible.
pub(crate) fn check_leaf(
    program: &Program,
    cuts: &[Cut],
    slots: &mut [Option<Frac>],
    mults: &[Mult],
    aim: Option<Frac>,
    node: u32,
) -> Result<(), Unshown>
    requires count { length cuts.now ≡ width program.now }
    requires numbers { IsInstance program.now }
    requires room { length slots.old ≡ length cuts.now }
    ensures ok { OnOk result (LeafHolds (cut program.now cuts.now) (multipliers mults.now) (Of.aim aim)) }
    ensures err { IfErr result (LeafRefuses (cut program.now cuts.now) (multipliers mults.now) (Of.aim aim) node) }
{
    if let Some(col) = first_illegal(program, cuts, mults) {
        return Err(Unshown::Sign { node, col });
    }
    check_forms(program, cuts, slots, mults, aim, node)?;
    check_sum(program, cuts, mults, aim, node)
}
