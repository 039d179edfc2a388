//! The sums of multiplied columns, compared with what they should be.
ghost use Rattle.std.specs.Prelude.{◌≡◌, ◌↔◌, ◌<◌, ℕ, List, length, IsTrue, OnOk, IfErr};
ghost use Rattle.rational.specs.Ratio.{IsSame};
ghost use Rattle.fraction.specs.Frac.{ratio};
ghost use Rattle.evidence.specs.Instance.{IsInstance, width};
ghost use Rattle.evidence.specs.Cases.{AreLegal};
ghost use Rattle.certificate.specs.Meanings.{multipliers};
ghost use Rattle.case_tree.specs.declared.cuts.Cut as tree;
ghost use Rattle.case_tree.specs.Cuts.{cut};
ghost use Rattle.cert_checker.specs.Cuts as Of;
ghost use Rattle.cert_checker.specs.Leaves.{FormsBelow, FormRefuses};
ghost use Rattle.cert_checker.specs.Leaves as Leaf;
ghost use Rattle.cert_checker.specs.Slots.{slot_at, HoldsSum};

use crate::at_hand::Program;
use crate::refused::Unshown;
use crate::slots::{add_column, clear};
use case_tree::{Cut, is_same};
use certificate::Mult;
use fraction::Frac;
use instance::zero;

/// Makes the sums of the multiplied columns, one for each variable.
pub(crate) fn add_columns(
    program: &Program,
    cuts: &[Cut],
    slots: &mut [Option<Frac>],
    mults: &[Mult],
)
    requires count { length cuts.now ≡ width program.now }
    requires numbers { IsInstance program.now }
    requires room { length slots.old ≡ length cuts.now }
    requires legal { AreLegal (cut program.now cuts.now) (multipliers mults.now) }
    ensures { (j : ℕ) → j < length cuts.now → HoldsSum (cut program.now cuts.now) (multipliers mults.now) j (length mults.now) (slot_at slots.new j) }
{
    clear(slots);
    for k in 0..mults.len() {
        add_column(program, cuts, slots, mults[k]);
    }
}

/// What the sum at a variable should be: its cost in the minimising objective where a value is aimed at, else 0.
pub(crate) fn wanted(program: &Program, aim: Option<Frac>, j: usize) -> Frac
    ensures { (cs : List tree.Cut) → ratio result ≡ Leaf.wanted (cut program.now cs) (Of.aim aim) j }
{
    match aim {
        Some(_) => program.cost_at(j),
        None => zero(),
    }
}

/// Whether two fractions are one number. Mostly they are of the same parts, which need no product.
fn is_one(x: Frac, y: Frac) -> bool
    ensures { IsTrue result ↔ IsSame (ratio x) (ratio y) }
{
    x == y || is_same(x, y)
}

/// Whether each of the sums is what it should be.
fn compare(
    program: &Program,
    cuts: &[Cut],
    slots: &[Option<Frac>],
    mults: &[Mult],
    aim: Option<Frac>,
    node: u32,
) -> Result<(), Unshown>
    requires count { length cuts.now ≡ width program.now }
    requires numbers { IsInstance program.now }
    requires room { length slots.now ≡ length cuts.now }
    requires sums { (j : ℕ) → j < length cuts.now → HoldsSum (cut program.now cuts.now) (multipliers mults.now) j (length mults.now) (slot_at slots.now j) }
    ensures ok { OnOk result (FormsBelow (cut program.now cuts.now) (multipliers mults.now) (Of.aim aim) (length cuts.now)) }
    ensures err { IfErr result (FormRefuses (cut program.now cuts.now) (multipliers mults.now) (Of.aim aim) node) }
{
    let count = program.vars().len();
    for j in 0..count {
        match slots[j] {
            None => return Err(Unshown::Wide { node }),
            Some(sum) => {
                if !is_one(sum, wanted(program, aim, j)) {
                    return Err(Unshown::Form {
                        node,
                        col: j as u32,
                    });
                }
            }
        }
    }
    Ok(())
}

/// Whether the sum of the multiplied columns is, at each variable, what it should be. The slots have this sum afterwards, variable
/// by variable, none where it doesn't fit.
pub(crate) fn check_forms(
    program: &Program,
    cuts: &[Cut],
    slots: &mut [Option<Frac>],
    mults: &[Mult],
    aim: Option<Frac>,
    node: u32,
) -> Result<(), Unshown>
    requires count { length cuts.now ≡ width program.now }
    requires numbers { IsInstance program.now }
    requires room { length slots.old ≡ length cuts.now }
    requires legal { AreLegal (cut program.now cuts.now) (multipliers mults.now) }
    ensures ok { OnOk result (FormsBelow (cut program.now cuts.now) (multipliers mults.now) (Of.aim aim) (length cuts.now)) }
    ensures err { IfErr result (FormRefuses (cut program.now cuts.now) (multipliers mults.now) (Of.aim aim) node) }
{
    add_columns(program, cuts, slots, mults);
    compare(program, cuts, slots, mults, aim, node)
}
