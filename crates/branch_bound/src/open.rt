//! Where a case is to be divided.
ghost use Rattle.std.specs.Prelude.{◌≡◌, ◌≢◌, ◌≤◌, true, false, length, IsTrue, MatchOption};
ghost use Rattle.fraction.specs.Frac.{ratio};
ghost use Rattle.evidence.specs.Sums.{IsWhole};
ghost use Rattle.evidence.specs.Instance as Of;
ghost use Rattle.case_tree.specs.Cuts.{cut, cut_variable};
ghost use Rattle.simplex.specs.Memory.{width_in, point_of};
ghost use Rattle.search_rules.specs.Branching.{IsMet, AreMetBelow};
ghost use Rattle.branch_bound.specs.Divisions.{NeedsDivision, IsOpenAt};

use crate::points::coordinate;
use case_tree::{Cut, Division};
use fraction::Frac;
use instance::{Var, is_between};
use simplex::Work;
use std::sync::ledger::Ledger;

/// A variable whose value isn't as it must be, and how that divides its case.
#[derive(Clone, Copy, PartialEq, Eq)]
pub struct Open {
    pub col: u32,
    pub by: Division,
}

/// Whether a variable must be whole and its value isn't.
pub fn is_fractional(var: Var, value: Frac) -> bool
    ensures yes { result ≡ true → IsTrue var.whole × (IsWhole (ratio value) → ⊥) × (value.denom ≢ 1) }
    ensures no { result ≡ false → IsTrue var.whole → IsWhole (ratio value) }
{
    var.whole && !value.is_whole()
}

/// How a variable's value divides its case: it is neither 0 nor within the variable's own ends, or it isn't whole. None where it is
/// as it must be.
fn division_at(cut: &Cut, value: Frac) -> Option<Division>
    ensures { MatchOption result (IsMet (cut_variable cut.now) (ratio value)) (NeedsDivision (cut_variable cut.now) (ratio value)) }
{
    let var = cut.var;
    if var.zero && value.numer != 0 && !is_between(var.lb, var.ub, value) {
        return Some(Division::Zero);
    }
    if is_fractional(var, value) {
        return Some(Division::Split(value.floor()));
    }
    None
}

/// The least variable whose value at the run's point isn't as it must be.
pub fn first_open<L: Ledger>(work: &Work<L>, cuts: &[Cut]) -> Option<Open>
    requires width { width_in work.now ≡ length cuts.now }
    requires few { length cuts.now ≤ 1000 }
    ensures { (I : Of.Instance) → MatchOption result (AreMetBelow (cut I cuts.now) (point_of work.now) (Of.width (cut I cuts.now))) (λ at. IsOpenAt (cut I cuts.now) (point_of work.now) at.col at.by) }
{
    for j in 0..cuts.len() {
        let col = j as u32;
        if let Some(by) = division_at(&cuts[j], coordinate(work, col)) {
            return Some(Open { col, by });
        }
    }
    None
}
