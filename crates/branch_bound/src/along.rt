//! Along a direction.
ghost use Rattle.std.specs.Prelude.{◌≡◌, ◌<◌, ◌≤◌, IsTrue, ◌↔◌, Option, length, MatchOption};
ghost use Rattle.std.specs.List.{Contains};
ghost use Rattle.evidence.specs.Instance as Of;
ghost use Rattle.case_tree.specs.declared.cuts.Division.TheVariants.{Zero};
ghost use Rattle.simplex.specs.Memory.{width_in, ray_of};
ghost use Rattle.search_rules.specs.Branching.{IsMoving, IsFirstMoving, NoneMoves};
ghost use Rattle.branch_bound.specs.declared.walk.RayAt as ray;
ghost use Rattle.branch_bound.specs.Walks.{divided, case_by};

use crate::points::movement;
use case_tree::{Branch, Cut, Division};
use simplex::Work;
use std::sync::ledger::Ledger;

/// Whether a branch divided this variable into 0 and its further ends.
fn divides(branch: Branch, col: u32) -> bool
    ensures { IsTrue result ↔ ((branch.col ≡ col) × (branch.by ≡ Zero)) }
{
    branch.col == col && matches!(branch.by, Division::Zero)
}

/// Whether one of the branches above divided this variable into 0 and its further ends.
fn was_divided(branches: &[Branch], depth: usize, col: u32) -> bool
    requires { depth ≤ length branches.now }
    ensures { IsTrue result ↔ Contains (divided branches.now depth) col }
{
    for e in 0..depth {
        if divides(branches[e], col) {
            return true;
        }
    }
    false
}

/// Whether a variable may be 0 besides, moves along the run's direction, and wasn't divided yet.
fn is_moving<L: Ledger>(
    work: &Work<L>,
    cuts: &[Cut],
    branches: &[Branch],
    depth: usize,
    col: u32,
) -> bool
    requires width { width_in work.now ≡ length cuts.now }
    requires depth { depth ≤ length branches.now }
    requires inside { col < length cuts.now }
    ensures { (I : Of.Instance) (r : Option ray.RayAt) → IsTrue result ↔ IsMoving (case_by I cuts.now branches.now r depth) (ray_of work.now) col }
{
    let cut = cuts[col as usize];
    if !cut.var.zero {
        return false;
    }
    if movement(work, col).numer == 0 {
        return false;
    }
    !was_divided(branches, depth, col)
}

/// The first variable that may be 0 besides, moves along the run's direction, and wasn't divided yet.
pub fn first_moving<L: Ledger>(
    work: &Work<L>,
    cuts: &[Cut],
    branches: &[Branch],
    depth: usize,
) -> Option<u32>
    requires width { width_in work.now ≡ length cuts.now }
    requires few { length cuts.now ≤ 1000 }
    requires depth { depth ≤ length branches.now }
    ensures { (I : Of.Instance) (r : Option ray.RayAt) → MatchOption result (NoneMoves (case_by I cuts.now branches.now r depth) (ray_of work.now)) (IsFirstMoving (case_by I cuts.now branches.now r depth) (ray_of work.now)) }
{
    for j in 0..cuts.len() {
        let col = j as u32;
        if is_moving(work, cuts, branches, depth, col) {
            return Some(col);
        }
    }
    None
}
