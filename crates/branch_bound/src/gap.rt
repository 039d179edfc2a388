//! How near a best point is to the bound of the open cases.
ghost use Rattle.std.specs.Prelude.{◌≡◌, ◌+◌, ◌<◌, ◌≤◌, false, ◌↔◌, Option, length, IsTrue, IsSomeAnd, MatchOption};
ghost use Rattle.std.specs.List.{All};
ghost use Rattle.rational.specs.Ratio.{Ratio, negative, IsAtMost};
ghost use Rattle.rational.specs.Width.{SumFits};
ghost use Rattle.fraction.specs.Frac.{ratio};
ghost use Rattle.evidence.specs.Instance as Of;
ghost use Rattle.instance.specs.Program.{problem};
ghost use Rattle.case_tree.specs.Cuts.{branch_at};
ghost use Rattle.simplex_rules.specs.Ends.{Clock};
ghost use Rattle.search_rules.specs.Gaps as rules;
ghost use Rattle.branch_bound.specs.declared.carried.Carried.{Carried};
ghost use Rattle.branch_bound.specs.Walks.{IsAt};
ghost use Rattle.branch_bound.specs.Levels.{moment};
ghost use Rattle.branch_bound.specs.Bounds.{carried_at, gap_of, gap_or_none, number_of, numbers, kept_at, keeps_carried, HasCarried, IsThreshold};
ghost use Rattle.branch_bound.specs.Cases.{HaveValues};

use crate::carried::Carried;
use crate::level::Level;
use crate::limits::Limits;
use crate::walk::Walk;
use case_tree::{Branch, is_at_most, turned};
use fraction::Frac;
use instance::Instance;

/// How far a best point may be from the bound of the open cases: a number, or so many hundredths of its value's size.
#[derive(Clone, Copy, PartialEq, Eq, Debug)]
pub enum Gap {
    Number(Frac),
    Percent(Frac),
}

/// The size of a number.
fn size(x: Frac) -> Frac
    ensures { ratio result ≡ rules.size (ratio x) }
{
    if x.numer < 0 { x.neg() } else { x }
}

/// A hundredth.
fn hundredth() -> Frac
    ensures { ratio result ≡ rules.hundredth }
{
    Frac {
        numer: 1,
        denom: 100,
    }
}

/// How far a best point of this value may be. None where the number doesn't fit.
fn allowed(gap: Gap, value: Frac) -> Option<Frac>
    ensures { MatchOption result ((a : Ratio) → rules.IsAllowed (gap_of gap) (ratio value) a → ⊥) (λ a. rules.IsAllowed (gap_of gap) (ratio value) (ratio a)) }
{
    match gap {
        Gap::Number(number) => Some(number),
        Gap::Percent(percent) => match percent.mul(size(value)) {
            Ok(part) => match part.mul(hundredth()) {
                Ok(allowed) => Some(allowed),
                Err(_) => None,
            },
            Err(_) => None,
        },
    }
}

/// The least number that the bound of an open case may have for the best point to be near. None where a number doesn't fit.
fn threshold(gap: Gap, value: Frac, less: Frac) -> Option<Frac>
    ensures { MatchOption result ((a : Ratio) → rules.IsAllowed (gap_of gap) (ratio value) a → SumFits (ratio less) (negative a) → ⊥) (λ n. IsThreshold (gap_of gap) (ratio value) (ratio less) (ratio n)) }
{
    match allowed(gap, value) {
        Some(allowed) => match less.sub(allowed) {
            Ok(number) => Some(number),
            Err(_) => None,
        },
        None => None,
    }
}

/// Whether what a case carries shows that no point of it is below this number.
fn is_bounded_by(carried: &Option<Carried>, number: Frac) -> bool
    ensures { IsTrue result ↔ IsSomeAnd (number_of carried.now) (λ b. IsAtMost (ratio number) b) }
{
    match carried {
        Some(carried) => is_at_most(number, carried.bound),
        None => false,
    }
}

/// Whether that is so of the second case of a branch, unless the walk is in it.
fn is_bounded_at(list: &[Option<Carried>], branches: &[Branch], place: usize, number: Frac) -> bool
    requires room { place < length branches.now }
    requires carried { place + 1 < length list.now }
    ensures { IsTrue result ↔ ((branch_at branches.now place).is_second ≡ false → IsSomeAnd (number_of (carried_at list.now (place + 1))) (λ b. IsAtMost (ratio number) b)) }
{
    let branch = branches[place];
    branch.is_second || is_bounded_by(&list[place + 1], number)
}

/// Whether it is of the case at hand and of each second case that is still to come. The oldest is asked first: its bound is mostly the
/// least.
fn are_bounded_by(list: &[Option<Carried>], branches: &[Branch], depth: usize, number: Frac) -> bool
    requires room { depth ≤ length branches.now }
    requires carried { depth < length list.now }
    ensures { IsTrue result ↔ All (λ (k : Option Carried). IsSomeAnd (number_of k) (λ b. IsAtMost (ratio number) b)) (kept_at list.now branches.now depth) }
{
    for e in 0..depth {
        if !is_bounded_at(list, branches, e, number) {
            return false;
        }
    }
    is_bounded_by(&list[depth], number)
}

/// Whether the best point is within the gap of the bound of the open cases, of which the one at hand has so many branches above.
pub fn is_near(
    instance: &Instance,
    limits: Limits,
    level: &Level,
    walk: &Walk,
    depth: usize,
) -> bool
    requires values { HaveValues instance.now walk.now.best }
    requires goal { level.now.goal < length instance.now.goals }
    requires at { IsAt (length instance.now.vars) walk.now depth }
    requires keeps { walk.now.keeps ≡ keeps_carried limits }
    requires carried { HasCarried walk.now }
    ensures { (L D : Of.Instance) (c : Clock) → length level.now.certs ≡ level.now.goal → IsTrue result ↔ rules.IsNearEnough (problem instance.now) (gap_or_none limits.gap) (moment instance.now L D level.now walk.now c) (numbers walk.now) }
{
    let goals = instance.goals();
    if goals.len() != 1 {
        return false;
    }
    let Some(gap) = limits.gap else {
        return false;
    };
    let Some(found) = &walk.best else {
        return false;
    };
    let value = found.values.as_slice()[level.goal as usize];
    let less = turned(goals[0].sense, value);
    match threshold(gap, value, less) {
        Some(number) => are_bounded_by(
            walk.carried.as_slice(),
            walk.branches.as_slice(),
            depth,
            number,
        ),
        None => false,
    }
}
