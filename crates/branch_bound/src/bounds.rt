//! The bound of a search that is given up.
ghost use Rattle.std.specs.Prelude.{◌≡◌, ◌<◌, true, Some, [], ◌∷◌, length, option_map, IfOk, IfSome};
ghost use Rattle.fraction.specs.Frac.{ratio};
ghost use Rattle.evidence.specs.Cases.{AreLegal};
ghost use Rattle.instance.specs.Program.{program};
ghost use Rattle.certificate.specs.Meanings as Means;
ghost use Rattle.cert_checker.specs.Programs.{with_rows};
ghost use Rattle.search_rules.specs.Bounds.{IsLeast};
ghost use Rattle.branch_bound.specs.declared.found.Found as points;
ghost use Rattle.branch_bound.specs.declared.level.Level as levels;
ghost use Rattle.branch_bound.specs.declared.carried.Carried.{Carried as Kept};
ghost use Rattle.branch_bound.specs.Walks.{waiting, IsWalk, IsAt};
ghost use Rattle.branch_bound.specs.Cases.{HaveValues};
ghost use Rattle.branch_bound.specs.Bounds.{carried, carried_at, case_program, numbers_before, AllBound, IsBestNumber, HasCarried, HasClosed, ClosesCase, ClosesAll, FindsBoundAt, ReachesBound};

use crate::carried::Carried;
use crate::found::Found;
use crate::level::Level;
use crate::walk::{Walk, close};
use case_tree::{is_at_most, turned};
use cert_checker::{Added, shown_number};
use certificate::{Cert, Certs, Node, Nodes, ProvedBound};
use fraction::Frac;
use instance::Instance;
use items::TryCopy;
use std::alloc::{AllocError, Global};

/// The lesser of two numbers, where there is one before.
fn least(before: Option<Frac>, number: Frac) -> Frac
    ensures { IsLeast (numbers_before before (ratio number ∷ [])) (ratio result) }
{
    match before {
        Some(before) => {
            if is_at_most(before, number) {
                before
            } else {
                number
            }
        }
        None => number,
    }
}

/// The best point's value of the first goal, turned so that less is better.
fn best_number(instance: &Instance, best: &Option<Found>) -> Option<Frac>
    requires { HaveValues instance.now best.now }
    ensures { IsBestNumber instance.now best.now (option_map ratio result) }
{
    match best {
        Some(found) => {
            let goals = instance.goals();
            Some(turned(goals[0].sense, found.values.as_slice()[0]))
        }
        None => None,
    }
}

/// Closes the case at hand by what it carries, and goes to the next one: the number that this shows. None where it carries nothing, or
/// the number doesn't fit.
fn close_by(
    alloc: Global,
    instance: &Instance,
    rows: &[Added],
    walk: &mut Walk,
    depth: usize,
) -> Result<Option<Frac>, AllocError>
    requires at { IsAt (length instance.now.vars) walk.old depth }
    requires carried { HasCarried walk.old }
    requires place { depth < length walk.old.carried.items }
    requires bounds { (k : Kept) → carried_at walk.old.carried.items depth ≡ Some k → AreLegal (case_program instance.now rows.now walk.old.cuts.items) (Means.multipliers k.mults) }
    ensures closes { IfOk result (ClosesCase instance.now rows.now walk.old walk.new depth) }
    ensures went { IfOk result (λ told. IfSome told (λ z. HasClosed (length instance.now.vars) walk.old walk.new depth)) }
{
    let Some(carried) = &walk.carried[depth] else {
        return Ok(None);
    };
    let mults = carried.mults.try_copy(alloc)?;
    match shown_number(instance, rows, walk.cuts.as_slice(), mults.as_slice()) {
        Ok(number) => {
            close(walk, depth, Node::Bound(mults))?;
            Ok(Some(number))
        }
        Err(_) => Ok(None),
    }
}

/// Closes all open cases, the one at hand first, by what each carries: the least number of theirs and of this one. None where one
/// carries nothing, or a number doesn't fit.
fn close_all(
    alloc: Global,
    instance: &Instance,
    rows: &[Added],
    walk: &mut Walk,
    best: Option<Frac>,
) -> Result<Option<Frac>, AllocError>
    requires walk { IsWalk (length instance.now.vars) walk.old }
    requires keeps { walk.old.keeps ≡ true }
    requires carried { HasCarried walk.old }
    requires bounds { AllBound (waiting (with_rows (program instance.now) rows.now) walk.old walk.old.next) (carried walk.old) }
    ensures { IfOk result (ClosesAll instance.now rows.now walk.old walk.new best) }
{
    let mut number = best;
    while let Some(depth) = walk.next {
        match close_by(alloc, instance, rows, walk, depth)? {
            Some(shown) => number = Some(least(number, shown)),
            None => return Ok(None),
        }
    }
    Ok(number)
}

/// The bound of the first level: the least number of its open cases and of its best point, shown by its nodes and a leaf for each.
fn open_bound(
    alloc: Global,
    instance: &Instance,
    rows: &[Added],
    level: Level,
    mut walk: Walk,
    best: &Option<Found>,
) -> Result<Option<ProvedBound>, AllocError>
    requires walk { IsWalk (length instance.now.vars) walk }
    requires keeps { walk.keeps ≡ true }
    requires carried { HasCarried walk }
    requires bounds { AllBound (waiting (with_rows (program instance.now) rows.now) walk walk.next) (carried walk) }
    requires values { HaveValues instance.now best.now }
    requires shown { length level.certs ≡ 0 }
    ensures { IfOk result (FindsBoundAt instance.now level walk rows.now best.now) }
{
    let from = best_number(instance, best);
    match close_all(alloc, instance, rows, &mut walk, from)? {
        Some(number) => {
            let goals = instance.goals();
            Ok(Some(ProvedBound {
                number: turned(goals[0].sense, number),
                cert: Cert {
                    rounds: level.rounds,
                    nodes: walk.nodes,
                },
            }))
        }
        None => Ok(None),
    }
}

/// The bound of a later level: the value that the first level reached, shown by its certificate.
fn reached_bound(
    alloc: Global,
    certs: &Certs,
    best: &Option<Found>,
) -> Result<Option<ProvedBound>, AllocError>
    requires some { 0 < length certs.now }
    requires values { (f : points.Found) → best.now ≡ Some f → 0 < length f.values }
    ensures { (v : levels.Level) → v.certs ≡ certs.now → IfOk result (ReachesBound v best.now) }
{
    match best {
        Some(found) => Ok(Some(ProvedBound {
            number: found.values.as_slice()[0],
            cert: certs.as_slice()[0].try_copy(alloc)?,
        })),
        None => Ok(None),
    }
}

/// The bound of a search that is given up with this best point.
pub fn bound_of(
    alloc: Global,
    instance: &Instance,
    rows: &[Added],
    level: Level,
    walk: Walk,
    best: &Option<Found>,
) -> Result<Option<ProvedBound>, AllocError>
    requires walk { IsWalk (length instance.now.vars) walk }
    requires keeps { walk.keeps ≡ true }
    requires carried { HasCarried walk }
    requires bounds { level.goal ≡ 0 → AllBound (waiting (with_rows (program instance.now) rows.now) walk walk.next) (carried walk) }
    requires values { HaveValues instance.now best.now }
    requires shown { length level.certs ≡ level.goal }
    ensures first { IfOk result (λ b. level.goal ≡ 0 → FindsBoundAt instance.now level walk rows.now best.now b) }
    ensures later { IfOk result (λ b. (level.goal ≡ 0 → ⊥) → ReachesBound level best.now b) }
{
    let _some = instance.goals();
    if level.goal == 0 {
        open_bound(alloc, instance, rows, level, walk, best)
    } else {
        reached_bound(alloc, &level.certs, best)
    }
}
