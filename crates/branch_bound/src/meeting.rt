//! From a point of the case at hand on.
ghost use Rattle.std.specs.Prelude.{◌≡◌, ℕ, ◌+◌, ◌-◌, ◌^◌, ◌<◌, false, Option, List, [], length, IfOk, IfErr};
ghost use Rattle.evidence.specs.Instance as Of;
ghost use Rattle.evidence.specs.Instance.{width};
ghost use Rattle.certificate.specs.Meanings as Means;
ghost use Rattle.case_tree.specs.Cuts.{cut};
ghost use Rattle.simplex.specs.Memory.{width_in, point_of};
ghost use Rattle.simplex_rules.specs.Ends.{Terms, Clock};
ghost use Rattle.search_rules.specs.Branching.{AreMetBelow};
ghost use Rattle.search_rules.specs.Search.{To, Out};
ghost use Rattle.branch_bound.specs.declared.level.Level as levels;
ghost use Rattle.branch_bound.specs.Walks.{IsWalk, IsAt};
ghost use Rattle.branch_bound.specs.Levels.{moment};
ghost use Rattle.branch_bound.specs.Cases.{outcome_of, was_killed, clock_at, OrMemory, StaysIn, TakesAt, MeetsAt, HaveValues};
ghost use Rattle.std.specs.List.{All};
ghost use Rattle.branch_bound.specs.declared.carried.Carried as kept;
ghost use Rattle.branch_bound.specs.Bounds.{HasCarried, Leaves, left_by};

use crate::carried::left_by;
use crate::claims::{branch, give_up, leaf, too_wide};
use crate::ended::Ended;
use crate::found::Found;
use crate::open::first_open;
use crate::points::read_point;
use crate::relaxation::Relaxation;
use crate::values::values_at;
use crate::walk::Walk;
use certificate::{Cause, Mults, Node, Step};
use fraction::Frac;
use instance::Instance;
use std::alloc::Global;
use std::sync::ledger::Ledger;

/// Takes a point whose values are as they must be as the best, or ends the search with it.
pub fn take_point<L: Ledger>(
    alloc: Global,
    instance: &Instance,
    relaxation: &Relaxation<L>,
    mults: Mults,
    walk: &mut Walk,
    depth: usize,
) -> Result<(), Ended>
    requires width { width_in relaxation.now.work ≡ length instance.now.vars }
    requires at { IsAt (length instance.now.vars) walk.old depth }
    requires few { length walk.old.nodes < 2 ^ 32 - 1 }
    requires met { (D : Of.Instance) → AreMetBelow (cut D walk.old.cuts.items) (point_of relaxation.now.work) (width (cut D walk.old.cuts.items)) }
    requires values { HaveValues instance.now walk.old.best }
    requires carried { HasCarried walk.old }
    ensures carried { IfOk result (λ _. HasCarried walk.new) }
    ensures leaves { IfOk result (λ _. Leaves walk.old walk.new depth []) }
    ensures values { IfOk result (λ _. HaveValues instance.now walk.new.best) }
    ensures walk { IfOk result (λ _. IsWalk (length instance.now.vars) walk.new) }
    ensures one { IfOk result (λ _. length walk.new.nodes ≡ length walk.old.nodes + 1) }
    ensures ok { IfOk result (λ _. (L D : Of.Instance) (l : levels.Level) (t : Terms) (c : Clock) → TakesAt instance.now L D l walk.old depth t c (point_of relaxation.now.work) (Means.multipliers mults) (To (moment instance.now L D l walk.new c))) }
    ensures err { IfErr result (λ ended. OrMemory walk.old ended ((L D : Of.Instance) (l : levels.Level) (t : Terms) (looks : ℕ) → let c = clock_at relaxation.now looks in TakesAt instance.now L D l walk.old depth t c (point_of relaxation.now.work) (Means.multipliers mults) (Out (outcome_of (Means.certificates l.certs) ended) c))) }
    ensures stays { IfErr result (StaysIn walk.old walk.new) }
    ensures went_on { IfErr result (λ ended. was_killed ended ≡ false) }
{
    let width = instance.vars().len() as u32;
    let point = match read_point(alloc, &relaxation.work, width) {
        Ok(point) => point,
        Err(_) => return Err(give_up(walk, Cause::Memory)),
    };
    let values = match values_at(alloc, instance, point.as_slice()) {
        Ok(Some(values)) => values,
        Ok(None) => return Err(too_wide(walk, relaxation.turns.done, Step::Point)),
        Err(_) => return Err(give_up(walk, Cause::Memory)),
    };
    let found = Found { point, values };
    match walk.ray.take() {
        Some(at) => return Err(Ended::Unbounded { found, ray: at.ray }),
        None => {}
    }
    match leaf(walk, depth, Node::Bound(mults)) {
        Ok(()) => {
            walk.best = Some(found);
            Ok(())
        }
        Err(ended) => Err(ended),
    }
}

/// Goes on from the run's point: divides the case, whose cases carry the run's value with its multipliers where it was of the level's
/// goal; or takes the point.
pub fn meet<L: Ledger>(
    alloc: Global,
    instance: &Instance,
    relaxation: &Relaxation<L>,
    mults: Mults,
    bound: Option<Frac>,
    walk: &mut Walk,
    depth: usize,
) -> Result<(), Ended>
    requires width { width_in relaxation.now.work ≡ length instance.now.vars }
    requires at { IsAt (length instance.now.vars) walk.old depth }
    requires few { length walk.old.nodes < 2 ^ 32 - 1 }
    requires values { HaveValues instance.now walk.old.best }
    requires carried { HasCarried walk.old }
    ensures carried { IfOk result (λ _. HasCarried walk.new) }
    ensures leaves { IfOk result (λ _. (new : List (Option kept.Carried)) × All (λ y. y ≡ left_by bound mults) new × Leaves walk.old walk.new depth new) }
    ensures values { IfOk result (λ _. HaveValues instance.now walk.new.best) }
    ensures walk { IfOk result (λ _. IsWalk (length instance.now.vars) walk.new) }
    ensures one { IfOk result (λ _. length walk.new.nodes ≡ length walk.old.nodes + 1) }
    ensures ok { IfOk result (λ _. (L D : Of.Instance) (l : levels.Level) (t : Terms) (c : Clock) → MeetsAt instance.now L D l walk.old depth t c (point_of relaxation.now.work) (Means.multipliers mults) (To (moment instance.now L D l walk.new c))) }
    ensures err { IfErr result (λ ended. OrMemory walk.old ended ((L D : Of.Instance) (l : levels.Level) (t : Terms) (looks : ℕ) → let c = clock_at relaxation.now looks in MeetsAt instance.now L D l walk.old depth t c (point_of relaxation.now.work) (Means.multipliers mults) (Out (outcome_of (Means.certificates l.certs) ended) c))) }
    ensures stays { IfErr result (StaysIn walk.old walk.new) }
    ensures went_on { IfErr result (λ ended. was_killed ended ≡ false) }
{
    let _few = instance.vars();
    match first_open(&relaxation.work, walk.cuts.as_slice()) {
        Some(at) => branch(walk, depth, at, left_by(bound, mults)),
        None => take_point(alloc, instance, relaxation, mults, walk, depth),
    }
}
