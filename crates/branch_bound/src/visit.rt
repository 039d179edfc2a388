//! From the end of the run of the case at hand on.
ghost use Rattle.std.specs.Prelude.{◌≡◌, ℕ, ◌+◌, ◌-◌, ◌^◌, ◌<◌, ◌≤◌, true, false, None, [], length, IfOk, IfErr};
ghost use Rattle.fraction.specs.Frac.{ratio};
ghost use Rattle.evidence.specs.Instance as Of;
ghost use Rattle.certificate.specs.Meanings as Means;
ghost use Rattle.case_tree.specs.Cuts.{cut};
ghost use Rattle.simplex_rules.specs.Ends.{Terms, Clock, Empty, Best, Endless};
ghost use Rattle.simplex_rules.specs.Runs.{EndsAtBasis};
ghost use Rattle.simplex.specs.declared.answer.LpEnd.TheVariants as endings;
ghost use Rattle.simplex.specs.Answers.{was_stopped, was_best};
ghost use Rattle.simplex.specs.Memory.{width_in, height_in, point_of, mults_of, ray_of, statuses_in, ended_with, IsAtBasis};
ghost use Rattle.search_rules.specs.Branching.{NoneMoves};
ghost use Rattle.search_rules.specs.Search.{To, Out};
ghost use Rattle.branch_bound.specs.declared.level.Level as levels;
ghost use Rattle.branch_bound.specs.Walks.{case, IsWalk, IsAt};
ghost use Rattle.branch_bound.specs.Levels.{moment, IsGiven, IsAtLevel};
ghost use Rattle.branch_bound.specs.Trials.{RanTo};
ghost use Rattle.branch_bound.specs.Cases.{outcome_of, was_killed, IsWalkReady, HasGoneOn, clock_at, OrMemory, StaysIn, StaysAt, GoesAt, HaveValues};
ghost use Rattle.branch_bound.specs.Bounds.{HasCarried, Leaves, LeavesBy};
ghost use Rattle.branch_bound.specs.Walks.{ray as ray_in};

use crate::along::first_moving;
use crate::claims::{branch, give_up, leaf, too_wide};
use crate::ended::Ended;
use crate::level::Level;
use crate::limits::Limits;
use crate::meeting::meet;
use crate::open::Open;
use crate::points::read_mults;
use crate::rays::read_ray;
use crate::relaxation::{Relaxation, columns_of};
use crate::rounds::{improve, may_cut};
use crate::values::is_no_better;
use crate::walk::{RayAt, Walk};
use case_tree::Division;
use certificate::{Cause, Mults, Node, Step};
use fraction::Frac;
use instance::Instance;
use simplex::LpEnd;
use std::alloc::Global;
use std::sync::ledger::Ledger;

/// Goes on from a best point of the case at hand: where there is no ray, its bound may close the case, and a cut may be tried.
fn at_best<L: Ledger>(
    alloc: Global,
    instance: &Instance,
    limits: Limits,
    relaxation: &mut Relaxation<L>,
    level: &mut Level,
    bound: Frac,
    walk: &mut Walk,
    depth: usize,
) -> Result<(), Ended>
    requires ready { IsWalkReady instance.now limits relaxation.old level.old walk.old depth }
    requires ran { walk.old.ray ≡ None → (D : Of.Instance) → IsGiven instance.now relaxation.old.ends D → RanTo (cut D walk.old.cuts.items) (Best (ratio bound) (point_of relaxation.old.work) (mults_of relaxation.old.work)) relaxation.old.work }
    requires stands { IsAtBasis relaxation.old.work }
    requires values { HaveValues instance.now walk.old.best }
    requires carried { HasCarried walk.old }
    ensures carried { IfOk result (λ _. HasCarried walk.new) }
    ensures leaves { IfOk result (λ _. LeavesBy walk.old walk.new depth (ray_in walk.old.ray) (Best (ratio bound) (point_of relaxation.old.work) (mults_of relaxation.old.work))) }
    ensures on { IfOk result (λ _. HasGoneOn instance.now limits level.old walk.old relaxation.new level.new walk.new) }
    ensures certs { level.new.certs ≡ level.old.certs }
    ensures turns { relaxation.new.turns ≡ relaxation.old.turns }
    ensures ok { IfOk result (λ _. (L D : Of.Instance) (t : Terms) (before c : Clock) → IsAtLevel instance.now relaxation.old level.old L D → t.rounds ≡ limits.rounds → (walk.old.ray ≡ None → EndsAtBasis (cut D walk.old.cuts.items) false t before (Best (ratio bound) (point_of relaxation.old.work) (mults_of relaxation.old.work)) c (statuses_in relaxation.old.work)) → (E : Of.Instance) × IsAtLevel instance.now relaxation.new level.new L E × GoesAt instance.now L D level.old walk.old depth t before c (Best (ratio bound) (point_of relaxation.old.work) (mults_of relaxation.old.work)) (To (moment instance.now L E level.new walk.new c))) }
    ensures err { IfErr result (λ ended. OrMemory walk.old ended ((L D : Of.Instance) (t : Terms) (before : Clock) (looks : ℕ) → let c = clock_at relaxation.old looks in IsAtLevel instance.now relaxation.old level.old L D → t.rounds ≡ limits.rounds → t.turns ≡ limits.turns → (walk.old.ray ≡ None → EndsAtBasis (cut D walk.old.cuts.items) false t before (Best (ratio bound) (point_of relaxation.old.work) (mults_of relaxation.old.work)) c (statuses_in relaxation.old.work)) → GoesAt instance.now L D level.old walk.old depth t before c (Best (ratio bound) (point_of relaxation.old.work) (mults_of relaxation.old.work)) (Out (outcome_of (Means.certificates level.old.certs) ended) c))) }
    ensures stays { IfErr result (StaysAt relaxation.old level.old walk.old relaxation.new level.new walk.new) }
    ensures went_on { IfErr result (λ ended. was_killed ended ≡ false) }
{
    let columns = columns_of(instance, relaxation);
    let mults = match read_mults(alloc, &relaxation.work, columns) {
        Ok(mults) => mults,
        Err(_) => return Err(give_up(walk, Cause::Memory)),
    };
    if walk.ray.is_some() {
        return meet(alloc, instance, relaxation, mults, None, walk, depth);
    }
    if is_no_better(instance, level.goal, &walk.best, bound) {
        return leaf(walk, depth, Node::Bound(mults));
    }
    let shown = Some(bound);
    if !may_cut(instance, limits, level, walk) {
        return meet(alloc, instance, relaxation, mults, shown, walk, depth);
    }
    improve(
        alloc, instance, relaxation, level, mults, bound, walk, depth,
    )
}

/// Keeps the ray of the run's direction, and goes on from its point: any one will do.
fn keep_ray<L: Ledger>(
    alloc: Global,
    instance: &Instance,
    relaxation: &Relaxation<L>,
    walk: &mut Walk,
    depth: usize,
) -> Result<(), Ended>
    requires width { width_in relaxation.now.work ≡ length instance.now.vars }
    requires at { IsAt (length instance.now.vars) walk.old depth }
    requires few { length walk.old.nodes < 2 ^ 32 - 1 }
    requires none { (D : Of.Instance) → NoneMoves (case D walk.old depth) (ray_of relaxation.now.work) }
    requires values { HaveValues instance.now walk.old.best }
    requires carried { HasCarried walk.old }
    ensures carried { IfOk result (λ _. HasCarried walk.new) }
    ensures leaves { IfOk result (λ _. LeavesBy walk.old walk.new depth (ray_in walk.old.ray) (Endless (point_of relaxation.now.work) (ray_of relaxation.now.work))) }
    ensures values { IfOk result (λ _. HaveValues instance.now walk.new.best) }
    ensures walk { IfOk result (λ _. IsWalk (length instance.now.vars) walk.new) }
    ensures one { IfOk result (λ _. length walk.new.nodes ≡ length walk.old.nodes + 1) }
    ensures ok { IfOk result (λ _. walk.old.ray ≡ None → (L D : Of.Instance) (l : levels.Level) (t : Terms) (before c : Clock) → GoesAt instance.now L D l walk.old depth t before c (Endless (point_of relaxation.now.work) (ray_of relaxation.now.work)) (To (moment instance.now L D l walk.new c))) }
    ensures err { IfErr result (λ ended. OrMemory walk.old ended (walk.old.ray ≡ None → (L D : Of.Instance) (l : levels.Level) (t : Terms) (before : Clock) (looks : ℕ) → let c = clock_at relaxation.now looks in GoesAt instance.now L D l walk.old depth t before c (Endless (point_of relaxation.now.work) (ray_of relaxation.now.work)) (Out (outcome_of (Means.certificates l.certs) ended) c))) }
    ensures stays { IfErr result (StaysIn walk.old walk.new) }
    ensures went_on { IfErr result (λ ended. was_killed ended ≡ false) }
{
    let scaled = match read_ray(alloc, instance, &relaxation.work) {
        Ok(scaled) => scaled,
        Err(_) => return Err(give_up(walk, Cause::Memory)),
    };
    match scaled {
        Some(ray) => walk.ray = Some(RayAt { ray, depth }),
        None => return Err(too_wide(walk, relaxation.turns.done, Step::Ray)),
    }
    let none = Mults::new(alloc);
    meet(alloc, instance, relaxation, none, None, walk, depth)
}

/// Goes on from a point from which along a direction there is no best one: a variable that may be 0 besides and moves divides the case;
/// where there is none, the direction's ray is kept, and any point will do.
fn at_endless<L: Ledger>(
    alloc: Global,
    instance: &Instance,
    relaxation: &Relaxation<L>,
    walk: &mut Walk,
    depth: usize,
) -> Result<(), Ended>
    requires width { width_in relaxation.now.work ≡ length instance.now.vars }
    requires at { IsAt (length instance.now.vars) walk.old depth }
    requires few { length walk.old.nodes < 2 ^ 32 - 1 }
    requires values { HaveValues instance.now walk.old.best }
    requires carried { HasCarried walk.old }
    ensures carried { IfOk result (λ _. HasCarried walk.new) }
    ensures leaves { IfOk result (λ _. LeavesBy walk.old walk.new depth (ray_in walk.old.ray) (Endless (point_of relaxation.now.work) (ray_of relaxation.now.work))) }
    ensures values { IfOk result (λ _. HaveValues instance.now walk.new.best) }
    ensures walk { IfOk result (λ _. IsWalk (length instance.now.vars) walk.new) }
    ensures one { IfOk result (λ _. length walk.new.nodes ≡ length walk.old.nodes + 1) }
    ensures ok { IfOk result (λ _. walk.old.ray ≡ None → (L D : Of.Instance) (l : levels.Level) (t : Terms) (before c : Clock) → GoesAt instance.now L D l walk.old depth t before c (Endless (point_of relaxation.now.work) (ray_of relaxation.now.work)) (To (moment instance.now L D l walk.new c))) }
    ensures err { IfErr result (λ ended. OrMemory walk.old ended (walk.old.ray ≡ None → (L D : Of.Instance) (l : levels.Level) (t : Terms) (before : Clock) (looks : ℕ) → let c = clock_at relaxation.now looks in GoesAt instance.now L D l walk.old depth t before c (Endless (point_of relaxation.now.work) (ray_of relaxation.now.work)) (Out (outcome_of (Means.certificates l.certs) ended) c))) }
    ensures stays { IfErr result (StaysIn walk.old walk.new) }
    ensures went_on { IfErr result (λ ended. was_killed ended ≡ false) }
{
    let _few = instance.vars();
    match first_moving(
        &relaxation.work,
        walk.cuts.as_slice(),
        walk.branches.as_slice(),
        depth,
    ) {
        Some(col) => {
            let by = Division::Zero;
            branch(walk, depth, Open { col, by }, None)
        }
        None => keep_ray(alloc, instance, relaxation, walk, depth),
    }
}

/// Closes the case at hand, which has no point, by the run's multipliers.
fn at_empty<L: Ledger>(
    alloc: Global,
    instance: &Instance,
    relaxation: &Relaxation<L>,
    walk: &mut Walk,
    depth: usize,
) -> Result<(), Ended>
    requires width { width_in relaxation.now.work ≡ length instance.now.vars }
    requires height { height_in relaxation.now.work ≡ length instance.now.rows + length relaxation.now.ends.rows }
    requires at { IsAt (length instance.now.vars) walk.old depth }
    requires few { length walk.old.nodes < 2 ^ 32 - 1 }
    requires values { HaveValues instance.now walk.old.best }
    requires carried { HasCarried walk.old }
    ensures carried { IfOk result (λ _. HasCarried walk.new) }
    ensures leaves { IfOk result (λ _. Leaves walk.old walk.new depth []) }
    ensures values { IfOk result (λ _. HaveValues instance.now walk.new.best) }
    ensures walk { IfOk result (λ _. IsWalk (length instance.now.vars) walk.new) }
    ensures one { IfOk result (λ _. length walk.new.nodes ≡ length walk.old.nodes + 1) }
    ensures ok { IfOk result (λ _. (L D : Of.Instance) (l : levels.Level) (t : Terms) (before c : Clock) → GoesAt instance.now L D l walk.old depth t before c (Empty (mults_of relaxation.now.work)) (To (moment instance.now L D l walk.new c))) }
    ensures err { IfErr result (λ ended. OrMemory walk.old ended ((L D : Of.Instance) (l : levels.Level) (t : Terms) (before : Clock) (looks : ℕ) → let c = clock_at relaxation.now looks in GoesAt instance.now L D l walk.old depth t before c (Empty (mults_of relaxation.now.work)) (Out (outcome_of (Means.certificates l.certs) ended) c))) }
    ensures stays { IfErr result (StaysIn walk.old walk.new) }
    ensures went_on { IfErr result (λ ended. was_killed ended ≡ false) }
{
    let columns = columns_of(instance, relaxation);
    match read_mults(alloc, &relaxation.work, columns) {
        Ok(mults) => leaf(walk, depth, Node::Farkas(mults)),
        Err(_) => Err(give_up(walk, Cause::Memory)),
    }
}

/// Goes on from the end of the run of the case at hand.
pub fn visit<L: Ledger>(
    alloc: Global,
    instance: &Instance,
    limits: Limits,
    relaxation: &mut Relaxation<L>,
    level: &mut Level,
    end: LpEnd,
    walk: &mut Walk,
    depth: usize,
) -> Result<(), Ended>
    requires ready { IsWalkReady instance.now limits relaxation.old level.old walk.old depth }
    requires went_on { was_stopped end ≡ false }
    requires ran { was_best end ≡ true → walk.old.ray ≡ None → (D : Of.Instance) → IsGiven instance.now relaxation.old.ends D → RanTo (cut D walk.old.cuts.items) (ended_with end relaxation.old.work) relaxation.old.work }
    requires stands { was_best end ≡ true → IsAtBasis relaxation.old.work }
    requires values { HaveValues instance.now walk.old.best }
    requires carried { HasCarried walk.old }
    ensures carried { IfOk result (λ _. HasCarried walk.new) }
    ensures leaves { IfOk result (λ _. LeavesBy walk.old walk.new depth (ray_in walk.old.ray) (ended_with end relaxation.old.work)) }
    ensures on { IfOk result (λ _. HasGoneOn instance.now limits level.old walk.old relaxation.new level.new walk.new) }
    ensures certs { level.new.certs ≡ level.old.certs }
    ensures turns { relaxation.new.turns ≡ relaxation.old.turns }
    ensures ok { IfOk result (λ _. (L D : Of.Instance) (t : Terms) (before c : Clock) → IsAtLevel instance.now relaxation.old level.old L D → t.rounds ≡ limits.rounds → (was_best end ≡ true → walk.old.ray ≡ None → EndsAtBasis (cut D walk.old.cuts.items) false t before (ended_with end relaxation.old.work) c (statuses_in relaxation.old.work)) → (end ≡ endings.Endless → walk.old.ray ≡ None) → (E : Of.Instance) × IsAtLevel instance.now relaxation.new level.new L E × GoesAt instance.now L D level.old walk.old depth t before c (ended_with end relaxation.old.work) (To (moment instance.now L E level.new walk.new c))) }
    ensures err { IfErr result (λ ended. OrMemory walk.old ended ((L D : Of.Instance) (t : Terms) (before : Clock) (looks : ℕ) → let c = clock_at relaxation.old looks in IsAtLevel instance.now relaxation.old level.old L D → t.rounds ≡ limits.rounds → t.turns ≡ limits.turns → (was_best end ≡ true → walk.old.ray ≡ None → EndsAtBasis (cut D walk.old.cuts.items) false t before (ended_with end relaxation.old.work) c (statuses_in relaxation.old.work)) → (end ≡ endings.Endless → walk.old.ray ≡ None) → GoesAt instance.now L D level.old walk.old depth t before c (ended_with end relaxation.old.work) (Out (outcome_of (Means.certificates level.old.certs) ended) c))) }
    ensures stays { IfErr result (StaysAt relaxation.old level.old walk.old relaxation.new level.new walk.new) }
    ensures went_on { IfErr result (λ ended. was_killed ended ≡ false) }
{
    match end {
        LpEnd::Clash { col } => leaf(walk, depth, Node::Clash { col }),
        LpEnd::Empty => at_empty(alloc, instance, relaxation, walk, depth),
        LpEnd::Best { bound } => at_best(
            alloc, instance, limits, relaxation, level, bound, walk, depth,
        ),
        LpEnd::Endless => at_endless(alloc, instance, relaxation, walk, depth),
        LpEnd::TurnLimit => Err(give_up(walk, Cause::TurnLimit(limits.turns))),
        LpEnd::Wide(step) => Err(too_wide(walk, relaxation.turns.done, step)),
        LpEnd::Stopped => Err(give_up(walk, Cause::Killed)),
    }
}
