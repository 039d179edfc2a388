//! The values of all goals at a point, and bounds beside the best one.
ghost use Rattle.std.specs.Prelude.{◌≡◌, ℕ, ◌↔◌, ◌<◌, IsTrue, true, false, length, IfOk, MatchOption};
ghost use Rattle.fraction.specs.Frac.{ratio, ratios};
ghost use Rattle.evidence.specs.Instance.{height};
ghost use Rattle.evidence.specs.Width.{PointFits, RowFits};
ghost use Rattle.instance.specs.Program.{program, problem};
ghost use Rattle.search_rules.specs.Search.{Level, AreValuesAt, IsPassed, IsHopeful};
ghost use Rattle.branch_bound.specs.Walks.{best as best_of};
ghost use Rattle.branch_bound.specs.Levels.{AsksGoal};
ghost use Rattle.branch_bound.specs.Cases.{HaveValues};

use crate::found::Found;
use case_tree::{is_at_most, turned};
use certificate::Values;
use fraction::Frac;
use instance::Instance;
use std::alloc::{AllocError, Global};

/// Whether the sum of each row fits at a point.
fn rows_fit(instance: &Instance, point: &[Frac]) -> bool
    requires { length point.now ≡ length instance.now.vars }
    ensures { IsTrue result ↔ ((i : ℕ) → i < height (program instance.now) → RowFits (program instance.now) (ratios point.now) i) }
{
    for i in 0..instance.rows().len() {
        match instance.activity_at(i as u32, point) {
            Ok(_) => {}
            Err(_) => return false,
        }
    }
    true
}

/// The values of all goals at a point, once the sum of each row was formed too. None where one of these sums doesn't fit.
pub fn values_at(
    alloc: Global,
    instance: &Instance,
    point: &[Frac],
) -> Result<Option<Values>, AllocError>
    requires { length point.now ≡ length instance.now.vars }
    ensures { IfOk result (λ told. MatchOption told (PointFits (problem instance.now) (ratios point.now) → ⊥) (λ vs. PointFits (problem instance.now) (ratios point.now) × AreValuesAt (problem instance.now) (ratios point.now) (ratios vs))) }
{
    if !rows_fit(instance, point) {
        return Ok(None);
    }
    let mut values = Values::new(alloc);
    for k in 0..instance.goals().len() {
        match instance.objective_at(k as u32, point) {
            Ok(value) => values.push(value)?,
            Err(_) => return Ok(None),
        }
    }
    Ok(Some(values))
}

/// Whether a bound isn't better than the best value of the goal that is asked.
pub fn is_no_better(instance: &Instance, goal: u32, best: &Option<Found>, bound: Frac) -> bool
    requires goal { goal < length instance.now.goals }
    requires values { HaveValues instance.now best.now }
    ensures yes { result ≡ true → (l : Level) → AsksGoal instance.now goal l → IsPassed l (best_of best.now) (ratio bound) }
    ensures no { result ≡ false → (l : Level) → AsksGoal instance.now goal l → IsHopeful l (best_of best.now) (ratio bound) }
{
    let goals = instance.goals();
    let sense = goals[goal as usize].sense;
    match best {
        Some(found) => {
            let values = found.values.as_slice();
            let value = values[goal as usize];
            is_at_most(turned(sense, value), bound)
        }
        None => false,
    }
}
