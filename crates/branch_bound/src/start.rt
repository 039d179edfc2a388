//! The point that a search begins with.
ghost use Rattle.std.specs.Prelude.{◌≡◌, ◌<◌, Some, None, true, false, length, map, get_or, IfOk};
ghost use Rattle.fraction.specs.Frac.{ratio, ratios};
ghost use Rattle.evidence.specs.Point.{IsFeasible};
ghost use Rattle.evidence.specs.Width.{PointFits};
ghost use Rattle.instance.specs.Program.{program, problem};
ghost use Rattle.search_rules.specs.Beginnings.{IsFirstBest, value_given, point_given};
ghost use Rattle.branch_bound.specs.Walks.{best as best_of};
ghost use Rattle.branch_bound.specs.Beginnings.{given_ratio};

use crate::found::Found;
use crate::values::values_at;
use certificate::Point;
use fraction::Frac;
use instance::{Feas, Instance, zero};
use std::alloc::{AllocError, Global};

/// The value that is given for a variable, and 0 where none is.
fn value_for(given: &[Option<Frac>], j: usize) -> Frac
    ensures { ratio result ≡ value_given (get_or (map given_ratio given.now) j None) }
{
    if j < given.len() {
        match given[j] {
            Some(value) => value,
            None => zero(),
        }
    } else {
        zero()
    }
}

/// The point of these values, with 0 for each variable for which none is given.
fn filled(alloc: Global, given: &[Option<Frac>], width: usize) -> Result<Point, AllocError>
    ensures count { IfOk result (λ x. length x ≡ width) }
    ensures values { IfOk result (λ x. ratios x ≡ point_given (map given_ratio given.now) width) }
{
    let mut point = Point::new(alloc);
    for j in 0..width {
        point.push(value_for(given, j))?;
    }
    Ok(point)
}

/// Whether a point is one of the instance, by sums that fit.
fn is_point(instance: &Instance, point: &[Frac]) -> bool
    requires { length point.now ≡ length instance.now.vars }
    ensures yes { result ≡ true → IsFeasible (program instance.now) (ratios point.now) }
    ensures no { result ≡ false → IsFeasible (program instance.now) (ratios point.now) → PointFits (problem instance.now) (ratios point.now) → ⊥ }
{
    match instance.feasible(point) {
        Ok(feas) => match feas {
            Feas::Yes => true,
            Feas::No { col: _ } => false,
        },
        Err(_) => false,
    }
}

/// The point of these values, with 0 for each variable for which none is given, where it is one of the instance and its sums fit. None
/// where it isn't, or where a value is given for a variable that the instance doesn't have.
pub fn first_point(
    alloc: Global,
    instance: &Instance,
    given: &[Option<Frac>],
) -> Result<Option<Found>, AllocError>
    ensures { IfOk result (λ first. IsFirstBest (problem instance.now) (Some (map given_ratio given.now)) (best_of first)) }
{
    let width = instance.vars().len();
    if given.len() > width {
        return Ok(None);
    }
    let point = filled(alloc, given, width)?;
    if !is_point(instance, point.as_slice()) {
        return Ok(None);
    }
    match values_at(alloc, instance, point.as_slice())? {
        Some(values) => Ok(Some(Found { point, values })),
        None => Ok(None),
    }
}
