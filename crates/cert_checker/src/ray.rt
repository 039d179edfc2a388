//! Whether points stay feasible along a direction, and become better.
ghost use Rattle.std.specs.Prelude.{◌≡◌, ◌+◌, ◌<◌, ◌^◌, ◌↔◌, ◌⊎◌, length, IsTrue, IfOk, MatchOption, OnOk, OnErr, IfErr};
ghost use Rattle.rational.specs.Ratio.{IsSame, IsBelow};
ghost use Rattle.fraction.specs.Frac.{ratio, ratios};
ghost use Rattle.evidence.specs.Sums.{none, IsWhole};
ghost use Rattle.evidence.specs.Instance.{IsInstance, height, width};
ghost use Rattle.evidence.specs.Point.{NeverLeaves, IsBetween, IsRay};
ghost use Rattle.evidence.specs.Width.{RayFits};
ghost use Rattle.instance.specs.Program.{range, variable};
ghost use Rattle.cert_checker.specs.Rays.{MayMove, VariablesMove, IsVariableHeld, RowsMove, RowsRefuse, slope, SlopeFits, SlopeRefuses, RayRefuses};

use crate::at_hand::Program;
use crate::refused::Unshown;
use case_tree::is_below;
use fraction::{End, Frac, Wide};
use instance::{Var, add_product, is_between, zero};

/// Whether a movement meets no end, however far it goes.
fn never_leaves(lb: End, ub: End, by: Frac) -> bool
    ensures { IsTrue result ↔ NeverLeaves (range lb ub) (ratio by) }
{
    (!matches!(lb, End::At(_)) || by.numer >= 0) && (!matches!(ub, End::At(_)) || by.numer <= 0)
}

/// Whether a movement is whole where it must be.
fn is_whole_if(whole: bool, by: Frac) -> bool
    ensures { IsTrue result ↔ (IsTrue whole → IsWhole (ratio by)) }
{
    !whole || by.is_whole()
}

/// Whether a variable that may be 0 doesn't move, or moves from a value between its ends.
fn may_leave(v: &Var, at: Frac, by: Frac) -> bool
    ensures { IsTrue result ↔ (IsTrue v.now.zero → IsSame (ratio by) none ⊎ IsBetween (range v.now.lb v.now.ub) (ratio at)) }
{
    !v.zero || by.numer == 0 || is_between(v.lb, v.ub, at)
}

/// Whether the variable may move so from this value.
fn may_move(v: &Var, at: Frac, by: Frac) -> bool
    ensures { IsTrue result ↔ MayMove (variable v.now) (ratio at) (ratio by) }
{
    never_leaves(v.lb, v.ub, by) && is_whole_if(v.whole, by) && may_leave(v, at, by)
}

/// The first variable that may not move so.
fn first_held(program: &Program, point: &[Frac], ray: &[Frac]) -> Option<u32>
    requires point { length point.now ≡ width program.now }
    requires ray { length ray.now ≡ width program.now }
    ensures { MatchOption result (VariablesMove program.now (ratios point.now) (ratios ray.now) (width program.now)) (IsVariableHeld program.now (ratios point.now) (ratios ray.now)) }
{
    let vars = program.vars();
    for j in 0..vars.len() {
        if !may_move(&vars[j], point[j], ray[j]) {
            return Some(j as u32);
        }
    }
    None
}

/// Whether each row may move so.
fn check_rows(program: &Program, ray: &[Frac]) -> Result<(), Unshown>
    requires count { length ray.now ≡ width program.now }
    requires numbers { IsInstance program.now }
    requires few { width program.now + height program.now < 2 ^ 32 }
    ensures ok { OnOk result (RowsMove program.now (ratios ray.now) (height program.now)) }
    ensures err { IfErr result (RowsRefuse program.now (ratios ray.now)) }
{
    for i in 0..program.height() {
        let row = program.ends(i);
        match program.activity_at(i, ray) {
            Err(_) => return Err(Unshown::Wide { node: 0 }),
            Ok(activity) => {
                if !never_leaves(row.lb, row.ub, activity) {
                    return Err(Unshown::Direction {
                        col: (ray.len() + i) as u32,
                    });
                }
            }
        }
    }
    Ok(())
}

/// How the minimising objective changes along the direction.
fn slope_of(program: &Program, ray: &[Frac]) -> Result<Frac, Wide>
    requires count { length ray.now ≡ width program.now }
    requires numbers { IsInstance program.now }
    ensures ok { IfOk result (λ r. IsSame (ratio r) (slope program.now (ratios ray.now))) }
    ensures fits { IfOk result (λ _. SlopeFits program.now (ratios ray.now)) }
    ensures wide { OnErr result (SlopeFits program.now (ratios ray.now) → ⊥) }
{
    let mut sum = zero();
    for j in 0..ray.len() {
        sum = add_product(sum, program.cost_at(j), ray[j])?;
    }
    Ok(sum)
}

/// Whether the objective becomes better along the direction.
fn check_slope(program: &Program, ray: &[Frac]) -> Result<(), Unshown>
    requires count { length ray.now ≡ width program.now }
    requires numbers { IsInstance program.now }
    requires few { width program.now + height program.now < 2 ^ 32 }
    ensures fits { OnOk result (SlopeFits program.now (ratios ray.now)) }
    ensures better { OnOk result (IsBelow (slope program.now (ratios ray.now)) none) }
    ensures err { IfErr result (SlopeRefuses program.now (ratios ray.now)) }
{
    let cols = ray.len() + program.height();
    match slope_of(program, ray) {
        Err(_) => Err(Unshown::Wide { node: 0 }),
        Ok(slope) => {
            if is_below(slope, zero()) {
                Ok(())
            } else {
                Err(Unshown::Direction { col: cols as u32 })
            }
        }
    }
}

/// Whether the direction from this point is one without end, along which points become better.
pub(crate) fn check_ray(program: &Program, point: &[Frac], ray: &[Frac]) -> Result<(), Unshown>
    requires point { length point.now ≡ width program.now }
    requires few { width program.now + height program.now < 2 ^ 32 }
    ensures ok { OnOk result (IsRay program.now (ratios point.now) (ratios ray.now)) }
    ensures fits { OnOk result (RayFits program.now (ratios ray.now)) }
    ensures err { IfErr result (RayRefuses program.now (ratios point.now) (ratios ray.now)) }
{
    let count = program.vars().len();
    if ray.len() != count {
        let col = ray.len().min(count);
        return Err(Unshown::Direction { col: col as u32 });
    }
    if let Some(col) = first_held(program, point, ray) {
        return Err(Unshown::Direction { col });
    }
    check_rows(program, ray)?;
    check_slope(program, ray)
}
