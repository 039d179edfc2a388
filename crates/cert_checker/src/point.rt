//! Whether a point is feasible and has its values.
ghost use Rattle.std.specs.Prelude.{◌≡◌, ◌<◌, length, OnOk, IfErr};
ghost use Rattle.fraction.specs.Frac.{ratio, ratios};
ghost use Rattle.evidence.specs.Levels.{HasGoalValues};
ghost use Rattle.evidence.specs.Width.{PointFits};
ghost use Rattle.instance.specs.Program.{program, problem};
ghost use Rattle.instance.specs.Feasibility.{IsFeasibleWithin};
ghost use Rattle.cert_checker.specs.Points.{PointRefuses, ValuesRefuse, ValueRefuses, HoldsValue};

use crate::refused::Refused;
use case_tree::is_same;
use fraction::Frac;
use instance::{Feas, Instance};

/// Whether a goal's value is its objective at the point.
fn check_value(
    instance: &Instance,
    goal: u32,
    point: &[Frac],
    values: &[Frac],
) -> Result<(), Refused>
    requires inside { goal < length instance.now.goals }
    requires value { goal < length values.now }
    requires count { length point.now ≡ length instance.now.vars }
    ensures ok { OnOk result (HoldsValue (problem instance.now) (ratios point.now) (ratios values.now) goal) }
    ensures err { IfErr result (ValueRefuses (problem instance.now) (ratios point.now) (ratios values.now) goal) }
{
    match instance.objective_at(goal, point) {
        Err(_) => Err(Refused::WidePoint),
        Ok(objective) => {
            if is_same(values[goal as usize], objective) {
                Ok(())
            } else {
                Err(Refused::Value)
            }
        }
    }
}

/// Whether there is one value for each goal, and each is its objective at the point.
fn check_values(instance: &Instance, point: &[Frac], values: &[Frac]) -> Result<(), Refused>
    requires count { length point.now ≡ length instance.now.vars }
    requires feasible { IsFeasibleWithin (program instance.now) (ratios point.now) }
    ensures values { OnOk result (HasGoalValues (problem instance.now) (ratios point.now) (ratios values.now)) }
    ensures fits { OnOk result (PointFits (problem instance.now) (ratios point.now)) }
    ensures count { OnOk result (length values.now ≡ length instance.now.goals) }
    ensures err { IfErr result (ValuesRefuse (problem instance.now) (ratios point.now) (ratios values.now)) }
{
    let goals = instance.goals().len();
    if values.len() != goals {
        return Err(Refused::Value);
    }
    for k in 0..goals {
        check_value(instance, k as u32, point, values)?;
    }
    Ok(())
}

/// Whether the point is feasible, and its objectives are the values.
pub(crate) fn check_point(
    instance: &Instance,
    point: &[Frac],
    values: &[Frac],
) -> Result<(), Refused>
    ensures values { OnOk result (HasGoalValues (problem instance.now) (ratios point.now) (ratios values.now)) }
    ensures fits { OnOk result (PointFits (problem instance.now) (ratios point.now)) }
    ensures count { OnOk result (length values.now ≡ length instance.now.goals) }
    ensures err { IfErr result (PointRefuses (problem instance.now) (ratios point.now) (ratios values.now)) }
{
    let count = instance.vars().len();
    if point.len() != count {
        let col = point.len().min(count);
        return Err(Refused::NotFeasible { col: col as u32 });
    }
    match instance.feasible(point) {
        Err(_) => Err(Refused::WidePoint),
        Ok(Feas::No { col }) => Err(Refused::NotFeasible { col }),
        Ok(Feas::Yes) => check_values(instance, point, values),
    }
}
