//! What the last run found: its point, its multipliers and its direction.
ghost use Rattle.std.specs.Prelude.{◌≡◌, ◌+◌, ◌<◌, ◌++◌, length, IfOk};
ghost use Rattle.fraction.specs.Frac.{ratio, ratios};
ghost use Rattle.evidence.specs.Point.{value_at};
ghost use Rattle.certificate.specs.Meanings as Means;
ghost use Rattle.simplex_rules.specs.Reports.{one_of};
ghost use Rattle.simplex.specs.Memory.{width_in, height_in, point_of, mults_of, ray_of};

use certificate::{Mult, Mults, Point};
use fraction::Frac;
use simplex::{Work, first_values_are_listed};
use std::alloc::{AllocError, Global};
use std::sync::ledger::Ledger;

/// A variable's value at the run's point.
pub fn coordinate<L: Ledger>(work: &Work<L>, j: u32) -> Frac
    requires { j < width_in work.now }
    ensures { value_at (point_of work.now) j ≡ ratio result }
{
    first_values_are_listed();
    work.point_at(j)
}

/// A variable's movement along the run's direction.
pub fn movement<L: Ledger>(work: &Work<L>, j: u32) -> Frac
    requires { j < width_in work.now }
    ensures { value_at (ray_of work.now) j ≡ ratio result }
{
    first_values_are_listed();
    work.ray_at(j)
}

/// The run's point, of so many variables.
pub fn read_point<L: Ledger>(alloc: Global, work: &Work<L>, width: u32) -> Result<Point, AllocError>
    requires { width ≡ width_in work.now }
    ensures count { IfOk result (λ point. length point ≡ width) }
    ensures values { IfOk result (λ point. ratios point ≡ point_of work.now) }
{
    let mut point = Point::new(alloc);
    for j in 0..width {
        point.push(work.point_at(j))?;
    }
    Ok(point)
}

/// Adds a column's multiplier, unless it is 0.
pub fn add(mults: &mut Mults, col: u32, value: Frac) -> Result<(), AllocError>
    ensures { IfOk result (λ _. Means.multipliers mults.new ≡ Means.multipliers mults.old ++ one_of col value.numer (ratio value)) }
{
    if value.numer == 0 {
        return Ok(());
    }
    mults.push(Mult { col, value })
}

/// The run's multipliers that aren't 0, of so many columns.
pub fn read_mults<L: Ledger>(
    alloc: Global,
    work: &Work<L>,
    columns: u32,
) -> Result<Mults, AllocError>
    requires { columns ≡ width_in work.now + height_in work.now }
    ensures { IfOk result (λ mults. Means.multipliers mults ≡ mults_of work.now) }
{
    let mut mults = Mults::new(alloc);
    for col in 0..columns {
        add(&mut mults, col, work.mult_at(col))?;
    }
    Ok(mults)
}
