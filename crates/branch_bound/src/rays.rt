//! The ray of the direction that a run found.
ghost use Rattle.std.specs.Prelude.{◌≡◌, ℕ, ◌≤◌, pos, ◌<ℤ◌, unsigned_abs, length, IfOk, OnErr, MatchOption, List};
ghost use Rattle.rational.specs.Ratio.{Ratio};
ghost use Rattle.fraction.specs.Frac.{ratio, ratios};
ghost use Rattle.instance.specs.Program.{program};
ghost use Rattle.simplex.specs.Memory.{width_in, ray_of};
ghost use Rattle.search_rules.specs.Rays.{IsNextFactor, IsFactor, IsScaled};

use crate::points::movement;
use case_tree::whole;
use certificate::Ray;
use fraction::{Frac, Wide, lcm};
use instance::Instance;
use simplex::Work;
use std::alloc::{AllocError, Global};
use std::sync::ledger::Ledger;

/// The factor after a variable that moves so.
fn next_factor(is_whole: bool, movement: Frac, factor: i128) -> Result<i128, Wide>
    requires { pos 0 <ℤ factor }
    ensures above { IfOk result (λ f. pos 0 <ℤ f) }
    ensures ok { IfOk result (λ f. IsNextFactor is_whole (ratio movement) (unsigned_abs factor) (unsigned_abs f)) }
    ensures wide { OnErr result ((f : ℕ) → IsNextFactor is_whole (ratio movement) (unsigned_abs factor) f → ⊥) }
{
    if !is_whole {
        return Ok(factor);
    }
    let factor = lcm(factor, movement.denom())?;
    Ok(factor)
}

/// The least number that makes the movements of all whole variables whole.
fn factor<L: Ledger>(instance: &Instance, work: &Work<L>) -> Result<i128, Wide>
    requires { width_in work.now ≡ length instance.now.vars }
    ensures above { IfOk result (λ f. pos 0 <ℤ f) }
    ensures ok { IfOk result (λ f. IsFactor (program instance.now) (ray_of work.now) (length instance.now.vars) (unsigned_abs f)) }
    ensures wide { OnErr result ((f : ℕ) → IsFactor (program instance.now) (ray_of work.now) (length instance.now.vars) f → ⊥) }
{
    let vars = instance.vars();
    let mut factor = 1;
    for j in 0..vars.len() {
        factor = next_factor(vars[j].whole, movement(work, j as u32), factor)?;
    }
    Ok(factor)
}

/// The run's direction times its factor. None where a number doesn't fit.
pub fn read_ray<L: Ledger>(
    alloc: Global,
    instance: &Instance,
    work: &Work<L>,
) -> Result<Option<Ray>, AllocError>
    requires { width_in work.now ≡ length instance.now.vars }
    ensures { IfOk result (λ scaled. MatchOption scaled ((r : List Ratio) → IsScaled (program instance.now) (ray_of work.now) r → ⊥) (λ ray. IsScaled (program instance.now) (ray_of work.now) (ratios ray))) }
{
    let by = match factor(instance, work) {
        Ok(factor) => whole(factor),
        Err(_) => return Ok(None),
    };
    let mut ray = Ray::new(alloc);
    for j in 0..instance.vars().len() {
        match movement(work, j as u32).mul(by) {
            Ok(movement) => ray.push(movement)?,
            Err(_) => return Ok(None),
        }
    }
    Ok(Some(ray))
}
