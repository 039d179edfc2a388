//! The numbers of runs.

ghost use Rattle.std.specs.Prelude.{◌≡◌, ◌+◌, ◌<◌, ◌≤◌, ◌↔◌, ◌++◌, ◌*◌, ◌^◌, ℕ, suc, pos, ◌+ℤ◌, ◌*ℤ◌, unsigned_abs, IsTrue, MatchBool, MatchResult, IfOk, OnOk, List, map};
ghost use Rattle.fraction.specs.Frac.{ratio};
ghost use Rattle.instance.specs.Limits.{most_entries};
ghost use Rattle.osil_grammar.specs.Runs.{whole_run};
ghost use Rattle.osil_grammar.specs.Failing.{IsIndexBelow, HasGreat};
ghost use Rattle.osil_grammar.specs.Stepping.{IsStepRun};

use fraction::{Frac, Wide};
use std::alloc::AllocError;

/// So many steps of a run.
fn steps(step: i64, count: u64) -> i128
    requires { count ≤ most_entries }
    ensures value { result ≡ pos count *ℤ step }
    ensures small { unsigned_abs result ≤ most_entries * 2 ^ 63 }
{
    i128::from(count) * i128::from(step)
}

/// The number at this place of a run.
fn number_at(first: i64, step: i64, place: u64) -> i128
    requires { place ≤ most_entries }
    ensures { result ≡ first +ℤ pos place *ℤ step }
{
    i128::from(first) + steps(step, place)
}

/// Whether the number at this place of a run is at least 0 and below the limit.
fn is_inside(first: i64, step: i64, place: u64, limit: u32) -> bool
    requires { place ≤ most_entries }
    ensures { IsTrue result ↔ IsIndexBelow (first +ℤ pos place *ℤ step) limit }
{
    let number = number_at(first, step, place);
    0 <= number && number < i128::from(limit)
}

/// Whether all numbers of a run are at least 0 and below the limit.
pub(crate) fn is_in_range(first: i64, step: i64, times: u64, limit: u32) -> bool
    requires some { 0 < times }
    requires few { times ≤ most_entries }
    ensures { MatchBool result ((k : ℕ) → k < times → IsIndexBelow (first +ℤ pos k *ℤ step) limit) ((k : ℕ) × (k < times) × (IsIndexBelow (first +ℤ pos k *ℤ step) limit → ⊥)) }
{
    if !is_inside(first, step, 0, limit) {
        return false;
    }
    is_inside(first, step, times - 1, limit)
}

/// Adds the numbers of a run that is in range.
pub(crate) fn push_wholes(
    list: &mut Vec<u32>,
    first: i64,
    step: i64,
    times: u64,
) -> Result<(), AllocError>
    requires few { times ≤ most_entries }
    requires inside { (k : ℕ) → k < times → IsIndexBelow (first +ℤ pos k *ℤ step) 100001 }
    ensures { OnOk result (map pos list.new.items ≡ map pos list.old.items ++ whole_run first step times) }
{
    for place in 0..times {
        list.push(number_at(first, step, place) as u32)?;
    }
    Ok(())
}

/// Adds the numbers of a run of decimals; Wide where one is too great.
pub(crate) fn push_decimals(
    list: &mut Vec<Frac>,
    first: Frac,
    step: Frac,
    times: u64,
) -> Result<Result<(), Wide>, AllocError>
    requires { 0 < times }
    ensures { IfOk result (λ r. MatchResult r (λ _. (added : List Frac) × IsStepRun first step times added × (list.new.items ≡ list.old.items ++ added)) (λ _. HasGreat first step times)) }
{
    let mut next = first;
    list.push(next)?;
    for _place in 1..times {
        next = match next.add(step) {
            Ok(sum) => sum,
            Err(wide) => return Ok(Err(wide)),
        };
        list.push(next)?;
    }
    Ok(Ok(()))
}
