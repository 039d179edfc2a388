//! Makes the instances.

ghost use Rattle.std.specs.Prelude.{◌≡◌, ◌+◌, ◌-◌, ◌/◌, ◌≤◌, [], ◌∷◌, IfOk, replicate};
ghost use Rattle.generator.specs.Instances.{group_variable, cost, group_entry, row_limit, group_count, each, generated};

use case_tree::whole;
use fraction::{End, Entry, Frac};
use instance::{Costs, Goal, Instance, Row, Sense, Var};
use os_io::Memory;
use std::alloc::Global;

/// How many variables stand in one row.
const GROUP: u32 = 4;

/// Variable `j`.
fn variable(j: u32) -> Var
    ensures { result ≡ group_variable j }
{
    Var {
        lb: End::At(whole(0)),
        ub: End::At(whole(3)),
        whole: j < GROUP,
        zero: false,
    }
}

/// The cost of variable `j`.
fn cost(j: u32) -> Frac
    ensures { result ≡ cost j }
{
    whole(i128::from(j % GROUP + 1))
}

/// The entry of variable `j`.
fn entry(j: u32) -> Entry
    ensures { result ≡ group_entry j }
{
    Entry {
        row: j / GROUP,
        col: j,
        value: whole(2),
    }
}

/// The row of a group.
fn limit() -> Row
    ensures { result ≡ row_limit }
{
    Row {
        lb: End::NegInf,
        ub: End::At(whole(7)),
    }
}

/// The variables.
fn variables(alloc: Global, n: u32) -> Result<Vec<Var>, Memory>
    ensures { IfOk result (λ v. v.items ≡ each n group_variable) }
{
    (0..n).map(|j| variable(j)).collect(alloc)
}

/// The costs of the variables.
fn costs(alloc: Global, n: u32) -> Result<Vec<Frac>, Memory>
    ensures { IfOk result (λ v. v.items ≡ each n cost) }
{
    (0..n).map(|j| cost(j)).collect(alloc)
}

/// The entries of the variables.
fn entries(alloc: Global, n: u32) -> Result<Vec<Entry>, Memory>
    ensures { IfOk result (λ v. v.items ≡ each n group_entry) }
{
    (0..n).map(|j| entry(j)).collect(alloc)
}

/// The rows of so many groups.
fn rows(alloc: Global, count: u32) -> Result<Vec<Row>, Memory>
    ensures { IfOk result (λ v. v.items ≡ replicate count row_limit) }
{
    vec![in alloc; limit(); count as usize]
}

/// The list of one goal.
fn only(alloc: Global, goal: Goal) -> Result<Vec<Goal>, Memory>
    ensures { IfOk result (λ v. v.items ≡ goal ∷ []) }
{
    let mut goals = Vec::new(alloc);
    goals.push(goal)?;
    Ok(goals)
}

/// The generated instance of `n` variables. The error is want of memory.
pub fn make(alloc: Global, n: u32) -> Result<Instance, Memory>
    requires least { 1 ≤ n }
    requires most { n ≤ 1000 }
    ensures { IfOk result (λ i. i ≡ generated n) }
{
    let goal = Goal {
        sense: Sense::Max,
        constant: whole(0),
        costs: Costs::of(costs(alloc, n)?),
    };
    let rows = rows(alloc, (n - 1) / GROUP + 1)?;
    let goals = only(alloc, goal)?;
    match Instance::of(variables(alloc, n)?, rows, entries(alloc, n)?, goals) {
        Some(instance) => Ok(instance),
        None => unreachable!(),
    }
}
