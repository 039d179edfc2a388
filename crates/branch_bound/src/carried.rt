//! What the open cases of a search carry.
ghost use Rattle.std.specs.Prelude.{◌≡◌, ◌<◌, ◌≤◌, true, ℕ, IfOk, vec_len};
ghost use Rattle.branch_bound.specs.Bounds.{HoldsAt, carried_at, left_by};

use certificate::Mults;
use fraction::Frac;
use std::alloc::AllocError;

/// What a run that had a best point leaves to the cases that come of its case: the point's value, turned so that less is better, and
/// the multipliers that show it.
#[derive(Drop)]
pub struct Carried {
    pub bound: Frac,
    pub mults: Mults,
}

/// The list of what a walk's cases carry, by how many branches are above each.
pub type CarriedList = Vec<Option<Carried>>;

/// What the run of a case leaves: nothing where it had no best point by the level's goal.
pub fn left_by(bound: Option<Frac>, mults: Mults) -> Option<Carried>
    ensures { result ≡ left_by bound mults }
{
    match bound {
        Some(bound) => Some(Carried { bound, mults }),
        None => None,
    }
}

/// Keeps what the cases with so many branches above carry.
pub fn keep(
    list: &mut CarriedList,
    depth: usize,
    carried: Option<Carried>,
) -> Result<(), AllocError>
    requires { depth ≤ vec_len list.old }
    ensures at { IfOk result (λ _. HoldsAt list.new.items depth carried) }
    ensures before { IfOk result (λ _. (e : ℕ) → e < depth → carried_at list.new.items e ≡ carried_at list.old.items e) }
{
    if depth == list.len() {
        list.push(carried)?;
        return Ok(());
    }
    list[depth] = carried;
    Ok(())
}

/// The same, where that is asked for.
pub fn carry(
    keeps: bool,
    list: &mut CarriedList,
    depth: usize,
    carried: Option<Carried>,
) -> Result<(), AllocError>
    requires { keeps ≡ true → depth ≤ vec_len list.old }
    ensures at { IfOk result (λ _. keeps ≡ true → HoldsAt list.new.items depth carried) }
    ensures before { IfOk result (λ _. (e : ℕ) → e < depth → carried_at list.new.items e ≡ carried_at list.old.items e) }
{
    if !keeps {
        return Ok(());
    }
    keep(list, depth, carried)
}
