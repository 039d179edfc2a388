//! How a search ends, and what is claimed then. By [`leaf`] and [`branch`] it goes on, or is given up for want of memory.
ghost use Rattle.std.specs.Prelude.{◌≡◌, ◌⊎◌, ℕ, ◌+◌, ◌-◌, ◌^◌, ◌<◌, false, Some, List, [], ◌∷◌, length, None, IfOk, IfErr};
ghost use Rattle.evidence.specs.Instance.{Instance};
ghost use Rattle.evidence.specs.Rounds.{Certificate};
ghost use Rattle.instance.specs.Parts.{Parts};
ghost use Rattle.certificate.specs.Meanings as Means;
ghost use Rattle.certificate.specs.declared.causes.Cause.{Cause};
ghost use Rattle.certificate.specs.declared.causes.Cause.TheVariants.{Memory};
ghost use Rattle.case_tree.specs.Cuts.{HasNext};
ghost use Rattle.fraction.specs.Frac.{ratios};
ghost use Rattle.search_rules.specs.Search.{early, too_wide as too_wide_at, Unbounded};
ghost use Rattle.branch_bound.specs.declared.level.Level as levels;
ghost use Rattle.branch_bound.specs.declared.ended.Ended.TheVariants.{Early};
ghost use Rattle.branch_bound.specs.Claims.{ClaimTells, ClaimTellsWith, is_kill};
ghost use Rattle.branch_bound.specs.Walks.{best as best_of, IsWalk, IsAt, IsClosedBy, IsDividedBy};
ghost use Rattle.branch_bound.specs.Levels.{moment};
ghost use Rattle.branch_bound.specs.Bounds.{HasCarried, Leaves};
ghost use Rattle.branch_bound.specs.Cases.{outcome_of, closed_by, was_killed, EndsForMemory, IsForMemory};

use crate::carried::Carried;
use crate::ended::Ended;
use crate::found::Found;
use crate::level::Level;
use crate::open::Open;
use crate::walk::{Walk, close, divide};
use certificate::{Cause, Cert, Certs, Claim, Node, Nodes, Place, ProvedBound, Ray, Step};

/// Gives the search up, with the walk's best point.
pub fn give_up(walk: &mut Walk, cause: Cause) -> Ended
    ensures told { (cs : List Certificate) → outcome_of cs result ≡ early (best_of walk.old.best) cause }
    ensures rest { walk.new ≡ record walk.old { best = None } }
    ensures is { result ≡ Early walk.old.best cause }
    ensures killed { was_killed result ≡ is_kill cause }
{
    let best = walk.best.take();
    Ended::Early { best, cause }
}

/// Gives the search up at a number of the case at hand that doesn't fit, after so many turns.
pub fn too_wide(walk: &mut Walk, turn: u64, step: Step) -> Ended
    requires { length walk.old.nodes < 2 ^ 32 - 1 }
    ensures told { (cs : List Certificate) (p : Parts) (L D : Instance) (l : levels.Level) (looks : ℕ) → outcome_of cs result ≡ too_wide_at (moment p L D l walk.old (record { turns = turn; looks = looks })) step }
    ensures rest { walk.new ≡ record walk.old { best = None } }
    ensures is { (k : Cause) × (result ≡ Early walk.old.best k) }
    ensures killed { was_killed result ≡ false }
{
    let node = walk.nodes.len() as u32 + 1;
    give_up(walk, Cause::Wide(Place { node, turn, step }))
}

/// The claim of a search from whose point on there is no best one along the ray, where these certificates showed the levels before.
pub fn claim_endless(found: Found, ray: Ray, certs: Certs) -> Claim
    ensures { ClaimTells result (Unbounded (ratios found.point) (ratios found.values) (Means.certificates certs) (ratios ray)) }
{
    Claim::Unbounded {
        point: found.point,
        values: found.values,
        certs,
        ray,
    }
}

/// The claim of a search that is given up with this best point, if any, and this bound, if any.
pub fn claim_early(best: Option<Found>, cause: Cause, bound: Option<ProvedBound>) -> Claim
    ensures { ClaimTellsWith result (early (best_of best) cause) (Means.bound bound) }
{
    match best {
        Some(found) => Claim::BestSoFar {
            point: found.point,
            values: found.values,
            cause,
            bound,
        },
        None => Claim::Unsure { cause, bound },
    }
}

/// The claim of a best point, where the cases of the last level have these nodes. Where there is no memory for it, the search is given
/// up.
fn told_best(found: Found, nodes: Nodes, level: Level) -> Claim
    ensures { ClaimTells result (closed_by (Means.certificates level.certs) (record { rounds = Means.rounds level.rounds; nodes = Means.nodes nodes }) (best_of (Some found))) ⊎ ClaimTells result (early (best_of (Some found)) Memory) }
{
    let last = Cert {
        rounds: level.rounds,
        nodes,
    };
    let mut certs = level.certs;
    match certs.push(last) {
        Ok(()) => Claim::Optimal {
            point: found.point,
            values: found.values,
            certs,
        },
        Err(_) => Claim::BestSoFar {
            point: found.point,
            values: found.values,
            cause: Cause::Memory,
            bound: None,
        },
    }
}

/// The claim where all cases of the last level are closed, or those of any where no point was found. Where there is no memory for it,
/// the search is given up.
pub fn all_closed(best: Option<Found>, nodes: Nodes, level: Level) -> Claim
    ensures { ClaimTells result (closed_by (Means.certificates level.certs) (record { rounds = Means.rounds level.rounds; nodes = Means.nodes nodes }) (best_of best)) ⊎ ClaimTells result (early (best_of best) Memory) }
{
    match best {
        Some(found) => told_best(found, nodes, level),
        None => Claim::Infeasible {
            cert: Cert {
                rounds: level.rounds,
                nodes,
            },
        },
    }
}

/// Closes the case at hand by a leaf, and goes to the next one. Where there is no memory, the search is given up.
pub fn leaf(walk: &mut Walk, depth: usize, node: Node) -> Result<(), Ended>
    requires at { IsAt (length walk.old.cuts.items) walk.old depth }
    requires carried { HasCarried walk.old }
    ensures walk { IfOk result (λ _. IsWalk (length walk.old.cuts.items) walk.new) }
    ensures carried { IfOk result (λ _. HasCarried walk.new × Leaves walk.old walk.new depth []) }
    ensures ok { IfOk result (λ _. IsClosedBy walk.old walk.new depth (Means.node node)) }
    ensures one { IfOk result (λ _. length walk.new.nodes ≡ length walk.old.nodes + 1) }
    ensures err { IfErr result (EndsForMemory walk.old) }
    ensures memory { IfErr result (IsForMemory walk.old) }
    ensures went_on { IfErr result (λ ended. was_killed ended ≡ false) }
{
    match close(walk, depth, node) {
        Ok(()) => Ok(()),
        Err(_) => Err(give_up(walk, Cause::Memory)),
    }
}

/// Divides the case at hand, and goes to the first of its two cases, both of which carry this. Where there is no memory, the search is
/// given up.
pub fn branch(
    walk: &mut Walk,
    depth: usize,
    at: Open,
    carried: Option<Carried>,
) -> Result<(), Ended>
    requires stands { IsAt (length walk.old.cuts.items) walk.old depth }
    requires inside { at.col < length walk.old.cuts.items }
    requires next { HasNext at.by }
    requires carried { HasCarried walk.old }
    ensures walk { IfOk result (λ _. IsWalk (length walk.old.cuts.items) walk.new) }
    ensures carried { IfOk result (λ _. HasCarried walk.new × Leaves walk.old walk.new depth (carried ∷ carried ∷ [])) }
    ensures ok { IfOk result (λ _. IsDividedBy walk.old walk.new depth at.by at.col) }
    ensures one { IfOk result (λ _. length walk.new.nodes ≡ length walk.old.nodes + 1) }
    ensures err { IfErr result (EndsForMemory walk.old) }
    ensures memory { IfErr result (IsForMemory walk.old) }
    ensures went_on { IfErr result (λ ended. was_killed ended ≡ false) }
{
    match divide(walk, depth, at.col, at.by, carried) {
        Ok(()) => Ok(()),
        Err(_) => Err(give_up(walk, Cause::Memory)),
    }
}
