//! The walk through the cases of a level.
ghost use Rattle.std.specs.Prelude.{◌≡◌, ℕ, ◌+◌, ◌<◌, ◌≤◌, ◌++◌, cond, None, List, [], ◌∷◌, length, IfOk, vec_len};
ghost use Rattle.evidence.specs.Instance.{Instance};
ghost use Rattle.certificate.specs.Meanings as Means;
ghost use Rattle.case_tree.specs.declared.cuts.Cut.{Cut as OneCut};
ghost use Rattle.case_tree.specs.Cuts.{pending, pending_places, branch_at, HasNext, HaveOneDivision, AreBranches};
ghost use Rattle.branch_bound.specs.Bounds.{HasCarried, Leaves};
ghost use Rattle.branch_bound.specs.Walks.{case, rest, waiting, divided_cases_by, node_by, keeps_ray, IsWalk, IsAt};

use crate::carried::{Carried, CarriedList, carry};
use crate::found::Found;
use case_tree::{Branch, Cut, Division, back, cases_come_of_branches_above, enter};
use certificate::{Node, Nodes, Ray};
use fraction::End;
use instance::Row;
use std::alloc::AllocError;

/// A ray, and how many branches were above the case whose direction gave it.
#[derive(Drop)]
pub struct RayAt {
    pub ray: Ray,
    pub depth: usize,
}

/// Where the search of a level stands: the variables of the case at hand, the branches above it, how many of them count, the nodes
/// so far, the best point, the ray of the cases below the one whose direction gave it, and, where `keeps` says so, what cases carry
/// by how many branches are above them.
#[derive(Drop)]
pub struct Walk {
    pub cuts: Vec<Cut>,
    pub branches: Vec<Branch>,
    pub next: Option<usize>,
    pub nodes: Nodes,
    pub best: Option<Found>,
    pub ray: Option<RayAt>,
    pub keeps: bool,
    pub carried: CarriedList,
}

/// Whether the case that comes next is below the one whose direction gave the ray.
fn keeps_ray(ray: &Option<RayAt>, next: Option<usize>) -> bool
    ensures { result ≡ keeps_ray ray.now next }
{
    match ray {
        Some(at) => match next {
            Some(depth) => at.depth < depth,
            None => false,
        },
        None => false,
    }
}

/// Keeps the ray where the case that comes next has it.
fn forget_ray(ray: &mut Option<RayAt>, next: Option<usize>)
    ensures { ray.new ≡ cond (keeps_ray ray.old next) ray.old None }
{
    if keeps_ray(ray, next) {
        return;
    }
    *ray = None;
}

/// Closes the case at hand by a leaf, and goes to the next one.
pub fn close(walk: &mut Walk, depth: usize, node: Node) -> Result<(), AllocError>
    requires at { IsAt (length walk.old.cuts.items) walk.old depth }
    requires carried { HasCarried walk.old }
    ensures carried { IfOk result (λ _. HasCarried walk.new) }
    ensures leaves { IfOk result (λ _. Leaves walk.old walk.new depth []) }
    ensures nodes { IfOk result (λ _. Means.nodes walk.new.nodes ≡ Means.nodes walk.old.nodes ++ Means.node node ∷ []) }
    ensures waiting { IfOk result (λ _. (I : Instance) → waiting I walk.new walk.new.next ≡ rest I walk.old depth) }
    ensures walk { IfOk result (λ _. IsWalk (length walk.old.cuts.items) walk.new) }
    ensures best { walk.new.best ≡ walk.old.best }
{
    walk.nodes.push(node)?;
    walk.next = back(
        walk.cuts.as_mut_slice(),
        walk.branches.as_mut_slice(),
        depth,
    );
    forget_ray(&mut walk.ray, walk.next);
    Ok(())
}

/// Makes room for one more branch.
fn make_room(branches: &mut Vec<Branch>, depth: usize, filler: Branch) -> Result<(), AllocError>
    requires { depth ≤ vec_len branches.old }
    ensures room { IfOk result (λ _. depth < vec_len branches.new) }
    ensures same { (I : Instance) (cs : List OneCut) → pending I cs branches.new.items depth ≡ pending I cs branches.old.items depth }
    ensures places { pending_places branches.new.items depth ≡ pending_places branches.old.items depth }
    ensures divisions { (e : ℕ) → e < depth → HaveOneDivision (branch_at branches.old.items e) (branch_at branches.new.items e) }
    ensures above { (n : ℕ) → AreBranches n branches.old.items depth → AreBranches n branches.new.items depth }
{
    cases_come_of_branches_above();
    if depth == branches.len() {
        branches.push(filler)?;
    }
    Ok(())
}

/// The node of a division.
fn node_of(col: u32, by: Division) -> Node
    ensures { Means.node result ≡ node_by by col }
{
    match by {
        Division::Split(k) => Node::Split { col, k },
        Division::Zero => Node::Zero { col },
    }
}

/// Divides the case at hand, and goes to the first of its two cases, both of which carry this.
pub fn divide(
    walk: &mut Walk,
    depth: usize,
    col: u32,
    by: Division,
    carried: Option<Carried>,
) -> Result<(), AllocError>
    requires at { IsAt (length walk.old.cuts.items) walk.old depth }
    requires inside { col < length walk.old.cuts.items }
    requires next { HasNext by }
    requires carried { HasCarried walk.old }
    ensures carried { IfOk result (λ _. HasCarried walk.new) }
    ensures leaves { IfOk result (λ _. Leaves walk.old walk.new depth (carried ∷ carried ∷ [])) }
    ensures nodes { IfOk result (λ _. Means.nodes walk.new.nodes ≡ Means.nodes walk.old.nodes ++ node_by by col ∷ []) }
    ensures waiting { IfOk result (λ _. (I : Instance) → waiting I walk.new walk.new.next ≡ divided_cases_by by (case I walk.old depth) col (rest I walk.old depth)) }
    ensures walk { IfOk result (λ _. IsWalk (length walk.old.cuts.items) walk.new) }
    ensures best { walk.new.best ≡ walk.old.best }
{
    let filler = Branch {
        col,
        by,
        before: Row {
            lb: End::NegInf,
            ub: End::Inf,
        },
        is_second: false,
    };
    make_room(&mut walk.branches, depth, filler)?;
    carry(walk.keeps, &mut walk.carried, depth + 1, carried)?;
    walk.nodes.push(node_of(col, by))?;
    enter(
        walk.cuts.as_mut_slice(),
        walk.branches.as_mut_slice(),
        depth,
        col,
        by,
    );
    walk.next = Some(depth + 1);
    Ok(())
}
