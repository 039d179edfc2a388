//! The branches above the case at hand, and the way back to the next case.
ghost use Rattle.std.specs.Prelude.{◌≡◌, ℕ, ◌+◌, ◌-◌, ◌<◌, ◌≤◌, [], ◌∷◌, false, length, IfSome, MatchOption};
ghost use Rattle.evidence.specs.Instance as Of;
ghost use Rattle.case_tree.specs.Cuts.{cut, cases, pending, pending_places, branch_at, first_case, second_case, HasNext, HaveOneDivision, AreBranches};

use crate::cuts::{Cut, Division, ends_of, first, second, set_ends};
use instance::Row;

/// A branch above the case at hand: which ends its variable had before, and whether the walk is in the second case.
#[derive(Clone, Copy, PartialEq, Eq)]
pub struct Branch {
    pub col: u32,
    pub by: Division,
    pub before: Row,
    pub is_second: bool,
}

/// Goes to the first case of a branch.
pub fn enter(cuts: &mut [Cut], branches: &mut [Branch], depth: usize, col: u32, by: Division)
    requires room { depth < length branches.old }
    requires inside { col < length cuts.old }
    requires next { HasNext by }
    requires above { AreBranches (length cuts.old) branches.old depth }
    ensures above { AreBranches (length cuts.old) branches.new (depth + 1) }
    ensures divisions { (e : ℕ) → e < depth → HaveOneDivision (branch_at branches.old e) (branch_at branches.new e) }
    ensures division { ((branch_at branches.new depth).col ≡ col) × ((branch_at branches.new depth).by ≡ by) }
    ensures places { pending_places branches.new (depth + 1) ≡ depth ∷ pending_places branches.old depth }
    ensures cases { (I : Of.Instance) → cases I cuts.new branches.new (Some (depth + 1)) ≡ first_case (cut I cuts.old) col by ∷ second_case (cut I cuts.old) col by ∷ pending I cuts.old branches.old depth }
{
    let j = col as usize;
    let before = ends_of(&cuts[j]);
    branches[depth] = Branch {
        col,
        by,
        before,
        is_second: false,
    };
    let ends = first(before, by);
    set_ends(&mut cuts[j], ends);
}

/// Goes to the second case of a branch, over its variable as it was before.
fn turn(cuts: &mut [Cut], branches: &mut [Branch], place: usize)
    requires room { place < length branches.old }
    requires above { AreBranches (length cuts.old) branches.old (place + 1) }
    requires first { (branch_at branches.old place).is_second ≡ false }
    ensures above { AreBranches (length cuts.old) branches.new (place + 1) }
    ensures divisions { (e : ℕ) → HaveOneDivision (branch_at branches.old e) (branch_at branches.new e) }
    ensures places { pending_places branches.old (place + 1) ≡ place ∷ pending_places branches.new (place + 1) }
    ensures cases { (I : Of.Instance) → cases I cuts.new branches.new (Some (place + 1)) ≡ pending I cuts.old branches.old (place + 1) }
{
    let branch = branches[place];
    let j = branch.col as usize;
    let ends = second(branch.before, &cuts[j].var, branch.by);
    set_ends(&mut cuts[j], ends);
    branches[place].is_second = true;
}

/// Goes back to the last branch whose second case is still to show, and to that case. None where there is none.
pub fn back(cuts: &mut [Cut], branches: &mut [Branch], depth: usize) -> Option<usize>
    requires room { depth ≤ length branches.old }
    requires above { AreBranches (length cuts.old) branches.old depth }
    ensures depth { IfSome result (λ d. d ≤ depth) }
    ensures inside { IfSome result (λ d. 0 < d) }
    ensures above { IfSome result (λ d. AreBranches (length cuts.old) branches.new d) }
    ensures divisions { (e : ℕ) → HaveOneDivision (branch_at branches.old e) (branch_at branches.new e) }
    ensures places { MatchOption result (pending_places branches.old depth ≡ []) (λ d. pending_places branches.old depth ≡ (d - 1) ∷ pending_places branches.new d) }
    ensures cases { (I : Of.Instance) → cases I cuts.new branches.new result ≡ pending I cuts.old branches.old depth }
{
    let mut place = depth;
    while place > 0 {
        place -= 1;
        let branch = branches[place];
        if !branch.is_second {
            turn(cuts, branches, place);
            return Some(place + 1);
        }
        let j = branch.col as usize;
        set_ends(&mut cuts[j], branch.before);
    }
    None
}
