//! What the definitions say together.

ghost use Rattle.std.specs.Prelude.{◌≡◌, ◌<◌, ℕ, List};
ghost use Rattle.evidence.specs.Instance as Of;
ghost use Rattle.case_tree.specs.declared.cuts.Cut.{Cut};
ghost use Rattle.case_tree.specs.declared.path.Branch as above;
ghost use Rattle.case_tree.specs.Cuts.{branch_at, pending};

/// Law: which cases are still to come is said by the branches above alone.
pub fn cases_come_of_branches_above()
    ensures { (I : Of.Instance) (vs : List Cut) (bs cs : List above.Branch) (d : ℕ) → ((e : ℕ) → e < d → branch_at bs e ≡ branch_at cs e) → pending I vs bs d ≡ pending I vs cs d }
{}
