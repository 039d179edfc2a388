//! Whether a column's ends exclude each other.
ghost use Rattle.std.specs.Prelude.{◌≡◌, ◌↔◌, length, IsTrue, OnOk, IfErr};
ghost use Rattle.evidence.specs.Instance.{width};
ghost use Rattle.evidence.specs.Cases.{IsEmpty};
ghost use Rattle.instance.specs.Program.{row};
ghost use Rattle.case_tree.specs.Cuts.{cut};
ghost use Rattle.cert_checker.specs.Leaves.{ClashHolds, ClashRefuses};

use crate::at_hand::Program;
use crate::columns::ends_of;
use crate::refused::Unshown;
use case_tree::{Cut, is_below};
use fraction::End;
use instance::Row;

/// Whether the lower end is above the upper one.
fn is_empty(ends: Row) -> bool
    ensures { IsTrue result ↔ IsEmpty (row ends) }
{
    match (ends.lb, ends.ub) {
        (End::At(low), End::At(high)) => is_below(high, low),
        _ => false,
    }
}

/// Whether there is such a column, and its ends exclude each other.
pub(crate) fn check_clash(
    program: &Program,
    cuts: &[Cut],
    col: u32,
    node: u32,
) -> Result<(), Unshown>
    requires { length cuts.now ≡ width program.now }
    ensures ok { OnOk result (ClashHolds (cut program.now cuts.now) col) }
    ensures err { IfErr result (ClashRefuses (cut program.now cuts.now) col node) }
{
    let cols = cuts.len() + program.height();
    if col as usize >= cols {
        return Err(Unshown::Sign { node, col });
    }
    if is_empty(ends_of(program, cuts, col as usize)) {
        Ok(())
    } else {
        Err(Unshown::Sum { node })
    }
}
