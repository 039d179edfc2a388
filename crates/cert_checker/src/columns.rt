//! The ends of columns, which are the variables as they are cut and then the rows.
ghost use Rattle.std.specs.Prelude.{◌≡◌, ◌+◌, ◌<◌, length};
ghost use Rattle.evidence.specs.Instance.{width, height, column_at};
ghost use Rattle.evidence.specs.Cases.{end_by};
ghost use Rattle.instance.specs.Program.{limit, row};
ghost use Rattle.case_tree.specs.Cuts.{cut};

use crate::at_hand::Program;
use case_tree::Cut;
use fraction::{End, Frac};
use instance::Row;

/// The lower and the upper end of a column: first the variables, with their ends as they are cut, and then the rows.
pub(crate) fn ends_of(program: &Program, cuts: &[Cut], col: usize) -> Row
    requires count { length cuts.now ≡ width program.now }
    requires inside { col < length cuts.now + height program.now }
    ensures { row result ≡ column_at (cut program.now cuts.now) col }
{
    if col < cuts.len() {
        let cut = cuts[col];
        Row {
            lb: cut.lb,
            ub: cut.ub,
        }
    } else {
        program.ends(col - cuts.len())
    }
}

/// The end that a multiplier bounds its column by: the lower one, or the upper one where it is below 0.
pub(crate) fn end_by(ends: Row, by: Frac) -> End
    ensures { limit result ≡ end_by by.numer (row ends) }
{
    if by.numer < 0 { ends.ub } else { ends.lb }
}
