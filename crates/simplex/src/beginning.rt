//! How a run begins.
ghost use Rattle.std.specs.Prelude.{◌≡◌, ℕ, ◌+◌, ◌<◌, ◌≤◌, cond, length, MatchOption};
ghost use Rattle.fraction.specs.Frac.{ratio};
ghost use Rattle.evidence.specs.Instance.{Instance, width, minimising_by};
ghost use Rattle.instance.specs.Program.{limit};
ghost use Rattle.instance.specs.Program as Programs;
ghost use Rattle.bases.specs.Program.{is_fresh};
ghost use Rattle.simplex_rules.specs.declared.columns.Status.{Status};
ghost use Rattle.simplex_rules.specs.Statuses.{first_status, basic_in, IsFirstBasis};
ghost use Rattle.simplex_rules.specs.Runs.{HasNoClash, IsFirstEmpty};
ghost use Rattle.simplex.specs.Cuts.{AreEndsOf, range_of, ranges_in, row_range, range_at};
ghost use Rattle.simplex.specs.Loads.{factor_of, IsStart};

use crate::cuts::Added;
use crate::ends::{Ends, is_empty};
use fraction::{End, Frac};
use instance::{Row, Sense};
use simplex_rules::Status;

/// The ends of a row: one of the instance's own, or past them one of those beside.
fn row_ends(rows: &[Row], added: &[Added], i: usize) -> Ends
    requires { i < length rows.now + length added.now }
    ensures { range_of result ≡ row_range rows.now added.now i }
{
    if i < rows.len() {
        let row = rows[i];
        Ends {
            lb: row.lb,
            ub: row.ub,
        }
    } else {
        added[i - rows.len()].ends
    }
}

/// The ends of a column: a cut, or those of a row.
fn ends_at(cuts: &[Ends], rows: &[Row], added: &[Added], col: usize) -> Ends
    requires { col < length cuts.now + (length rows.now + length added.now) }
    ensures { range_of result ≡ range_at cuts.now rows.now added.now col }
{
    if col < cuts.len() {
        cuts[col]
    } else {
        row_ends(rows, added, col - cuts.len())
    }
}

/// Writes the ends of the columns.
pub fn set_ends(cuts: &[Ends], rows: &[Row], added: &[Added], ends: &mut [Ends])
    requires { length ends.old ≡ length cuts.now + (length rows.now + length added.now) }
    ensures { (c : ℕ) → c < length ends.old → ranges_in ends.new c ≡ range_at cuts.now rows.now added.now c }
{
    for c in 0..ends.len() {
        ends[c] = ends_at(cuts, rows, added, c);
    }
}

/// The first column whose lower end is above its upper one.
pub fn first_clash(ends: &[Ends], goal: u32) -> Option<u32>
    requires { goal ≡ length ends.now }
    ensures { (I : Instance) → AreEndsOf I ends.now → MatchOption result (HasNoClash I) (IsFirstEmpty I) }
{
    for c in 0..goal {
        if is_empty(ends[c as usize]) {
            return Some(c);
        }
    }
    None
}

/// Where a column stands first: a row is basic, a variable at its lower end where it has one, else at its upper one, else at 0.
fn first_at(e: Ends, is_variable: bool) -> Status
    ensures { result ≡ cond is_variable (first_status (limit e.lb) (limit e.ub)) Status.Basic }
{
    if !is_variable {
        return Status::Basic;
    }
    match e.lb {
        End::At(_) => Status::Lower,
        _ => match e.ub {
            End::At(_) => Status::Upper,
            _ => Status::Zero,
        },
    }
}

/// Writes the first basis: the rows are basic, and each variable stands at an end or at 0.
pub fn set_first(ends: &[Ends], vars: usize, statuses: &mut [Status])
    requires ends { length ends.now ≡ length statuses.old }
    requires vars { vars ≤ length statuses.old }
    ensures fresh { (I : Instance) → AreEndsOf I ends.now → width I ≡ vars → IsFirstBasis I statuses.new }
    ensures basic { (c : ℕ) → basic_in statuses.new c ≡ is_fresh vars c }
{
    for c in 0..statuses.len() {
        statuses[c] = first_at(ends[c], c < vars);
    }
}

/// The factor of the costs in the goal's row.
pub fn factor(zero_goal: bool, sense: Sense) -> i8
    ensures { result ≡ factor_of zero_goal sense }
{
    if zero_goal {
        return 0;
    }
    match sense {
        Sense::Min => 1,
        Sense::Max => -1,
    }
}

/// The start of the bound: the minimising constant, and none under the goal zero.
pub fn start(zero_goal: bool, sense: Sense, constant: Frac) -> Option<Frac>
    ensures { IsStart zero_goal (minimising_by (Programs.sense sense) (ratio constant)) result }
{
    if zero_goal {
        return None;
    }
    match sense {
        Sense::Min => Some(constant),
        Sense::Max => Some(constant.neg()),
    }
}
