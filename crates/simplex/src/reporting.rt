//! What the end of a run is told by.
ghost use Rattle.std.specs.Prelude.{◌≡◌, ℕ, ◌+◌, ◌<◌, ◌≤◌, true, false, cond, nat_eq, length};
ghost use Rattle.fraction.specs.Frac.{ratio};
ghost use Rattle.evidence.specs.Sums.{none};
ghost use Rattle.evidence.specs.Instance.{Instance, width};
ghost use Rattle.bases.specs.Dictionary.{Values, AreEntries};
ghost use Rattle.bases.specs.Program.{goal_column};
ghost use Rattle.simplex_rules.specs.Statuses.{is_basic, basic_in};
ghost use Rattle.simplex_rules.specs.Turns.{rate};
ghost use Rattle.simplex_rules.specs.Reports.{against, factor_at, step_of, movement, collected};
ghost use Rattle.dictionary.specs.Dict.{IsLoaded, width_of, height_of, basic_of, entry_of, columns_of};
ghost use Rattle.simplex.specs.Tables.{AreStatuses, values_in};
ghost use Rattle.simplex.specs.Answers.{listed, ended, was_stopped, was_best};
ghost use Rattle.simplex.specs.Finishes.{end_at, is_stop, is_best, IsLeft};

use crate::answer::LpEnd;
use crate::finish::{Finish, Move};
use crate::helping::entry_at;
use crate::limits::rate;
use dictionary::{Dict, Steps};
use fraction::Frac;
use instance::{one, zero};
use simplex_rules::{Status, Way};
use std::sync::ledger::Ledger;

/// Up by 1, or down by 1.
fn step_of(way: Way) -> Frac
    ensures { ratio result ≡ step_of way }
{
    let one = one();
    match way {
        Way::Rise => one,
        Way::Fall => one.neg(),
    }
}

/// Turned where the column can't rise far enough.
fn against(way: Way, x: Frac) -> Frac
    ensures { ratio result ≡ against way (ratio x) }
{
    match way {
        Way::Rise => x.neg(),
        Way::Fall => x,
    }
}

/// The factor of a column where the row's one can't move as wanted.
fn factor_at<L: Ledger>(
    dict: &Dict<L>,
    status: Status,
    row: u32,
    wanted: Way,
    col: u32,
    steps: &mut Steps<L>,
) -> Frac
    requires loaded { IsLoaded dict.now }
    requires row { row < columns_of dict.now }
    requires basic { basic_of dict.now row ≡ true }
    requires col { col < width_of dict.now + height_of dict.now }
    requires status { is_basic status ≡ basic_of dict.now col }
    ensures { AreEntries (columns_of dict.now) (basic_of dict.now) (entry_of dict.now) → ratio result ≡ factor_at (entry_of dict.now) row wanted col }
{
    if col == row {
        return against(wanted, step_of(Way::Fall));
    }
    match status {
        Status::Basic => against(wanted, zero()),
        Status::Lower => against(wanted, dict.entry_of_row(row, col, steps)),
        Status::Upper => against(wanted, dict.entry_of_row(row, col, steps)),
        Status::Zero => against(wanted, dict.entry_of_row(row, col, steps)),
    }
}

/// Writes the factors of all columns.
fn set_factors<L: Ledger>(
    dict: &Dict<L>,
    statuses: &[Status],
    row: u32,
    wanted: Way,
    factors: &mut [Frac],
    goal: u32,
    steps: &mut Steps<L>,
)
    requires loaded { IsLoaded dict.now }
    requires statuses { AreStatuses dict.now statuses.now }
    requires goal { goal ≡ length statuses.now }
    requires row { row ≤ goal }
    requires basic { basic_in statuses.now row ≡ true }
    requires factors { length factors.old ≡ goal }
    ensures { AreEntries (columns_of dict.now) (basic_of dict.now) (entry_of dict.now) → (c : ℕ) → c < goal → values_in factors.new c ≡ factor_at (entry_of dict.now) row wanted c }
{
    for c in 0..goal {
        factors[c as usize] = factor_at(dict, statuses[c as usize], row, wanted, c, steps);
    }
}

/// How a column moves while the moving one goes on by 1.
fn movement_at<L: Ledger>(
    dict: &Dict<L>,
    status: Status,
    moving: Move,
    col: u32,
    goal: u32,
    steps: &mut Steps<L>,
) -> Frac
    requires loaded { IsLoaded dict.now }
    requires goal { goal ≡ width_of dict.now + height_of dict.now }
    requires inside { moving.col < goal }
    requires nonbasic { basic_of dict.now moving.col ≡ false }
    requires col { col < goal }
    requires status { is_basic status ≡ basic_of dict.now col }
    ensures { ratio result ≡ cond (is_basic status) (rate moving.way (entry_of dict.now col moving.col)) (cond (nat_eq col moving.col) (step_of moving.way) none) }
{
    if status == Status::Basic {
        let entry = entry_at(dict, col, moving.col, goal, steps);
        return rate(moving.way, entry);
    }
    if col == moving.col {
        return step_of(moving.way);
    }
    zero()
}

/// Writes the movements of the variables.
fn set_movements<L: Ledger>(
    dict: &Dict<L>,
    statuses: &[Status],
    moving: Move,
    movements: &mut [Frac],
    goal: u32,
    steps: &mut Steps<L>,
)
    requires loaded { IsLoaded dict.now }
    requires statuses { AreStatuses dict.now statuses.now }
    requires goal { goal ≡ length statuses.now }
    requires inside { moving.col < goal }
    requires nonbasic { basic_in statuses.now moving.col ≡ false }
    requires movements { length movements.old ≤ goal }
    ensures { (c : ℕ) → c < length movements.old → values_in movements.new c ≡ movement statuses.now (entry_of dict.now) moving.col moving.way c }
{
    for c in 0..movements.len() {
        movements[c] = movement_at(dict, statuses[c], moving, c as u32, goal, steps);
    }
}

/// Writes the multipliers and the direction of an end, and answers it.
pub fn report<L: Ledger>(
    dict: &Dict<L>,
    statuses: &[Status],
    finish: Finish,
    factors: &mut [Frac],
    movements: &mut [Frac],
    goal: u32,
    steps: &mut Steps<L>,
) -> LpEnd
    requires left { IsLeft dict.now statuses.now finish }
    requires goal { goal ≡ length statuses.now }
    requires factors { length factors.old ≡ goal }
    requires movements { length movements.old ≤ goal }
    ensures stopped { was_stopped result ≡ is_stop finish }
    ensures best { was_best result ≡ is_best finish }
    ensures end { (I : Instance) (w : Values) → width I ≡ length movements.old → goal_column I ≡ goal → end_at I statuses.now (entry_of dict.now) w finish ≡ ended result (listed (length movements.old) w) (collected (values_in factors.new) goal) (listed (length movements.old) (values_in movements.new)) }
{
    match finish {
        Finish::Empty(out) => {
            set_factors(dict, statuses, out.col, out.way, factors, goal, steps);
            LpEnd::Empty
        }
        Finish::Best(bound) => {
            set_factors(dict, statuses, goal, Way::Fall, factors, goal, steps);
            LpEnd::Best { bound }
        }
        Finish::Endless(moving) => {
            set_movements(dict, statuses, moving, movements, goal, steps);
            LpEnd::Endless
        }
        Finish::TurnLimit => LpEnd::TurnLimit,
        Finish::Wide(step) => LpEnd::Wide(step),
        Finish::Stopped => LpEnd::Stopped,
    }
}
