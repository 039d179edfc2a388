//! What is done at a moment.
ghost use Rattle.std.specs.Prelude.{◌≡◌, ◌≢◌, ℕ, ◌+◌, ◌<◌, ◌≤◌, pos, Bool, true, false, length};
ghost use Rattle.evidence.specs.Instance.{Instance, minimising};
ghost use Rattle.simplex.specs.Loads.{IsStart};
ghost use Rattle.bases.specs.Dictionary.{Values, AreEntries};
ghost use Rattle.bases.specs.Program.{rows_with_goal};
ghost use Rattle.simplex_rules.specs.Statuses.{is_basic, basic_in, upper_status};
ghost use Rattle.simplex_rules.specs.Turns.{missed_status, reached_status, left_status, way_of};
ghost use Rattle.simplex_rules.specs.Ends.{Terms, Clock};
ghost use Rattle.simplex_rules.specs.Runs.{Repairs, MovesColumn, Improves, IsNext};
ghost use Rattle.dictionary.specs.Dict.{IsLoaded, Holds, columns_of, basic_of, entry_of, count_of, place_values};
ghost use Rattle.simplex.specs.Cuts.{AreEndsOf, range_of, ranges_in};
ghost use Rattle.simplex.specs.Tables.{AreStatuses, HasSizeOf, values_in};
ghost use Rattle.marks.specs.Marks.{size_of};
ghost use Rattle.simplex.specs.Values.{AreResting, AreKnown};
ghost use Rattle.simplex.specs.Choices.{ChoiceLeadsTo, IsChoiceAllowed};

use crate::bounding::best;
use crate::ends::{Ends, has_width};
use crate::finish::{Finish, Move};
use crate::helping::{entry_at, first_help};
use crate::limits::{first_limit, rate};
use crate::valued::{find_values, first_out};
use certificate::Step;
use dictionary::{Dict, Places, Steps};
use fraction::Frac;
use marks::Marks;
use simplex_rules::{Status, Way};
use std::sync::ledger::Ledger;

/// A basic column is to leave the basis, to stand where the status says, for another one.
#[derive(Clone, Copy, PartialEq, Eq)]
pub struct Swap {
    pub basic: u32,
    pub nonbasic: u32,
    pub status: Status,
}

/// A column that isn't basic is to go to its other end.
#[derive(Clone, Copy, PartialEq, Eq)]
pub struct Flip {
    pub col: u32,
    pub status: Status,
}

/// What is done at a moment: a turn, or the run is at its end.
#[derive(Clone, Copy, PartialEq, Eq)]
pub enum Choice {
    Swap(Swap),
    Flip(Flip),
    Done(Finish),
}

/// The upper end's status; where the ends are equal a column stands at the lower one.
fn upper(e: Ends) -> Status
    ensures { result ≡ upper_status (range_of e) }
{
    if has_width(e) {
        Status::Upper
    } else {
        Status::Lower
    }
}

/// The status at the end that is missed.
fn missed(way: Way, e: Ends) -> Status
    ensures is { result ≡ missed_status way (range_of e) }
    ensures free { is_basic result ≡ false }
{
    match way {
        Way::Rise => Status::Lower,
        Way::Fall => upper(e),
    }
}

/// The status at the end that is reached.
fn reached(way: Way, e: Ends) -> Status
    ensures is { result ≡ reached_status way (range_of e) }
    ensures free { is_basic result ≡ false }
{
    match way {
        Way::Rise => upper(e),
        Way::Fall => Status::Lower,
    }
}

/// The way in which a number that isn't 0 moves.
fn way_of(rate: Frac) -> Way
    ensures { result ≡ way_of rate.numer }
{
    if rate.numer < 0 { Way::Fall } else { Way::Rise }
}

/// The first column that is out of its ends is to come back.
fn repair<L: Ledger>(
    dict: &Dict<L>,
    ends: &[Ends],
    statuses: &[Status],
    out: Move,
    goal: u32,
    steps: &mut Steps<L>,
) -> Choice
    requires loaded { IsLoaded dict.now }
    requires ends { length ends.now ≡ length statuses.now }
    requires statuses { AreStatuses dict.now statuses.now }
    requires goal { goal ≡ length statuses.now }
    requires inside { out.col < goal }
    requires basic { basic_in statuses.now out.col ≡ true }
    ensures allowed { IsChoiceAllowed statuses.now (entry_of dict.now) result }
    ensures next { (I : Instance) (w : Values) (zeroed : Bool) (t : Terms) (c : Clock) → AreEndsOf I ends.now → HasSizeOf I dict.now → ChoiceLeadsTo I statuses.now (entry_of dict.now) w t c (Repairs I zeroed t (record { statuses = statuses.now; clock = c }) (entry_of dict.now) w out.col out.way) result }
{
    match first_help(dict, ends, statuses, out.col, out.way, goal, steps) {
        None => Choice::Done(Finish::Empty(out)),
        Some(n) => Choice::Swap(Swap {
            basic: out.col,
            nonbasic: n.col,
            status: missed(out.way, ends[out.col as usize]),
        }),
    }
}

/// A basic column has reached an end, and is to leave the basis.
fn leave<L: Ledger>(
    dict: &Dict<L>,
    ends: &[Ends],
    statuses: &[Status],
    basic: u32,
    moving: Move,
    goal: u32,
    steps: &mut Steps<L>,
) -> Swap
    requires loaded { IsLoaded dict.now }
    requires ends { length ends.now ≡ length statuses.now }
    requires statuses { AreStatuses dict.now statuses.now }
    requires goal { goal ≡ length statuses.now }
    requires basic_inside { basic < goal }
    requires basic { basic_in statuses.now basic ≡ true }
    requires nonbasic_inside { moving.col < goal }
    requires nonbasic { basic_in statuses.now moving.col ≡ false }
    ensures basic { result.basic ≡ basic }
    ensures nonbasic { result.nonbasic ≡ moving.col }
    ensures free { is_basic result.status ≡ false }
    ensures status { (I : Instance) → AreEndsOf I ends.now → result.status ≡ left_status I (entry_of dict.now) basic moving.col moving.way }
{
    let entry = entry_at(dict, basic, moving.col, goal, steps);
    let way = way_of(rate(moving.way, entry));
    Swap {
        basic,
        nonbasic: moving.col,
        status: reached(way, ends[basic as usize]),
    }
}

/// A column is to move up to the first limit.
fn enter_column<L: Ledger>(
    dict: &Dict<L>,
    ends: &[Ends],
    statuses: &[Status],
    values: &[Frac],
    moving: Move,
    goal: u32,
    steps: &mut Steps<L>,
) -> Choice
    requires loaded { IsLoaded dict.now }
    requires ends { length ends.now ≡ length statuses.now }
    requires values { length values.now ≡ length statuses.now }
    requires statuses { AreStatuses dict.now statuses.now }
    requires goal { goal ≡ length statuses.now }
    requires nonbasic_inside { moving.col < goal }
    requires nonbasic { basic_in statuses.now moving.col ≡ false }
    ensures allowed { IsChoiceAllowed statuses.now (entry_of dict.now) result }
    ensures next { (I : Instance) (zeroed : Bool) (t : Terms) (c : Clock) → AreEndsOf I ends.now → HasSizeOf I dict.now → ChoiceLeadsTo I statuses.now (entry_of dict.now) (values_in values.now) t c (MovesColumn I zeroed t (record { statuses = statuses.now; clock = c }) (entry_of dict.now) (values_in values.now) moving.col moving.way) result }
{
    match first_limit(dict, ends, statuses, values, moving, goal, steps) {
        Err(_) => Choice::Done(Finish::Wide(Step::Ratio)),
        Ok(None) => Choice::Done(Finish::Endless(moving)),
        Ok(Some(l)) => {
            if l.col == moving.col {
                let status = reached(moving.way, ends[l.col as usize]);
                Choice::Flip(Flip { col: l.col, status })
            } else {
                Choice::Swap(leave(dict, ends, statuses, l.col, moving, goal, steps))
            }
        }
    }
}

/// All columns are within their ends, and the goal is to fall.
fn improve<L: Ledger>(
    dict: &Dict<L>,
    ends: &[Ends],
    statuses: &[Status],
    rest: &Places,
    values: &[Frac],
    start: Option<Frac>,
    goal: u32,
    steps: &mut Steps<L>,
) -> Choice
    requires loaded { IsLoaded dict.now }
    requires ends { length ends.now ≡ length statuses.now }
    requires values { length values.now ≡ length statuses.now }
    requires rest { goal ≤ count_of rest.now }
    requires resting { AreResting (ranges_in ends.now) statuses.now (place_values rest.now) }
    requires statuses { AreStatuses dict.now statuses.now }
    requires goal { goal ≡ length statuses.now }
    ensures allowed { IsChoiceAllowed statuses.now (entry_of dict.now) result }
    ensures next { (I : Instance) (zeroed : Bool) (t : Terms) (c : Clock) → AreEndsOf I ends.now → HasSizeOf I dict.now → AreEntries (columns_of dict.now) (basic_of dict.now) (entry_of dict.now) → IsStart zeroed (minimising I I.goal.constant) start → ChoiceLeadsTo I statuses.now (entry_of dict.now) (values_in values.now) t c (Improves I zeroed t (record { statuses = statuses.now; clock = c }) (entry_of dict.now) (values_in values.now)) result }
{
    match first_help(dict, ends, statuses, goal, Way::Fall, goal, steps) {
        None => Choice::Done(best(dict, ends, statuses, rest, start, goal, steps)),
        Some(n) => enter_column(dict, ends, statuses, values, n, goal, steps),
    }
}

/// Chooses a turn: the first phase where a basic column is out of its ends, else the second.
pub fn choose<L: Ledger>(
    dict: &Dict<L>,
    ends: &[Ends],
    statuses: &[Status],
    rest: &Places,
    values: &mut [Frac],
    unknown: &mut Marks,
    start: Option<Frac>,
    goal: u32,
    steps: &mut Steps<L>,
) -> Choice
    requires loaded { IsLoaded dict.now }
    requires ends { length ends.now ≡ length statuses.now }
    requires values { length values.old ≡ goal }
    requires rest { goal ≤ count_of rest.now }
    requires resting { AreResting (ranges_in ends.now) statuses.now (place_values rest.now) }
    requires known { AreKnown dict.now rest.now statuses.now values.old unknown.old }
    requires statuses { AreStatuses dict.now statuses.now }
    requires goal { goal ≡ length statuses.now }
    ensures known { AreKnown dict.now rest.now statuses.now values.new unknown.new }
    ensures size { size_of unknown.new ≡ size_of unknown.old }
    ensures allowed { IsChoiceAllowed statuses.now (entry_of dict.now) result }
    ensures next { (I : Instance) (zeroed : Bool) (t : Terms) (c : Clock) → AreEndsOf I ends.now → HasSizeOf I dict.now → Holds (rows_with_goal zeroed I) dict.now → IsStart zeroed (minimising I I.goal.constant) start → ChoiceLeadsTo I statuses.now (entry_of dict.now) (values_in values.new) t c (IsNext I zeroed t (record { statuses = statuses.now; clock = c })) result }
{
    match find_values(dict, ends, statuses, rest, values, unknown, goal, steps) {
        Err(_) => Choice::Done(Finish::Wide(Step::Values)),
        Ok(()) => match first_out(dict, ends, statuses, values, goal) {
            Some(out) => repair(dict, ends, statuses, out, goal, steps),
            None => improve(dict, ends, statuses, rest, values, start, goal, steps),
        },
    }
}
