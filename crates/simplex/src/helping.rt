//! Which column moves another one as wanted.
ghost use Rattle.std.specs.Prelude.{◌≡◌, ◌+◌, ◌<◌, ◌≤◌, true, false, length, MatchOption};
ghost use Rattle.fraction.specs.Frac.{ratio};
ghost use Rattle.evidence.specs.Instance.{Instance};
ghost use Rattle.bases.specs.Dictionary.{Values};
ghost use Rattle.dictionary.specs.Dict.{IsLoaded, width_of, height_of, columns_of, basic_of, entry_of, IsNonbasic};
ghost use Rattle.simplex_rules.specs.declared.columns.Way.{Way};
ghost use Rattle.simplex_rules.specs.Statuses.{is_basic, basic_in};
ghost use Rattle.simplex_rules.specs.Turns.{Can, MovesIn, rate, NoneHelps, IsFirstHelp};
ghost use Rattle.simplex.specs.Cuts.{AreEndsOf, range_of};
ghost use Rattle.simplex.specs.Tables.{AreStatuses};

use crate::ends::{Ends, help};
use crate::finish::Move;
use dictionary::{Dict, Steps};
use fraction::Frac;
use simplex_rules::{Status, Way};
use std::sync::ledger::Ledger;

/// The entry at a nonbasic column in the row of a basic one, or in the goal's.
pub fn entry_at<L: Ledger>(
    dict: &Dict<L>,
    row: u32,
    col: u32,
    goal: u32,
    steps: &mut Steps<L>,
) -> Frac
    requires loaded { IsLoaded dict.now }
    requires goal { goal ≡ width_of dict.now + height_of dict.now }
    requires row { row ≤ goal }
    requires basic { basic_of dict.now row ≡ true }
    requires col { col < goal }
    requires nonbasic { basic_of dict.now col ≡ false }
    ensures { ratio result ≡ entry_of dict.now row col }
{
    if row < goal {
        dict.entry(row, col, steps)
    } else {
        dict.cost(col, steps)
    }
}

/// The way in which a column that isn't basic helps, if it does.
fn help_at<L: Ledger>(
    dict: &Dict<L>,
    ends: &Ends,
    status: Status,
    row: u32,
    wanted: Way,
    col: u32,
    steps: &mut Steps<L>,
) -> Option<Way>
    requires loaded { IsLoaded dict.now }
    requires row { row < columns_of dict.now }
    requires basic { basic_of dict.now row ≡ true }
    requires nonbasic { IsNonbasic dict.now col }
    requires status { is_basic status ≡ basic_of dict.now col }
    ensures { MatchOption result ((v : Way) → Can v (range_of ends.now) status → MovesIn wanted (rate v (entry_of dict.now row col)) → ⊥) (λ v. (is_basic status ≡ false) × Can v (range_of ends.now) status × MovesIn wanted (rate v (entry_of dict.now row col))) }
{
    help(*ends, status, wanted, dict.entry_sign(row, col, steps))
}

/// The first column that moves the row's one as wanted.
pub fn first_help<L: Ledger>(
    dict: &Dict<L>,
    ends: &[Ends],
    statuses: &[Status],
    row: u32,
    wanted: Way,
    goal: u32,
    steps: &mut Steps<L>,
) -> Option<Move>
    requires loaded { IsLoaded dict.now }
    requires ends { length ends.now ≡ length statuses.now }
    requires statuses { AreStatuses dict.now statuses.now }
    requires goal { goal ≡ length statuses.now }
    requires row { row ≤ goal }
    requires basic { basic_in statuses.now row ≡ true }
    ensures { (I : Instance) (w : Values) → AreEndsOf I ends.now → MatchOption result (NoneHelps I statuses.now (entry_of dict.now) w row wanted) (λ m. IsFirstHelp I statuses.now (entry_of dict.now) w row wanted m.col m.way) }
{
    let _goal = goal;
    let mut from = 0;
    while let Some(c) = dict.next_entry(row, from) {
        let status = statuses[c as usize];
        if let Some(way) = help_at(dict, &ends[c as usize], status, row, wanted, c, steps) {
            return Some(Move { col: c, way });
        }
        from = c + 1;
    }
    None
}
