//! The bound of a best basis.
ghost use Rattle.std.specs.Prelude.{◌≡◌, ℕ, ◌+◌, ◌≤◌, ◌<◌, true, false, Bool, cond, length, IfOk, OnErr};
ghost use Rattle.rational.specs.Ratio.{product, IsSame};
ghost use Rattle.fraction.specs.Frac.{ratio};
ghost use Rattle.evidence.specs.Sums.{none, total};
ghost use Rattle.evidence.specs.Width.{StatedFits};
ghost use Rattle.evidence.specs.Instance.{Instance, minimising};
ghost use Rattle.simplex.specs.Loads.{IsStart};
ghost use Rattle.bases.specs.Dictionary.{Values, AreEntries};
ghost use Rattle.bases.specs.Program.{goal_column};
ghost use Rattle.simplex_rules.specs.declared.columns.Way.{Way};
ghost use Rattle.simplex_rules.specs.Statuses.{is_basic, basic_in};
ghost use Rattle.simplex_rules.specs.Turns.{NoneHelps};
ghost use Rattle.simplex_rules.specs.Ends.{Terms, Clock};
ghost use Rattle.simplex_rules.specs.Runs.{Improves};
ghost use Rattle.dictionary.specs.Dict.{IsLoaded, width_of, height_of, columns_of, basic_of, entry_of, count_of, place_values};
ghost use Rattle.simplex.specs.Cuts.{AreEndsOf, ranges_in};
ghost use Rattle.simplex.specs.Tables.{AreStatuses, HasSizeOf};
ghost use Rattle.simplex.specs.Values.{cost_in, AreTerms, AreResting};
ghost use Rattle.simplex.specs.Choices.{ChoiceLeadsTo};
ghost use Rattle.simplex.specs.Finishes.{is_stop, IsFinishReady};
ghost use Rattle.simplex.specs.declared.choosing.Choice.TheVariants.{Done};

use crate::ends::Ends;
use crate::finish::Finish;
use certificate::Step;
use dictionary::{Dict, Places, Steps};
use fraction::{Frac, Wide};
use instance::{add_product, zero};
use simplex_rules::Status;
use std::sync::ledger::Ledger;

/// The goal's entry at a column, 0 where that is basic.
fn cost_of<L: Ledger>(
    dict: &Dict<L>,
    status: Status,
    col: u32,
    goal: u32,
    steps: &mut Steps<L>,
) -> Frac
    requires loaded { IsLoaded dict.now }
    requires goal { goal ≡ width_of dict.now + height_of dict.now }
    requires basic { basic_of dict.now goal ≡ true }
    requires col { col < goal }
    requires status { is_basic status ≡ basic_of dict.now col }
    ensures { ratio result ≡ cond (is_basic status) none (entry_of dict.now goal col) }
{
    match status {
        Status::Basic => zero(),
        Status::Lower => dict.entry_of_row(goal, col, steps),
        Status::Upper => dict.entry_of_row(goal, col, steps),
        Status::Zero => dict.entry_of_row(goal, col, steps),
    }
}

/// The start and the sum of the costs, each times its column's value.
pub fn bound<L: Ledger>(
    dict: &Dict<L>,
    statuses: &[Status],
    rest: &Places,
    start: Frac,
    goal: u32,
    steps: &mut Steps<L>,
) -> Result<Frac, Wide>
    requires loaded { IsLoaded dict.now }
    requires goal { goal ≡ length statuses.now }
    requires statuses { AreStatuses dict.now statuses.now }
    requires basic { basic_of dict.now goal ≡ true }
    requires rest { goal ≤ count_of rest.now }
    ensures ok { (a x : Values) → AreTerms (cost_in statuses.now (entry_of dict.now goal)) (place_values rest.now) goal a x → IfOk result (λ b. IsSame (ratio b) (total (ratio start) goal (λ c. product (a c) (x c)))) }
    ensures fits { (a x : Values) → AreTerms (cost_in statuses.now (entry_of dict.now goal)) (place_values rest.now) goal a x → IfOk result (λ _. StatedFits (ratio start) goal a x) }
    ensures wide { (a x : Values) → AreTerms (cost_in statuses.now (entry_of dict.now goal)) (place_values rest.now) goal a x → OnErr result (StatedFits (ratio start) goal a x → ⊥) }
{
    let mut sum = start;
    for c in 0..goal {
        let cost = cost_of(dict, statuses[c as usize], c, goal, steps);
        sum = add_product(sum, cost, rest.at(c))?;
    }
    Ok(sum)
}

/// The best end: the bound is 0 under the goal zero, where there is no start.
pub fn best<L: Ledger>(
    dict: &Dict<L>,
    ends: &[Ends],
    statuses: &[Status],
    rest: &Places,
    start: Option<Frac>,
    goal: u32,
    steps: &mut Steps<L>,
) -> Finish
    requires loaded { IsLoaded dict.now }
    requires goal { goal ≡ length statuses.now }
    requires statuses { AreStatuses dict.now statuses.now }
    requires rest { goal ≤ count_of rest.now }
    requires resting { AreResting (ranges_in ends.now) statuses.now (place_values rest.now) }
    ensures on { is_stop result ≡ false }
    ensures ready { IsFinishReady statuses.now result }
    ensures next { (I : Instance) (zeroed : Bool) (w : Values) (t : Terms) (c : Clock) → AreEndsOf I ends.now → HasSizeOf I dict.now → AreEntries (columns_of dict.now) (basic_of dict.now) (entry_of dict.now) → IsStart zeroed (minimising I I.goal.constant) start → NoneHelps I statuses.now (entry_of dict.now) w (goal_column I) Way.Fall → ChoiceLeadsTo I statuses.now (entry_of dict.now) w t c (Improves I zeroed t (record { statuses = statuses.now; clock = c }) (entry_of dict.now) w) (Done result) }
{
    let _ends = ends;
    match start {
        None => Finish::Best(zero()),
        Some(s) => match bound(dict, statuses, rest, s, goal, steps) {
            Ok(b) => Finish::Best(b),
            Err(_) => Finish::Wide(Step::Point),
        },
    }
}
