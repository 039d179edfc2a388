//! How far a column may move.
ghost use Rattle.std.specs.Prelude.{◌≡◌, ◌≢◌, ℕ, ◌+◌, ◌<◌, ◌≤◌, pos, true, false, length, nat_eq, Option, MatchOption, IfOk, OnErr};
ghost use Rattle.rational.specs.Ratio.{Ratio};
ghost use Rattle.fraction.specs.Frac.{ratio};
ghost use Rattle.evidence.specs.Instance.{Instance};
ghost use Rattle.instance.specs.Program.{limit};
ghost use Rattle.bases.specs.Dictionary.{Values};
ghost use Rattle.dictionary.specs.Dict.{IsLoaded, width_of, height_of, basic_of, entry_of};
ghost use Rattle.simplex_rules.specs.Statuses.{is_basic, basic_in};
ghost use Rattle.simplex_rules.specs.Turns.{rate, until_end, until_by, across, limit_one, NoLimit, IsFirstLimit};
ghost use Rattle.simplex_rules.specs.Widths.{EndFits, ByFits, AcrossFits, OneFits, LimitsFit};
ghost use Rattle.simplex.specs.Cuts.{AreEndsOf, range_of};
ghost use Rattle.simplex.specs.Tables.{AreStatuses, values_in};
ghost use Rattle.simplex.specs.Limits.{IsLimit, IsLeastOf, IsStill, IsNextLimited};

use crate::ends::{Ends, is_less};
use crate::finish::Move;
use crate::helping::entry_at;
use dictionary::{Dict, Steps};
use fraction::{End, Frac, Wide};
use simplex_rules::{Status, Way};
use std::sync::ledger::Ledger;

/// How far the moving column may go, and the column that reaches an end then.
#[derive(Clone, Copy, PartialEq, Eq)]
pub struct Limit {
    pub col: u32,
    pub quotient: Frac,
}

/// How far until a column of this value and rate reaches the end.
fn until_end(end: End, value: Frac, rate: Frac) -> Result<Option<Frac>, Wide>
    requires { rate.numer ≢ pos 0 }
    ensures ok { IfOk result (IsLimit (until_end (limit end) (ratio value) (ratio rate))) }
    ensures fits { IfOk result (λ _. EndFits (limit end) (ratio value) (ratio rate)) }
    ensures wide { OnErr result (EndFits (limit end) (ratio value) (ratio rate) → ⊥) }
{
    match end {
        End::At(e) => {
            let difference = e.sub(value)?;
            let quotient = difference.div(rate)?;
            Ok(Some(quotient))
        }
        _ => Ok(None),
    }
}

/// How far until a basic column reaches the end before it.
fn until_by(ends: Ends, value: Frac, rate: Frac) -> Result<Option<Frac>, Wide>
    ensures ok { IfOk result (IsLimit (until_by rate.numer (range_of ends) (ratio value) (ratio rate))) }
    ensures fits { IfOk result (λ _. ByFits rate.numer (range_of ends) (ratio value) (ratio rate)) }
    ensures wide { OnErr result (ByFits rate.numer (range_of ends) (ratio value) (ratio rate) → ⊥) }
{
    if rate.numer > 0 {
        return until_end(ends.ub, value, rate);
    }
    if rate.numer < 0 {
        return until_end(ends.lb, value, rate);
    }
    Ok(None)
}

/// How far from one end to the other.
fn across(ends: Ends) -> Result<Option<Frac>, Wide>
    ensures ok { IfOk result (IsLimit (across (range_of ends).lb (range_of ends).ub)) }
    ensures fits { IfOk result (λ _. AcrossFits (range_of ends).lb (range_of ends).ub) }
    ensures wide { OnErr result (AcrossFits (range_of ends).lb (range_of ends).ub → ⊥) }
{
    match ends.lb {
        End::At(l) => match ends.ub {
            End::At(h) => {
                let difference = h.sub(l)?;
                Ok(Some(difference))
            }
            _ => Ok(None),
        },
        _ => Ok(None),
    }
}

/// How fast a column moves while another one rises or falls, of its entry at that one.
pub fn rate(way: Way, entry: Frac) -> Frac
    ensures { ratio result ≡ rate way (ratio entry) }
{
    match way {
        Way::Rise => entry,
        Way::Fall => entry.neg(),
    }
}

/// How far until a column reaches an end, if it does.
fn limit_at<L: Ledger>(
    dict: &Dict<L>,
    ends: &Ends,
    status: Status,
    value: &Frac,
    moving: Move,
    col: u32,
    goal: u32,
    steps: &mut Steps<L>,
) -> Result<Option<Frac>, Wide>
    requires loaded { IsLoaded dict.now }
    requires goal { goal ≡ width_of dict.now + height_of dict.now }
    requires moving { moving.col < goal }
    requires nonbasic { basic_of dict.now moving.col ≡ false }
    requires col { col < goal }
    requires status { is_basic status ≡ basic_of dict.now col }
    ensures ok { IfOk result (IsLimit (limit_one (is_basic status) (nat_eq col moving.col) (range_of ends.now) (ratio value.now) (rate moving.way (entry_of dict.now col moving.col)))) }
    ensures fits { IfOk result (λ _. OneFits (is_basic status) (nat_eq col moving.col) (range_of ends.now) (ratio value.now) (rate moving.way (entry_of dict.now col moving.col))) }
    ensures wide { OnErr result (OneFits (is_basic status) (nat_eq col moving.col) (range_of ends.now) (ratio value.now) (rate moving.way (entry_of dict.now col moving.col)) → ⊥) }
{
    if status == Status::Basic {
        if !dict.has_entry(col, moving.col) {
            return Ok(None);
        }
        let entry = entry_at(dict, col, moving.col, goal, steps);
        return until_by(*ends, *value, rate(moving.way, entry));
    }
    if col == moving.col {
        return across(*ends);
    }
    Ok(None)
}

/// The lesser limit, of equal ones the first.
fn lesser(best: Option<Limit>, col: u32, next: Option<Frac>) -> Option<Limit>
    ensures { (f : ℕ → Option Ratio) → IsLeastOf f col best → IsLimit (f col) next → IsLeastOf f (col + 1) result }
{
    match next {
        None => best,
        Some(quotient) => match best {
            None => Some(Limit { col, quotient }),
            Some(b) => {
                if is_less(quotient, b.quotient) {
                    Some(Limit { col, quotient })
                } else {
                    Some(b)
                }
            }
        },
    }
}

/// The first column from this one on that may set a limit: a basic one, or the moving one.
fn next_limited<L: Ledger>(dict: &Dict<L>, moving: u32, from: u32) -> Option<u32>
    requires loaded { IsLoaded dict.now }
    requires moving { moving < width_of dict.now + height_of dict.now }
    ensures { MatchOption result ((k : ℕ) → from ≤ k → k < width_of dict.now + height_of dict.now → IsStill dict.now moving k) (IsNextLimited dict.now moving from) }
{
    let next = dict.basic_columns().next(from);
    if from > moving {
        return next;
    }
    match next {
        None => Some(moving),
        Some(c) => { if c < moving { Some(c) } else { Some(moving) } }
    }
}

/// The first column with the least limit.
pub fn first_limit<L: Ledger>(
    dict: &Dict<L>,
    ends: &[Ends],
    statuses: &[Status],
    values: &[Frac],
    moving: Move,
    goal: u32,
    steps: &mut Steps<L>,
) -> Result<Option<Limit>, Wide>
    requires loaded { IsLoaded dict.now }
    requires ends { length ends.now ≡ length statuses.now }
    requires values { length values.now ≡ length statuses.now }
    requires statuses { AreStatuses dict.now statuses.now }
    requires goal { goal ≡ length statuses.now }
    requires moving { moving.col < goal }
    requires nonbasic { basic_in statuses.now moving.col ≡ false }
    ensures ok { (I : Instance) → AreEndsOf I ends.now → IfOk result (λ o. MatchOption o (NoLimit I statuses.now (entry_of dict.now) (values_in values.now) moving.col moving.way) (λ l. IsFirstLimit I statuses.now (entry_of dict.now) (values_in values.now) moving.col moving.way l.col)) }
    ensures fits { (I : Instance) → AreEndsOf I ends.now → IfOk result (λ _. LimitsFit I statuses.now (entry_of dict.now) (values_in values.now) moving.col moving.way) }
    ensures wide { (I : Instance) → AreEndsOf I ends.now → OnErr result (LimitsFit I statuses.now (entry_of dict.now) (values_in values.now) moving.col moving.way → ⊥) }
{
    let mut best: Option<Limit> = None;
    let mut from = 0;
    while let Some(c) = next_limited(dict, moving.col, from) {
        let next = limit_at(
            dict,
            &ends[c as usize],
            statuses[c as usize],
            &values[c as usize],
            moving,
            c,
            goal,
            steps,
        )?;
        best = lesser(best, c, next);
        from = c + 1;
    }
    Ok(best)
}
