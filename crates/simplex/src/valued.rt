//! The values of the columns.
ghost use Rattle.std.specs.Prelude.{◌≡◌, ℕ, ◌+◌, ◌<◌, ◌≤◌, true, length, MatchOption, IfOk, OnErr};
ghost use Rattle.fraction.specs.Frac.{ratio};
ghost use Rattle.evidence.specs.Sums.{none};
ghost use Rattle.evidence.specs.Cases.{or_none};
ghost use Rattle.evidence.specs.Instance.{Instance};
ghost use Rattle.instance.specs.Program.{limit};
ghost use Rattle.bases.specs.Dictionary.{Entries, Values};
ghost use Rattle.bases.specs.Pivot.{ValueFits};
ghost use Rattle.simplex_rules.specs.declared.columns.Way.{Way};
ghost use Rattle.simplex_rules.specs.Statuses.{is_basic, basic_in, rest_at, HasValues};
ghost use Rattle.simplex_rules.specs.Turns.{Misses, NoneOut, IsLeastOut};
ghost use Rattle.simplex_rules.specs.Widths.{ValuesFit};
ghost use Rattle.dictionary.specs.Dict.{IsLoaded, width_of, height_of, columns_of, basic_of, entry_of, Rest, count_of, place_values};
ghost use Rattle.simplex.specs.Cuts.{AreEndsOf, range_of, ranges_in};
ghost use Rattle.simplex.specs.Tables.{AreStatuses, HasSizeOf, values_in};
ghost use Rattle.simplex.specs.Values.{IsColumnValue, AreResting, AreKnown};
ghost use Rattle.marks.specs.Marks.{is_marked, size_of};

use crate::ends::{Ends, is_less};
use crate::finish::Move;
use dictionary::{Dict, Places, Steps};
use fraction::{End, Frac, Wide};
use instance::zero;
use marks::{Marks, Walk};
use simplex_rules::{Status, Way};
use std::sync::ledger::Ledger;

/// The end, or 0 where it is infinite.
fn number(end: End) -> Frac
    ensures { ratio result ≡ or_none (limit end) }
{
    match end {
        End::At(x) => x,
        _ => zero(),
    }
}

/// The value of a column that isn't basic, and 0 of one that is.
pub fn rest_value(ends: &Ends, status: Status) -> Frac
    ensures { ratio result ≡ rest_at (range_of ends.now) status }
{
    match status {
        Status::Basic => zero(),
        Status::Lower => number(ends.lb),
        Status::Upper => number(ends.ub),
        Status::Zero => zero(),
    }
}

/// Writes the values of the columns that aren't basic.
pub fn set_rest(ends: &[Ends], statuses: &[Status], rest: &mut Places, goal: u32)
    requires ends { length ends.now ≡ length statuses.now }
    requires rest { goal ≤ count_of rest.old }
    requires goal { goal ≡ length statuses.now }
    ensures count { count_of rest.new ≡ count_of rest.old }
    ensures values { AreResting (ranges_in ends.now) statuses.now (place_values rest.new) }
{
    for c in 0..goal {
        let value = rest_value(&ends[c as usize], statuses[c as usize]);
        rest.set(c, value);
    }
}

/// The value of a column.
fn value_at<L: Ledger>(
    dict: &Dict<L>,
    status: Status,
    rest: &Places,
    col: u32,
    steps: &mut Steps<L>,
) -> Result<Frac, Wide>
    requires loaded { IsLoaded dict.now }
    requires rest { width_of dict.now + height_of dict.now ≤ count_of rest.now }
    requires col { col < width_of dict.now + height_of dict.now }
    requires status { is_basic status ≡ basic_of dict.now col }
    ensures ok { (w : Values) → Rest dict.now rest.now w → IfOk result (λ v. IsColumnValue dict.now w (is_basic status) col (ratio v)) }
    ensures wide { (w : Values) → Rest dict.now rest.now w → OnErr result ((is_basic status ≡ true) × (ValueFits (columns_of dict.now) (entry_of dict.now col) w → ⊥)) }
{
    match status {
        Status::Basic => dict.value_of(col, rest, steps),
        Status::Lower => Ok(rest.at(col)),
        Status::Upper => Ok(rest.at(col)),
        Status::Zero => Ok(rest.at(col)),
    }
}

/// Writes the values of all columns that aren't known.
fn all_values<L: Ledger>(
    dict: &Dict<L>,
    statuses: &[Status],
    rest: &Places,
    values: &mut [Frac],
    unknown: &mut Marks,
    goal: u32,
    steps: &mut Steps<L>,
) -> Result<(), Wide>
    requires loaded { IsLoaded dict.now }
    requires statuses { AreStatuses dict.now statuses.now }
    requires rest { goal ≤ count_of rest.now }
    requires values { length values.old ≡ goal }
    requires goal { goal ≡ length statuses.now }
    requires known { AreKnown dict.now rest.now statuses.now values.old unknown.old }
    ensures known { AreKnown dict.now rest.now statuses.now values.new unknown.new }
    ensures size { size_of unknown.new ≡ size_of unknown.old }
    ensures ok { (w : Values) → Rest dict.now rest.now w → IfOk result (λ _. (c : ℕ) → c < goal → IsColumnValue dict.now w (basic_in statuses.now c) c (values_in values.new c)) }
    ensures wide { (w : Values) → Rest dict.now rest.now w → OnErr result ((b : ℕ) × (b < goal) × (basic_in statuses.now b ≡ true) × (ValueFits (columns_of dict.now) (entry_of dict.now b) w → ⊥)) }
{
    let _goal = goal;
    let mut walk = Walk::new();
    let mut from = 0;
    while let Some(col) = unknown.next_by(&mut walk, from) {
        let c = col as usize;
        let value = value_at(dict, statuses[c], rest, col, steps)?;
        values[c] = value;
        unknown.unmark(col);
        from = col + 1;
    }
    Ok(())
}

/// The values of the columns at a basis: those that aren't known are formed.
pub fn find_values<L: Ledger>(
    dict: &Dict<L>,
    ends: &[Ends],
    statuses: &[Status],
    rest: &Places,
    values: &mut [Frac],
    unknown: &mut Marks,
    goal: u32,
    steps: &mut Steps<L>,
) -> Result<(), Wide>
    requires loaded { IsLoaded dict.now }
    requires statuses { AreStatuses dict.now statuses.now }
    requires ends { length ends.now ≡ length statuses.now }
    requires rest { goal ≤ count_of rest.now }
    requires resting { AreResting (ranges_in ends.now) statuses.now (place_values rest.now) }
    requires values { length values.old ≡ goal }
    requires goal { goal ≡ length statuses.now }
    requires known { AreKnown dict.now rest.now statuses.now values.old unknown.old }
    ensures known { AreKnown dict.now rest.now statuses.now values.new unknown.new }
    ensures size { size_of unknown.new ≡ size_of unknown.old }
    ensures ok { (I : Instance) → AreEndsOf I ends.now → HasSizeOf I dict.now → IfOk result (λ _. HasValues I statuses.now (entry_of dict.now) (values_in values.new)) }
    ensures fits { (I : Instance) → AreEndsOf I ends.now → HasSizeOf I dict.now → IfOk result (λ _. ValuesFit I statuses.now (entry_of dict.now)) }
    ensures wide { (I : Instance) → AreEndsOf I ends.now → HasSizeOf I dict.now → OnErr result (ValuesFit I statuses.now (entry_of dict.now) → ⊥) }
{
    let _ends = ends;
    all_values(dict, statuses, rest, values, unknown, goal, steps)
}

/// The way in which a value is to move to come within the ends.
fn misses(e: &Ends, x: &Frac) -> Option<Way>
    ensures { MatchOption result ((v : Way) → Misses v (range_of e.now) (ratio x.now) → ⊥) (λ v. Misses v (range_of e.now) (ratio x.now)) }
{
    if let End::At(l) = e.lb {
        if is_less(*x, l) {
            return Some(Way::Rise);
        }
    }
    if let End::At(h) = e.ub {
        if is_less(h, *x) {
            return Some(Way::Fall);
        }
    }
    None
}

/// The first basic column that is out of its ends.
pub fn first_out<L: Ledger>(
    dict: &Dict<L>,
    ends: &[Ends],
    statuses: &[Status],
    values: &[Frac],
    goal: u32,
) -> Option<Move>
    requires loaded { IsLoaded dict.now }
    requires statuses { AreStatuses dict.now statuses.now }
    requires ends { length ends.now ≡ length statuses.now }
    requires values { length values.now ≡ length statuses.now }
    requires goal { goal ≡ length statuses.now }
    ensures { (I : Instance) (u : Entries) → AreEndsOf I ends.now → MatchOption result (NoneOut I statuses.now u (values_in values.now)) (λ m. IsLeastOut I statuses.now u (values_in values.now) m.col m.way) }
{
    let _statuses = statuses;
    let _goal = goal;
    let basic = dict.basic_columns();
    let mut walk = Walk::new();
    let mut from = 0;
    while let Some(c) = basic.next_by(&mut walk, from) {
        if let Some(way) = misses(&ends[c as usize], &values[c as usize]) {
            return Some(Move { col: c, way });
        }
        from = c + 1;
    }
    None
}
