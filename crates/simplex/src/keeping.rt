//! Which values stay known through a turn.
ghost use Rattle.std.specs.Prelude.{◌≡◌, ◌≢◌, ℕ, ◌+◌, ◌<◌, ◌≤◌, pos, true, false, List, length, slice_set};
ghost use Rattle.marks.specs.Marks.{is_marked, size_of};
ghost use Rattle.fraction.specs.declared.frac.Frac as numbers;
ghost use Rattle.simplex_rules.specs.declared.columns.Status as Columns;
ghost use Rattle.simplex_rules.specs.Statuses.{basic_in};
ghost use Rattle.dictionary.specs.declared.dict.Dict as dictionaries;
ghost use Rattle.dictionary.specs.Dict.{IsLoaded, IsBasic, IsNonbasic, entry_of, count_of, place_values};
ghost use Rattle.simplex.specs.Cuts.{ranges_in};
ghost use Rattle.simplex.specs.Tables.{AreStatuses, AreHeld};
ghost use Rattle.simplex.specs.Choices.{IsSwap, IsFlip, IsSwapped};
ghost use Rattle.simplex.specs.Values.{AreResting, AreKnown, IsForgotten};

use crate::choosing::{Flip, Swap};
use crate::ends::Ends;
use crate::valued::rest_value;
use dictionary::{Dict, Places};
use instance::zero;
use marks::{Marks, Walk};
use simplex_rules::Status;
use std::sync::ledger::Ledger;

/// Forgets the value of a basic column, where it moves with that of another one, which isn't basic.
fn forget_at<L: Ledger>(dict: &Dict<L>, unknown: &mut Marks, col: u32, moving: u32)
    requires loaded { IsLoaded dict.now }
    requires col { IsBasic dict.now col }
    requires moving { IsNonbasic dict.now moving }
    requires room { col < size_of unknown.old }
    ensures own { is_marked unknown.new col ≡ false → (entry_of dict.now col moving).num ≡ pos 0 }
    ensures less { is_marked unknown.new col ≡ false → is_marked unknown.old col ≡ false }
    ensures others { (c : ℕ) → c ≢ col → is_marked unknown.new c ≡ is_marked unknown.old c }
    ensures size { size_of unknown.new ≡ size_of unknown.old }
{
    if dict.has_entry(col, moving) {
        unknown.mark(col);
    }
}

/// Forgets the values that move with a column's, which isn't basic.
fn forget<L: Ledger>(
    dict: &Dict<L>,
    statuses: &[Status],
    unknown: &mut Marks,
    moving: u32,
    goal: u32,
)
    requires loaded { IsLoaded dict.now }
    requires statuses { AreStatuses dict.now statuses.now }
    requires room { goal ≤ size_of unknown.old }
    requires goal { goal ≡ length statuses.now }
    requires moving { moving < goal }
    requires nonbasic { basic_in statuses.now moving ≡ false }
    ensures forgotten { IsForgotten (entry_of dict.now) statuses.now moving unknown.old unknown.new }
    ensures size { size_of unknown.new ≡ size_of unknown.old }
{
    let _statuses = statuses;
    let _goal = goal;
    let basic = dict.basic_columns();
    let mut walk = Walk::new();
    let mut from = 0;
    while let Some(c) = basic.next_by(&mut walk, from) {
        forget_at(dict, unknown, c, moving);
        from = c + 1;
    }
    unknown.mark(moving);
}

/// No value is known.
pub fn forget_all(unknown: &mut Marks, goal: u32)
    requires { goal ≤ size_of unknown.old }
    ensures size { size_of unknown.new ≡ size_of unknown.old }
    ensures all { (c : ℕ) → c < goal → is_marked unknown.new c ≡ true }
    ensures past { (c : ℕ) → goal ≤ c → is_marked unknown.new c ≡ false }
{
    unknown.clear();
    for c in 0..goal {
        unknown.mark(c);
    }
}

/// Readies the places and the unknown columns for a swap: the values that don't move with the entering column stay known.
pub fn expect_swap<L: Ledger>(
    dict: &Dict<L>,
    ends: &[Ends],
    statuses: &[Status],
    rest: &mut Places,
    unknown: &mut Marks,
    swap: Swap,
    goal: u32,
)
    requires held { AreHeld dict.now statuses.now }
    requires ends { length ends.now ≡ length statuses.now }
    requires rest { goal ≤ count_of rest.old }
    requires room { goal ≤ size_of unknown.old }
    requires goal { goal ≡ length statuses.now }
    requires resting { AreResting (ranges_in ends.now) statuses.now (place_values rest.old) }
    requires swap { IsSwap statuses.now (entry_of dict.now) swap }
    ensures count { count_of rest.new ≡ count_of rest.old }
    ensures resting { (d : dictionaries.Dict L L.Ledger) (ss : List Columns.Status) → IsSwapped dict.now d statuses.now ss swap → AreResting (ranges_in ends.now) ss (place_values rest.new) }
    ensures known { (d : dictionaries.Dict L L.Ledger) (ss : List Columns.Status) (vs : List numbers.Frac) → IsSwapped dict.now d statuses.now ss swap → AreKnown dict.now rest.old statuses.now vs unknown.old → AreKnown d rest.new ss vs unknown.new }
    ensures size { size_of unknown.new ≡ size_of unknown.old }
{
    forget(dict, statuses, unknown, swap.nonbasic, goal);
    unknown.mark(swap.basic);
    let value = rest_value(&ends[swap.basic as usize], swap.status);
    rest.set(swap.basic, value);
    rest.set(swap.nonbasic, zero());
}

/// Readies the places and the unknown columns for a flip: the values that don't move with the column stay known.
pub fn expect_flip<L: Ledger>(
    dict: &Dict<L>,
    ends: &[Ends],
    statuses: &[Status],
    rest: &mut Places,
    unknown: &mut Marks,
    flip: Flip,
    goal: u32,
)
    requires held { AreHeld dict.now statuses.now }
    requires ends { length ends.now ≡ length statuses.now }
    requires rest { goal ≤ count_of rest.old }
    requires room { goal ≤ size_of unknown.old }
    requires goal { goal ≡ length statuses.now }
    requires resting { AreResting (ranges_in ends.now) statuses.now (place_values rest.old) }
    requires flip { IsFlip statuses.now flip }
    ensures count { count_of rest.new ≡ count_of rest.old }
    ensures resting { AreResting (ranges_in ends.now) (slice_set statuses.now flip.col flip.status) (place_values rest.new) }
    ensures known { (vs : List numbers.Frac) → AreKnown dict.now rest.old statuses.now vs unknown.old → AreKnown dict.now rest.new (slice_set statuses.now flip.col flip.status) vs unknown.new }
    ensures size { size_of unknown.new ≡ size_of unknown.old }
{
    forget(dict, statuses, unknown, flip.col, goal);
    let value = rest_value(&ends[flip.col as usize], flip.status);
    rest.set(flip.col, value);
}
