//! Values of basic columns.
ghost use Rattle.std.specs.Prelude.{◌≡◌, ℕ, ◌+◌, ◌<◌, ◌≤◌, true, length, IfOk, OnErr};
ghost use Rattle.rational.specs.Ratio.{IsNumber, IsSame};
ghost use Rattle.fraction.specs.Frac.{ratio};
ghost use Rattle.bases.specs.Dictionary.{Values, value_by};
ghost use Rattle.bases.specs.Pivot.{ValueFits};
ghost use Rattle.dictionary.specs.Row.{entries_of, number_in, IsSparseRow};
ghost use Rattle.dictionary.specs.Numbers.{HasNumber};
ghost use Rattle.dictionary.specs.Rows.{numbers_of, IsRow, AreValuesOf};
ghost use Rattle.dictionary.specs.Steps.{nonzeros};
ghost use Rattle.dictionary.specs.Dict.{count_of, place_values};

use crate::fractions::Fractions;
use crate::places::Places;
use crate::row::Row;
use crate::steps::Steps;
use common_rows::Accumulator;
use fraction::{Frac, Wide};
use marks::Walk;
use std::sync::ledger::Ledger;

/// The sum, from 0, of a row's entries, each times its column's value, in ascending order. Columns of value 0 add nothing.
pub fn sum_row<L: Ledger>(row: &Row<L>, places: &Places, steps: &mut Steps<L>) -> Result<Frac, Wide>
    requires row { (k n : ℕ) × IsRow k n row.now }
    requires inside { (c : ℕ) → HasNumber (numbers_of row.now) c → c < count_of places.now }
    ensures ok { (k : ℕ) (w : Values) → AreValuesOf (numbers_of row.now) (place_values places.now) k w → IfOk result (λ r. IsSame (ratio r) (value_by k (numbers_of row.now) w)) }
    ensures fits { (k : ℕ) (w : Values) → AreValuesOf (numbers_of row.now) (place_values places.now) k w → IfOk result (λ _. ValueFits k (numbers_of row.now) w) }
    ensures wide { (k : ℕ) (w : Values) → AreValuesOf (numbers_of row.now) (place_values places.now) k w → OnErr result (ValueFits k (numbers_of row.now) w → ⊥) }
    ensures cost { (k : ℕ) → ((c : ℕ) → HasNumber (numbers_of row.now) c → c < k) → steps.new ≤ steps.old + nonzeros k (numbers_of row.now) }
    ensures counted { steps.old ≤ steps.new }
{
    if row.is_common {
        sum_numbers(row, places, steps)
    } else {
        sum_fractions(&row.fractions, places, steps)
    }
}

/// The same of a row in common form, whose columns of value 0 are passed over.
fn sum_numbers<L: Ledger>(row: &Row<L>, places: &Places, steps: &mut Steps<L>) -> Result<Frac, Wide>
    requires row { (k n : ℕ) × IsRow k n row.now }
    requires common { row.now.is_common ≡ true }
    requires inside { (c : ℕ) → HasNumber (numbers_of row.now) c → c < count_of places.now }
    ensures ok { (k : ℕ) (w : Values) → AreValuesOf (numbers_of row.now) (place_values places.now) k w → IfOk result (λ r. IsSame (ratio r) (value_by k (numbers_of row.now) w)) }
    ensures fits { (k : ℕ) (w : Values) → AreValuesOf (numbers_of row.now) (place_values places.now) k w → IfOk result (λ _. ValueFits k (numbers_of row.now) w) }
    ensures wide { (k : ℕ) (w : Values) → AreValuesOf (numbers_of row.now) (place_values places.now) k w → OnErr result (ValueFits k (numbers_of row.now) w → ⊥) }
    ensures cost { (k : ℕ) → ((c : ℕ) → HasNumber (numbers_of row.now) c → c < k) → steps.new ≤ steps.old + nonzeros k (numbers_of row.now) }
    ensures counted { steps.old ≤ steps.new }
{
    let denom = row.denom.unsigned_abs();
    let mut sum = Accumulator::over(denom);
    let set = places.marks();
    let mut walk = Walk::new();
    let mut from = 0;
    while let Some(c) = row.marks.next_of_both(set, &mut walk, from) {
        let n = row.read(c, steps);
        sum = sum.plus_number(n, denom, places.value(c))?;
        from = c + 1;
    }
    Ok(sum.fraction())
}

/// The same of fractions.
fn sum_fractions<L: Ledger>(
    row: &Fractions<L>,
    places: &Places,
    steps: &mut Steps<L>,
) -> Result<Frac, Wide>
    requires row { IsSparseRow (entries_of row.now) }
    requires inside { (c : ℕ) → HasNumber (number_in (entries_of row.now)) c → c < count_of places.now }
    ensures ok { (k : ℕ) (w : Values) → AreValuesOf (number_in (entries_of row.now)) (place_values places.now) k w → IfOk result (λ r. IsSame (ratio r) (value_by k (number_in (entries_of row.now)) w)) }
    ensures fits { (k : ℕ) (w : Values) → AreValuesOf (number_in (entries_of row.now)) (place_values places.now) k w → IfOk result (λ _. ValueFits k (number_in (entries_of row.now)) w) }
    ensures wide { (k : ℕ) (w : Values) → AreValuesOf (number_in (entries_of row.now)) (place_values places.now) k w → OnErr result (ValueFits k (number_in (entries_of row.now)) w → ⊥) }
    ensures cost { steps.new ≤ steps.old + length (entries_of row.now) }
    ensures counted { steps.old ≤ steps.new }
{
    let mut sum = Accumulator::zero();
    for i in 0..row.len() {
        let x = row.read(i, steps);
        sum = sum.plus(&x.value, places.value(x.col))?;
    }
    Ok(sum.fraction())
}
