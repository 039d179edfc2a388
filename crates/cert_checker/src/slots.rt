//! One sum for each variable, to which columns are added.
ghost use Rattle.std.specs.Prelude.{◌≡◌, ◌+◌, ◌<◌, ℕ, pos, length, slice_set, IfOk, OnErr};
ghost use Rattle.std.specs.List.{All};
ghost use Rattle.rational.specs.Ratio.{whole, product, IsSame};
ghost use Rattle.fraction.specs.Frac.{ratio, ratios};
ghost use Rattle.fraction.specs.declared.frac.Frac.{Frac};
ghost use Rattle.evidence.specs.Sums.{none, total};
ghost use Rattle.evidence.specs.Instance.{width, height, entry_at, coefficient_at};
ghost use Rattle.evidence.specs.Point.{value_at};
ghost use Rattle.evidence.specs.Width.{StatedFits};
ghost use Rattle.instance.specs.Program.{entries};
ghost use Rattle.instance.specs.Parts.{IsAscending};
ghost use Rattle.case_tree.specs.Cuts.{cut};
ghost use Rattle.cert_checker.specs.Slots.{slot_at, IsStep};

use crate::at_hand::Program;
use case_tree::Cut;
use certificate::Mult;
use fraction::{Entry, Frac, Wide};
use instance::{add_product, one, zero};

/// The sum with one more product, which is left out where a factor is 0; none where it doesn't fit.
pub(crate) fn plus(slot: Option<Frac>, a: Frac, x: Frac) -> Option<Frac>
    ensures { IsStep slot (ratio a) (ratio x) result }
{
    match slot {
        Some(sum) => add_product(sum, a, x).ok(),
        None => None,
    }
}

/// Makes each sum 0.
pub(crate) fn clear(slots: &mut [Option<Frac>])
    ensures { (j : ℕ) → j < length slots.old → (f : Frac) × (slot_at slots.new j ≡ Some f) × (ratio f ≡ none) }
{
    for j in 0..slots.len() {
        slots[j] = Some(zero());
    }
}

/// The number at a place, 0 where there is none.
pub(crate) fn number_at(numbers: &[Frac], j: usize) -> Frac
    ensures { ratio result ≡ value_at (ratios numbers.now) j }
{
    if j < numbers.len() {
        numbers[j]
    } else {
        zero()
    }
}

/// Adds numbers, each times a factor, to the sums at their places.
pub(crate) fn add_numbers(slots: &mut [Option<Frac>], numbers: &[Frac], by: Frac)
    ensures { (j : ℕ) → j < length slots.old → IsStep (slot_at slots.old j) (ratio by) (value_at (ratios numbers.now) j) (slot_at slots.new j) }
{
    for j in 0..slots.len() {
        slots[j] = plus(slots[j], by, number_at(numbers, j));
    }
}

/// The sum, from 0, of numbers, each times its variable.
pub(crate) fn sum_numbers(numbers: &[Frac], point: &[Frac]) -> Result<Frac, Wide>
    ensures ok { IfOk result (λ r. IsSame (ratio r) (total none (length point.now) (λ j. product (value_at (ratios numbers.now) j) (value_at (ratios point.now) j)))) }
    ensures fits { IfOk result (λ _. StatedFits none (length point.now) (value_at (ratios numbers.now)) (value_at (ratios point.now))) }
    ensures wide { OnErr result (StatedFits none (length point.now) (value_at (ratios numbers.now)) (value_at (ratios point.now)) → ⊥) }
{
    let mut sum = zero();
    for j in 0..point.len() {
        sum = add_product(sum, number_at(numbers, j), point[j])?;
    }
    Ok(sum)
}

/// Adds a row's entries, each times a factor, to the sums of their variables.
pub(crate) fn add_entries(slots: &mut [Option<Frac>], row: &[Entry], by: Frac, i: u32)
    requires ascending { IsAscending row.now }
    requires row { All (λ e. e.row ≡ i) row.now }
    requires inside { All (λ e. e.col < length slots.old) row.now }
    ensures { (j : ℕ) → j < length slots.old → IsStep (slot_at slots.old j) (ratio by) (entry_at (entries row.now) i j) (slot_at slots.new j) }
{
    for k in 0..row.len() {
        let entry = row[k];
        let j = entry.col as usize;
        slots[j] = plus(slots[j], by, entry.value);
    }
}

/// Adds a variable's column, whose one coefficient is 1, times a factor.
fn add_variable(slots: &mut [Option<Frac>], j: usize, by: Frac)
    requires { j < length slots.old }
    ensures here { IsStep (slot_at slots.old j) (ratio by) (whole (pos 1)) (slot_at slots.new j) }
    ensures others { slots.new ≡ slice_set slots.old j (slot_at slots.new j) }
{
    slots[j] = plus(slots[j], by, one());
}

/// Adds a column times its multiplier.
pub(crate) fn add_column(program: &Program, cuts: &[Cut], slots: &mut [Option<Frac>], mult: Mult)
    requires count { length cuts.now ≡ width program.now }
    requires room { length slots.old ≡ length cuts.now }
    requires column { mult.col < length cuts.now + height program.now }
    ensures { (j : ℕ) → j < length slots.old → IsStep (slot_at slots.old j) (ratio mult.value) (coefficient_at (cut program.now cuts.now) mult.col j) (slot_at slots.new j) }
{
    let col = mult.col as usize;
    if col < cuts.len() {
        add_variable(slots, col, mult.value);
    } else {
        program.add_row(slots, col - cuts.len(), mult.value);
    }
}
