//! A pivot's work on the rows that aren't its own.
ghost use Rattle.std.specs.Prelude.{◌≡◌, ◌≢◌, ℕ, ◌+◌, ◌*◌, ◌<◌, ◌≤◌, ◌⊎◌, pos, cond, length, IfOk, OnErr};
ghost use Rattle.rational.specs.Ratio.{sum, product, IsSame};
ghost use Rattle.fraction.specs.Frac.{ratio, ratios};
ghost use Rattle.evidence.specs.Sums.{none};
ghost use Rattle.evidence.specs.Point.{value_at};
ghost use Rattle.evidence.specs.Width.{TermFits};
ghost use Rattle.marks.specs.Marks.{is_marked, size_of};
ghost use Rattle.dictionary.specs.Numbers.{HasNumber};
ghost use Rattle.dictionary.specs.Scratch.{found_at, AreFound};
ghost use Rattle.dictionary.specs.Rows.{numbers_of, numbers_in, IsRow, AreRows, IsSpread, IsReplacedBy, ReplacementFits, HasRoomFor, replacement_cost, replacements_cost};
ghost use Rattle.dictionary.specs.Steps.{nonzeros};

use crate::changing::change_common;
use crate::row::Row;
use crate::scratch::Scratch;
use crate::settling::settle;
use crate::steps::Steps;
use common_rows::plus_product;
use fraction::{Frac, Wide};
use instance::zero;
use marks::{Marks, Walk};
use std::sync::ledger::Ledger;

/// The value at a column, where it is marked, or 0.
fn value_of(values: &[Frac], marks: &Marks, c: u32) -> Frac
    requires marks { c < size_of marks.now }
    requires values { c < length values.now }
    ensures { ratio result ≡ cond (is_marked marks.now c) (value_at (ratios values.now) c) none }
{
    if !marks.has(c) {
        return zero();
    }
    values[c as usize]
}

/// The sum of a value and a factor times another one, or 0 at the column `skip`.
fn sum_at(c: u32, skip: u32, x: Frac, factor: Frac, y: Frac) -> Result<Frac, Wide>
    ensures gone { c ≡ skip → IfOk result (λ r. ratio r ≡ none) }
    ensures is { c ≢ skip → IfOk result (λ r. IsSame (ratio r) (sum (ratio x) (product (ratio factor) (ratio y)))) }
    ensures fits { c ≢ skip → IfOk result (λ _. TermFits (ratio x) (ratio factor) (ratio y)) }
    ensures wide { OnErr result ((c ≢ skip) × (TermFits (ratio x) (ratio factor) (ratio y) → ⊥)) }
{
    if c == skip {
        return Ok(zero());
    }
    plus_product(x, factor, y)
}

/// The sums of a row's values and a factor times another one's, but for the column `skip`.
fn add_values<L: Ledger>(
    row: &Row<L>,
    by: &Row<L>,
    skip: u32,
    factor: Frac,
    scratch: &mut Scratch,
) -> Result<(), Wide>
    requires rows { (n : ℕ) × IsRow (length scratch.old.values.items) n row.now × IsRow (length scratch.old.values.items) n by.now }
    requires values { IsSpread row.now (ratios scratch.old.values.items) }
    requires others { IsSpread by.now (ratios scratch.old.others.items) }
    ensures count { length scratch.new.values.items ≡ length scratch.old.values.items }
    ensures found { AreFound scratch.new }
    ensures gone { IfOk result (λ _. found_at scratch.new skip ≡ none) }
    ensures is { IfOk result (λ _. (c : ℕ) → c ≢ skip → IsSame (found_at scratch.new c) (sum (numbers_of row.now c) (product (ratio factor) (numbers_of by.now c)))) }
    ensures stands { IfOk result (λ _. (c : ℕ) → HasNumber (found_at scratch.new) c → HasNumber (numbers_of row.now) c ⊎ HasNumber (numbers_of by.now) c) }
    ensures fits { IfOk result (λ _. (c : ℕ) → c ≢ skip → TermFits (numbers_of row.now c) (ratio factor) (numbers_of by.now c)) }
    ensures wide { OnErr result (((c : ℕ) → c ≢ skip → TermFits (numbers_of row.now c) (ratio factor) (numbers_of by.now c)) → ⊥) }
{
    scratch.clear();
    let mut walk = Walk::new();
    let mut from = 0;
    while let Some(c) = row.marks.next_of_either(&by.marks, &mut walk, from) {
        let x = value_of(scratch.values.as_slice(), &row.marks, c);
        let y = value_of(scratch.others.as_slice(), &by.marks, c);
        let value = sum_at(c, skip, x, factor, y)?;
        scratch.put(c, value);
        from = c + 1;
    }
    Ok(())
}

/// Replaces the column `skip` in a row by another row, of which one stands as fractions.
#[inline(never)]
fn change_fractions<L: Ledger>(
    row: &mut Row<L>,
    by: &Row<L>,
    skip: u32,
    scratch: &mut Scratch,
    steps: &mut Steps<L>,
) -> Result<(), Wide>
    requires rows { (n : ℕ) × IsRow (length scratch.old.values.items) n row.old × IsRow (length scratch.old.values.items) n by.now × HasRoomFor (length scratch.old.values.items) (numbers_of row.old) (numbers_of by.now) skip n }
    requires stands { HasNumber (numbers_of row.old) skip }
    requires inside { skip + 1 < length scratch.old.values.items }
    requires gone { (numbers_of by.now skip).num ≡ pos 0 }
    ensures row { (n : ℕ) → IsRow (length scratch.old.values.items) n row.old → IsRow (length scratch.old.values.items) n row.new }
    ensures count { length scratch.new.values.items ≡ length scratch.old.values.items }
    ensures is { IfOk result (λ _. IsReplacedBy (numbers_of row.old) (numbers_of by.now) skip (numbers_of row.new)) }
    ensures fits { IfOk result (λ _. ReplacementFits (numbers_of row.old) (numbers_of by.now) skip) }
    ensures wide { OnErr result (ReplacementFits (numbers_of row.old) (numbers_of by.now) skip → ⊥) }
    ensures cost { steps.new ≤ steps.old + 3 * (nonzeros (length scratch.old.values.items) (numbers_of row.old) + nonzeros (length scratch.old.values.items) (numbers_of by.now)) }
    ensures counted { steps.old ≤ steps.new }
{
    row.spread(scratch.values.as_mut_slice(), steps);
    by.spread(scratch.others.as_mut_slice(), steps);
    let factor = scratch.values[skip as usize];
    add_values(row, by, skip, factor, scratch)?;
    settle(row, scratch, steps);
    Ok(())
}

/// Replaces the column `skip` in a row, where it has an entry, by another row.
fn replace<L: Ledger>(
    row: &mut Row<L>,
    by: &Row<L>,
    skip: u32,
    scratch: &mut Scratch,
    steps: &mut Steps<L>,
) -> Result<(), Wide>
    requires rows { (n : ℕ) × IsRow (length scratch.old.values.items) n row.old × IsRow (length scratch.old.values.items) n by.now × HasRoomFor (length scratch.old.values.items) (numbers_of row.old) (numbers_of by.now) skip n }
    requires inside { skip + 1 < length scratch.old.values.items }
    requires gone { (numbers_of by.now skip).num ≡ pos 0 }
    ensures row { (n : ℕ) → IsRow (length scratch.old.values.items) n row.old → IsRow (length scratch.old.values.items) n row.new }
    ensures count { length scratch.new.values.items ≡ length scratch.old.values.items }
    ensures is { IfOk result (λ _. IsReplacedBy (numbers_of row.old) (numbers_of by.now) skip (numbers_of row.new)) }
    ensures fits { IfOk result (λ _. ReplacementFits (numbers_of row.old) (numbers_of by.now) skip) }
    ensures wide { OnErr result (ReplacementFits (numbers_of row.old) (numbers_of by.now) skip → ⊥) }
    ensures cost { steps.new ≤ steps.old + replacement_cost (length scratch.old.values.items) (numbers_of row.old) (numbers_of by.now) skip }
    ensures counted { steps.old ≤ steps.new }
{
    if !row.has(skip) {
        return Ok(());
    }
    if row.is_common && by.is_common {
        change_common(row, by, skip, scratch, steps);
        return Ok(());
    }
    change_fractions(row, by, skip, scratch, steps)
}

/// Replaces the column `skip` in all rows by another row.
pub fn replace_all<L: Ledger>(
    rows: &mut [Row<L>],
    by: &Row<L>,
    skip: u32,
    scratch: &mut Scratch,
    steps: &mut Steps<L>,
) -> Result<(), Wide>
    requires rows { (n : ℕ) × AreRows (length scratch.old.values.items) n rows.old × IsRow (length scratch.old.values.items) n by.now × ((r : ℕ) → r < length rows.old → HasRoomFor (length scratch.old.values.items) (numbers_in rows.old r) (numbers_of by.now) skip n) }
    requires inside { skip + 1 < length scratch.old.values.items }
    requires gone { (numbers_of by.now skip).num ≡ pos 0 }
    ensures rows { (n : ℕ) → AreRows (length scratch.old.values.items) n rows.old → AreRows (length scratch.old.values.items) n rows.new }
    ensures count { length scratch.new.values.items ≡ length scratch.old.values.items }
    ensures is { IfOk result (λ _. (r : ℕ) → r < length rows.old → IsReplacedBy (numbers_in rows.old r) (numbers_of by.now) skip (numbers_in rows.new r)) }
    ensures fits { IfOk result (λ _. (r : ℕ) → r < length rows.old → ReplacementFits (numbers_in rows.old r) (numbers_of by.now) skip) }
    ensures wide { OnErr result (((r : ℕ) → r < length rows.old → ReplacementFits (numbers_in rows.old r) (numbers_of by.now) skip) → ⊥) }
    ensures cost { steps.new ≤ steps.old + replacements_cost (length scratch.old.values.items) (numbers_in rows.old) (numbers_of by.now) skip (length rows.old) }
    ensures counted { steps.old ≤ steps.new }
{
    for r in 0..rows.len() {
        replace(&mut rows[r], by, skip, scratch, steps)?;
    }
    Ok(())
}
