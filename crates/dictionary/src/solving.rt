//! The pivot's own row.
ghost use Rattle.std.specs.Prelude.{◌≡◌, ◌≢◌, ℕ, ◌+◌, ◌*◌, ◌^◌, ◌<◌, ◌≤◌, pos, neg_ℤ, ◌<ℤ◌, true, length, unsigned_abs, IfOk, OnErr};
ghost use Rattle.rational.specs.Ratio.{product, IsSame};
ghost use Rattle.rational.specs.Width.{ReducedFits};
ghost use Rattle.fraction.specs.Frac.{ratio, ratios};
ghost use Rattle.evidence.specs.Sums.{none};
ghost use Rattle.dictionary.specs.Numbers.{HasNumber};
ghost use Rattle.dictionary.specs.Rows.{numbers_of, numer_at, IsRow, IsRowDivided, IsSpread, IsSolvedFor, SolutionFits};
ghost use Rattle.dictionary.specs.Scratch.{found_at, AreFound};
ghost use Rattle.dictionary.specs.Steps.{nonzeros};

use crate::numbers::one;
use crate::row::Row;
use crate::scratch::Scratch;
use crate::settling::settle;
use crate::steps::Steps;
use common_rows::times;
use fraction::{Frac, Wide};
use instance::zero;
use marks::Walk;
use std::sync::ledger::Ledger;

/// Solves a row in common form for the column `nonbasic`; `basic` comes in for it.
fn solve_common<L: Ledger>(row: &mut Row<L>, basic: u32, nonbasic: u32, steps: &mut Steps<L>)
    requires row { (k n : ℕ) × IsRow k n row.old × (basic + 1 < k) }
    requires common { row.old.is_common ≡ true }
    requires stands { HasNumber (numbers_of row.old) nonbasic }
    requires absent { (numbers_of row.old basic).num ≡ pos 0 }
    requires apart { basic ≢ nonbasic }
    ensures row { (k n : ℕ) → IsRow k n row.old → basic + 1 < k → IsRow k n row.new }
    ensures is { IsSolvedFor (numbers_of row.old) basic nonbasic (numbers_of row.new) }
    ensures fits { SolutionFits (numbers_of row.old) nonbasic }
    ensures cost { (k n : ℕ) → IsRow k n row.old → steps.new ≤ steps.old + 3 * (1 + nonzeros k (numbers_of row.old)) }
    ensures counted { steps.old ≤ steps.new }
{
    let pivot = row.read(nonbasic, steps);
    row.write(nonbasic, 0, steps);
    if pivot > 0 {
        return divide_up(row, basic, pivot, steps);
    }
    divide_down(row, basic, pivot, steps);
}

/// Divides a row's numbers by a pivot above 0, and puts what one over it is at `basic`.
fn divide_up<L: Ledger>(row: &mut Row<L>, basic: u32, pivot: i64, steps: &mut Steps<L>)
    requires row { (k n : ℕ) × IsRow k n row.old × (basic + 1 < k) }
    requires common { row.old.is_common ≡ true }
    requires pivot { pos 0 <ℤ pivot }
    ensures divided { IsRowDivided row.old basic pivot row.new }
    ensures small { unsigned_abs row.old.denom < 2 ^ 63 }
    ensures cost { (k n : ℕ) → IsRow k n row.old → steps.new ≤ steps.old + (1 + 2 * nonzeros k (numbers_of row.old)) }
    ensures counted { steps.old ≤ steps.new }
{
    let denom = row.denom;
    negate(row, steps);
    row.write(basic, denom, steps);
    row.denom = pivot;
}

/// The same by a pivot below 0.
fn divide_down<L: Ledger>(row: &mut Row<L>, basic: u32, pivot: i64, steps: &mut Steps<L>)
    requires row { (k n : ℕ) × IsRow k n row.old × (basic + 1 < k) }
    requires common { row.old.is_common ≡ true }
    requires pivot { pivot <ℤ pos 0 }
    requires small { unsigned_abs pivot < 2 ^ 63 }
    ensures divided { IsRowDivided row.old basic pivot row.new }
    ensures small { unsigned_abs row.old.denom < 2 ^ 63 }
    ensures cost { steps.new ≡ steps.old + 1 }
{
    let denom = row.denom;
    row.write(basic, -denom, steps);
    row.denom = -pivot;
}

/// Turns all signs.
fn negate<L: Ledger>(row: &mut Row<L>, steps: &mut Steps<L>)
    requires row { (k n : ℕ) × IsRow k n row.old }
    requires common { row.old.is_common ≡ true }
    ensures row { (k n : ℕ) → IsRow k n row.old → IsRow k n row.new }
    ensures common { row.new.is_common ≡ true }
    ensures denom { row.new.denom ≡ row.old.denom }
    ensures negated { (c : ℕ) → numer_at row.new c ≡ neg_ℤ (numer_at row.old c) }
    ensures cost { (k n : ℕ) → IsRow k n row.old → steps.new ≤ steps.old + 2 * nonzeros k (numbers_of row.old) }
    ensures counted { steps.old ≤ steps.new }
{
    let mut walk = Walk::new();
    let mut from = 0;
    while let Some(c) = row.marks.next_by(&mut walk, from) {
        let x = row.read(c, steps);
        row.write(c, -x, steps);
        from = c + 1;
    }
}

/// A factor times a value, or 0 at the column `skip`.
fn product_at(c: u32, skip: u32, factor: Frac, x: Frac) -> Result<Frac, Wide>
    ensures gone { c ≡ skip → IfOk result (λ r. ratio r ≡ none) }
    ensures is { c ≢ skip → IfOk result (λ r. IsSame (ratio r) (product (ratio factor) (ratio x))) }
    ensures wide { OnErr result ((c ≢ skip) × (ReducedFits (product (ratio factor) (ratio x)) → ⊥)) }
{
    if c == skip {
        return Ok(zero());
    }
    times(factor, x)
}

/// A row's values times a factor, but for the column `skip`.
fn multiply_values<L: Ledger>(
    row: &Row<L>,
    skip: u32,
    factor: Frac,
    scratch: &mut Scratch,
) -> Result<(), Wide>
    requires row { (n : ℕ) × IsRow (length scratch.old.values.items) n row.now }
    requires values { IsSpread row.now (ratios scratch.old.values.items) }
    ensures count { length scratch.new.values.items ≡ length scratch.old.values.items }
    ensures found { AreFound scratch.new }
    ensures gone { IfOk result (λ _. found_at scratch.new skip ≡ none) }
    ensures is { IfOk result (λ _. (c : ℕ) → c ≢ skip → IsSame (found_at scratch.new c) (product (ratio factor) (numbers_of row.now c))) }
    ensures fits { IfOk result (λ _. (c : ℕ) → c ≢ skip → ReducedFits (product (ratio factor) (numbers_of row.now c))) }
    ensures wide { OnErr result (((c : ℕ) → c ≢ skip → ReducedFits (product (ratio factor) (numbers_of row.now c))) → ⊥) }
{
    scratch.clear();
    let mut walk = Walk::new();
    let mut from = 0;
    while let Some(c) = row.marks.next_by(&mut walk, from) {
        let value = product_at(c, skip, factor, scratch.values[c as usize])?;
        scratch.put(c, value);
        from = c + 1;
    }
    Ok(())
}

/// Solves a row that stands as fractions for the column `nonbasic`: 1/pivot at `basic`, and the row times -1/pivot.
fn solve_fractions<L: Ledger>(
    row: &mut Row<L>,
    basic: u32,
    nonbasic: u32,
    scratch: &mut Scratch,
    steps: &mut Steps<L>,
) -> Result<(), Wide>
    requires row { (n : ℕ) × IsRow (length scratch.old.values.items) n row.old × (nonzeros (length scratch.old.values.items) (numbers_of row.old) ≤ n) }
    requires inside { basic + 1 < length scratch.old.values.items }
    requires stands { HasNumber (numbers_of row.old) nonbasic }
    requires absent { (numbers_of row.old basic).num ≡ pos 0 }
    requires apart { basic ≢ nonbasic }
    ensures row { (n : ℕ) → IsRow (length scratch.old.values.items) n row.old → IsRow (length scratch.old.values.items) n row.new }
    ensures count { length scratch.new.values.items ≡ length scratch.old.values.items }
    ensures is { IfOk result (λ _. IsSolvedFor (numbers_of row.old) basic nonbasic (numbers_of row.new)) }
    ensures fits { IfOk result (λ _. SolutionFits (numbers_of row.old) nonbasic) }
    ensures wide { OnErr result (SolutionFits (numbers_of row.old) nonbasic → ⊥) }
    ensures cost { steps.new ≤ steps.old + 3 * (1 + nonzeros (length scratch.old.values.items) (numbers_of row.old)) }
    ensures counted { steps.old ≤ steps.new }
{
    row.spread(scratch.values.as_mut_slice(), steps);
    let value = one().div(scratch.values[nonbasic as usize])?;
    multiply_values(row, nonbasic, value.neg(), scratch)?;
    scratch.put(basic, value);
    settle(row, scratch, steps);
    Ok(())
}

/// Solves a row for the column `nonbasic`, in place.
pub fn solve_row<L: Ledger>(
    row: &mut Row<L>,
    basic: u32,
    nonbasic: u32,
    scratch: &mut Scratch,
    steps: &mut Steps<L>,
) -> Result<(), Wide>
    requires row { (n : ℕ) × IsRow (length scratch.old.values.items) n row.old × (nonzeros (length scratch.old.values.items) (numbers_of row.old) ≤ n) }
    requires inside { basic + 1 < length scratch.old.values.items }
    requires stands { HasNumber (numbers_of row.old) nonbasic }
    requires absent { (numbers_of row.old basic).num ≡ pos 0 }
    requires apart { basic ≢ nonbasic }
    ensures row { (n : ℕ) → IsRow (length scratch.old.values.items) n row.old → IsRow (length scratch.old.values.items) n row.new }
    ensures count { length scratch.new.values.items ≡ length scratch.old.values.items }
    ensures is { IfOk result (λ _. IsSolvedFor (numbers_of row.old) basic nonbasic (numbers_of row.new)) }
    ensures fits { IfOk result (λ _. SolutionFits (numbers_of row.old) nonbasic) }
    ensures wide { OnErr result (SolutionFits (numbers_of row.old) nonbasic → ⊥) }
    ensures cost { steps.new ≤ steps.old + 3 * (1 + nonzeros (length scratch.old.values.items) (numbers_of row.old)) }
    ensures counted { steps.old ≤ steps.new }
{
    if row.is_common {
        solve_common(row, basic, nonbasic, steps);
        return Ok(());
    }
    solve_fractions(row, basic, nonbasic, scratch, steps)
}
