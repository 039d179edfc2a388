//! A row that takes the values beside it.
ghost use Rattle.std.specs.Prelude.{◌≡◌, ℕ, ◌+◌, ◌^◌, ◌<◌, ◌≤◌, pos, ◌<ℤ◌, true, None, length, unsigned_abs, IfSome};
ghost use Rattle.std.specs.Int.{◌∣◌};
ghost use Rattle.fraction.specs.Frac.{ratios};
ghost use Rattle.evidence.specs.Point.{value_at};
ghost use Rattle.marks.specs.Marks.{is_marked};
ghost use Rattle.dictionary.specs.Numbers.{IsOver};
ghost use Rattle.dictionary.specs.Rows.{numbers_of, IsRow};
ghost use Rattle.dictionary.specs.Scratch.{found_at, AreFound, AreDivided};
ghost use Rattle.dictionary.specs.Steps.{nonzeros};

use crate::numbers::{joined, number_over};
use crate::row::Row;
use crate::scratch::Scratch;
use crate::steps::Steps;
use marks::Walk;
use std::sync::ledger::Ledger;

/// The least denominator over which the values at marked columns have 64 bits, where there is one.
fn common_denom(scratch: &Scratch) -> Option<i64>
    requires { AreFound scratch.now }
    ensures above { IfSome result (λ d. pos 0 <ℤ d) }
    ensures over { (c : ℕ) → is_marked scratch.now.found c ≡ true → IfSome result (λ d. IsOver (unsigned_abs d) (value_at (ratios scratch.now.values.items) c)) }
    ensures least { IfSome result (λ d. (m : ℕ) → AreDivided scratch.now m → unsigned_abs d ∣ m) }
    ensures none { result ≡ None → (m : ℕ) → 0 < m → m < 2 ^ 63 → ((c : ℕ) → is_marked scratch.now.found c ≡ true → IsOver m (value_at (ratios scratch.now.values.items) c)) → ⊥ }
{
    let denom = joined_denom(scratch)?;
    let mut walk = Walk::new();
    let mut from = 0;
    while let Some(c) = scratch.found.next_by(&mut walk, from) {
        number_over(&scratch.values[c as usize], denom)?;
        from = c + 1;
    }
    Some(denom)
}

/// The least common multiple of the denominators of the values at marked columns, where it has 64 bits.
fn joined_denom(scratch: &Scratch) -> Option<i64>
    requires { AreFound scratch.now }
    ensures above { IfSome result (λ d. pos 0 <ℤ d) }
    ensures all { IfSome result (λ d. AreDivided scratch.now (unsigned_abs d)) }
    ensures least { IfSome result (λ d. (m : ℕ) → AreDivided scratch.now m → unsigned_abs d ∣ m) }
    ensures none { result ≡ None → (m : ℕ) → 0 < m → AreDivided scratch.now m → 2 ^ 63 ≤ m }
{
    let mut all = 1;
    let mut walk = Walk::new();
    let mut from = 0;
    while let Some(c) = scratch.found.next_by(&mut walk, from) {
        all = joined(all, scratch.values[c as usize].denom)?;
        from = c + 1;
    }
    Some(all)
}

/// Gives a row the values at marked columns in place of its own numbers.
pub fn settle<L: Ledger>(row: &mut Row<L>, scratch: &Scratch, steps: &mut Steps<L>)
    requires row { (n : ℕ) × IsRow (length scratch.now.values.items) n row.old × (nonzeros (length scratch.now.values.items) (found_at scratch.now) ≤ n) }
    requires found { AreFound scratch.now }
    ensures row { (n : ℕ) → IsRow (length scratch.now.values.items) n row.old → IsRow (length scratch.now.values.items) n row.new }
    ensures is { (c : ℕ) → numbers_of row.new c ≡ found_at scratch.now c }
    ensures cost { steps.new ≤ steps.old + nonzeros (length scratch.now.values.items) (found_at scratch.now) }
    ensures counted { steps.old ≤ steps.new }
{
    row.clear();
    row.begin(common_denom(scratch));
    let mut walk = Walk::new();
    let mut from = 0;
    while let Some(c) = scratch.found.next_by(&mut walk, from) {
        row.put(c, &scratch.values[c as usize], steps);
        from = c + 1;
    }
}
