//! The rows of a program in a table.
ghost use Rattle.std.specs.Prelude.{◌≡◌, ℕ, ◌+◌, ◌-◌, ◌^◌, ◌<◌, ◌≤◌, true, false, length};
ghost use Rattle.std.specs.List.{All};
ghost use Rattle.fraction.specs.declared.ends.Entry as Of;
ghost use Rattle.fraction.specs.Frac.{ratio, ratios};
ghost use Rattle.evidence.specs.Instance.{entry_at};
ghost use Rattle.evidence.specs.Point.{value_at};
ghost use Rattle.instance.specs.Parts.{IsAscending, IsInside};
ghost use Rattle.instance.specs.Program.{entries};
ghost use Rattle.dictionary.specs.Rows.{numbers_in, AreRows};
ghost use Rattle.dictionary.specs.ProgramRows.{times_sign, program_rows, IsRowAt, IsOtherRowAt, RowBeginsAt};
ghost use Rattle.dictionary.specs.Scratch.{found_at, AreFound};
ghost use Rattle.dictionary.specs.Steps.{nonzeros};

use crate::row::Row;
use crate::scratch::Scratch;
use crate::settling::settle;
use crate::steps::Steps;
use fraction::{Entry, Frac};
use instance::zero;
use std::sync::ledger::Ledger;

/// The number, its negative or 0, by the sign of the factor.
fn times_factor(factor: i8, cost: Frac) -> Frac
    ensures { ratio result ≡ times_sign factor (ratio cost) }
{
    if factor == 0 {
        zero()
    } else if factor < 0 {
        cost.neg()
    } else {
        cost
    }
}

/// Whether the entry at a place is one of this row.
fn is_of(matrix: &[Entry], k: usize, row: u32) -> bool
    ensures inside { result ≡ true → k < length matrix.now }
    ensures yes { result ≡ true → IsRowAt matrix.now k row }
    ensures no { result ≡ false → IsOtherRowAt matrix.now k row }
{
    if k >= matrix.len() {
        return false;
    }
    matrix[k].row == row
}

/// Gives columns the values of a row's entries, which begin at `start`: where they end.
fn gather(matrix: &[Entry], start: usize, row: u32, scratch: &mut Scratch) -> usize
    requires columns { (m n : ℕ) × All (IsInside m n) matrix.now × (n < length scratch.old.values.items) }
    requires ascending { IsAscending matrix.now }
    requires begun { RowBeginsAt matrix.now row start }
    ensures ended { RowBeginsAt matrix.now (row + 1) result }
    ensures count { length scratch.new.values.items ≡ length scratch.old.values.items }
    ensures found { AreFound scratch.new }
    ensures is { (c : ℕ) → found_at scratch.new c ≡ entry_at (entries matrix.now) row c }
    ensures few { start + nonzeros (length scratch.old.values.items) (found_at scratch.new) ≤ result }
{
    scratch.clear();
    let mut k = start;
    while is_of(matrix, k, row) {
        let e = matrix[k];
        scratch.put(e.col, e.value);
        k += 1;
    }
    k
}

/// Gives row `r` of a table these entries, all of that row, in place of its own.
pub fn set_entries<L: Ledger>(
    rows: &mut [Row<L>],
    r: usize,
    list: &[Entry],
    scratch: &mut Scratch,
    steps: &mut Steps<L>,
)
    requires r { r < length rows.old }
    requires few { r < 2 ^ 32 }
    requires ascending { IsAscending list.now }
    requires own { All (λ (e : Of.Entry). e.row ≡ r) list.now }
    requires rows { (m n : ℕ) × All (IsInside m n) list.now × (n < length scratch.old.values.items) × AreRows (length scratch.old.values.items) n rows.old }
    ensures rows { (n : ℕ) → AreRows (length scratch.old.values.items) n rows.old → AreRows (length scratch.old.values.items) n rows.new }
    ensures own { (c : ℕ) → numbers_in rows.new r c ≡ entry_at (entries list.now) r c }
    ensures others { (k c : ℕ) → (k ≡ r → ⊥) → numbers_in rows.new k c ≡ numbers_in rows.old k c }
    ensures count { length scratch.new.values.items ≡ length scratch.old.values.items }
    ensures cost { steps.new ≤ steps.old + length list.now }
    ensures counted { steps.old ≤ steps.new }
{
    gather(list, 0, r as u32, scratch);
    settle(&mut rows[r], scratch, steps);
}

/// Gives columns the costs, times the factor.
fn gather_costs(costs: &[Frac], factor: i8, scratch: &mut Scratch)
    requires { length costs.now < length scratch.old.values.items }
    ensures count { length scratch.new.values.items ≡ length scratch.old.values.items }
    ensures found { AreFound scratch.new }
    ensures is { (c : ℕ) → found_at scratch.new c ≡ times_sign factor (value_at (ratios costs.now) c) }
{
    scratch.clear();
    for j in 0..costs.len() {
        scratch.put(j as u32, times_factor(factor, costs[j]));
    }
}

/// The rows of these entries, and last the costs times the factor.
pub fn load_rows<L: Ledger>(
    rows: &mut [Row<L>],
    matrix: &[Entry],
    costs: &[Frac],
    factor: i8,
    scratch: &mut Scratch,
    steps: &mut Steps<L>,
)
    requires goal { 0 < length rows.old }
    requires ascending { IsAscending matrix.now }
    requires inside { All (IsInside (length rows.old - 1) (length costs.now)) matrix.now }
    requires columns { length scratch.old.values.items ≡ length costs.now + length rows.old }
    requires rows { AreRows (length costs.now + length rows.old) (length costs.now) rows.old }
    ensures rows { AreRows (length costs.now + length rows.old) (length costs.now) rows.new }
    ensures numbers { (r c : ℕ) → r < length rows.old → numbers_in rows.new r c ≡ program_rows matrix.now costs.now factor (length rows.old - 1) r c }
    ensures count { length scratch.new.values.items ≡ length scratch.old.values.items }
    ensures cost { steps.new ≤ steps.old + (length matrix.now + length costs.now) }
    ensures counted { steps.old ≤ steps.new }
{
    let last = rows.len() - 1;
    let mut start = 0;
    for r in 0..last {
        start = gather(matrix, start, r as u32, scratch);
        settle(&mut rows[r], scratch, steps);
    }
    gather_costs(costs, factor, scratch);
    settle(&mut rows[last], scratch, steps);
}
