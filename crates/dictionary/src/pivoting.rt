//! A pivot of all rows of a table.
ghost use Rattle.std.specs.Prelude.{◌≡◌, ◌≢◌, ℕ, ◌+◌, ◌<◌, ◌≤◌, pos, length, IfOk, OnErr};
ghost use Rattle.dictionary.specs.Numbers.{HasNumber};
ghost use Rattle.dictionary.specs.Rows.{numbers_of, numbers_in, IsRow, AreRows, IsTableTurned, TableFits, PivotHasRoom, replacements_cost};

use crate::replacing::replace_all;
use crate::row::Row;
use crate::scratch::Scratch;
use crate::solving::solve_row;
use crate::steps::Steps;
use fraction::Wide;
use std::sync::ledger::Ledger;

/// Pivots in place at row `p`: `basic` is its column, and `nonbasic` comes in for it. The row stands in `own` meanwhile.
pub fn pivot_rows<L: Ledger>(
    rows: &mut [Row<L>],
    own: &mut Row<L>,
    scratch: &mut Scratch,
    p: usize,
    basic: u32,
    nonbasic: u32,
    steps: &mut Steps<L>,
) -> Result<(), Wide>
    requires p { p < length rows.old }
    requires rows { (n : ℕ) × AreRows (length scratch.old.values.items) n rows.old × IsRow (length scratch.old.values.items) n own.old × PivotHasRoom (length scratch.old.values.items) (numbers_in rows.old) p basic nonbasic (length rows.old) n }
    requires empty { (c : ℕ) → (numbers_of own.old c).num ≡ pos 0 }
    requires inside { basic + 1 < length scratch.old.values.items }
    requires stands { HasNumber (numbers_in rows.old p) nonbasic }
    requires absent { (numbers_in rows.old p basic).num ≡ pos 0 }
    requires apart { basic ≢ nonbasic }
    ensures rows { (n : ℕ) → AreRows (length scratch.old.values.items) n rows.old → IsRow (length scratch.old.values.items) n own.old → AreRows (length scratch.old.values.items) n rows.new }
    ensures own { (n : ℕ) → AreRows (length scratch.old.values.items) n rows.old → IsRow (length scratch.old.values.items) n own.old → IsRow (length scratch.old.values.items) n own.new }
    ensures count { length scratch.new.values.items ≡ length scratch.old.values.items }
    ensures empty { IfOk result (λ _. (c : ℕ) → (numbers_of own.new c).num ≡ pos 0) }
    ensures is { IfOk result (λ _. IsTableTurned p basic nonbasic (numbers_in rows.old) (numbers_in rows.new) (length rows.old)) }
    ensures fits { IfOk result (λ _. TableFits p basic nonbasic (numbers_in rows.old) (length rows.old)) }
    ensures wide { OnErr result (TableFits p basic nonbasic (numbers_in rows.old) (length rows.old) → ⊥) }
    ensures cost { steps.new ≤ steps.old + replacements_cost (length scratch.old.values.items) (numbers_in rows.old) (numbers_in rows.old p) nonbasic (length rows.old) }
    ensures counted { steps.old ≤ steps.new }
{
    std::mem::swap(&mut rows[p], own);
    solve_row(own, basic, nonbasic, scratch, steps)?;
    replace_all(rows, own, nonbasic, scratch, steps)?;
    std::mem::swap(&mut rows[p], own);
    Ok(())
}
