//! Finding an entry by the order of the columns.
ghost use Rattle.std.specs.Prelude.{◌≡◌, ℕ, ◌+◌, ◌<◌, ◌≤◌, ◌^◌, true, length, take, drop, None, IfSome};
ghost use Rattle.fraction.specs.Frac.{ratio};
ghost use Rattle.dictionary.specs.Row.{entries_of, IsSparseRow, HasColumn, IsEntry, number_in};

use crate::fractions::Fractions;
use crate::steps::Steps;
use fraction::Frac;
use instance::zero;
use std::sync::ledger::Ledger;

/// The value of the entry of a column, where there is one.
pub fn find<L: Ledger>(row: &Fractions<L>, col: u32, steps: &mut Steps<L>) -> Option<Frac>
    requires { IsSparseRow (entries_of row.now) }
    ensures found { IfSome result (IsEntry (entries_of row.now) col) }
    ensures absent { result ≡ None → HasColumn (entries_of row.now) col → ⊥ }
    ensures cost { (b : ℕ) → length (entries_of row.now) < 2 ^ b → steps.new ≤ steps.old + b }
    ensures counted { steps.old ≤ steps.new }
{
    let mut low = 0;
    let mut high = row.len();
    while low < high {
        let mid = low + (high - low) / 2;
        let x = row.read(mid, steps);
        if x.col == col {
            return Some(x.value);
        }
        if x.col < col {
            low = mid + 1;
        } else {
            high = mid;
        }
    }
    None
}

/// The number of a column, 0 where it has no entry.
pub fn number_at<L: Ledger>(row: &Fractions<L>, col: u32, steps: &mut Steps<L>) -> Frac
    requires { IsSparseRow (entries_of row.now) }
    ensures number { ratio result ≡ number_in (entries_of row.now) col }
    ensures cost { (b : ℕ) → length (entries_of row.now) < 2 ^ b → steps.new ≤ steps.old + b }
    ensures counted { steps.old ≤ steps.new }
{
    match find(row, col, steps) {
        Some(value) => value,
        None => zero(),
    }
}
