//! Rows whose sum is whole at each feasible point.
ghost use Rattle.std.specs.Prelude.{◌≡◌, ◌↔◌, ◌<◌, ℕ, length, IsTrue};
ghost use Rattle.std.specs.List.{All};
ghost use Rattle.fraction.specs.Frac.{ratio, ratios};
ghost use Rattle.evidence.specs.Instance.{entry_at};
ghost use Rattle.evidence.specs.Point.{value_at};
ghost use Rattle.instance.specs.Parts.{IsAscending};
ghost use Rattle.instance.specs.Program.{entries};
ghost use Rattle.case_tree.specs.Cuts.{cut_at};
ghost use Rattle.cert_checker.specs.Columns.{MayStand};

use crate::rounds::may_round;
use crate::slots::number_at;
use case_tree::Cut;
use fraction::{Entry, Frac};

/// Whether a row's entries are whole at whole variables, and 0 at the others.
pub(crate) fn are_whole_entries(cuts: &[Cut], row: &[Entry], i: u32) -> bool
    requires ascending { IsAscending row.now }
    requires row { All (λ e. e.row ≡ i) row.now }
    requires inside { All (λ e. e.col < length cuts.now) row.now }
    ensures { IsTrue result ↔ ((j : ℕ) → j < length cuts.now → MayStand (cut_at cuts.now j) (entry_at (entries row.now) i j)) }
{
    for k in 0..row.len() {
        let entry = row[k];
        let j = entry.col as usize;
        if !may_round(&cuts[j], entry.value) {
            return false;
        }
    }
    true
}

/// Whether numbers, one for each variable, are whole at whole variables, and 0 at the others.
pub(crate) fn are_whole_numbers(cuts: &[Cut], numbers: &[Frac]) -> bool
    ensures { IsTrue result ↔ ((j : ℕ) → j < length cuts.now → MayStand (cut_at cuts.now j) (value_at (ratios numbers.now) j)) }
{
    for j in 0..cuts.len() {
        if !may_round(&cuts[j], number_at(numbers, j)) {
            return false;
        }
    }
    true
}
