//! Entries of the matrix, made of its three lists.

ghost use Rattle.std.specs.Prelude.{◌≡◌, ◌+◌, ◌<◌, ◌≤◌, ◌↔◌, ◌++◌, ℕ, ◌∷◌, [], IsTrue, IfOk, OnOk, slice_index, length};
ghost use Rattle.fraction.specs.Frac.{ratio};
ghost use Rattle.instance.specs.Program.{entry as entry_of, entries as entries_of};
ghost use Rattle.osil_grammar.specs.Orders.{IsInOrder};
ghost use Rattle.osil_grammar.specs.Failing.{most_lines};
ghost use Rattle.osil_grammar.specs.Matrix.{IsDivision, placed, stored as stored_lists};
ghost use Rattle.osil_grammar.specs.Storing.{wholes, lists_of, AreStored, line_entries, Joins, SumsOrWide, JoinedOrWide};

use fraction::{Entry, Frac, Wide};
use std::alloc::{AllocError, Global};

/// The lists of a matrix: by columns or by rows, the starts of these lines, each value's index in its line, the values.
#[derive(Drop)]
pub(crate) struct Lists {
    pub(crate) by_columns: bool,
    pub(crate) starts: Vec<u32>,
    pub(crate) indices: Vec<u32>,
    pub(crate) values: Vec<Frac>,
}

/// Whether the numbers never fall.
fn is_rising(starts: &[u32]) -> bool
    ensures { IsTrue result ↔ ((k : ℕ) → k + 1 < length starts.now → slice_index starts.now k ≤ slice_index starts.now (k + 1)) }
{
    for k in 1..starts.len() {
        if starts[k] < starts[k - 1] {
            return false;
        }
    }
    true
}

/// Whether the starts divide so many values into so many lines.
pub(crate) fn is_division(starts: &[u32], lines: usize, values: usize) -> bool
    requires { lines ≤ most_lines }
    ensures { IsTrue result ↔ IsDivision (wholes starts.now) lines values }
{
    if starts.len() != lines + 1 {
        return false;
    }
    if starts[0] != 0 || starts[lines] as usize != values {
        return false;
    }
    is_rising(starts)
}

/// The value's place in the matrix.
fn entry(by_columns: bool, line: u32, index: u32, value: Frac) -> Entry
    ensures { entry_of result ≡ placed by_columns line index (ratio value) }
{
    if by_columns {
        Entry {
            row: index,
            col: line,
            value,
        }
    } else {
        Entry {
            row: line,
            col: index,
            value,
        }
    }
}

/// Adds the entries of one line.
fn push_line(
    out: &mut Vec<Entry>,
    by_columns: bool,
    line: u32,
    indices: &[u32],
    values: &[Frac],
) -> Result<(), AllocError>
    requires { length indices.now ≡ length values.now }
    ensures { OnOk result (entries_of out.new.items ≡ entries_of out.old.items ++ line_entries by_columns line indices.now values.now) }
{
    for k in 0..values.len() {
        out.push(entry(by_columns, line, indices[k], values[k]))?;
    }
    Ok(())
}

/// The values with their places, in the order of storage.
fn stored(alloc: Global, lists: &Lists) -> Result<Vec<Entry>, AllocError>
    requires { (lines : ℕ) × (lines ≤ most_lines) × AreStored lists.now lines }
    ensures { IfOk result (λ es. entries_of es.items ≡ stored_lists (lists_of lists.now)) }
{
    let mut out = Vec::new(alloc);
    let starts = lists.starts.as_slice();
    for line in 1..starts.len() {
        let (from, to) = (starts[line - 1] as usize, starts[line] as usize);
        let indices = &lists.indices[from..to];
        let values = &lists.values[from..to];
        push_line(&mut out, lists.by_columns, line as u32 - 1, indices, values)?;
    }
    Ok(out)
}

/// Whether two entries have one place.
fn is_same_place(a: &Entry, b: &Entry) -> bool
    ensures { IsTrue result ↔ ((a.now.row ≡ b.now.row) × (a.now.col ≡ b.now.col)) }
{
    a.row == b.row && a.col == b.col
}

/// Adds an entry to the last one where it has the same place, else behind it.
fn join(out: &mut Vec<Entry>, next: Entry) -> Result<Result<(), Wide>, AllocError>
    ensures { Joins result out.old.items out.new.items next }
{
    let count = out.len();
    if count == 0 || !is_same_place(&out[count - 1], &next) {
        out.push(next)?;
        return Ok(Ok(()));
    }
    match out[count - 1].value.add(next.value) {
        Ok(sum) => {
            out[count - 1].value = sum;
            Ok(Ok(()))
        }
        Err(Wide) => Ok(Err(Wide)),
    }
}

/// The sums of the entries of each place, which follow one another.
fn joined(alloc: Global, entries: &[Entry]) -> Result<Result<Vec<Entry>, Wide>, AllocError>
    requires { IsInOrder entries.now }
    ensures { IfOk result (λ r. JoinedOrWide r (λ es. es.items) (entries_of entries.now)) }
{
    let mut out = Vec::new(alloc);
    for entry in entries {
        match join(&mut out, *entry)? {
            Ok(()) => {}
            Err(Wide) => return Ok(Err(Wide)),
        }
    }
    Ok(Ok(out))
}

/// The entries of the matrix: the sums of the values at each place that aren't 0, by rows and in each row by columns.
/// Wide where a sum, taken in the order of storage, doesn't fit.
pub(crate) fn entries(alloc: Global, lists: &Lists) -> Result<Result<Vec<Entry>, Wide>, AllocError>
    requires { (lines : ℕ) × (lines ≤ most_lines) × AreStored lists.now lines }
    ensures { IfOk result (λ r. SumsOrWide r (λ es. es.items) (stored_lists (lists_of lists.now))) }
{
    let mut stored = stored(alloc, lists)?;
    stored.sort_by_key(|e| (e.row, e.col))?;
    match joined(alloc, stored.as_slice())? {
        Err(Wide) => Ok(Err(Wide)),
        Ok(mut sums) => {
            sums.retain(|e| e.value.numer != 0);
            Ok(Ok(sums))
        }
    }
}
