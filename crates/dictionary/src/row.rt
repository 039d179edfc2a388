//! Rows of a table: numbers over one denominator where all fit 64 bits, else fractions.
ghost use Rattle.std.specs.Prelude.{◌≡◌, ℕ, ◌+◌, ◌<◌, ◌≤◌, true, false, ℤ, pos, ◌<ℤ◌, int_lt, length, slice_index_or, unsigned_abs};
ghost use Rattle.rational.specs.Width.{most};
ghost use Rattle.fraction.specs.Frac.{ratio, ratios};
ghost use Rattle.evidence.specs.Point.{value_at};
ghost use Rattle.marks.specs.Marks.{is_marked, size_of};
ghost use Rattle.dictionary.specs.Lowest.{lowest};
ghost use Rattle.dictionary.specs.Row.{entries_of, number_in, IsSparseRow, HasColumn};

use crate::finding::number_at;
use crate::fractions::{Fractions, Item};
use crate::numbers::number_over;
use crate::steps::Steps;
use fraction::Frac;
use instance::zero;
use marks::{Marks, Walk};
use std::alloc::{AllocError, Global};
use std::sync::ledger::Ledger;

/// A row of a table. The columns at which it has an entry are marked. In common form the entry of a column is its number over
/// the row's denominator; else the entries stand as fractions.
pub struct Row<L: Ledger> {
    pub numers: Vec<i64>,
    pub denom: i64,
    pub size: u64,
    pub marks: Marks,
    pub fractions: Fractions<L>,
    pub is_common: bool,
    pub ghost above: { pos 0 <ℤ denom },
}

impl<L: Ledger> Drop for Row<L> {
    fn drop(self) {
        let Row {
            numers: _,
            denom: _,
            size: _,
            marks: _,
            fractions: _,
            is_common: _,
        } = self;
    }
}

impl<L: Ledger> Row<L> {
    ghost use Rattle.std.specs.Prelude.{◌≢◌, ◌^◌, cond, IfOk, IfSome};
    ghost use Rattle.evidence.specs.Sums.{none};
    ghost use Rattle.dictionary.specs.Numbers.{HasNumber, IsOver};
    ghost use Rattle.dictionary.specs.Rows.{numbers_of, numer_at, entries_at, IsRow, IsCleared, HasRowForm, IsSpread};
    ghost use Rattle.dictionary.specs.Steps.{nonzeros};

    /// A row of so many columns without entries, with room for so many fractions.
    pub fn with_room(alloc: Global, columns: usize, room: usize) -> Result<Row<L>, AllocError>
        requires { columns ≤ 2 ^ 32 }
        ensures row { IfOk result (λ r. IsRow columns room r) }
        ensures none { IfOk result (λ r. (c : ℕ) → numbers_of r c ≡ none) }
    {
        let numers = vec![in alloc; 0i64; columns]?;
        let marks = Marks::with_size(alloc, columns)?;
        let fractions = Fractions::with_room(alloc, room)?;
        Ok(Row {
            numers,
            denom: 1,
            size: 0,
            marks,
            fractions,
            is_common: true,
        })
    }

    /// Whether there is an entry at a column.
    #[inline]
    pub fn has(&self, col: u32) -> bool
        requires { (k n : ℕ) × IsRow k n self.now × (col < k) }
        ensures { result ≡ entries_at self.now col }
    {
        self.marks.has(col)
    }

    /// The number at a column, of a row in common form: a step where there is an entry.
    #[inline(always)]
    pub fn read(&self, col: u32, steps: &mut Steps<L>) -> i64
        requires { (k n : ℕ) × IsRow k n self.now × (col < k) }
        ensures number { result ≡ slice_index_or self.now.numers.items col (pos 0) }
        ensures cost { steps.new ≡ steps.old + cond (entries_at self.now col) 1 0 }
    {
        if self.marks.has(col) {
            steps.tick();
        }
        self.numers[col as usize]
    }

    /// Writes the number at a column, of a row in common form: a step.
    #[inline(always)]
    pub fn write(&mut self, col: u32, number: i64, steps: &mut Steps<L>)
        requires row { (k n : ℕ) × IsRow k n self.old × (col + 1 < k) }
        requires common { self.old.is_common ≡ true }
        requires small { unsigned_abs number < 2 ^ 63 }
        ensures row { (k n : ℕ) → IsRow k n self.old → col + 1 < k → IsRow k n self.new }
        ensures number { numer_at self.new col ≡ number }
        ensures rest { (c : ℕ) → c ≢ col → numer_at self.new c ≡ numer_at self.old c }
        ensures marks { (c : ℕ) → c ≢ col → entries_at self.new c ≡ entries_at self.old c }
        ensures own { numbers_of self.new col ≡ lowest number (unsigned_abs self.old.denom) }
        ensures others { (c : ℕ) → c ≢ col → numbers_of self.new c ≡ numbers_of self.old c }
        ensures common { self.new.is_common ≡ true }
        ensures denom { self.new.denom ≡ self.old.denom }
        ensures cost { steps.new ≡ steps.old + 1 }
    {
        steps.tick();
        self.numers[col as usize] = number;
        let size = number.unsigned_abs();
        self.size |= size;
        self.marks.put(col, size != 0);
    }

    /// Leaves it without entries.
    pub fn clear(&mut self)
        requires { (k n : ℕ) × IsRow k n self.old }
        ensures row { (k n : ℕ) → IsRow k n self.old → IsRow k n self.new }
        ensures none { (c : ℕ) → numbers_of self.new c ≡ none }
        ensures cleared { (k n : ℕ) → IsRow k n self.old → IsCleared k n self.new }
    {
        clear_numbers(self.numers.as_mut_slice(), &self.marks);
        self.marks.clear();
        self.fractions.clear();
        self.denom = 1;
        self.size = 0;
        self.is_common = true;
    }

    /// Begins to be put in, after it was cleared: in common form over this denominator, or as fractions where there is none.
    pub fn begin(&mut self, denom: Option<i64>)
        requires row { (k n : ℕ) × IsCleared k n self.old }
        requires above { IfSome denom (λ d. pos 0 <ℤ d) }
        ensures row { (k n : ℕ) → IsCleared k n self.old → IsRow k n self.new }
        ensures none { (c : ℕ) → numbers_of self.new c ≡ none }
        ensures form { HasRowForm denom self.new }
    {
        match denom {
            Some(denom) => self.denom = denom,
            None => self.is_common = false,
        }
    }

    /// Puts an entry at a column after all others: a step.
    pub fn put(&mut self, col: u32, value: &Frac, steps: &mut Steps<L>)
        requires row { (k n : ℕ) × IsRow k n self.old × (col + 1 < k) × (nonzeros k (numbers_of self.old) < n) }
        requires after { (c : ℕ) → HasNumber (numbers_of self.old) c → c < col }
        requires nonzero { value.now.numer ≢ pos 0 }
        requires over { self.old.is_common ≡ true → IsOver (unsigned_abs self.old.denom) (ratio value.now) }
        ensures row { (k n : ℕ) → IsRow k n self.old → col + 1 < k → IsRow k n self.new }
        ensures own { numbers_of self.new col ≡ ratio value.now }
        ensures others { (c : ℕ) → c ≢ col → numbers_of self.new c ≡ numbers_of self.old c }
        ensures form { self.new.is_common ≡ self.old.is_common }
        ensures denom { self.new.denom ≡ self.old.denom }
        ensures cost { steps.new ≡ steps.old + 1 }
    {
        if self.is_common {
            self.put_number(col, value, steps);
        } else {
            self.put_fraction(col, value, steps);
        }
    }

    /// The same in common form.
    fn put_number(&mut self, col: u32, value: &Frac, steps: &mut Steps<L>)
        requires row { (k n : ℕ) × IsRow k n self.old × (col + 1 < k) }
        requires common { self.old.is_common ≡ true }
        requires over { IsOver (unsigned_abs self.old.denom) (ratio value.now) }
        ensures row { (k n : ℕ) → IsRow k n self.old → col + 1 < k → IsRow k n self.new }
        ensures own { numbers_of self.new col ≡ ratio value.now }
        ensures others { (c : ℕ) → c ≢ col → numbers_of self.new c ≡ numbers_of self.old c }
        ensures form { self.new.is_common ≡ true }
        ensures denom { self.new.denom ≡ self.old.denom }
        ensures cost { steps.new ≡ steps.old + 1 }
    {
        match number_over(value, self.denom) {
            Some(number) => self.write(col, number, steps),
            None => unreachable!(),
        }
    }

    /// The same of fractions.
    fn put_fraction(&mut self, col: u32, value: &Frac, steps: &mut Steps<L>)
        requires row { (k n : ℕ) × IsRow k n self.old × (col + 1 < k) × (nonzeros k (numbers_of self.old) < n) }
        requires after { (c : ℕ) → HasNumber (numbers_of self.old) c → c < col }
        requires nonzero { value.now.numer ≢ pos 0 }
        requires fractions { self.old.is_common ≡ false }
        ensures row { (k n : ℕ) → IsRow k n self.old → col + 1 < k → IsRow k n self.new }
        ensures own { numbers_of self.new col ≡ ratio value.now }
        ensures others { (c : ℕ) → c ≢ col → numbers_of self.new c ≡ numbers_of self.old c }
        ensures form { self.new.is_common ≡ false }
        ensures denom { self.new.denom ≡ self.old.denom }
        ensures cost { steps.new ≡ steps.old + 1 }
    {
        self.marks.mark(col);
        self.fractions.write(Item { col, value: *value }, steps);
    }

    /// The value at a column: 0 where there is no entry.
    pub fn value(&self, col: u32, steps: &mut Steps<L>) -> Frac
        requires { (k n : ℕ) × IsRow k n self.now × (col < k) }
        ensures value { ratio result ≡ numbers_of self.now col }
        ensures cost { (k n b : ℕ) → IsRow k n self.now → nonzeros k (numbers_of self.now) < 2 ^ b → steps.new ≤ steps.old + b }
        ensures counted { steps.old ≤ steps.new }
    {
        if self.is_common {
            return quotient(self.read(col, steps), self.denom);
        }
        number_at(&self.fractions, col, steps)
    }

    /// The sign of the value at a column: below 0, 0, or above it.
    pub fn sign(&self, col: u32, steps: &mut Steps<L>) -> i64
        requires { (k n : ℕ) × IsRow k n self.now × (col < k) }
        ensures above { int_lt (pos 0) result ≡ int_lt (pos 0) (numbers_of self.now col).num }
        ensures below { int_lt result (pos 0) ≡ int_lt (numbers_of self.now col).num (pos 0) }
        ensures cost { (k n b : ℕ) → IsRow k n self.now → nonzeros k (numbers_of self.now) < 2 ^ b → steps.new ≤ steps.old + b }
        ensures counted { steps.old ≤ steps.new }
    {
        if self.is_common {
            return self.read(col, steps);
        }
        let value = number_at(&self.fractions, col, steps);
        sign_of(value.numer)
    }

    /// Copies the values at the columns that have one.
    pub fn spread(&self, values: &mut [Frac], steps: &mut Steps<L>)
        requires { (n : ℕ) × IsRow (length values.old) n self.now }
        ensures spread { IsSpread self.now (ratios values.new) }
        ensures cost { steps.new ≤ steps.old + nonzeros (length values.old) (numbers_of self.now) }
        ensures counted { steps.old ≤ steps.new }
    {
        if self.is_common {
            self.spread_numbers(values, steps);
        } else {
            spread_fractions(&self.fractions, values, steps);
        }
    }

    /// The same in common form.
    fn spread_numbers(&self, values: &mut [Frac], steps: &mut Steps<L>)
        requires row { (n : ℕ) × IsRow (length values.old) n self.now }
        requires common { self.now.is_common ≡ true }
        ensures spread { IsSpread self.now (ratios values.new) }
        ensures cost { steps.new ≤ steps.old + nonzeros (length values.old) (numbers_of self.now) }
        ensures counted { steps.old ≤ steps.new }
    {
        let mut walk = Walk::new();
        let mut from = 0;
        while let Some(c) = self.marks.next_by(&mut walk, from) {
            values[c as usize] = quotient(self.read(c, steps), self.denom);
            from = c + 1;
        }
    }
}

/// Copies fractions to their columns.
fn spread_fractions<L: Ledger>(row: &Fractions<L>, values: &mut [Frac], steps: &mut Steps<L>)
    requires row { IsSparseRow (entries_of row.now) }
    requires inside { (c : ℕ) → HasColumn (entries_of row.now) c → c < length values.old }
    ensures spread { (c : ℕ) → HasColumn (entries_of row.now) c → value_at (ratios values.new) c ≡ number_in (entries_of row.now) c }
    ensures cost { steps.new ≡ steps.old + length (entries_of row.now) }
{
    for i in 0..row.len() {
        let x = row.read(i, steps);
        values[x.col as usize] = x.value;
    }
}

/// Writes 0 at the columns that are marked.
fn clear_numbers(numers: &mut [i64], marks: &Marks)
    requires { (c : ℕ) → is_marked marks.now c ≡ true → (c < length numers.old) × (c + 1 < size_of marks.now) }
    ensures zeros { (c : ℕ) → is_marked marks.now c ≡ true → slice_index_or numers.new c (pos 0) ≡ pos 0 }
    ensures others { (c : ℕ) → is_marked marks.now c ≡ false → slice_index_or numers.new c (pos 0) ≡ slice_index_or numers.old c (pos 0) }
{
    let mut walk = Walk::new();
    let mut from = 0;
    while let Some(col) = marks.next_by(&mut walk, from) {
        numers[col as usize] = 0;
        from = col + 1;
    }
}

/// The fraction of a number over a denominator above 0, both of 64 bits.
pub fn quotient(numer: i64, denom: i64) -> Frac
    requires { pos 0 <ℤ denom }
    ensures { ratio result ≡ lowest numer (unsigned_abs denom) }
{
    reduced(numer as i128, denom as i128)
}

/// The fraction of a number over a denominator above 0.
pub fn reduced(numer: i128, denom: i128) -> Frac
    requires above { pos 0 <ℤ denom }
    requires fits { unsigned_abs numer ≤ most }
    ensures { ratio result ≡ lowest numer (unsigned_abs denom) }
{
    match Frac::of(numer, denom) {
        Ok(x) => x,
        // A denominator above 0 and a numerator within the width are never refused.
        Err(_) => zero(),
    }
}

/// Below 0, 0 or above it, as the number is.
fn sign_of(n: i128) -> i64
    ensures above { int_lt (pos 0) result ≡ int_lt (pos 0) n }
    ensures below { int_lt result (pos 0) ≡ int_lt n (pos 0) }
{
    if n > 0 {
        1
    } else if n < 0 {
        -1
    } else {
        0
    }
}
