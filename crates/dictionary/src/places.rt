//! The values of columns while they aren't basic.
ghost use Rattle.std.specs.Prelude.{◌≡◌, ℕ, ◌<◌, ◌≤◌, ◌≢◌, length, IfOk};
ghost use Rattle.fraction.specs.Frac.{ratio, ratios};
ghost use Rattle.evidence.specs.Sums.{none};
ghost use Rattle.evidence.specs.Point.{value_at};
ghost use Rattle.marks.specs.Marks.{is_marked, size_of};
ghost use Rattle.dictionary.specs.Numbers.{has_number};

use fraction::Frac;
use marks::Marks;
use std::alloc::{AllocError, Global};

/// For each column of the variables and the rows the value that it has while it isn't basic. Those whose value isn't 0 are marked.
#[derive(Drop)]
pub struct Places {
    values: Vec<Frac>,
    marks: Marks,
    ghost few: { length values.items ≤ size_of marks },
    ghost marked: { (c : ℕ) → is_marked marks c ≡ has_number (value_at (ratios values.items)) c },
}

impl Places {
    ghost use Rattle.dictionary.specs.Dict.{count_of, place_values};

    /// The value 0 for each of so many columns.
    pub fn with_size(alloc: Global, count: usize) -> Result<Places, AllocError>
        ensures count { IfOk result (λ p. count_of p ≡ count) }
        ensures zeros { IfOk result (λ p. (c : ℕ) → c < count → place_values p c ≡ none) }
    {
        let values = vec![in alloc; Frac::ZERO; count]?;
        let marks = Marks::with_size(alloc, count)?;
        Ok(Places { values, marks })
    }

    /// Gives a column a value.
    pub fn set(&mut self, column: u32, value: Frac)
        requires { column < count_of self.old }
        ensures count { count_of self.new ≡ count_of self.old }
        ensures own { place_values self.new column ≡ ratio value }
        ensures others { (c : ℕ) → c ≢ column → place_values self.new c ≡ place_values self.old c }
    {
        self.values[column as usize] = value;
        let size = value.numer.unsigned_abs();
        self.marks.put(column, size != 0);
    }

    /// The value of a column.
    pub fn at(&self, column: u32) -> Frac
        requires { column < count_of self.now }
        ensures { ratio result ≡ place_values self.now column }
    {
        *self.value(column)
    }

    /// The value of a column.
    pub fn value(&self, column: u32) -> &Frac
        requires { column < count_of self.now }
        ensures { ratio result.now ≡ place_values self.now column }
    {
        &self.values[column as usize]
    }

    /// The columns whose value isn't 0.
    pub fn marks(&self) -> &Marks
        ensures { (c : ℕ) → is_marked result.now c ≡ has_number (place_values self.now) c }
    {
        &self.marks
    }

    /// How many columns have a value.
    pub fn count(&self) -> usize
        ensures { result ≡ count_of self.now }
    {
        self.values.len()
    }
}
