//! Numbers beside rows.
ghost use Rattle.std.specs.Prelude.{◌≡◌, ℕ, ◌+◌, ◌<◌, length, IfOk};
ghost use Rattle.fraction.specs.Frac.{ratios};
ghost use Rattle.evidence.specs.Point.{value_at};
ghost use Rattle.marks.specs.Marks.{size_of};
ghost use Rattle.dictionary.specs.Numbers.{words_over};
ghost use Rattle.dictionary.specs.Steps.{nonzeros};

use fraction::Frac;
use marks::Marks;
use std::alloc::{AllocError, Global};

/// Numbers of columns, of which none is an entry of a table's row: sums, and values where a column is marked.
pub struct Scratch {
    pub sums: Vec<i128>,
    pub values: Vec<Frac>,
    pub others: Vec<Frac>,
    pub found: Marks,
    pub ghost same: { length others.items ≡ length values.items },
    pub ghost as_many: { length sums.items ≡ length values.items },
    pub ghost marks: { size_of found ≡ words_over (length values.items) },
}

impl Drop for Scratch {
    fn drop(self) {
        let Scratch {
            sums: _,
            values: _,
            others: _,
            found: _,
        } = self;
    }
}

impl Scratch {
    ghost use Rattle.std.specs.Prelude.{◌≢◌};
    ghost use Rattle.fraction.specs.Frac.{ratio};
    ghost use Rattle.evidence.specs.Sums.{none};
    ghost use Rattle.dictionary.specs.Scratch.{found_at, AreFound};

    /// Numbers of so many columns.
    pub fn with_size(alloc: Global, columns: usize) -> Result<Scratch, AllocError>
        ensures { IfOk result (λ s. length s.values.items ≡ columns) }
    {
        let sums = vec![in alloc; 0i128; columns]?;
        let values = vec![in alloc; Frac::ZERO; columns]?;
        let others = vec![in alloc; Frac::ZERO; columns]?;
        let found = Marks::with_size(alloc, columns)?;
        Ok(Scratch {
            sums,
            values,
            others,
            found,
        })
    }

    /// Gives a column a value, and marks it where that isn't 0.
    pub fn put(&mut self, col: u32, value: Frac)
        requires { col + 1 < length self.old.values.items }
        ensures count { length self.new.values.items ≡ length self.old.values.items }
        ensures own { found_at self.new col ≡ ratio value }
        ensures others { (c : ℕ) → c ≢ col → found_at self.new c ≡ found_at self.old c }
        ensures found { AreFound self.old → AreFound self.new }
        ensures sums { self.new.sums.items ≡ self.old.sums.items }
        ensures rest { self.new.others.items ≡ self.old.others.items }
        ensures values { (c : ℕ) → c ≢ col → value_at (ratios self.new.values.items) c ≡ value_at (ratios self.old.values.items) c }
    {
        self.values[col as usize] = value;
        let size = value.numer.unsigned_abs();
        self.found.put(col, size != 0);
    }

    /// Leaves all columns unmarked.
    pub fn clear(&mut self)
        ensures count { length self.new.values.items ≡ length self.old.values.items }
        ensures none { (c : ℕ) → found_at self.new c ≡ none }
        ensures found { AreFound self.new }
        ensures sums { self.new.sums.items ≡ self.old.sums.items }
        ensures rest { self.new.others.items ≡ self.old.others.items }
        ensures values { self.new.values.items ≡ self.old.values.items }
    {
        self.found.clear();
    }
}
