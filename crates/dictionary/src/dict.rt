//! A dictionary in memory.
ghost use Rattle.std.specs.Prelude.{◌≡◌, ℕ, ◌+◌, ◌<◌, ◌≤◌, ◌^◌, pos, true, false, length, slice_index, IfOk};
ghost use Rattle.marks.specs.Marks.{is_marked, size_of};
ghost use Rattle.dictionary.specs.Rows.{numbers_of, IsRow, IsRow-prop, AreRows, AreRows-prop};
ghost use Rattle.dictionary.specs.Basis.{ArePlaces, AreMarked};

use crate::basis::{exchange, make_numbers, number};
use crate::loading::{load_rows, set_entries};
use crate::pivoting::pivot_rows;
use crate::places::Places;
use crate::row::Row;
use crate::scratch::Scratch;
use crate::steps::Steps;
use crate::value::sum_row;
use fraction::{Entry, Frac, Wide};
use marks::Marks;
use std::alloc::{AllocError, Global};
use std::sync::ledger::Ledger;

/// The dictionary of a basis: each basic column as a sum over the others (Chvátal, Linear Programming, 1983, chapter 2).
///
/// Its columns are `width` variables, `height` rows and the goal, whose column is `width + height` and always basic. Whether
/// it is loaded is asked by contracts alone. The entries of its rows are read and written on the ledger `L` alone, so each
/// call that does takes that ledger's [`Steps`].
pub struct Dict<L: Ledger> {
    width: u32,
    height: u32,
    rows: Vec<Row<L>>,
    own: Row<L>,
    scratch: Scratch,
    columns: Vec<u32>,
    places: Vec<u32>,
    basic: Marks,
    is_loaded: bool,
    ghost count: { length rows.items ≡ height + 1 },
    ghost rows_are: { AreRows (width + (height + 1)) width rows.items } by { AreRows-prop (width + (height + 1)) width rows.items },
    ghost own_is: { IsRow (width + (height + 1)) width own } by { IsRow-prop (width + (height + 1)) width own },
    ghost own_empty: { is_loaded ≡ true → (c : ℕ) → (numbers_of own c).num ≡ pos 0 },
    ghost scratch_count: { length scratch.values.items ≡ width + (height + 1) },
    ghost columns_count: { length columns.items ≡ width + (height + 1) },
    ghost places_count: { length places.items ≡ width + (height + 1) },
    ghost basis: { ArePlaces (width + (height + 1)) (slice_index columns.items) (slice_index places.items) },
    ghost few: { width + (height + 1) ≤ 2 ^ 32 },
    ghost goal: { slice_index columns.items (width + height) ≡ width + height },
    ghost marks_count: { width + height ≤ size_of basic },
    ghost marks_are: { is_loaded ≡ true → AreMarked (width + height) width (slice_index places.items) basic },
}

impl<L: Ledger> Drop for Dict<L> {
    // By hand, as for rows and scratches, so that letting one go is a call. What is derived would be taken apart wherever one is let go.
    fn drop(self) {
        let Dict {
            width: _,
            height: _,
            rows: _,
            own: _,
            scratch: _,
            columns: _,
            places: _,
            basic: _,
            is_loaded: _,
        } = self;
    }
}

/// Marks the columns of the rows alone.
fn mark_rows(basic: &mut Marks, width: u32, height: u32)
    requires inside { width + height ≤ size_of basic.old }
    requires few { width + height < 2 ^ 32 }
    ensures size { size_of basic.new ≡ size_of basic.old }
    ensures variables { (c : ℕ) → c < width → is_marked basic.new c ≡ false }
    ensures rows { (c : ℕ) → width ≤ c → c < width + height → is_marked basic.new c ≡ true }
    ensures past { (c : ℕ) → width + height ≤ c → is_marked basic.new c ≡ false }
{
    basic.clear();
    for r in 0..height {
        basic.mark(width + r);
    }
}

fn make_rows<L: Ledger>(
    alloc: Global,
    columns: usize,
    width: usize,
    count: usize,
) -> Result<Vec<Row<L>>, AllocError>
    requires { columns ≤ 2 ^ 32 }
    ensures count { IfOk result (λ v. length v.items ≡ count) }
    ensures rows { IfOk result (λ v. AreRows columns width v.items) }
{
    let mut rows = Vec::with_capacity(alloc, count)?;
    for _r in 0..count {
        rows.push(Row::with_room(alloc, columns, width)?)?;
    }
    Ok(rows)
}

impl<L: Ledger> Dict<L> {
    ghost use Rattle.std.specs.Prelude.{◌≢◌, ◌-◌, OnErr, IfSome, MatchOption, int_lt};
    ghost use Rattle.std.specs.List.{All};
    ghost use Rattle.rational.specs.Ratio.{IsSame};
    ghost use Rattle.fraction.specs.declared.ends.Entry as Of;
    ghost use Rattle.fraction.specs.Frac.{ratio};
    ghost use Rattle.instance.specs.Parts.{IsAscending, IsInside};
    ghost use Rattle.bases.specs.Dictionary.{Entries, Values, value_by};
    ghost use Rattle.bases.specs.Program.{is_fresh};
    ghost use Rattle.bases.specs.Pivot.{exchanged, IsPivoted, PivotFits, ValueFits};
    ghost use Rattle.marks.specs.Words.{IsFirst, HasNone};
    ghost use Rattle.dictionary.specs.ProgramRows.{program_rows, with_entries};
    ghost use Rattle.dictionary.specs.Rows.{has_number};
    ghost use Rattle.dictionary.specs.Steps.{nonzeros, pivot_steps};
    ghost use Rattle.dictionary.specs.Dict.{width_of, height_of, IsJustLoaded, columns_of, column_standing, place_of_column, basic_of, entry_of, IsLoaded, Holds, IsBasic, IsNonbasic, HaveOneSize, count_of, Rest};

    /// Room for a dictionary of so many variables and rows, which isn't loaded: for each row, the goal and one row more a number of
    /// 64 bits for each column, which is written, and `width` fractions, which are only reserved. More columns than there are
    /// numbers of 32 bits find none.
    pub fn with_size(alloc: Global, width: u32, height: u32) -> Result<Dict<L>, AllocError>
        ensures width { IfOk result (λ d. width_of d ≡ width) }
        ensures height { IfOk result (λ d. height_of d ≡ height) }
        ensures few { IfOk result (λ _. width + (height + 1) ≤ 2 ^ 32) }
    {
        let room = width as usize;
        let count = height as usize + 1;
        if room + count > 1 << 32 {
            return Err(AllocError);
        }
        let rows = make_rows(alloc, room + count, room, count)?;
        let own = Row::with_room(alloc, room + count, room)?;
        let scratch = Scratch::with_size(alloc, room + count)?;
        let basic = Marks::with_size(alloc, room + count)?;
        let columns = make_numbers(alloc, room + count)?;
        let places = make_numbers(alloc, room + count)?;
        Ok(Dict {
            width,
            height,
            rows,
            own,
            scratch,
            columns,
            places,
            basic,
            is_loaded: false,
        })
    }

    /// Makes the dictionary in which the rows of these entries are basic. The goal's row is the costs, their negatives or
    /// 0, by the sign of `factor`. Each entry and each cost is written at most once.
    pub fn load(&mut self, matrix: &[Entry], costs: &[Frac], factor: i8, steps: &mut Steps<L>)
        requires costs { length costs.now ≡ width_of self.old }
        requires ascending { IsAscending matrix.now }
        requires inside { All (IsInside (height_of self.old) (width_of self.old)) matrix.now }
        ensures size { HaveOneSize self.old self.new }
        ensures first { IsJustLoaded (program_rows matrix.now costs.now factor (height_of self.old)) self.new }
        ensures holds { Holds (program_rows matrix.now costs.now factor (height_of self.old)) self.new }
        ensures basis { (c : ℕ) → c < columns_of self.old → basic_of self.new c ≡ is_fresh (width_of self.old) c }
        ensures cost { steps.new ≤ steps.old + (length matrix.now + width_of self.old) }
        ensures counted { steps.old ≤ steps.new }
    {
        let rows = self.rows.as_mut_slice();
        let columns = self.columns.as_mut_slice();
        let places = self.places.as_mut_slice();
        self.own.clear();
        load_rows(rows, matrix, costs, factor, &mut self.scratch, steps);
        number(columns);
        number(places);
        mark_rows(&mut self.basic, self.width, self.height);
        self.is_loaded = true;
    }

    /// Gives a row these entries in place of its own, where there was no pivot since the dictionary was loaded. Each is written at most once.
    pub fn set_row(&mut self, row: u32, entries: &[Entry], steps: &mut Steps<L>)
        requires first { (A : Entries) × IsJustLoaded A self.old }
        requires row { row < height_of self.old }
        requires ascending { IsAscending entries.now }
        requires inside { All (IsInside (height_of self.old) (width_of self.old)) entries.now }
        requires own { All (λ (e : Of.Entry). e.row ≡ row) entries.now }
        ensures size { HaveOneSize self.old self.new }
        ensures first { (A : Entries) → IsJustLoaded A self.old → IsJustLoaded (with_entries A row entries.now) self.new }
        ensures cost { steps.new ≤ steps.old + length entries.now }
        ensures counted { steps.old ≤ steps.new }
    {
        let rows = self.rows.as_mut_slice();
        set_entries(rows, row as usize, entries, &mut self.scratch, steps);
    }

    /// The row of a basic column.
    fn row_of(&self, basic: u32) -> usize
        requires { basic < length self.now.places.items }
        ensures { result ≡ slice_index self.now.places.items basic - self.now.width }
    {
        let place = self.places[basic as usize] as usize;
        place.saturating_sub(self.width as usize)
    }

    /// Exchanges a basic column for one that isn't, whose entry isn't 0.
    ///
    /// [`Wide`] exactly where one of the pivot's quotients, products and sums doesn't fit; then the dictionary isn't loaded
    /// until it is loaded anew.
    pub fn pivot(&mut self, basic: u32, nonbasic: u32, steps: &mut Steps<L>) -> Result<(), Wide>
        requires loaded { IsLoaded self.old }
        requires basic { IsBasic self.old basic }
        requires nonbasic { IsNonbasic self.old nonbasic }
        requires nonzero { (entry_of self.old basic nonbasic).num ≢ pos 0 }
        ensures size { HaveOneSize self.old self.new }
        ensures holds { (A : Entries) → Holds A self.old → IfOk result (λ _. Holds A self.new) }
        ensures basis { IfOk result (λ _. (c : ℕ) → basic_of self.new c ≡ exchanged (basic_of self.old) basic nonbasic c) }
        ensures entries { IfOk result (λ _. IsPivoted (entry_of self.old) basic nonbasic (entry_of self.new)) }
        ensures fits { IfOk result (λ _. PivotFits (entry_of self.old) basic nonbasic) }
        ensures wide { OnErr result (PivotFits (entry_of self.old) basic nonbasic → ⊥) }
        ensures unloaded { OnErr result (IsLoaded self.new → ⊥) }
        ensures cost { (b : ℕ) → width_of self.old < 2 ^ b → steps.new ≤ steps.old + pivot_steps (columns_of self.old) (height_of self.old + 1) (entry_of self.old) basic nonbasic b }
        ensures counted { steps.old ≤ steps.new }
    {
        self.is_loaded = false;
        let p = self.row_of(basic);
        let rows = self.rows.as_mut_slice();
        pivot_rows(
            rows,
            &mut self.own,
            &mut self.scratch,
            p,
            basic,
            nonbasic,
            steps,
        )?;
        let columns = self.columns.as_mut_slice();
        let places = self.places.as_mut_slice();
        exchange(columns, places, basic, nonbasic);
        self.basic.unmark(basic);
        self.basic.mark(nonbasic);
        self.is_loaded = true;
        Ok(())
    }

    /// The value of a basic column: the sum, from 0, over the columns that aren't basic, in ascending order, of its entry
    /// times their value.
    ///
    /// [`Wide`] exactly where one of the products or sums doesn't fit; terms with a factor 0 are left out.
    pub fn value_of(&self, basic: u32, places: &Places, steps: &mut Steps<L>) -> Result<Frac, Wide>
        requires loaded { IsLoaded self.now }
        requires basic { IsBasic self.now basic }
        requires places { width_of self.now + height_of self.now ≤ count_of places.now }
        ensures ok { (w : Values) → Rest self.now places.now w → IfOk result (λ r. IsSame (ratio r) (value_by (columns_of self.now) (entry_of self.now basic) w)) }
        ensures fits { (w : Values) → Rest self.now places.now w → IfOk result (λ _. ValueFits (columns_of self.now) (entry_of self.now basic) w) }
        ensures wide { (w : Values) → Rest self.now places.now w → OnErr result (ValueFits (columns_of self.now) (entry_of self.now basic) w → ⊥) }
        ensures cost { steps.new ≤ steps.old + nonzeros (columns_of self.now) (entry_of self.now basic) }
        ensures counted { steps.old ≤ steps.new }
    {
        let r = self.row_of(basic);
        sum_row(&self.rows[r], places, steps)
    }

    /// The entry of a column that isn't basic in a basic one's equation: a search, of as many steps at most as `width` has
    /// binary digits.
    pub fn entry(&self, basic: u32, nonbasic: u32, steps: &mut Steps<L>) -> Frac
        requires loaded { IsLoaded self.now }
        requires basic { IsBasic self.now basic }
        requires nonbasic { IsNonbasic self.now nonbasic }
        ensures entry { ratio result ≡ entry_of self.now basic nonbasic }
        ensures cost { (b : ℕ) → width_of self.now < 2 ^ b → steps.new ≤ steps.old + b }
        ensures counted { steps.old ≤ steps.new }
    {
        let r = self.row_of(basic);
        self.rows[r].value(nonbasic, steps)
    }

    /// The goal's entry at a column that isn't basic, by a search too.
    pub fn cost(&self, nonbasic: u32, steps: &mut Steps<L>) -> Frac
        requires loaded { IsLoaded self.now }
        requires nonbasic { IsNonbasic self.now nonbasic }
        ensures entry { ratio result ≡ entry_of self.now (width_of self.now + height_of self.now) nonbasic }
        ensures cost { (b : ℕ) → width_of self.now < 2 ^ b → steps.new ≤ steps.old + b }
        ensures counted { steps.old ≤ steps.new }
    {
        self.rows[self.height as usize].value(nonbasic, steps)
    }

    /// The entry of a column that isn't basic in the equation of a basic one, the goal's too: at hand in a row in common form, and
    /// in one of fractions by a search.
    pub fn entry_of_row(&self, row: u32, nonbasic: u32, steps: &mut Steps<L>) -> Frac
        requires loaded { IsLoaded self.now }
        requires row { row < columns_of self.now }
        requires basic { basic_of self.now row ≡ true }
        requires nonbasic { IsNonbasic self.now nonbasic }
        ensures entry { ratio result ≡ entry_of self.now row nonbasic }
        ensures cost { (b : ℕ) → width_of self.now < 2 ^ b → steps.new ≤ steps.old + b }
        ensures counted { steps.old ≤ steps.new }
    {
        let r = self.row_of(row);
        self.rows[r].value(nonbasic, steps)
    }

    /// Whether a column that isn't basic has an entry in the equation of a basic one, the goal's too.
    #[inline]
    pub fn has_entry(&self, row: u32, nonbasic: u32) -> bool
        requires loaded { IsLoaded self.now }
        requires row { row < columns_of self.now }
        requires basic { basic_of self.now row ≡ true }
        requires nonbasic { IsNonbasic self.now nonbasic }
        ensures { result ≡ has_number (entry_of self.now row) nonbasic }
    {
        let r = self.row_of(row);
        self.rows[r].has(nonbasic)
    }

    /// The first column from this one on that has an entry in the equation of a basic one, the goal's too. It isn't basic.
    #[inline]
    pub fn next_entry(&self, row: u32, from: u32) -> Option<u32>
        requires loaded { IsLoaded self.now }
        requires row { row < columns_of self.now }
        requires basic { basic_of self.now row ≡ true }
        ensures first { MatchOption result (HasNone (has_number (entry_of self.now row)) from) (IsFirst (has_number (entry_of self.now row)) from) }
        ensures nonbasic { IfSome result (λ c. IsNonbasic self.now c) }
    {
        let r = self.row_of(row);
        self.rows[r].marks.next(from)
    }

    /// The sign of an entry: a number below 0, 0, or one above it.
    #[inline]
    pub fn entry_sign(&self, row: u32, nonbasic: u32, steps: &mut Steps<L>) -> i64
        requires loaded { IsLoaded self.now }
        requires row { row < columns_of self.now }
        requires basic { basic_of self.now row ≡ true }
        requires nonbasic { IsNonbasic self.now nonbasic }
        ensures above { int_lt (pos 0) result ≡ int_lt (pos 0) (entry_of self.now row nonbasic).num }
        ensures below { int_lt result (pos 0) ≡ int_lt (entry_of self.now row nonbasic).num (pos 0) }
        ensures cost { (b : ℕ) → width_of self.now < 2 ^ b → steps.new ≤ steps.old + b }
        ensures counted { steps.old ≤ steps.new }
    {
        let r = self.row_of(row);
        self.rows[r].sign(nonbasic, steps)
    }

    /// The basic columns of variables and rows as a set, which goes over them in ascending order.
    #[inline]
    pub fn basic_columns(&self) -> &Marks
        requires loaded { IsLoaded self.now }
        ensures inside { (c : ℕ) → is_marked result.now c ≡ true → c < width_of self.now + height_of self.now }
        ensures basic { (c : ℕ) → c < width_of self.now + height_of self.now → is_marked result.now c ≡ basic_of self.now c }
    {
        &self.basic
    }

    /// The basic columns of variables and rows in some order, each once: `i` is below `height`.
    pub fn basic_at(&self, i: u32) -> u32
        requires { i < height_of self.now }
        ensures column { result ≡ column_standing self.now (width_of self.now + i) }
        ensures basic { IsBasic self.now result }
    {
        self.columns[self.width as usize + i as usize]
    }

    /// The columns that aren't basic in some order, each once: `j` is below `width`.
    pub fn nonbasic_at(&self, j: u32) -> u32
        requires { j < width_of self.now }
        ensures column { result ≡ column_standing self.now j }
        ensures nonbasic { IsNonbasic self.now result }
    {
        self.columns[j as usize]
    }
}
