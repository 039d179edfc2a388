//! Rows of numbers over one denominator, which another one comes into.
ghost use Rattle.std.specs.Prelude.{◌≡◌, ◌≢◌, ℕ, ◌+◌, ◌*◌, ◌/◌, ◌^◌, ◌||◌, ◌<◌, ◌≤◌, pos, ◌+ℤ◌, ◌*ℤ◌, ◌<ℤ◌, true, false, cond, length, slice_index_or, unsigned_abs, IfSome};
ghost use Rattle.rational.specs.Ratio.{IsSame};
ghost use Rattle.rational.specs.Width.{most};
ghost use Rattle.evidence.specs.Sums.{none};
ghost use Rattle.marks.specs.Words.{is_set};
ghost use Rattle.marks.specs.Marks.{size_of};
ghost use Rattle.common_rows.specs.Row.{over};
ghost use Rattle.dictionary.specs.Lowest.{lowest};
ghost use Rattle.dictionary.specs.Numbers.{ArePartsOf, HasNumber};
ghost use Rattle.dictionary.specs.Scratch.{found_at, AreFound};
ghost use Rattle.dictionary.specs.Rows.{numbers_of, numer_at, entries_at, either_at, changes, AreSums, AreSumsLeft, IsRow, IsReplacedBy, ReplacementFits, NonzerosFit, HasRoomFor};
ghost use Rattle.dictionary.specs.Steps.{nonzeros};
ghost use Rattle.dictionary.specs.Words.{AreChanged, steps_at, count_word};

use crate::row::{Row, reduced};
use crate::scratch::Scratch;
use crate::settling::settle;
use crate::steps::Steps;
use common_rows::Divisor;
use fraction::Frac;
use marks::{Marks, Walk, has_bit, keep, take_first};
use std::sync::ledger::Ledger;

/// How a row changes: its numbers times `scale`, and the other one's times `factor`, over its denominator times `scale`.
#[derive(Clone, Copy)]
struct Parts {
    scale: i64,
    factor: i64,
    ghost rises: { pos 0 <ℤ scale },
}

/// The parts of a change: the number `numer` of a row is to be replaced by another row over the denominator `by`.
fn parts_of(numer: i64, by: i64) -> Parts
    requires above { pos 0 <ℤ by }
    requires small { unsigned_abs numer < 2 ^ 63 }
    ensures { ArePartsOf numer (unsigned_abs by) result.scale result.factor }
{
    match Frac::of(numer as i128, by as i128) {
        Ok(x) => Parts {
            scale: x.denom as i64,
            factor: x.numer as i64,
        },
        Err(_) => unreachable!(),
    }
}

/// A sum of both rows' numbers, which stays small.
#[inline(always)]
fn small_sum(x: i64, y: i64, parts: Parts) -> i64
    requires { unsigned_abs x * unsigned_abs parts.scale + unsigned_abs y * unsigned_abs parts.factor < 2 ^ 60 }
    ensures value { result ≡ x *ℤ parts.scale +ℤ y *ℤ parts.factor }
    ensures small { unsigned_abs result < 2 ^ 63 }
{
    x * parts.scale + y * parts.factor
}

/// A sum of both rows' numbers.
#[inline(always)]
fn wide_sum(x: i64, y: i64, parts: Parts) -> i128
    requires x { unsigned_abs x < 2 ^ 63 }
    requires y { unsigned_abs y < 2 ^ 63 }
    ensures value { result ≡ x *ℤ parts.scale +ℤ y *ℤ parts.factor }
    ensures size { unsigned_abs result ≤ most }
{
    x as i128 * parts.scale as i128 + y as i128 * parts.factor as i128
}

/// Whether all numbers are only added to.
fn only_adds(parts: Parts) -> bool
    ensures yes { result ≡ true → parts.scale ≡ pos 1 }
    ensures no { result ≡ false → parts.scale ≢ pos 1 }
{
    parts.scale == 1
}

/// Which columns of a word change: where the other row has an entry, or, unless numbers are only added to, this one.
#[inline(always)]
fn changing(own: u64, other: u64, adds: bool) -> u64
    ensures { (i : ℕ) → is_set result i ≡ cond adds (is_set other i) (is_set own i || is_set other i) }
{
    if adds { other } else { own | other }
}

/// The columns of a word from the first on: at which of them the row has an entry, at which the other one, and which change.
#[derive(Clone, Copy)]
struct Word {
    first: usize,
    own: u64,
    other: u64,
    columns: u64,
}

/// At which columns of a word a changed row has an entry, and the size of its numbers.
#[derive(Clone, Copy)]
struct Changed {
    entries: u64,
    size: u64,
}

/// The number at a column: a step where there is an entry.
#[inline(always)]
fn read<L: Ledger>(numers: &[i64], col: usize, is_entry: bool, steps: &mut Steps<L>) -> i64
    requires { col < length numers.now }
    ensures number { result ≡ slice_index_or numers.now col (pos 0) }
    ensures cost { steps.new ≡ steps.old + cond is_entry 1 0 }
{
    if is_entry {
        steps.tick();
    }
    numers[col]
}

/// Changes the numbers of a word's columns, where none becomes great.
#[inline(always)]
fn change_word<L: Ledger>(
    numers: &mut [i64],
    by: &[i64],
    word: Word,
    parts: Parts,
    size: u64,
    steps: &mut Steps<L>,
) -> Changed
    requires inside { (i : ℕ) → i < 64 → is_set word.columns i ≡ true → (word.first + i < length numers.old) × (word.first + i < length by.now) }
    requires small { (i : ℕ) → i < 64 → is_set word.columns i ≡ true → unsigned_abs (slice_index_or numers.old (word.first + i) (pos 0)) * unsigned_abs parts.scale + unsigned_abs (slice_index_or by.now (word.first + i) (pos 0)) * unsigned_abs parts.factor < 2 ^ 60 }
    requires size { size < 2 ^ 63 }
    ensures changed { AreChanged word.first word.own word.columns (is_set word.columns) parts.scale parts.factor numers.old by.now numers.new size result.entries result.size }
    ensures cost { steps.new ≡ steps.old + count_word (steps_at 1 word.own word.other (is_set word.columns)) }
{
    let mut left = word.columns;
    let mut entries = word.own | word.columns;
    let mut size = size;
    while left != 0 {
        let i = take_first(&mut left);
        let col = word.first + i as usize;
        let x = read(numers, col, has_bit(word.own, i), steps);
        let y = read(by, col, has_bit(word.other, i), steps);
        let number = small_sum(x, y, parts);
        steps.tick();
        numers[col] = number;
        let more = number.unsigned_abs();
        size |= more;
        entries = keep(entries, i, more != 0);
    }
    Changed { entries, size }
}

/// Changes the numbers of word `w` of a row's columns, where none becomes great.
#[inline(always)]
fn change_columns<L: Ledger>(
    row: &mut Row<L>,
    by: &Row<L>,
    w: usize,
    parts: Parts,
    steps: &mut Steps<L>,
)
    requires row { (k n : ℕ) × IsRow k n row.old × IsRow k n by.now }
    requires common { row.old.is_common ≡ true }
    requires inside { 64 * w < size_of by.now.marks }
    requires small { (i : ℕ) → unsigned_abs (numer_at row.old (64 * w + i)) * unsigned_abs parts.scale + unsigned_abs (numer_at by.now (64 * w + i)) * unsigned_abs parts.factor < 2 ^ 60 }
    ensures row { (k n : ℕ) → IsRow k n row.old → IsRow k n row.new }
    ensures common { row.new.is_common ≡ true }
    ensures denom { row.new.denom ≡ row.old.denom }
    ensures changed { (i : ℕ) → i < 64 → numer_at row.new (64 * w + i) ≡ numer_at row.old (64 * w + i) *ℤ parts.scale +ℤ numer_at by.now (64 * w + i) *ℤ parts.factor }
    ensures others { (c : ℕ) → c / 64 ≢ w → numer_at row.new c ≡ numer_at row.old c }
    ensures cost { steps.new ≤ steps.old + 2 * count_word (λ i. cond (entries_at row.old (64 * w + i)) 1 0 + cond (entries_at by.now (64 * w + i)) 1 0) }
    ensures counted { steps.old ≤ steps.new }
{
    let own = row.marks.word(w);
    let other = by.marks.word(w);
    let word = Word {
        first: 64 * w,
        own,
        other,
        columns: changing(own, other, only_adds(parts)),
    };
    let size = row.size;
    let changed = change_word(
        row.numers.as_mut_slice(),
        by.numers.as_slice(),
        word,
        parts,
        size,
        steps,
    );
    row.marks.set_word(w, changed.entries);
    row.size = changed.size;
}

/// Changes all numbers, where none becomes great.
fn change_numbers<L: Ledger>(row: &mut Row<L>, by: &Row<L>, parts: Parts, steps: &mut Steps<L>)
    requires row { (k n : ℕ) × IsRow k n row.old × IsRow k n by.now }
    requires common { (row.old.is_common ≡ true) × (by.now.is_common ≡ true) }
    requires small { row.old.size * unsigned_abs parts.scale + by.now.size * unsigned_abs parts.factor < 2 ^ 60 }
    ensures row { (k n : ℕ) → IsRow k n row.old → IsRow k n row.new }
    ensures common { row.new.is_common ≡ true }
    ensures denom { row.new.denom ≡ row.old.denom }
    ensures changed { (c : ℕ) → numer_at row.new c ≡ numer_at row.old c *ℤ parts.scale +ℤ numer_at by.now c *ℤ parts.factor }
    ensures cost { (k n : ℕ) → IsRow k n row.old → IsRow k n by.now → steps.new ≤ steps.old + 2 * (nonzeros k (numbers_of row.old) + nonzeros k (numbers_of by.now)) }
    ensures counted { steps.old ≤ steps.new }
{
    for w in 0..by.marks.words() {
        change_columns(row, by, w, parts, steps);
    }
}

/// Changes a row whose numbers and denominator stay small.
fn change_small<L: Ledger>(row: &mut Row<L>, by: &Row<L>, parts: Parts, steps: &mut Steps<L>)
    requires row { (k n : ℕ) × IsRow k n row.old × IsRow k n by.now }
    requires common { (row.old.is_common ≡ true) × (by.now.is_common ≡ true) }
    requires small { row.old.size * unsigned_abs parts.scale + by.now.size * unsigned_abs parts.factor < 2 ^ 60 }
    requires denom { unsigned_abs row.old.denom * unsigned_abs parts.scale < 2 ^ 60 }
    ensures row { (k n : ℕ) → IsRow k n row.old → IsRow k n row.new }
    ensures is { (c : ℕ) → IsSame (numbers_of row.new c) (over (numer_at row.old c *ℤ parts.scale +ℤ numer_at by.now c *ℤ parts.factor) (unsigned_abs row.old.denom * unsigned_abs parts.scale)) }
    ensures cost { (k n : ℕ) → IsRow k n row.old → IsRow k n by.now → steps.new ≤ steps.old + 2 * (nonzeros k (numbers_of row.old) + nonzeros k (numbers_of by.now)) }
    ensures counted { steps.old ≤ steps.new }
{
    let denom = row.denom * parts.scale;
    change_numbers(row, by, parts, steps);
    row.denom = denom;
}

/// A divisor of all numbers so far.
#[derive(Clone, Copy)]
struct Content {
    divisor: Divisor,
    ghost above: { 0 < divisor.size },
}

impl Content {
    fn of(size: u64) -> Content
        requires above { 0 < size }
        requires small { size < 2 ^ 63 }
    {
        Content {
            divisor: Divisor::of(size),
        }
    }

    /// A divisor of another number too. That it is one is tested where it is used.
    #[inline(always)]
    fn with(self, number: i128) -> Content {
        if self.divisor.size == 1 || self.divisor.quotient(number).is_some() {
            return self;
        }
        self.less(number)
    }

    #[inline(never)]
    fn less(self, number: i128) -> Content {
        let size = self.divisor.size;
        let rest = (number.unsigned_abs() % size as u128) as u64;
        if rest == 0 {
            return self;
        }
        Content::of(common(size, rest))
    }
}

/// A common divisor of two numbers above 0.
fn common(a: u64, b: u64) -> u64
    requires { 0 < b }
    ensures above { 0 < result }
    ensures most { result ≤ b }
{
    match Frac::of(a as i128, b as i128) {
        Ok(x) => b / x.denom as u64,
        Err(_) => 1,
    }
}

/// Writes the sums of both rows' numbers at a word's columns, each times its part. What may divide these too.
#[inline(always)]
fn sum_word<L: Ledger>(
    numers: &[i64],
    by: &[i64],
    word: Word,
    parts: Parts,
    all: Content,
    sums: &mut [i128],
    steps: &mut Steps<L>,
) -> Content
    requires inside { (i : ℕ) → i < 64 → is_set word.columns i ≡ true → (word.first + i < length numers.now) × (word.first + i < length by.now) × (word.first + i < length sums.old) }
    requires x { (c : ℕ) → unsigned_abs (slice_index_or numers.now c (pos 0)) < 2 ^ 63 }
    requires y { (c : ℕ) → unsigned_abs (slice_index_or by.now c (pos 0)) < 2 ^ 63 }
    ensures sums { (i : ℕ) → i < 64 → is_set word.columns i ≡ true → slice_index_or sums.new (word.first + i) (pos 0) ≡ slice_index_or numers.now (word.first + i) (pos 0) *ℤ parts.scale +ℤ slice_index_or by.now (word.first + i) (pos 0) *ℤ parts.factor }
    ensures before { (c : ℕ) → c < word.first → slice_index_or sums.new c (pos 0) ≡ slice_index_or sums.old c (pos 0) }
    ensures cost { steps.new ≡ steps.old + count_word (steps_at 0 word.own word.other (is_set word.columns)) }
{
    let mut left = word.columns;
    let mut all = all;
    while left != 0 {
        let i = take_first(&mut left);
        let col = word.first + i as usize;
        let x = read(numers, col, has_bit(word.own, i), steps);
        let y = read(by, col, has_bit(word.other, i), steps);
        let sum = wide_sum(x, y, parts);
        sums[col] = sum;
        all = all.with(sum);
    }
    all
}

/// Writes the sums of both rows' numbers, each times its part. What may divide them all, and divides the row's denominator.
fn write_sums<L: Ledger>(
    row: &Row<L>,
    by: &Row<L>,
    parts: Parts,
    sums: &mut [i128],
    steps: &mut Steps<L>,
) -> Content
    requires rows { (n : ℕ) × IsRow (length sums.old) n row.now × IsRow (length sums.old) n by.now }
    ensures sums { AreSums row.now by.now parts.scale parts.factor sums.new }
    ensures cost { steps.new ≤ steps.old + (nonzeros (length sums.old) (numbers_of row.now) + nonzeros (length sums.old) (numbers_of by.now)) }
    ensures counted { steps.old ≤ steps.new }
{
    let mut all = Content::of(row.denom.unsigned_abs());
    for w in 0..row.marks.words() {
        let own = row.marks.word(w);
        let other = by.marks.word(w);
        let word = Word {
            first: 64 * w,
            own,
            other,
            columns: own | other,
        };
        all = sum_word(
            row.numers.as_slice(),
            by.numers.as_slice(),
            word,
            parts,
            all,
            sums,
            steps,
        );
    }
    all
}

/// A quotient that leaves no rest and has 64 bits, and isn't the least of such numbers.
#[inline(always)]
fn narrow_quotient(divisor: Divisor, number: i128) -> Option<i64>
    ensures divided { IfSome result (λ z. z *ℤ pos divisor.size ≡ number) }
    ensures small { IfSome result (λ z. unsigned_abs z < 2 ^ 63) }
{
    match divisor.quotient(number) {
        Some(z) if z != i64::MIN => Some(z),
        _ => None,
    }
}

/// Writes the sums over a divisor into the row, as long as they fit: whether all do.
fn write_quotients<L: Ledger>(
    row: &mut Row<L>,
    by: &Row<L>,
    sums: &[i128],
    divisor: Divisor,
    parts: Parts,
    steps: &mut Steps<L>,
) -> bool
    requires rows { (n : ℕ) × IsRow (length sums.now) n row.old × IsRow (length sums.now) n by.now }
    requires common { row.old.is_common ≡ true }
    requires sums { AreSums row.old by.now parts.scale parts.factor sums.now }
    ensures row { (k n : ℕ) → IsRow k n row.old → IsRow k n row.new }
    ensures common { row.new.is_common ≡ true }
    ensures divided { result ≡ true → (c : ℕ) → numer_at row.new c *ℤ pos divisor.size ≡ numer_at row.old c *ℤ parts.scale +ℤ numer_at by.now c *ℤ parts.factor }
    ensures left { AreSumsLeft row.old by.now parts.scale parts.factor row.new }
    ensures within { (c : ℕ) → either_at row.new by.now c ≡ true → either_at row.old by.now c ≡ true }
    ensures cost { steps.new ≤ steps.old + (nonzeros (length sums.now) (numbers_of row.old) + nonzeros (length sums.now) (numbers_of by.now)) }
    ensures counted { steps.old ≤ steps.new }
{
    let _parts = parts;
    let mut walk = Walk::new();
    let mut from = 0;
    while let Some(c) = row.marks.next_of_either(&by.marks, &mut walk, from) {
        match narrow_quotient(divisor, sums[c as usize]) {
            Some(z) => row.write(c, z, steps),
            None => return false,
        }
        from = c + 1;
    }
    true
}

/// Gives the row the sums over its denominator times the scale, both divided by a number, where all fit: whether they do.
fn write_divided<L: Ledger>(
    row: &mut Row<L>,
    by: &Row<L>,
    sums: &[i128],
    divisor: Divisor,
    parts: Parts,
    steps: &mut Steps<L>,
) -> bool
    requires rows { (n : ℕ) × IsRow (length sums.now) n row.old × IsRow (length sums.now) n by.now }
    requires common { row.old.is_common ≡ true }
    requires sums { AreSums row.old by.now parts.scale parts.factor sums.now }
    ensures row { (k n : ℕ) → IsRow k n row.old → IsRow k n row.new }
    ensures is { result ≡ true → (c : ℕ) → IsSame (numbers_of row.new c) (over (numer_at row.old c *ℤ parts.scale +ℤ numer_at by.now c *ℤ parts.factor) (unsigned_abs row.old.denom * unsigned_abs parts.scale)) }
    ensures left { AreSumsLeft row.old by.now parts.scale parts.factor row.new }
    ensures within { (c : ℕ) → either_at row.new by.now c ≡ true → either_at row.old by.now c ≡ true }
    ensures cost { steps.new ≤ steps.old + (nonzeros (length sums.now) (numbers_of row.old) + nonzeros (length sums.now) (numbers_of by.now)) }
    ensures counted { steps.old ≤ steps.new }
{
    let over = row.denom as i128 * parts.scale as i128;
    let Some(denom) = divisor.quotient(over) else {
        return false;
    };
    if !write_quotients(row, by, sums, divisor, parts, steps) {
        return false;
    }
    row.denom = denom;
    true
}

/// The fractions of sums over a denominator, wherever one of two rows has an entry.
fn reduce_sums(marks: &Marks, by: &Marks, denom: i128, scratch: &mut Scratch)
    requires size { size_of by.now ≡ size_of marks.now }
    requires inside { (c : ℕ) → changes marks.now by.now false c ≡ true → c + 1 < length scratch.old.values.items }
    requires above { pos 0 <ℤ denom }
    requires fit { (c : ℕ) → changes marks.now by.now false c ≡ true → unsigned_abs (slice_index_or scratch.old.sums.items c (pos 0)) ≤ most }
    ensures found { AreFound scratch.new }
    ensures count { length scratch.new.values.items ≡ length scratch.old.values.items }
    ensures is { (c : ℕ) → changes marks.now by.now false c ≡ true → found_at scratch.new c ≡ lowest (slice_index_or scratch.old.sums.items c (pos 0)) (unsigned_abs denom) }
    ensures none { (c : ℕ) → changes marks.now by.now false c ≡ false → found_at scratch.new c ≡ none }
{
    scratch.clear();
    let mut walk = Walk::new();
    let mut from = 0;
    while let Some(c) = marks.next_of_either(by, &mut walk, from) {
        let value = reduced(scratch.sums[c as usize], denom);
        scratch.put(c, value);
        from = c + 1;
    }
}

/// Whether all numbers of a changed row stay small, and its denominator: then no common divisor is looked for.
fn is_small(row: u64, by: u64, parts: Parts, denom: i128) -> bool
    requires { pos 0 <ℤ denom }
    ensures { result ≡ true → (row * unsigned_abs parts.scale + by * unsigned_abs parts.factor < 2 ^ 60) × (unsigned_abs denom < 2 ^ 60) }
{
    let left = row as u128 * parts.scale.unsigned_abs() as u128;
    let right = by as u128 * parts.factor.unsigned_abs() as u128;
    if left + right >= 1 << 60 {
        return false;
    }
    denom < 1 << 60
}

/// Changes a row by sums that are divided by what they have in common.
fn change_sums<L: Ledger>(
    row: &mut Row<L>,
    by: &Row<L>,
    parts: Parts,
    scratch: &mut Scratch,
    steps: &mut Steps<L>,
)
    requires rows { (n : ℕ) × IsRow (length scratch.old.values.items) n row.old × IsRow (length scratch.old.values.items) n by.now × NonzerosFit (length scratch.old.values.items) (numbers_of row.old) (numbers_of by.now) n }
    requires common { (row.old.is_common ≡ true) × (by.now.is_common ≡ true) }
    ensures row { (n : ℕ) → IsRow (length scratch.old.values.items) n row.old → IsRow (length scratch.old.values.items) n row.new }
    ensures count { length scratch.new.values.items ≡ length scratch.old.values.items }
    ensures is { (c : ℕ) → IsSame (numbers_of row.new c) (over (numer_at row.old c *ℤ parts.scale +ℤ numer_at by.now c *ℤ parts.factor) (unsigned_abs row.old.denom * unsigned_abs parts.scale)) }
    ensures cost { steps.new ≤ steps.old + 3 * (nonzeros (length scratch.old.values.items) (numbers_of row.old) + nonzeros (length scratch.old.values.items) (numbers_of by.now)) }
    ensures counted { steps.old ≤ steps.new }
{
    let over = row.denom as i128 * parts.scale as i128;
    let sums = scratch.sums.as_mut_slice();
    let content = write_sums(row, by, parts, sums, steps);
    let sums = scratch.sums.as_slice();
    if write_divided(row, by, sums, content.divisor, parts, steps) {
        return;
    }
    reduce_sums(&row.marks, &by.marks, over, scratch);
    settle(row, scratch, steps);
}

/// Replaces the column `skip` in a row by another row, both in common form.
pub fn change_common<L: Ledger>(
    row: &mut Row<L>,
    by: &Row<L>,
    skip: u32,
    scratch: &mut Scratch,
    steps: &mut Steps<L>,
)
    requires rows { (n : ℕ) × IsRow (length scratch.old.values.items) n row.old × IsRow (length scratch.old.values.items) n by.now × HasRoomFor (length scratch.old.values.items) (numbers_of row.old) (numbers_of by.now) skip n }
    requires common { (row.old.is_common ≡ true) × (by.now.is_common ≡ true) }
    requires stands { HasNumber (numbers_of row.old) skip }
    requires inside { skip + 1 < length scratch.old.values.items }
    requires gone { (numbers_of by.now skip).num ≡ pos 0 }
    ensures row { (n : ℕ) → IsRow (length scratch.old.values.items) n row.old → IsRow (length scratch.old.values.items) n row.new }
    ensures count { length scratch.new.values.items ≡ length scratch.old.values.items }
    ensures is { IsReplacedBy (numbers_of row.old) (numbers_of by.now) skip (numbers_of row.new) }
    ensures fits { ReplacementFits (numbers_of row.old) (numbers_of by.now) skip }
    ensures cost { steps.new ≤ steps.old + 3 * (nonzeros (length scratch.old.values.items) (numbers_of row.old) + nonzeros (length scratch.old.values.items) (numbers_of by.now)) }
    ensures counted { steps.old ≤ steps.new }
{
    let numer = row.read(skip, steps);
    row.write(skip, 0, steps);
    let parts = parts_of(numer, by.denom);
    let over = row.denom as i128 * parts.scale as i128;
    if is_small(row.size, by.size, parts, over) {
        return change_small(row, by, parts, steps);
    }
    change_sums(row, by, parts, scratch, steps);
}
