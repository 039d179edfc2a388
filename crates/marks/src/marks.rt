//! A set of numbers.
ghost use Rattle.std.specs.Prelude.{◌*◌, ◌≤◌, ◌^◌, length};

use crate::walk::Walk;
use crate::words::{Both, Either, One, clear, has, next, set};
use std::alloc::{AllocError, Global};

/// A set of numbers below a size.
#[derive(Drop)]
pub struct Marks {
    words: Vec<u64>,
    ghost few: { 64 * length words.items ≤ 2 ^ 32 },
}

#[tactic(auto, unfolding(crate::specs::Marks::is_marked, crate::specs::Marks::size_of))]
impl Marks {
    ghost use Rattle.std.specs.Prelude.{◌≡◌, ◌≢◌, ℕ, ◌+◌, ◌/◌, ◌<◌, ◌||◌, ◌&&◌, true, false, IfOk, IfSome, MatchOption};
    ghost use Rattle.marks.specs.Words.{is_set, IsFirst, HasNone};
    ghost use Rattle.marks.specs.Walks.{KeepsWord};
    ghost use Rattle.marks.specs.Marks.{is_marked, size_of};

    /// A set for numbers below `count`, which has none. More than there are numbers of 32 bits find no room.
    pub fn with_size(alloc: Global, count: usize) -> Result<Marks, AllocError>
        ensures size { IfOk result (λ m. count ≤ size_of m) }
        ensures words { IfOk result (λ m. size_of m ≡ 64 * ((count + 63) / 64)) }
        ensures none { IfOk result (λ m. (c : ℕ) → is_marked m c ≡ false) }
    {
        if count > 1 << 32 {
            return Err(AllocError);
        }
        let words = vec![in alloc; 0; (count + 63) / 64]?;
        Ok(Marks { words })
    }

    /// Whether it has a number.
    #[inline(always)]
    pub fn has(&self, k: u32) -> bool
        requires { k < size_of self.now }
        ensures { result ≡ is_marked self.now k }
    {
        has(self.words.as_slice(), k)
    }

    /// Takes in a number.
    #[inline(always)]
    pub fn mark(&mut self, k: u32)
        requires { k < size_of self.old }
        ensures size { size_of self.new ≡ size_of self.old }
        ensures own { is_marked self.new k ≡ true }
        ensures others { (c : ℕ) → c ≢ k → is_marked self.new c ≡ is_marked self.old c }
    {
        set(self.words.as_mut_slice(), k);
    }

    /// Takes out a number.
    #[inline(always)]
    pub fn unmark(&mut self, k: u32)
        requires { k < size_of self.old }
        ensures size { size_of self.new ≡ size_of self.old }
        ensures own { is_marked self.new k ≡ false }
        ensures others { (c : ℕ) → c ≢ k → is_marked self.new c ≡ is_marked self.old c }
    {
        clear(self.words.as_mut_slice(), k);
    }

    /// Takes a number in, or out.
    #[inline(always)]
    pub fn put(&mut self, k: u32, is_in: bool)
        requires { k < size_of self.old }
        ensures size { size_of self.new ≡ size_of self.old }
        ensures own { is_marked self.new k ≡ is_in }
        ensures others { (c : ℕ) → c ≢ k → is_marked self.new c ≡ is_marked self.old c }
    {
        if is_in {
            self.mark(k);
        } else {
            self.unmark(k);
        }
    }

    /// Takes out all numbers.
    pub fn clear(&mut self)
        ensures size { size_of self.new ≡ size_of self.old }
        ensures none { (c : ℕ) → is_marked self.new c ≡ false }
    {
        self.words.as_mut_slice().fill(0);
    }

    /// The first number from this one on that it has.
    #[inline(always)]
    pub fn next(&self, from: u32) -> Option<u32>
        ensures { MatchOption result (HasNone (is_marked self.now) from) (IsFirst (is_marked self.now) from) }
    {
        let words = self.words.as_slice();
        next(&One { words }, from)
    }

    /// The first number from this one on that it has, by a walk that passed those before.
    #[inline(always)]
    pub fn next_by(&self, walk: &mut Walk, from: u32) -> Option<u32>
        requires { KeepsWord (is_marked self.now) from walk.old }
        ensures first { MatchOption result (HasNone (is_marked self.now) from) (IsFirst (is_marked self.now) from) }
        ensures kept { IfSome result (λ c. KeepsWord (is_marked self.now) (c + 1) walk.new) }
    {
        let words = self.words.as_slice();
        walk.next(&One { words }, from)
    }

    /// The first number from this one on that one of two sets has, by a walk that passed those before.
    #[inline(always)]
    pub fn next_of_either(&self, other: &Marks, walk: &mut Walk, from: u32) -> Option<u32>
        requires size { size_of other.now ≡ size_of self.now }
        requires kept { KeepsWord (λ k. is_marked self.now k || is_marked other.now k) from walk.old }
        ensures first { MatchOption result (HasNone (λ k. is_marked self.now k || is_marked other.now k) from) (IsFirst (λ k. is_marked self.now k || is_marked other.now k) from) }
        ensures kept { IfSome result (λ c. KeepsWord (λ k. is_marked self.now k || is_marked other.now k) (c + 1) walk.new) }
    {
        let left = self.words.as_slice();
        let right = other.words.as_slice();
        walk.next(&Either { left, right }, from)
    }

    /// The first number from this one on that two sets have, by a walk that passed those before.
    #[inline(always)]
    pub fn next_of_both(&self, other: &Marks, walk: &mut Walk, from: u32) -> Option<u32>
        requires { KeepsWord (λ k. is_marked self.now k && is_marked other.now k) from walk.old }
        ensures first { MatchOption result (HasNone (λ k. is_marked self.now k && is_marked other.now k) from) (IsFirst (λ k. is_marked self.now k && is_marked other.now k) from) }
        ensures kept { IfSome result (λ c. KeepsWord (λ k. is_marked self.now k && is_marked other.now k) (c + 1) walk.new) }
    {
        let left = self.words.as_slice();
        let right = other.words.as_slice();
        walk.next(&Both { left, right }, from)
    }

    /// How many words of 64 numbers it has.
    #[inline(always)]
    pub fn words(&self) -> usize
        ensures { size_of self.now ≡ 64 * result }
    {
        self.words.len()
    }

    /// Which numbers of word `w` it has, a bit each.
    #[inline(always)]
    pub fn word(&self, w: usize) -> u64
        requires { 64 * w < size_of self.now }
        ensures { (i : ℕ) → i < 64 → is_set result i ≡ is_marked self.now (64 * w + i) }
    {
        self.words[w]
    }

    /// Gives it these numbers of word `w`.
    #[inline(always)]
    pub fn set_word(&mut self, w: usize, word: u64)
        requires { 64 * w < size_of self.old }
        ensures size { size_of self.new ≡ size_of self.old }
        ensures own { (i : ℕ) → i < 64 → is_marked self.new (64 * w + i) ≡ is_set word i }
        ensures others { (c : ℕ) → c / 64 ≢ w → is_marked self.new c ≡ is_marked self.old c }
    {
        self.words[w] = word;
    }
}
