//! Going from number to number.
ghost use Rattle.std.specs.Prelude.{◌≡◌, ◌≢◌, ◌%◌, ◌≤◌, ◌^◌};

use crate::words::{Words, first_from};

/// A walk over numbers in ascending order. It keeps the word of bits at which it is, and takes each number that it passes out of
/// what it keeps, so that a word is read once, and not for each of its numbers.
#[derive(Clone, Copy)]
pub struct Walk {
    word: u64,
    stop: usize,
    ghost few: { stop ≤ 2 ^ 32 },
    ghost whole: { stop % 64 ≡ 0 },
    ghost begun: { word ≢ 0 → 64 ≤ stop },
}

impl Walk {
    ghost use Rattle.std.specs.Prelude.{ℕ, ◌+◌, ◌*◌, Bool, IfSome, MatchOption};
    ghost use Rattle.marks.specs.Words.{has_bit, IsFirst, HasNoneBelow};
    ghost use Rattle.marks.specs.Walks.{KeepsWord};

    /// A walk that has passed no number yet.
    pub fn new() -> Walk
        ensures { (test : ℕ → Bool) → KeepsWord test 0 result }
    {
        Walk { word: 0, stop: 0 }
    }

    /// Passes the first number that is kept.
    #[inline(always)]
    fn pass(&mut self) -> u32
        requires { self.old.word ≢ 0 }
        ensures first { (test : ℕ → Bool) (from : ℕ) → KeepsWord test from self.old → IsFirst test from result }
        ensures kept { (test : ℕ → Bool) (from : ℕ) → KeepsWord test from self.old → KeepsWord test (result + 1) self.new }
    {
        let bit = self.word.trailing_zeros();
        self.word &= !(1 << bit);
        (self.stop - 64) as u32 + bit
    }

    /// Passes the first number behind what was kept, and keeps the rest of its word.
    #[inline(always)]
    fn read<W: Words>(&mut self, words: &W) -> Option<u32>
        requires few { 64 * W.words words.now ≤ 2 ^ 32 }
        requires none { self.old.word ≡ 0 }
        ensures first { (from : ℕ) → KeepsWord (has_bit (W.word_at words.now)) from self.old → MatchOption result (HasNoneBelow (64 * W.words words.now) (has_bit (W.word_at words.now)) from) (IsFirst (has_bit (W.word_at words.now)) from) }
        ensures kept { (from : ℕ) → KeepsWord (has_bit (W.word_at words.now)) from self.old → IfSome result (λ c. KeepsWord (has_bit (W.word_at words.now)) (c + 1) self.new) }
    {
        match first_from(words, self.stop / 64) {
            None => None,
            Some(c) => {
                let w = c as usize / 64;
                let rest = words.word(w) & !(1 << (c % 64));
                *self = Walk {
                    word: rest,
                    stop: 64 * (w + 1),
                };
                Some(c)
            }
        }
    }

    /// The first bit that is set from this one on, before which all were passed.
    #[inline(always)]
    pub fn next<W: Words>(&mut self, words: &W, from: u32) -> Option<u32>
        requires few { 64 * W.words words.now ≤ 2 ^ 32 }
        requires kept { KeepsWord (has_bit (W.word_at words.now)) from self.old }
        ensures first { MatchOption result (HasNoneBelow (64 * W.words words.now) (has_bit (W.word_at words.now)) from) (IsFirst (has_bit (W.word_at words.now)) from) }
        ensures kept { IfSome result (λ c. KeepsWord (has_bit (W.word_at words.now)) (c + 1) self.new) }
    {
        let _from = from;
        if self.word == 0 {
            return self.read(words);
        }
        Some(self.pass())
    }
}
