//! Words of 64 bits, and the first bit that is set in them.
ghost use Rattle.std.specs.Prelude.{◌≡◌, ◌≢◌, ℕ, ◌*◌, ◌<◌, ◌≤◌, ◌^◌, true, false, IfSome, MatchOption, length, slice_index, bit_and, bit_or};
ghost use Rattle.marks.specs.Words.{has_bit, lesser, IsFirst, HasNoneBelow};

/// Words that are read one at a time.
pub trait Words {
    ghost words: { Self → ℕ };

    ghost word_at: { Self → ℕ → ℕ };

    /// How many there are.
    fn count(&self) -> usize
        ensures { result ≡ words self.now };

    /// One of them.
    fn word(&self, w: usize) -> u64
        requires { w < words self.now }
        ensures { result ≡ word_at self.now w };
}

/// The words of one set.
#[derive(Clone, Copy)]
pub struct One<'a> {
    pub words: &'a [u64],
}

/// The bits that one of two sets has.
#[derive(Clone, Copy)]
pub struct Either<'a> {
    pub left: &'a [u64],
    pub right: &'a [u64],
    pub ghost same: { length right.now ≡ length left.now },
}

/// The bits that both of two sets have, of which one may have more words.
#[derive(Clone, Copy)]
pub struct Both<'a> {
    pub left: &'a [u64],
    pub right: &'a [u64],
}

impl Words for One<'_> {
    ghost words = { λ s. length s.words.now };

    ghost word_at = { λ s. slice_index s.words.now };

    #[inline(always)]
    fn count(&self) -> usize {
        self.words.len()
    }

    #[inline(always)]
    fn word(&self, w: usize) -> u64 {
        self.words[w]
    }
}

impl Words for Either<'_> {
    ghost words = { λ s. length s.left.now };

    ghost word_at = { λ s w. bit_or (slice_index s.left.now w) (slice_index s.right.now w) };

    #[inline(always)]
    fn count(&self) -> usize {
        self.left.len()
    }

    #[inline(always)]
    fn word(&self, w: usize) -> u64 {
        self.left[w] | self.right[w]
    }
}

impl Words for Both<'_> {
    ghost words = { λ s. lesser (length s.left.now) (length s.right.now) };

    ghost word_at = { λ s w. bit_and (slice_index s.left.now w) (slice_index s.right.now w) };

    #[inline(always)]
    fn count(&self) -> usize {
        lesser(self.left.len(), self.right.len())
    }

    #[inline(always)]
    fn word(&self, w: usize) -> u64 {
        self.left[w] & self.right[w]
    }
}

/// The lesser of two numbers.
#[inline(always)]
fn lesser(a: usize, b: usize) -> usize
    ensures { result ≡ lesser a b }
{
    if a < b { a } else { b }
}

/// The first bit that is set from word `w` on.
#[inline(always)]
pub fn first_from<W: Words>(words: &W, w: usize) -> Option<u32>
    requires few { 64 * W.words words.now ≤ 2 ^ 32 }
    ensures first { MatchOption result (HasNoneBelow (64 * W.words words.now) (has_bit (W.word_at words.now)) (64 * w)) (IsFirst (has_bit (W.word_at words.now)) (64 * w)) }
    ensures inside { IfSome result (λ c. c < 64 * W.words words.now) }
{
    for k in w..words.count() {
        let word = words.word(k);
        if word != 0 {
            return Some(64 * k as u32 + word.trailing_zeros());
        }
    }
    None
}

/// The first bit from this one on that is set.
#[inline(always)]
pub fn next<W: Words>(words: &W, from: u32) -> Option<u32>
    requires few { 64 * W.words words.now ≤ 2 ^ 32 }
    ensures { MatchOption result (HasNoneBelow (64 * W.words words.now) (has_bit (W.word_at words.now)) from) (IsFirst (has_bit (W.word_at words.now)) from) }
{
    let w = from as usize / 64;
    if w >= words.count() {
        return None;
    }
    let rest = words.word(w) >> (from % 64);
    if rest != 0 {
        return Some(from + rest.trailing_zeros());
    }
    first_from(words, w + 1)
}

/// Whether a bit is set.
#[inline(always)]
pub fn has(words: &[u64], k: u32) -> bool
    requires { k < 64 * length words.now }
    ensures { result ≡ has_bit (slice_index words.now) k }
{
    (words[k as usize / 64] >> (k % 64)) & 1 == 1
}

/// Sets a bit.
#[inline(always)]
pub fn set(words: &mut [u64], k: u32)
    requires { k < 64 * length words.old }
    ensures own { has_bit (slice_index words.new) k ≡ true }
    ensures others { (c : ℕ) → c ≢ k → has_bit (slice_index words.new) c ≡ has_bit (slice_index words.old) c }
{
    words[k as usize / 64] |= 1 << (k % 64);
}

/// Clears a bit.
#[inline(always)]
pub fn clear(words: &mut [u64], k: u32)
    requires { k < 64 * length words.old }
    ensures own { has_bit (slice_index words.new) k ≡ false }
    ensures others { (c : ℕ) → c ≢ k → has_bit (slice_index words.new) c ≡ has_bit (slice_index words.old) c }
{
    words[k as usize / 64] &= !(1 << (k % 64));
}
