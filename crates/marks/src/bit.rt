//! Bits of a word.
ghost use Rattle.std.specs.Prelude.{◌≡◌, ◌≢◌, ℕ, ◌<◌, true, false};
ghost use Rattle.marks.specs.Words.{is_set};

/// Whether a bit is set.
#[inline(always)]
pub fn has_bit(word: u64, bit: u32) -> bool
    requires { bit < 64 }
    ensures { result ≡ is_set word bit }
{
    (word >> bit) & 1 == 1
}

/// Takes the first bit out of a word that has one.
#[inline(always)]
pub fn take_first(word: &mut u64) -> u32
    requires { word.old ≢ 0 }
    ensures below { result < 64 }
    ensures own { is_set word.old result ≡ true }
    ensures gone { is_set word.new result ≡ false }
    ensures others { (i : ℕ) → i < 64 → i ≢ result → is_set word.new i ≡ is_set word.old i }
    ensures less { word.new < word.old }
{
    let bit = word.trailing_zeros();
    *word &= !(1 << bit);
    bit
}

/// A word that keeps a bit, or not.
#[inline(always)]
pub fn keep(word: u64, bit: u32, stays: bool) -> u64
    requires { bit < 64 }
    ensures own { is_set word bit ≡ true → is_set result bit ≡ stays }
    ensures others { (i : ℕ) → i < 64 → i ≢ bit → is_set result i ≡ is_set word i }
{
    if stays { word } else { word & !(1 << bit) }
}
