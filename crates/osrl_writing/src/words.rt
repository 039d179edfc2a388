//! Values that documents say by words.

/// A value that a document says by a word.
pub trait Worded: Copy {
    ghost use Rattle.std.specs.Prelude.{◌≡◌, ℕ, List};

    /// The word of each value.
    ghost text: { Self → List ℕ };

    /// Its word.
    fn word(self) -> &'static [u8]
        ensures { result.now ≡ text self };
}
