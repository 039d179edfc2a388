//! Values found by their words.

ghost use Rattle.std.specs.Prelude.{◌≡◌, MatchOption};
ghost use Rattle.std.specs.List.{All};

use osrl_writing::Worded;

/// The first of these values that has this word, if there is one.
pub(crate) fn with_word<T: Worded>(word: &[u8], values: &[T]) -> Option<T>
    ensures { MatchOption result (All (λ v. word.now ≡ T.text v → ⊥) values.now) (λ v. word.now ≡ T.text v) }
{
    for value in values {
        if word == value.word() {
            return Some(*value);
        }
    }
    None
}
