//! What the definitions say together.

ghost use Rattle.std.specs.Prelude.{◌≡◌, ◌<◌, ℕ, length};
ghost use Rattle.evidence.specs.Point.{value_at};
ghost use Rattle.bases.specs.Dictionary.{Values};
ghost use Rattle.simplex.specs.Answers.{listed};

/// Law: a list of the first values has as many as were asked for, and each stands in its place.
pub fn first_values_are_listed()
    ensures count { (n : ℕ) (w : Values) → length (listed n w) ≡ n }
    ensures values { (n : ℕ) (w : Values) (j : ℕ) → j < n → value_at (listed n w) j ≡ w j }
{}
