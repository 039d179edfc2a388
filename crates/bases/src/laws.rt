//! Laws of the dictionaries of bases.
ghost use Rattle.std.specs.Prelude.{◌≡◌, ℕ, ◌+◌, ◌<◌, pos, Bool, true, false};
ghost use Rattle.rational.specs.Ratio.{Ratio, IsNumber, IsSame};
ghost use Rattle.evidence.specs.Sums.{none, total};
ghost use Rattle.bases.specs.Dictionary.{Entries, AreEntries, IsDictionary};
ghost use Rattle.bases.specs.Forms.{FormsAreSums, ListsAreSums};
ghost use Rattle.bases.specs.Program.{is_fresh};
ghost use Rattle.bases.specs.Order.{GoesThrough};
ghost use Rattle.bases.specs.Pivot.{exchanged, IsPivoted};

/// Law: a set of basic columns has one dictionary, to the form of each of its numbers.
pub fn bases_have_one_dictionary()
    ensures only { (n m : ℕ) (A : Entries) (basic : ℕ → Bool) (u v : Entries) → IsDictionary n m A basic u → IsDictionary n m A basic v → (b c : ℕ) → u b c ≡ v b c }
    ensures alike { (n m : ℕ) (A : Entries) (basic as_basic : ℕ → Bool) (u : Entries) → ((c : ℕ) → c < n + m → basic c ≡ as_basic c) → IsDictionary n m A basic u → IsDictionary n m A as_basic u }
{}

/// Law: in a dictionary each column's form is the sum, by its list, of the forms of the columns that aren't basic, and
/// each row's list is the sum of its entries times the variables' lists. Entries of which both hold are a dictionary.
pub fn dictionaries_have_forms()
    ensures forms { (n m : ℕ) (A : Entries) (basic : ℕ → Bool) (u : Entries) → ((i j : ℕ) → IsNumber (A i j)) → IsDictionary n m A basic u → FormsAreSums n m A basic u × ListsAreSums n m A basic u }
    ensures back { (n m : ℕ) (A : Entries) (basic : ℕ → Bool) (u : Entries) → ((i j : ℕ) → IsNumber (A i j)) → AreEntries (n + m) basic u → FormsAreSums n m A basic u → ListsAreSums n m A basic u → IsDictionary n m A basic u }
{}

/// Law: a sum over all columns to which basic ones add nothing is that over the others, in whatever order they stand.
pub fn order_is_free()
    ensures { (n k : ℕ) (basic : ℕ → Bool) (at place : ℕ → ℕ) (f : ℕ → Ratio) → GoesThrough n k basic false at place → ((c : ℕ) → IsNumber (f c)) → ((c : ℕ) → c < k → basic c ≡ true → IsSame (f c) none) → IsSame (total none k f) (total none n (λ j. f (at j))) }
{}

/// Law: the rows themselves are the dictionary of their own columns.
pub fn rows_are_a_dictionary()
    ensures { (n m : ℕ) (A u : Entries) → ((i j : ℕ) → IsNumber (A i j)) → AreEntries (n + m) (is_fresh n) u → ((i j : ℕ) → i < m → j < n → IsSame (u (n + i) j) (A i j)) → IsDictionary n m A (is_fresh n) u }
{}

/// Law: where a basic column and another one, whose entry isn't 0, change places, the dictionary's entries become those
/// of the new basis.
pub fn pivots_are_dictionaries()
    ensures { (n m : ℕ) (A : Entries) (basic : ℕ → Bool) (u v : Entries) (b e : ℕ) → b < n + m → e < n + m → basic b ≡ true → basic e ≡ false → ((u b e).num ≡ pos 0 → ⊥) → IsPivoted u b e v → IsDictionary n m A basic u → IsDictionary n m A (exchanged basic b e) v }
{}
