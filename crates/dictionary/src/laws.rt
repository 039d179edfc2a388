//! Laws of dictionaries in memory.
ghost use Rattle.std.specs.Prelude.{◌≡◌, ℕ, ◌+◌, ◌-◌, ◌<◌, Bool, true, false};
ghost use Rattle.bases.specs.Dictionary.{Entries, IsDictionary};
ghost use Rattle.bases.specs.Order.{GoesThrough};
ghost use Rattle.bases.specs.Program.{is_fresh};
ghost use Rattle.dictionary.specs.declared.dict.Dict.{Dict};
ghost use Rattle.dictionary.specs.Dict.{width_of, height_of, columns_of, column_standing, place_of_column, basic_of, IsJustLoaded, Holds};

use std::sync::ledger::Ledger;

/// Law: rows with equal entries have the same dictionaries.
pub fn dictionaries_of_equal_rows()
    ensures { (n m : ℕ) (A B : Entries) (basic : ℕ → Bool) (u : Entries) → ((i j : ℕ) → i < m → j < n → A i j ≡ B i j) → IsDictionary n m A basic u → IsDictionary n m B basic u }
{}

/// Law: a dictionary that was loaded, and had no pivot since, is that of its rows, which are basic.
pub fn first_dictionaries_are_loaded<L: Ledger>()
    ensures holds { (A : Entries) (d : Dict L L.Ledger) → IsJustLoaded A d → Holds A d }
    ensures basis { (A : Entries) (d : Dict L L.Ledger) → IsJustLoaded A d → (c : ℕ) → c < columns_of d → basic_of d c ≡ is_fresh (width_of d) c }
{}

/// Law: the first places go through the columns that aren't basic, goal included, and the next ones through the basic
/// columns of variables and rows, each once.
pub fn orders_go_through<L: Ledger>()
    ensures nonbasic { (d : Dict L L.Ledger) → GoesThrough (width_of d) (columns_of d) (basic_of d) false (column_standing d) (place_of_column d) }
    ensures basic { (d : Dict L L.Ledger) → GoesThrough (height_of d) (width_of d + height_of d) (basic_of d) true (λ i. column_standing d (width_of d + i)) (λ c. place_of_column d c - width_of d) }
{}
