//! What the definitions say together of documents that are read: each stands for one instance, or is refused in one way.

ghost use Rattle.std.specs.Prelude.{◌≡◌, ◌≢◌, ℕ, List};
ghost use Rattle.tree_grammar.specs.Elements.{Element};
ghost use Rattle.instance.specs.Parts.{Parts};
ghost use Rattle.tag_tests.specs.Firsts.{IsFirstDecided};
ghost use Rattle.osil_grammar.specs.declared.fault.OsilFault.{OsilFault};
ghost use Rattle.osil_grammar.specs.declared.fault.OsilFault.TheVariants.{Memory};
ghost use Rattle.osil_grammar.specs.Refusals.{Refusal, number};
ghost use Rattle.osil_grammar.specs.ParseState.{start};
ghost use Rattle.osil_grammar.specs.Table.{ToldRefusal};
ghost use Rattle.osil_grammar.specs.Marked.{osil, marks, StandsFor, IsRefusedSo, IsAccepted, IsRefused};
ghost use Rattle.osil_grammar.specs.Reading.{IsInstanceText, IsRefusedText, DecodeFails, AreAlike, IsFaultText};

/// Law: a document of which nothing is refused isn't refused.
pub fn accepted_is_not_refused()
    ensures { (root : Element) (r : Refusal) (n : ℕ) → IsAccepted root → IsRefused root r n → ⊥ }
{}

/// Law: a document is refused in one way, and so are bytes, be they no document or a document that is refused; and bytes
/// that stand for an instance aren't refused. Want of memory is no refusal.
pub fn documents_are_refused_in_one_way()
    ensures root { (root : Element) (r q : Refusal) (n m : ℕ) → IsRefused root r n → IsRefused root q m → (r ≡ q) × (n ≡ m) }
    ensures text { (text : List ℕ) (r q : Refusal) (n m : ℕ) → IsRefusedText text r n → IsRefusedText text q m → (r ≡ q) × (n ≡ m) }
    ensures no_instance { (text : List ℕ) (p : Parts) (r : Refusal) (n : ℕ) → IsInstanceText text p → IsRefusedText text r n → ⊥ }
    ensures faults { (bytes : List ℕ) (f g : OsilFault) → f ≢ Memory → g ≢ Memory → DecodeFails bytes f → DecodeFails bytes g → AreAlike f g }
    ensures told { (bytes : List ℕ) (f g : OsilFault) (s t : List ℕ) → DecodeFails bytes f → DecodeFails bytes g → IsFaultText f s → IsFaultText g t → s ≡ t }
    ensures no_fault { (bytes : List ℕ) (p : Parts) (f : OsilFault) → IsInstanceText bytes p → DecodeFails bytes f → f ≡ Memory }
{}

/// Law: a document stands for one instance, and so do its bytes.
pub fn documents_mean_one_instance()
    ensures root { (root : Element) (p q : Parts) → StandsFor root p → StandsFor root q → p ≡ q }
    ensures text { (text : List ℕ) (p q : Parts) → IsInstanceText text p → IsInstanceText text q → p ≡ q }
{}

/// Law: what is told of a document is decided at the first tag at which something is, and is the least of what is
/// decided there.
pub fn first_and_least_is_told()
    ensures { (root : Element) (r : ToldRefusal) → IsRefusedSo root r → IsFirstDecided osil (λ t. number t.refusal) start (marks root) r }
{}
