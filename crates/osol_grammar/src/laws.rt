//! What the definitions say together: of options and the texts that say them.

ghost use Rattle.std.specs.Prelude.{◌≡◌, ◌≢◌, ℕ, List, Result, Ok, IfOk, IfErr};
ghost use Rattle.tree_grammar.specs.Elements.{Element};
ghost use Rattle.osol_grammar.specs.declared.fault.Refusal.{Refusal};
ghost use Rattle.osol_grammar.specs.declared.fault.OsolFault.{OsolFault};
ghost use Rattle.osol_grammar.specs.declared.fault.OsolFault.TheVariants.{Memory};
ghost use Rattle.osol_grammar.specs.declared.options.Options as kinds;
ghost use Rattle.osol_grammar.specs.Meaning.{IsOptions, IsRefused, IsOptionsText};
ghost use Rattle.osol_grammar.specs.Writing.{options_text};
ghost use Rattle.osol_grammar.specs.Back.{ComesBack, IsNameOrNone};
ghost use Rattle.osol_grammar.specs.Reading.{DecodeFails};

use document_tags::{documents_are_of_characters, texts_part_at_ascii};

/// Law: a document that says options says the same ones always, and so do bytes.
pub fn document_says_one()
    ensures root { (root : Element) (o p : kinds.Options) → IsOptions root o → IsOptions root p → o ≡ p }
    ensures text { (bytes : List ℕ) (o p : kinds.Options) → IsOptionsText bytes o → IsOptionsText bytes p → o ≡ p }
{}

/// Law: a document is refused in one way at most, and so are bytes, but for want of memory.
pub fn document_has_one_refusal()
    ensures root { (root : Element) (r q : Refusal) (n m : ℕ) → IsRefused root r n → IsRefused root q m → (r ≡ q) × (n ≡ m) }
    ensures text { (bytes : List ℕ) (f g : OsolFault) → f ≢ Memory → g ≢ Memory → DecodeFails bytes f → DecodeFails bytes g → f ≡ g }
{}

/// Law: a document that says options isn't refused, nor are bytes that do, but for want of memory.
pub fn options_are_not_refused()
    ensures root { (root : Element) (o : kinds.Options) (r : Refusal) (n : ℕ) → IsOptions root o → IsRefused root r n → ⊥ }
    ensures text { (bytes : List ℕ) (o : kinds.Options) (f : OsolFault) → IsOptionsText bytes o → DecodeFails bytes f → f ≡ Memory }
{}

/// Law: the job's name that bytes say, if they say one, is a name: characters of XML, one at least and of at most 256 bytes,
/// without white space round them.
pub fn options_have_names()
    ensures { (bytes : List ℕ) (o : kinds.Options) → IsOptionsText bytes o → IsNameOrNone o.job }
{
    documents_are_of_characters();
    texts_part_at_ascii();
}

/// Law: the options that bytes say may be written, and come back: their job's name is a name, and their limits are such as
/// they may be.
pub fn read_options_come_back()
    ensures { (bytes : List ℕ) (o : kinds.Options) → IsOptionsText bytes o → ComesBack o }
{
    documents_are_of_characters();
    texts_part_at_ascii();
}

/// Law: what [`decode`](crate::decode) answers of the text that [`encode`](crate::encode) writes of options, by its
/// contract, is those options, but for want of memory; they are to have no job's name or one of characters of XML, without
/// white space round it and of at most 256 bytes, and limits that they may have.
pub fn comes_back()
    ensures { (o : kinds.Options) (r : Result kinds.Options OsolFault) → ComesBack o → IfOk r (IsOptionsText (options_text o)) → IfErr r (DecodeFails (options_text o)) → r ≢ Err Memory → r ≡ Ok o }
{}
