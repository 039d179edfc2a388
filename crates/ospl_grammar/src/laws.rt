//! What the definitions say together: of processes and the texts that say them.

ghost use Rattle.std.specs.Prelude.{◌≡◌, ◌≢◌, ℕ, List, Result, Ok, Err, IfOk, IfErr};
ghost use Rattle.tree_grammar.specs.Elements.{Element};
ghost use Rattle.ospl_grammar.specs.declared.fault.OsplFault.{OsplFault};
ghost use Rattle.ospl_grammar.specs.declared.fault.OsplFault.TheVariants.{Memory};
ghost use Rattle.ospl_grammar.specs.declared.process.Process as kinds;
ghost use Rattle.ospl_grammar.specs.Meaning.{IsProcess, IsProcessText};
ghost use Rattle.ospl_grammar.specs.Refusals.{IsRefused, DecodeFails};
ghost use Rattle.ospl_grammar.specs.Writing.{process_text};
ghost use Rattle.ospl_grammar.specs.Back.{ComesBack};

/// Law: a document says one process at most, and so do bytes.
pub fn document_has_one_process()
    ensures root { (root : Element) (p q : kinds.Process) → IsProcess root p → IsProcess root q → p ≡ q }
    ensures text { (bytes : List ℕ) (p q : kinds.Process) → IsProcessText bytes p → IsProcessText bytes q → p ≡ q }
{}

/// Law: a document is refused in one way at most, and so are bytes, but for want of memory.
pub fn document_has_one_refusal()
    ensures root { (root : Element) (f g : OsplFault) → IsRefused root f → IsRefused root g → f ≡ g }
    ensures text { (bytes : List ℕ) (f g : OsplFault) → f ≢ Memory → g ≢ Memory → DecodeFails bytes f → DecodeFails bytes g → f ≡ g }
{}

/// Law: a document that says a process isn't refused, nor are bytes that do, but for want of memory.
pub fn process_is_not_refused()
    ensures root { (root : Element) (p : kinds.Process) (f : OsplFault) → IsProcess root p → IsRefused root f → ⊥ }
    ensures text { (bytes : List ℕ) (p : kinds.Process) (f : OsplFault) → IsProcessText bytes p → DecodeFails bytes f → f ≡ Memory }
{}

/// Law: what [`decode`](crate::decode) answers of the text that [`encode`](crate::encode) writes of a process, by its
/// contract, is that process, but for want of memory; its texts are to be characters of XML, its numbers of their types, the
/// total within 9,223,372,036,854,775,807, and the text within the limit of a document.
pub fn comes_back()
    ensures { (p : kinds.Process) (r : Result kinds.Process OsplFault) → ComesBack p → IfOk r (IsProcessText (process_text p)) → IfErr r (DecodeFails (process_text p)) → r ≢ Err Memory → r ≡ Ok p }
{}
