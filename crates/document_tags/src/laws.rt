//! What the definitions say together.

ghost use Rattle.std.specs.Prelude.{◌≡◌, ℕ, ◌<◌, ◌++◌, ◌∷◌, List};
ghost use Rattle.doc_tree.specs.declared.fault.TreeFault.{TreeFault};
ghost use Rattle.tree_grammar.specs.Characters.{IsXmlText};
ghost use Rattle.tree_grammar.specs.Document.{Doc};
ghost use Rattle.tree_grammar.specs.Elements.{Element};
ghost use Rattle.document_tags.specs.Characters.{IsOfCharacters};
ghost use Rattle.document_tags.specs.Elements.{own_text};
ghost use Rattle.document_tags.specs.Faults.{IsTreeText};

/// Law: all that stands in a document is of characters of XML, and so is an element's own text (XML 1.0, section 2.2).
pub fn documents_are_of_characters()
    ensures root { (bytes : List ℕ) (root : Element) → Doc bytes root → IsOfCharacters root }
    ensures own { (e : Element) → IsOfCharacters e → IsXmlText (own_text e) }
{}

/// Law: in a text of characters of XML, what stands before a character of ASCII is such a text, and so is what stands behind
/// it (RFC 3629, section 3).
pub fn texts_part_at_ascii()
    ensures { (before : List ℕ) (c : ℕ) (behind : List ℕ) → c < 128 → IsXmlText (before ++ (c ∷ behind)) → IsXmlText before × IsXmlText behind }
{}

/// Law: what is wrong with a tree has one text.
pub fn tree_faults_have_one_text()
    ensures { (document : List ℕ) (f : TreeFault) (s t : List ℕ) → IsTreeText document f s → IsTreeText document f t → s ≡ t }
{}
