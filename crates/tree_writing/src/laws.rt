//! What written text is worth.

ghost use Rattle.std.specs.Prelude.{◌≡◌};
ghost use Rattle.tree_grammar.specs.Document.{Doc};
ghost use Rattle.tree_grammar.specs.Elements.{Element};
ghost use Rattle.tree_grammar.specs.WrittenText.{written};
ghost use Rattle.tree_writing.specs.WritableElements.{IsWritable, IsLocal, local_element};

/// Law: the written text of an element of qualified names, characters of XML, attributes of different names and no
/// empty or touching character data is a document that holds the element with its names' local parts and without
/// attributes of namespaces or with a prefix.
pub fn written_text_is_document()
    ensures { (e : Element) → IsWritable e → Doc (written e) (local_element e) }
{}

/// Law: an element without prefixes and namespaces is held as it is.
pub fn local_element_is_itself()
    ensures { (e : Element) → IsLocal e → local_element e ≡ e }
{}
