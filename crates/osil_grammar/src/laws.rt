//! What the definitions say together of the text that an instance is written as, and that it comes back from.

ghost use Rattle.std.specs.Prelude.{◌≡◌, ◌⊎◌, ◌≤◌, ℕ, List, length, Result, Ok, Err, IfOk, IfErr};
ghost use Rattle.tree_grammar.specs.Elements.{Element};
ghost use Rattle.tree_writing.specs.WritableElements.{local_element};
ghost use Rattle.document_tags.specs.Texts.{IsDocument, document_limit};
ghost use Rattle.instance.specs.Parts.{Parts, IsValid};
ghost use Rattle.osil_grammar.specs.declared.fault.OsilFault.{OsilFault};
ghost use Rattle.osil_grammar.specs.declared.fault.OsilFault.TheVariants.{Memory};
ghost use Rattle.osil_grammar.specs.Marked.{StandsFor, IsAccepted};
ghost use Rattle.osil_grammar.specs.Reading.{IsInstanceText, DecodeFails};
ghost use Rattle.osil_grammar.specs.Writing.{HasDecimals, WritesInstance, IsWrittenText};

/// Law: an instance comes back from its text: [`decode`](crate::decode) of what [`encode`](crate::encode) wrote of it
/// answers, by its contract, the instance, or finds no memory.
pub fn instances_are_read_back()
    ensures { (p : Parts) (text : List ℕ) (r : Result Parts OsilFault) → IsValid p → HasDecimals p → IsWrittenText p text → length text ≤ document_limit → IfOk r (IsInstanceText text) → IfErr r (DecodeFails text) → (r ≡ Ok p) ⊎ (r ≡ Err Memory) }
{}

/// Law: the text of a written instance, if it isn't longer than a document may be, is a document within the limits,
/// and holds the root that the instance is written as, without its namespace.
pub fn written_instance_is_document()
    ensures { (p : Parts) (text : List ℕ) → IsValid p → IsWrittenText p text → length text ≤ document_limit → (root : Element) × WritesInstance p root × IsDocument text (local_element root) }
{}

/// Law: the root that an instance is written as, without its namespace, stands for the instance.
pub fn written_root_means_instance()
    ensures { (p : Parts) (root : Element) → IsValid p → HasDecimals p → WritesInstance p root → StandsFor (local_element root) p }
{}

/// Law: of the root that an instance is written as, without its namespace, nothing is refused.
pub fn written_root_is_accepted()
    ensures { (p : Parts) (root : Element) → IsValid p → HasDecimals p → WritesInstance p root → IsAccepted (local_element root) }
{}

/// Law: an instance is written as one text.
pub fn instances_have_one_text()
    ensures { (p : Parts) (s t : List ℕ) → IsWrittenText p s → IsWrittenText p t → s ≡ t }
{}

/// Law: the text of a written instance, each number of which has a decimal, if it isn't longer than a document may be,
/// is the text of that instance and of no other.
pub fn written_text_is_of_one_instance()
    ensures own { (p : Parts) (text : List ℕ) → IsValid p → HasDecimals p → IsWrittenText p text → length text ≤ document_limit → IsInstanceText text p }
    ensures only { (p q : Parts) (text : List ℕ) → IsValid p → HasDecimals p → IsWrittenText p text → length text ≤ document_limit → IsInstanceText text q → q ≡ p }
{}
