//! What the definitions say together.

ghost use Rattle.std.specs.Prelude.{ℕ, List};
ghost use Rattle.osrl_writing.specs.declared.told_names.NameLists.{NameLists};
ghost use Rattle.osrl_writing.specs.Labels.{AreXmlNames};
ghost use Rattle.instance_names.specs.Reading.{GivesNames};

use document_tags::documents_are_of_characters;

/// Law: the names that a document gives are of characters of XML (XML 1.0, section 2.2).
pub fn names_are_of_characters()
    ensures { (bytes : List ℕ) (ns : NameLists) → GivesNames bytes ns → AreXmlNames ns }
{
    documents_are_of_characters();
}
