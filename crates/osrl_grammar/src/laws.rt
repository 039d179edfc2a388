//! What the definitions say together: of reports and the texts that they are written as.

ghost use Rattle.std.specs.Prelude.{◌≡◌, ◌⊎◌, ◌≤◌, ℕ, List, length, Result, Ok, Err, IfOk, IfErr};
ghost use Rattle.document_tags.specs.Texts.{document_limit};
ghost use Rattle.osrl_writing.specs.declared.report.Report.{Report};
ghost use Rattle.osrl_grammar.specs.declared.fault.OsrlFault.{OsrlFault};
ghost use Rattle.osrl_grammar.specs.declared.fault.OsrlFault.TheVariants.{Memory};
ghost use Rattle.osrl_writing.specs.declared.told_names.NameLists.{NameLists};
ghost use Rattle.osrl_writing.specs.Labels.{AreXmlNames};
ghost use Rattle.osrl_writing.specs.Writing.{report_text, told_text};
ghost use Rattle.osrl_grammar.specs.Reading.{IsReportText, DecodeFails};
ghost use Rattle.osrl_grammar.specs.Back.{ComesBack};
ghost use Rattle.osrl_grammar.specs.Grounds.{TextsAreOfCharacters};

use document_tags::{documents_are_of_characters, texts_part_at_ascii};

/// Law: the text of a report that can come back (`specs/Back.antt`) is the document of that report. The text isn't to be
/// longer than a document may be; the job's name and the message, where there are such, are to be characters of XML, one at
/// least, without white space round them; a point is to have a value; the first tree of cases is to have a node, or levels
/// behind it, and only it may have rounds; and the numbers of what is claimed are to be of their types, a split's above the
/// least of its type.
///
/// This is of the definitions alone: what [`decode`](crate::decode) answers is said by [`reports_are_read_back`].
pub fn written_texts_are_reports()
    ensures { (r : Report) → ComesBack r → IsReportText (report_text r) r }
{}

/// Law: where the text of a report is the document of that report, so is the text that tells it with names of characters of
/// XML: names are passed over where a result document is read.
pub fn named_texts_are_reports()
    ensures { (ns : NameLists) (r : Report) → AreXmlNames ns → IsReportText (report_text r) r → IsReportText (told_text ns r) r }
{
    texts_are_of_characters();
}

/// The laws of documents' characters.
pub(crate) fn texts_are_of_characters()
    ensures { TextsAreOfCharacters }
{
    documents_are_of_characters();
    texts_part_at_ascii();
}

/// Law: a report that was read comes back from its text, if that isn't longer than a document may be:
/// [`decode`](crate::decode) of what [`encode`](crate::encode) wrote of it answers, by its contract, the report, or finds
/// no memory.
pub fn reports_are_read_back()
    ensures { (bytes : List ℕ) (r : Report) (d : Result Report OsrlFault) → IsReportText bytes r → length (report_text r) ≤ document_limit → IfOk d (IsReportText (report_text r)) → IfErr d (DecodeFails (report_text r)) → (d ≡ Ok r) ⊎ (d ≡ Err Memory) }
{
    texts_are_of_characters();
}
