//! Reads what options hand in.

ghost use Rattle.std.specs.Prelude.{IfOk};
ghost use Rattle.handed_results.specs.Reading.{HandsIn};

use crate::handed::Handed;
use crate::parse_state::ParseState;
use decimal_text::trim;
use doc_tree::{TreeFault, documents_have_one_tree};
use mark_folds::fold_document;
use os_io::Memory;
use std::alloc::{AllocError, Global};

/// What a document of options hands in: the text of its one element `general/otherOptions/other` with the name
/// `os_cert.result`, without white space round it. Bytes that are no document, as white space alone, hand in nothing.
///
/// The document is read mark by mark: of it the result alone is held, and a tag that isn't whole.
pub fn read_handed(alloc: Global, bytes: &[u8]) -> Result<Handed, Memory>
    ensures { IfOk result (HandsIn bytes.now) }
{
    documents_have_one_tree();
    if trim(bytes).is_empty() {
        return Ok(Handed::Nothing);
    }
    match fold_document(alloc, bytes, ParseState::new()) {
        Ok(parse_state) => parse_state.handed.trimmed(alloc),
        Err(TreeFault::Memory) => Err(AllocError),
        Err(_) => Ok(Handed::Nothing),
    }
}
