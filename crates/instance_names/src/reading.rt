//! Reads the names of an instance's document.

ghost use Rattle.std.specs.Prelude.{IfOk};
ghost use Rattle.instance_names.specs.Reading.{MayGiveNames};

use crate::parse_state::ParseState;
use doc_tree::{TreeFault, documents_have_one_tree};
use mark_folds::fold_document;
use os_io::Memory;
use osrl_writing::NameLists;
use std::alloc::{AllocError, Global};

/// The names that the document of an instance gives: those of its variables, in the order of the `var` elements, and those of
/// its rows, in that of the `con` elements. Where an element of one of the two lists stands for several by its `mult`, that
/// list has no names. Bytes that are no document give none.
///
/// The document is read mark by mark: of it the names alone are held, and a tag that isn't whole.
pub fn read_names(alloc: Global, bytes: &[u8]) -> Result<NameLists, Memory>
    ensures { IfOk result (MayGiveNames bytes.now) }
{
    documents_have_one_tree();
    match fold_document(alloc, bytes, ParseState::new()) {
        Ok(parse_state) => Ok(parse_state.names(alloc)),
        Err(TreeFault::Memory) => Err(AllocError),
        Err(_) => Ok(NameLists::none(alloc)),
    }
}
