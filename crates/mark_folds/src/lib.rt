//! What the marks of a document make of a state, where none of them is refused: a fold.
//!
//! Whoever needs little of a document folds its marks. A [`MarkFold`] is a state that says what each mark makes of it, and
//! [`fold_document`] has one hear a document's marks as they come. Of the document nothing is held but the state, and a tag that
//! isn't whole. `Folds` says what many marks make of a state.
#![tactic(auto)]

mod fold;

pub use fold::{MarkFold, fold_document};
