//! What all readers and writers of documents share.
//!
//! Whoever reads a document by its tree asks for elements at a [`Spot`]: the one child element of a name ([`only_child`]);
//! all child elements, whatever their names ([`child_elements`]); and their own text ([`plain_text`] where it is to be all
//! that they hold). Whoever writes one tells a `TreeBuilder` whole elements by [`open`], [`close`] and [`leaf`]; what was
//! told is known whatever comes behind it. [`told_name`] is what the text of a refusal tells of a name.
//!
//! The definitions say, for all kinds of documents at once, what bytes are as documents, and which nodes are those of XML.
#![tactic(auto)]

mod children;
mod content;
mod faults;
mod laws;
mod passing;
mod spot;
mod telling;

pub use children::{only_child, only_one};
pub use content::{child_elements, plain_text};
pub use faults::told_name;
pub use laws::{documents_are_of_characters, texts_part_at_ascii, tree_faults_have_one_text};
pub use spot::Spot;
pub use telling::{
    attribute, close, empty_after, leaf, leaf_after, leaf_with, open, open_after, open_with,
    told_text,
};
