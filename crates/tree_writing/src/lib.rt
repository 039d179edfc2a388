//! The text of XML elements in memory.
//!
//! [`write()`] gives the text of an [`element_tree::Tree`], [`write_to`] writes it to a sink, [`escape()`] and [`escape_value`] give that
//! of character data and of an attribute's value. The text is one function of the tree (`written`, of `tree_grammar`).
//!
//! A [`TextWriter`] is told the events one after another: it holds no tree, and goes no further once the text is longer
//! than a document may be.
//!
//! [`written_text_is_document`] says of which document it is the text, if the element can be written, and
//! [`local_element_is_itself`] that an element without prefixes and namespaces is what that document holds.
#![tactic(auto)]

mod escaping;
mod laws;
mod text_writer;
mod writing;

pub use escaping::{escape, escape_value};
pub use laws::{local_element_is_itself, written_text_is_document};
pub use text_writer::TextWriter;
pub use writing::{write, write_to};
