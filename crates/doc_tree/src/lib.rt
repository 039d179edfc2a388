//! Reads XML documents into trees, or tells a visitor what they say.
//!
//! [`read`] gives the tree of a document of XML 1.0 in this project's profile (`docs/rules/trees.md`), and a [`Reader`]
//! of one that comes in pieces. They answer exactly the documents within a limit of bytes and a depth of 32, each with
//! its one tree. [`Events`] tell a [`Visitor`] of one's own what such a document says, without a tree: start tags with
//! their attributes, characters in any pieces, end tags, in document order. A `Reader` is `Events` whose visitor builds a
//! tree.
//!
//! What is refused, but for want of memory, has the refusal that `Refusals` defines by the bytes and the grammar alone:
//! the first byte decides it behind which no document goes on, or which is one too many, begins an element that is too
//! deep or a document type, or ends an encoding that isn't read; or else the end. A reader says so with the piece that
//! has this byte, and again at each later call. [`refusals_are_one`] shows that bytes have one refusal at most, and
//! [`documents_have_one_tree`] that a document has one tree, by the grammar alone and without limits.
//!
//! A machine takes the document byte by byte, behind a layer that makes line ends normal. At each place of the machine
//! a relation says which bytes complete the document from there and what it then says; a step keeps that both ways, or
//! shows that nothing completes it. Beside it a smaller machine takes the UTF-8 of each character in the same way. They
//! keep what is still to be told, the names of the open elements and of one tag's attributes, and one name, value or
//! reference, and don't recurse.
#![tactic(auto)]

mod builder;
mod characters;
mod declaration;
mod events;
mod fault;
mod gathering;
mod keys;
mod laws;
mod lines;
mod machine;
mod names;
mod reader;
mod reading;
mod visitor;

pub use element_tree::{Attributes, Tree};
pub use events::Events;
pub use fault::TreeFault;
pub use laws::{documents_have_one_tree, refusals_are_one};
pub use reader::{Reader, read};
pub use visitor::Visitor;
