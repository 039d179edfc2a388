//! XML documents of this project's profile, as definitions: what an element is (`Elements`), which
//! bytes are a document and which element they hold (`Document`, after XML 1.0 and Namespaces in
//! XML 1.0), and the text that an element is written as (`WrittenText`).
//!
//! The crate has no code that runs. Its functions are laws: they have nothing to do, and their contracts
//! are proved. A document's depth has the limit [`DEPTH`].
#![tactic(auto)]

ghost use Rattle.std.specs.Prelude.{◌≡◌, ◌≤◌, ◌↔◌, List, [], ◌++◌, false};
ghost use Rattle.tree_grammar.specs.Elements.{Element, Event, events, depth, IsShallow};
ghost use Rattle.tree_grammar.specs.WrittenText.{written_element, written_events};

/// The most elements that may stand in one another; the root counts as one.
pub const DEPTH: usize = 32;

/// The text of an element is that of its events in document order.
pub fn written_in_document_order()
    ensures { (e : Element) → written_events false (events e) ≡ written_element e }
{}

/// What is no deeper than [`DEPTH`] is no deeper than documents may be.
pub fn depth_is_that_of_documents()
    ensures { (e : Element) → IsShallow e ↔ (depth e ≤ DEPTH) }
{}
