//! Which refusal a document is told whose grammar is a table: each mark has a list of tests, the first that fails refuses the
//! document, and where all pass the mark leaves a state.
//!
//! A mark is a start tag, a character or an end tag, in document order. Its tests, in the order in which they refuse, depend on
//! it and on the state that the marks before it leave. `Forms` defines this for whatever marks, states and tests there are;
//! where marks have kinds, and each kind its tests, `Kinds` makes such a form of them. `Firsts` says the same in other words,
//! where the tests stand in the order of their refusals: of the first mark at which a test fails, the least refusal. `Places`
//! says which kinds of marks there are where elements of other names are passed over, and `Contents` of which a mark is, by
//! what may stand in what. `Fields` is of numbers that are read together at one tag.
//!
//! [`both`] joins what was read of two numbers, each of which may be [`Unread`], and [`value`] finds an attribute. Whoever says
//! of each mark that it is taken, or by a [`Stop`] why it isn't, is a [`MarkReader`]: a [`Decoder`] has it read a document that
//! comes in pieces, and [`read_marks`] one in a whole; a [`Course`] is what the marks so far came to. `Readers` says what all
//! these promise. [`Led`], [`named`] and [`led_from`] say where the start tag of an element of some name leads.
#![tactic(auto)]

mod attributes;
mod decoder;
mod marks;
mod numbers;
mod places;

pub use attributes::value;
pub use decoder::{Course, Decoder, read_marks};
pub use marks::{MarkReader, Stop};
pub use numbers::{Unread, both};
pub use places::{Led, led_from, named};
