//! What OSiL documents say (Optimization Services instance language, its linear and integer part).
//!
//! [`decode`] gives the instance that a document stands for, or why it is none ([`OsilFault`]): the first [`Refusal`] in the
//! order of tags, with the ordinal of its element. A [`Decoder`] answers the same of one that comes in pieces. [`encode`]
//! writes an instance as a document, or says why it has none ([`EncodeFault`]), and [`refusal_text`] says in words why a
//! document is refused.
//!
//! The grammar is a table, `specs/Table.antt`: what may stand in what, and for each kind of mark (a start tag, characters,
//! an end tag) the tests that it has to pass, in the order in which they refuse. `Failing` says when each test fails,
//! `Saying` and `Leaving` what a mark says and leaves where all pass, and `Marked` what a document stands for. A reader
//! goes from mark to mark, with what they have said so far, and holds no tree.
#![tactic(auto)]

mod decoder;
mod document;
mod domains;
mod elements;
mod entries;
mod fault;
mod laws;
mod parse_state;
mod reading;
mod reading_laws;
mod run_numbers;
mod start_tags;
mod stop;
mod tag_numbers;
mod telling;
mod texts;

pub use decoder::Decoder;
pub use document::encode;
pub use fault::{EncodeFault, OsilFault, Refusal};
pub use laws::{
    instances_are_read_back, instances_have_one_text, written_instance_is_document,
    written_root_is_accepted, written_root_means_instance, written_text_is_of_one_instance,
};
pub use reading::decode;
pub use reading_laws::{
    accepted_is_not_refused, documents_are_refused_in_one_way, documents_mean_one_instance,
    first_and_least_is_told,
};
pub use texts::refusal_text;
