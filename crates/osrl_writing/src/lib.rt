//! Reports, and the result documents that they are written as (Optimization Services result language, in this project's profile).
//!
//! A [`Report`] is what a result document says, and a [`JobStatus`] how far its job is. [`encode`] writes a report as a document,
//! and [`encode_named`] with the [`NameLists`] of variables and of rows, by which people read the values.
//! Which report that document says is shown where documents are read, in `osrl_grammar`; it shares the words that are written
//! here: a [`Worded`] value has one, as what a solution is [`Claiming`], and a [`Part`] of a certificate has a name.
#![tactic(auto)]

mod certificates;
mod document;
mod item_texts;
mod parts;
mod report;
mod told_names;
mod values;
mod words;

pub use document::{encode, encode_named};
pub use parts::{Claiming, Part, part_name};
pub use report::{JobStatus, Report};
pub use told_names::NameLists;
pub use words::Worded;
