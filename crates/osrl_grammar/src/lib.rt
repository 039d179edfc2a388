//! Result documents (Optimization Services result language, in this project's profile): reports as documents say them.
//!
//! [`decode`] gives the [`Report`](osrl_writing::Report) that a document says, or why it says none ([`OsrlFault`]): a document is read
//! mark by mark, and no tree of it is held.
//! [`written_texts_are_reports`] says that what [`encode`](osrl_writing::encode()) writes is the document of that report, if the
//! report can come back (`specs/Back.antt`), [`named_texts_are_reports`] that names change nothing of that, and [`reports_are_read_back`] that a report which was read is read again from it, if
//! it isn't too long. [`refusal_text`] says in words why a document is refused.
#![tactic(auto)]

mod elements;
mod fault;
mod held;
mod item_reading;
mod laws;
mod numbers;
mod parse_state;
mod parts;
mod pieces;
mod reading;
mod reading_laws;
mod texts;
mod words;

pub use fault::OsrlFault;
pub use laws::{named_texts_are_reports, reports_are_read_back, written_texts_are_reports};
pub use reading::decode;
pub use reading_laws::{
    document_has_one_refusal, document_has_one_report, first_and_least_is_told, read_claims_fit,
    report_is_not_refused,
};
pub use texts::refusal_text;
