//! The run of a job: from the texts of its instance and its options to the text of its result document.
//!
//! [`run_job`] reads the options and then the instance, searches the instance within the options' limits for as long as a watch
//! lets it, and writes a report: an error where one of the texts is refused, or else what the search claims. A claim that a
//! point is optimal, that none is feasible, or that points have no best value is checked by `cert_checker` before it is told; where
//! the options ask for the form `rows`, it is told with multipliers of rows alone, if the checker accepts it so too.
//! Where a sum of that check doesn't fit 128 bits, or where the document would be longer than a document may be, only the claim's
//! point is told, with that cause. Where the options ask for a bound, a search that is given up has one; it is checked too, and is
//! left out where a sum doesn't fit or the document would be too long with it. Where the options hand in a result whose claim the checker accepts of the instance, that claim is
//! told, and nothing is searched. [`answer_job`] does the same, and its [`Document`] says too whether the report is of an error.
//!
//! `Right` says which documents answer a job: for one pair of texts there is one, but for want of memory and for the look that
//! stops the search. The laws say so, that a search which comes to its end is told, that each document, whatever it says, is read
//! as the answer that it was written from, and that what a document claims is accepted by the checker from the document's own
//! bytes, and so is true.
#![tactic(auto)]

mod closing;
mod document;
mod finding;
mod handing;
mod laws;
mod noting;
mod row_forms;
mod running;
mod telling;

pub use document::Document;
pub use laws::{
    answers_are_one, answers_exclude_each_other, bounds_are_told, claims_are_accepted,
    ended_searches_are_told, found_claims_are_refused_for_width_alone,
    result_documents_are_read_back,
};
pub use running::{answer_job, run_job};
