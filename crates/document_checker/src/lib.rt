//! What an instance's document and a result document say together: whether the claim that the second carries is shown of the
//! first's instance.
//!
//! [`check_docs`] reads both, has `cert_checker` check the claim, and says which [`Kind`] of claim is accepted, or by a
//! [`CheckFault`] why none is: the first document is refused; the second is; or the claim is, or there is none. [`shown_claim`]
//! does so of an instance that was read, and gives the claim. [`answer_text`]
//! says its answer in words. What accepted documents claim is true ([`accepted_documents_are_true`]), and two documents have one
//! answer ([`documents_have_one_answer`]).
#![tactic(auto)]

mod documents;
mod fault;
mod laws;
mod texts;

pub use documents::{Kind, check_docs, shown_claim};
pub use fault::CheckFault;
pub use laws::{
    accepted_documents_are_not_refused, accepted_documents_are_true, documents_have_one_answer,
    documents_have_one_kind, instances_are_one,
};
pub use texts::answer_text;
