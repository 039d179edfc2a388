//! The six calls of the Optimization Services in SOAP envelopes, and what answers them (SOAP 1.1, sections 4 and 7).
//!
//! [`read_call`] gives the [`SoapCall`] that bytes are the envelope of, or by a [`SoapFault`] why they are none, and a
//! [`CallReader`] that of bytes that come in pieces, of which it keeps the texts of the call's parts alone; [`write_call`]
//! writes a call, and [`call_of`] makes one of the texts of its [`Parts`]. [`write_reply`] and [`write_fault`] write what answers
//! a call, and [`read_reply`] reads that as an [`Answer`], or says by a [`NotReply`] why bytes are none. What is written is read
//! back: [`calls_are_read_back`], [`returns_are_read_back`], [`faults_are_read_back`].
#![tactic(auto)]

mod answering;
mod call;
mod calling;
mod envelope;
mod fault;
mod laws;
mod listening;
mod parse_state;
mod parts;
mod replies;
mod replying;
mod telling;

pub use call::{Parts, SoapCall};
pub use calling::{CallReader, read_call};
pub use fault::{Answer, NotReply, SoapFault};
pub use laws::{
    bytes_have_one_refusal, bytes_say_one_answer, bytes_say_one_call, calls_are_not_refused,
    calls_are_read_back, faults_are_read_back, returned_texts_may_be_returned,
    returns_are_read_back,
};
pub use parts::call_of;
pub use replies::read_reply;
pub use replying::{write_fault, write_reply};
pub use six_calls::{CallKind, Part};
pub use telling::write_call;
